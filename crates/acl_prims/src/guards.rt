//! The guards of the primitives.

ghost use Rattle.std.specs.Prelude.{◌≡◌};
ghost use Rattle.acl_heap.specs.Objects.{object_of, Lies};
ghost use Rattle.model_prims.specs.Kinds.{by_number};
ghost use Rattle.model_prims.specs.Guards.{is_pair_or_nil, recognizer_guard, relation_guard, listing_guard, naming_guard, guard};

use crate::kinds::{is_nil, is_pair, is_string, is_symbol};
use crate::lists::{is_alist, is_true_list};
use acl_base::Word;
use acl_heap::Heap;
use acl_numbers::{are_integers, arithmetic_guard, is_integer, is_natural};
use model_prims::{Listing, Naming, Prim, Recognizer, Relation};

fn is_pair_or_nil(heap: &Heap, x: Word) -> bool
    requires { Lies heap.now x }
    ensures { result ≡ is_pair_or_nil by_number (object_of heap.now x) }
{
    is_pair(heap, x) || is_nil(heap, x)
}

#[tactic(auto, unfolding(model_prims::specs::Guards::recognizer_guard))]
fn recognizer_guard(prim: Recognizer, heap: &Heap, x: Word) -> bool
    requires { Lies heap.now x }
    ensures { result ≡ recognizer_guard by_number prim (object_of heap.now x) }
{
    match prim {
        Recognizer::Consp => true,
        Recognizer::Atom => true,
        Recognizer::Null => true,
        Recognizer::Not => true,
        Recognizer::Symbolp => true,
        Recognizer::Stringp => true,
        Recognizer::Integerp => true,
        Recognizer::Natp => true,
        Recognizer::Posp => true,
        Recognizer::Booleanp => true,
        Recognizer::TrueListp => true,
        Recognizer::Alistp => true,
        Recognizer::Endp => is_pair_or_nil(heap, x),
        Recognizer::Zerop => is_integer(heap, x),
        Recognizer::Zp => is_natural(heap, x),
        Recognizer::Zip => is_integer(heap, x),
    }
}

#[tactic(auto, unfolding(model_prims::specs::Guards::relation_guard))]
fn relation_guard(prim: Relation, heap: &Heap, x: Word, y: Word) -> bool
    requires x { Lies heap.now x }
    requires y { Lies heap.now y }
    ensures { result ≡ relation_guard by_number prim (object_of heap.now x) (object_of heap.now y) }
{
    match prim {
        Relation::Eq => is_symbol(heap, x) || is_symbol(heap, y),
        Relation::Eql => is_integer(heap, x)
            || is_symbol(heap, x)
            || is_integer(heap, y)
            || is_symbol(heap, y),
        Relation::Equal => true,
        Relation::Below => are_integers(heap, x, y),
        Relation::Same => are_integers(heap, x, y),
        Relation::Different => are_integers(heap, x, y),
        Relation::Implies => true,
        Relation::Iff => true,
    }
}

#[tactic(auto, unfolding(model_prims::specs::Guards::listing_guard))]
fn listing_guard(prim: Listing, heap: &Heap, x: Word, y: Word, z: Word) -> bool
    requires x { Lies heap.now x }
    requires y { Lies heap.now y }
    requires z { Lies heap.now z }
    ensures { result ≡ listing_guard by_number prim (object_of heap.now x) (object_of heap.now y) (object_of heap.now z) }
{
    match prim {
        Listing::Car => is_pair_or_nil(heap, x),
        Listing::Cdr => is_pair_or_nil(heap, x),
        Listing::Cons => true,
        Listing::Len => true,
        Listing::Length => is_true_list(heap, x) || is_string(heap, x),
        Listing::Nth => is_natural(heap, x) && is_true_list(heap, y),
        Listing::UpdateNth => is_natural(heap, x) && is_true_list(heap, z),
        Listing::Append => is_true_list(heap, x),
        Listing::Revappend => is_true_list(heap, x),
        Listing::Member => is_true_list(heap, y),
        Listing::Assoc => is_alist(heap, y),
        Listing::Union => is_true_list(heap, x) && is_true_list(heap, y),
    }
}

#[tactic(auto, unfolding(model_prims::specs::Guards::naming_guard))]
fn naming_guard(prim: Naming, heap: &Heap, x: Word, y: Word) -> bool
    requires x { Lies heap.now x }
    requires y { Lies heap.now y }
    ensures { result ≡ naming_guard by_number prim (object_of heap.now x) (object_of heap.now y) }
{
    match prim {
        Naming::SymbolName => is_symbol(heap, x),
        Naming::SymbolPackageName => is_symbol(heap, x),
        Naming::Intern => is_string(heap, x) && is_symbol(heap, y),
        Naming::StringAppend => is_string(heap, x) && is_string(heap, y),
    }
}

/// Whether the primitive may be called on these arguments.
#[tactic(auto, unfolding(model_prims::specs::Guards::guard))]
pub fn guard(prim: Prim, heap: &Heap, x: Word, y: Word, z: Word) -> bool
    requires x { Lies heap.now x }
    requires y { Lies heap.now y }
    requires z { Lies heap.now z }
    ensures { result ≡ guard by_number prim (object_of heap.now x) (object_of heap.now y) (object_of heap.now z) }
{
    match prim {
        Prim::Recognizer(test) => recognizer_guard(test, heap, x),
        Prim::Relation(test) => relation_guard(test, heap, x, y),
        Prim::Arithmetic(operation) => arithmetic_guard(operation, heap, x, y),
        Prim::Listing(operation) => listing_guard(operation, heap, x, y, z),
        Prim::Naming(operation) => naming_guard(operation, heap, x, y),
        Prim::TheCheck => !is_nil(heap, x),
    }
}
