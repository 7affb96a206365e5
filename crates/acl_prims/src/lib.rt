//! The primitives on words: each gives what its definition says of the objects that the words stand for.
#![tactic(auto)]

ghost use Rattle.std.specs.Prelude.{◌≡◌, ◌<◌, length, IfOk, OnErr};
ghost use Rattle.model_objects.specs.Named.{Knows};
ghost use Rattle.model_symbols.specs.Symbols.{symbol_at};
ghost use Rattle.model_symbols.specs.Growth as growth;
ghost use Rattle.model_symbols.specs.Opening.{opening};
ghost use Rattle.model_prims.specs.Kinds.{by_number};
ghost use Rattle.model_prims.specs.Values.{wanted};
ghost use Rattle.model_prims.specs.Applied.{argument, bounded, applied_to, applied};
ghost use Rattle.model_prims.specs.Rows as rows;
ghost use Rattle.acl_heap.specs.Objects.{object_of, Lies, Extends};
ghost use Rattle.acl_forms.specs.Forms.{IsWhole, AreWhole, Grown};
ghost use Rattle.acl_prims.specs.Made.{objects_of};
ghost use Rattle.acl_numbers.specs.Answers.{IsAnswer};

mod guards;
mod kinds;
mod listing;
mod lists;
mod making;
mod naming;
mod rows;
#[cfg(test)]
mod tests;
mod truths;

use acl_base::{SymId, Word};
use acl_heap::Heap;
pub use acl_numbers::PrimStop;
use acl_syms::Symbols;
use model_prims::Prim;
pub use rows::{PrimRow, arity, find, table};
use std::alloc::Global;

const TRUTH: Word = Word::Sym(SymId(0));

const NIL: Word = Word::Sym(SymId(1));

/// What the primitive gives where its guard holds.
#[tactic(auto, unfolding(model_prims::specs::Values::wanted, model_prims::specs::Applied::bounded))]
fn value(
    alloc: Global,
    prim: Prim,
    x: Word,
    y: Word,
    z: Word,
    heap: &mut Heap,
    syms: &mut Symbols,
) -> Result<Word, PrimStop>
    requires x { Lies heap.old x }
    requires y { Lies heap.old y }
    requires z { Lies heap.old z }
    requires x_known { Knows (length syms.old.symbols) (object_of heap.old x) }
    requires y_known { Knows (length syms.old.symbols) (object_of heap.old y) }
    ensures answer { IsAnswer heap.new syms.new.symbols (bounded syms.old (wanted by_number (symbol_at syms.old.symbols) prim (object_of heap.old x) (object_of heap.old y) (object_of heap.old z))) result }
    ensures grows { Extends heap.old heap.new }
    ensures symbols { growth.Extends syms.old syms.new }
    ensures packages { syms.new.packages ≡ syms.old.packages }
    ensures err { OnErr result (syms.new ≡ syms.old) }
{
    match prim {
        Prim::Recognizer(test) => Ok(truths::truth(heap, truths::recognized(test, heap, x))),
        Prim::Relation(test) => {
            let holds = truths::related(test, heap, x, y)?;
            Ok(truths::truth(heap, holds))
        }
        Prim::Arithmetic(operation) => acl_numbers::computed(operation, x, y, heap, syms),
        Prim::Listing(operation) => listing::listed(alloc, operation, x, y, z, heap, syms),
        Prim::Naming(operation) => naming::named_by(alloc, operation, x, y, heap, syms),
        Prim::TheCheck => Ok(z),
    }
}

/// A primitive applied to three objects, of which it takes as many as it has arguments.
#[tactic(auto, unfolding(model_prims::specs::Applied::applied_to))]
fn apply_to(
    alloc: Global,
    prim: Prim,
    x: Word,
    y: Word,
    z: Word,
    heap: &mut Heap,
    syms: &mut Symbols,
) -> Result<Word, PrimStop>
    requires x { Lies heap.old x }
    requires y { Lies heap.old y }
    requires z { Lies heap.old z }
    requires x_known { Knows (length syms.old.symbols) (object_of heap.old x) }
    requires y_known { Knows (length syms.old.symbols) (object_of heap.old y) }
    ensures answer { IsAnswer heap.new syms.new.symbols (applied_to syms.old prim (object_of heap.old x) (object_of heap.old y) (object_of heap.old z)) result }
    ensures grows { Extends heap.old heap.new }
    ensures symbols { growth.Extends syms.old syms.new }
    ensures packages { syms.new.packages ≡ syms.old.packages }
    ensures err { OnErr result (syms.new ≡ syms.old) }
{
    if guards::guard(prim, heap, x, y, z) {
        value(alloc, prim, x, y, z, heap, syms)
    } else {
        Err(PrimStop::Guard)
    }
}

/// The argument of this number; `NIL` where there is none.
#[tactic(auto, using(crate::proofs::Opened::truth_known))]
fn argument(args: &[Word], number: usize, _heap: &Heap, _syms: &Symbols) -> Word
    requires args { AreWhole _syms.now _heap.now args.now }
    requires opening { growth.Extends opening _syms.now }
    ensures lies { Lies _heap.now result }
    ensures is { object_of _heap.now result ≡ argument by_number (objects_of _heap.now args.now) number }
    ensures known { Knows (length _syms.now.symbols) (object_of _heap.now result) }
{
    if number < args.len() {
        args[number]
    } else {
        NIL
    }
}

/// The primitive of a row of the table applied to values: its guard is tested, and then it gives its value or stops.
/// An answer other than Ok leaves the symbols as they are. The symbols have grown from the opening table, whose first two
/// are `T` and `NIL`.
pub fn apply(
    alloc: Global,
    prim: u8,
    args: &[Word],
    heap: &mut Heap,
    syms: &mut Symbols,
) -> Result<Word, PrimStop>
    requires row { prim < length rows.table }
    requires args { AreWhole syms.old heap.old args.now }
    requires opening { growth.Extends opening syms.old }
    ensures answer { IsAnswer heap.new syms.new.symbols (applied syms.old (rows.prim_of prim) (objects_of heap.old args.now)) result }
    ensures whole { IfOk result (IsWhole syms.new heap.new) }
    ensures grows { Grown syms.old syms.new heap.old heap.new }
    ensures packages { syms.new.packages ≡ syms.old.packages }
    ensures err { OnErr result (syms.new ≡ syms.old) }
{
    let x = argument(args, 0, heap, syms);
    let y = argument(args, 1, heap, syms);
    let z = argument(args, 2, heap, syms);
    apply_to(alloc, rows::prim_at(prim), x, y, z, heap, syms)
}
