//! A name with a form, behind which a string may stand.

ghost use Rattle.std.specs.Prelude.{◌≡◌, ◌≤◌, ◌∷◌, length, option_and_then};
ghost use Rattle.model_expansion.specs.Forms.{elements};
ghost use Rattle.model_events.specs.Constants.{ends_well, name_and_form};
ghost use Rattle.acl_heap.specs.Objects.{object_of, Lies};
ghost use Rattle.acl_layers.specs.Lists.{items_along};
ghost use Rattle.acl_packages.specs.Named.{SeenNamed};

use acl_base::Word;
use acl_heap::{Heap, Seen};
use acl_layers::{is_pair, is_true_list};

/// Whether what is left is a string alone.
#[tactic(auto, using(crate::proofs::NamedLemmas::text_last, crate::proofs::NamedLemmas::symbol_first, crate::proofs::NamedLemmas::integer_first, crate::proofs::NamedLemmas::pair_first))]
fn is_last_text(heap: &Heap, first: Word, rest: Word) -> bool
    requires first { Lies heap.now first }
    requires rest { Lies heap.now rest }
    ensures { result ≡ ends_well (object_of heap.now first ∷ items_along (object_of heap.now rest)) }
{
    match heap.look(first) {
        Seen::Text(_) => !is_pair(heap, rest),
        Seen::Symbol(_) => false,
        Seen::Integer(_) => false,
        Seen::Pair(_, _) => false,
    }
}

/// Whether nothing is left, or a string alone.
#[tactic(auto, using(crate::proofs::NamedLemmas::left_more, crate::proofs::NamedLemmas::left_end))]
fn ends_well(heap: &Heap, rest: Word) -> bool
    requires { Lies heap.now rest }
    ensures { result ≡ ends_well (items_along (object_of heap.now rest)) }
{
    match heap.look(rest) {
        Seen::Pair(first, more) => is_last_text(heap, first, more),
        Seen::Symbol(_) => true,
        Seen::Integer(_) => true,
        Seen::Text(_) => true,
    }
}

#[tactic(auto, using(crate::proofs::NamedLemmas::form_more, crate::proofs::NamedLemmas::form_wrong, crate::proofs::NamedLemmas::form_end))]
fn with_form(heap: &Heap, name: Word, rest: Word) -> Option<(Word, Word)>
    requires name { Lies heap.now name }
    requires rest { Lies heap.now rest }
    ensures { SeenNamed heap.now result (name_and_form (object_of heap.now name ∷ items_along (object_of heap.now rest))) }
{
    match heap.look(rest) {
        Seen::Pair(form, more) => {
            if !ends_well(heap, more) {
                return None;
            }
            Some((name, form))
        }
        Seen::Symbol(_) => None,
        Seen::Integer(_) => None,
        Seen::Text(_) => None,
    }
}

/// A name and a form, of what stands behind a head. None where it is anything else.
#[tactic(auto, using(crate::proofs::NamedLemmas::named_bad, crate::proofs::NamedLemmas::named_more, crate::proofs::NamedLemmas::named_end))]
pub fn name_and_form(heap: &Heap, form: Word) -> Option<(Word, Word)>
    requires { Lies heap.now form }
    ensures { SeenNamed heap.now result (option_and_then name_and_form (elements (object_of heap.now form))) }
{
    if !is_true_list(heap, form) {
        return None;
    }
    match heap.look(form) {
        Seen::Pair(name, rest) => with_form(heap, name, rest),
        Seen::Symbol(_) => None,
        Seen::Integer(_) => None,
        Seen::Text(_) => None,
    }
}
