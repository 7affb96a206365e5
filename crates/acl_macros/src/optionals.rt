//! Formals that may be left out, as they are written.

ghost use Rattle.std.specs.Prelude.{◌≡◌, ◌≤◌, ◌∷◌, length, Some, None};
ghost use Rattle.model_objects.specs.Object.{Symbol};
ghost use Rattle.model_expansion.specs.Forms.{elements};
ghost use Rattle.model_events.specs.Macros.{quoted_in, optional_of, optional_in, written_optional};
ghost use Rattle.acl_heap.specs.Objects.{object_of, Lies};
ghost use Rattle.acl_layers.specs.Lists.{items_along, option_reach, SeenWord};
ghost use Rattle.acl_macros.specs.Written.{seen_word, seen_optional, optional_reach, SeenOptional};

use crate::words;
use crate::written::WrittenOptional;
use acl_base::{SymId, Word};
use acl_heap::{Heap, Seen};
use acl_layers::{is_pair, is_symbol, is_true_list};

#[tactic(auto, using(crate::proofs::OptionalLemmas::quoted_many, crate::proofs::OptionalLemmas::quoted_other, crate::proofs::OptionalLemmas::quoted_one, crate::proofs::OptionalLemmas::quoted_none))]
fn behind_quote(heap: &Heap, head: Word, rest: Word) -> Option<Word>
    requires head { Lies heap.now head }
    requires rest { Lies heap.now rest }
    ensures { SeenWord heap.now result (quoted_in (Some (object_of heap.now head ∷ items_along (object_of heap.now rest)))) }
{
    match heap.look(rest) {
        Seen::Pair(x, end) => {
            if is_pair(heap, end) {
                return None;
            }
            if !is_symbol(heap, head, words::QUOTE) {
                return None;
            }
            Some(x)
        }
        Seen::Symbol(_) => None,
        Seen::Integer(_) => None,
        Seen::Text(_) => None,
    }
}

/// What is quoted. None where nothing is.
#[tactic(auto, using(crate::proofs::OptionalLemmas::quoted_bad, crate::proofs::OptionalLemmas::quoted_more, crate::proofs::OptionalLemmas::quoted_end))]
fn quoted(heap: &Heap, d: Word) -> Option<Word>
    requires { Lies heap.now d }
    ensures { SeenWord heap.now result (quoted_in (elements (object_of heap.now d))) }
{
    if !is_true_list(heap, d) {
        return None;
    }
    match heap.look(d) {
        Seen::Pair(head, rest) => behind_quote(heap, head, rest),
        Seen::Symbol(_) => None,
        Seen::Integer(_) => None,
        Seen::Text(_) => None,
    }
}

#[tactic(auto, using(crate::proofs::OptionalLemmas::no_default, crate::proofs::OptionalLemmas::a_default))]
fn optional_of(
    heap: &Heap,
    name: Word,
    supplied: Option<Word>,
    default: Word,
) -> Option<WrittenOptional>
    requires name { Lies heap.now name }
    requires supplied { option_reach supplied ≤ length heap.now }
    requires default { Lies heap.now default }
    ensures { SeenOptional heap.now result (optional_of (object_of heap.now name) (seen_word heap.now supplied) (object_of heap.now default)) }
{
    match quoted(heap, default) {
        None => None,
        Some(default) => Some(WrittenOptional {
            name,
            default,
            supplied,
        }),
    }
}

#[tactic(auto, using(crate::proofs::OptionalLemmas::many_parts, crate::proofs::OptionalLemmas::with_supplied, crate::proofs::OptionalLemmas::with_default))]
fn with_default(heap: &Heap, name: Word, default: Word, more: Word) -> Option<WrittenOptional>
    requires name { Lies heap.now name }
    requires default { Lies heap.now default }
    requires more { Lies heap.now more }
    ensures { SeenOptional heap.now result (optional_in (object_of heap.now name ∷ (object_of heap.now default ∷ items_along (object_of heap.now more)))) }
{
    match heap.look(more) {
        Seen::Pair(supplied, end) => {
            if is_pair(heap, end) {
                return None;
            }
            optional_of(heap, name, Some(supplied), default)
        }
        Seen::Symbol(_) => optional_of(heap, name, None, default),
        Seen::Integer(_) => optional_of(heap, name, None, default),
        Seen::Text(_) => optional_of(heap, name, None, default),
    }
}

#[tactic(auto, using(crate::proofs::OptionalLemmas::default_more, crate::proofs::OptionalLemmas::default_end))]
fn listed(heap: &Heap, name: Word, rest: Word) -> Option<WrittenOptional>
    requires name { Lies heap.now name }
    requires rest { Lies heap.now rest }
    ensures { SeenOptional heap.now result (optional_in (object_of heap.now name ∷ items_along (object_of heap.now rest))) }
{
    match heap.look(rest) {
        Seen::Pair(default, more) => with_default(heap, name, default, more),
        Seen::Symbol(_) => None,
        Seen::Integer(_) => None,
        Seen::Text(_) => None,
    }
}

fn alone(heap: &Heap, name: Word) -> WrittenOptional
    requires { Lies heap.now name }
    ensures is { seen_optional heap.now result ≡ record { name = object_of heap.now name; default = Symbol 1; supplied = None } }
    ensures reach { optional_reach result ≤ length heap.now }
{
    WrittenOptional {
        name,
        default: Word::Sym(SymId(words::NIL)),
        supplied: None,
    }
}

/// A formal that may be left out: its name, or a list of it, a quoted default, and maybe the formal that says whether it was there.
#[tactic(auto, using(crate::proofs::OptionalLemmas::listed_bad, crate::proofs::OptionalLemmas::listed_more, crate::proofs::OptionalLemmas::symbol_alone, crate::proofs::OptionalLemmas::integer_alone, crate::proofs::OptionalLemmas::text_alone))]
pub fn written_optional(heap: &Heap, x: Word) -> Option<WrittenOptional>
    requires { Lies heap.now x }
    ensures { SeenOptional heap.now result (written_optional (object_of heap.now x)) }
{
    match heap.look(x) {
        Seen::Pair(name, rest) => {
            if !is_true_list(heap, x) {
                return None;
            }
            listed(heap, name, rest)
        }
        Seen::Symbol(_) => Some(alone(heap, x)),
        Seen::Integer(_) => Some(alone(heap, x)),
        Seen::Text(_) => Some(alone(heap, x)),
    }
}
