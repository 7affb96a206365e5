//! Values from the front of the actuals.

ghost use Rattle.std.specs.Prelude.{◌≡◌, ◌≤◌, ◌∷◌, [], ◌++◌, length, drop, max, map, IfOk, OnOk, option_map};
ghost use Rattle.model_expansion.specs.Expansion.{required_taken, optional_values, all_optional_values};
ghost use Rattle.acl_heap.specs.Objects.{object_of, Lies, reach};
ghost use Rattle.acl_terms.specs.Forms.{numbers};
ghost use Rattle.acl_terms.specs.Definitions.{seen_optional};
ghost use Rattle.acl_layers.specs.Lists.{option_reach};
ghost use Rattle.acl_actuals.specs.Values.{words_at, words_reach, IsList, items_at, optionals_at, defaults_reach, prefixed, SeenTaken, SeenNext};

use acl_base::{SymId, Word};
use acl_heap::{Heap, Seen};
use acl_terms::OptionalFormal;
use sqlite_items::Items;
use std::alloc::AllocError;

/// `T`.
const TRUE: Word = Word::Sym(SymId(0));

/// `NIL`.
const FALSE: Word = Word::Sym(SymId(1));

/// Puts a value last.
#[tactic(auto, using(crate::proofs::ValueLemmas::pushed, crate::proofs::ValueLemmas::reach_pushed))]
pub fn push(_heap: &Heap, values: &mut Items<Word>, value: Word) -> Result<(), AllocError>
    ensures at { OnOk result (words_at _heap.now values.new ≡ words_at _heap.now values.old ++ object_of _heap.now value ∷ []) }
    ensures reach { OnOk result (words_reach values.new ≡ max (words_reach values.old) (reach value)) }
{
    values.push(value)?;
    Ok(())
}

/// The values of the required formals, and the actuals that are left. None where there are too few.
#[tactic(auto, using(crate::proofs::ValueLemmas::required_more, crate::proofs::ValueLemmas::required_few, crate::proofs::ValueLemmas::none_before))]
pub fn take_required(
    heap: &Heap,
    formals: &[SymId],
    list: Word,
    values: &mut Items<Word>,
) -> Result<Option<Word>, AllocError>
    requires lies { Lies heap.now list }
    requires list { IsList heap.now list }
    requires values { values.old ≡ [] }
    ensures reach { OnOk result (words_reach values.new ≤ length heap.now) }
    ensures taken { IfOk result (λ r. SeenTaken heap.now values.new r (required_taken (numbers formals.now) (items_at heap.now list))) }
{
    let mut at = list;
    let mut rest = formals;
    'formals: loop {
        match rest.split_first() {
            None => return Ok(Some(at)),
            Some((_, others)) => {
                match heap.look(at) {
                    Seen::Pair(first, next) => {
                        push(heap, values, first)?;
                        at = next;
                    }
                    Seen::Symbol(_) => return Ok(None),
                    Seen::Integer(_) => return Ok(None),
                    Seen::Text(_) => return Ok(None),
                }
                rest = others;
            }
        }
    }
}

/// The first of a list, where there is one, and what is left.
fn next(heap: &Heap, at: Word) -> (Option<Word>, Word)
    requires lies { Lies heap.now at }
    requires list { IsList heap.now at }
    ensures next { SeenNext heap.now result.0 result.1 (items_at heap.now at) }
    ensures lies { Lies heap.now result.1 }
    ensures list { IsList heap.now result.1 }
{
    match heap.look(at) {
        Seen::Pair(first, rest) => (Some(first), rest),
        Seen::Symbol(_) => (None, at),
        Seen::Integer(_) => (None, at),
        Seen::Text(_) => (None, at),
    }
}

/// Puts the value of an optional formal, and whether it was there where the formal asks for that.
#[tactic(auto, using(crate::proofs::ValueLemmas::one_behind, crate::proofs::ValueLemmas::two_behind))]
pub fn push_optional(
    heap: &Heap,
    formal: &OptionalFormal,
    actual: Option<Word>,
    values: &mut Items<Word>,
) -> Result<(), AllocError>
    ensures at { OnOk result (words_at heap.now values.new ≡ words_at heap.now values.old ++ optional_values (seen_optional heap.now formal.now) (option_map (object_of heap.now) actual)) }
    ensures reach { OnOk result (words_reach values.new ≤ max (words_reach values.old) (max (reach formal.now.default) (option_reach actual))) }
{
    let (value, was_there) = match actual {
        Some(actual) => (actual, TRUE),
        None => (formal.default, FALSE),
    };
    push(heap, values, value)?;
    match formal.supplied {
        Some(_) => push(heap, values, was_there),
        None => Ok(()),
    }
}

/// The values of the optional formals, and the actuals that are left.
#[tactic(auto, using(crate::proofs::ValueLemmas::optional_some, crate::proofs::ValueLemmas::optional_none, crate::proofs::ValueLemmas::left_some, crate::proofs::ValueLemmas::left_none, crate::proofs::ValueLemmas::nothing_behind))]
pub fn take_optional(
    heap: &Heap,
    formals: &[OptionalFormal],
    list: Word,
    values: &mut Items<Word>,
) -> Result<Word, AllocError>
    requires lies { Lies heap.now list }
    requires list { IsList heap.now list }
    requires defaults { defaults_reach formals.now ≤ length heap.now }
    requires values { words_reach values.old ≤ length heap.now }
    ensures reach { OnOk result (words_reach values.new ≤ length heap.now) }
    ensures values { OnOk result (words_at heap.now values.new ≡ words_at heap.now values.old ++ all_optional_values (optionals_at heap.now formals.now) (items_at heap.now list)) }
    ensures left { IfOk result (λ w. items_at heap.now w ≡ drop (length formals.now) (items_at heap.now list)) }
    ensures lies { IfOk result (λ w. Lies heap.now w) }
    ensures list { IfOk result (λ w. IsList heap.now w) }
{
    let mut at = list;
    let mut rest = formals;
    'formals: while let Some((formal, others)) = rest.split_first() {
        let (actual, left) = next(heap, at);
        push_optional(heap, formal, actual, values)?;
        at = left;
        rest = others;
    }
    Ok(at)
}
