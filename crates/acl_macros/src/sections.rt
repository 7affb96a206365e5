//! What stands between the marks of formals.

ghost use Rattle.std.specs.Prelude.{◌≡◌, ◌≤◌, ◌∷◌, ◌++◌, [], true, length, max, IfOk, OnOk};
ghost use Rattle.model_expansion.specs.Forms.{each};
ghost use Rattle.model_stobjs.specs.Descriptors.{before_first, from_first};
ghost use Rattle.model_events.specs.Macros.{is_rest_mark, is_mark, written_optional, marked_section, rest_section};
ghost use Rattle.acl_heap.specs.Objects.{object_of, Lies, reach};
ghost use Rattle.acl_layers.specs.Lists.{items_along};
ghost use Rattle.acl_declare.specs.Said.{words_at, words_reach};
ghost use Rattle.acl_macros.specs.Written.{seen_optional, seen_optionals, optional_reach, optionals_reach};
ghost use Rattle.acl_macros.specs.Sections.{SeenBefore, SeenOptionals, SeenSection, SeenRest};

use crate::marks::{is_mark, is_rest_mark};
use crate::optionals::written_optional;
use crate::written::WrittenOptional;
use acl_base::Word;
use acl_heap::{Heap, Seen};
use acl_layers::is_symbol;
use sqlite_items::Items;
use std::alloc::{AllocError, Global};

#[tactic(auto, using(acl_declare::proofs::BodyLemmas::word_pushed, acl_declare::proofs::BodyLemmas::reach_pushed))]
pub fn push_word(_heap: &Heap, all: &mut Items<Word>, word: Word) -> Result<(), AllocError>
    ensures at { OnOk result (words_at _heap.now all.new ≡ words_at _heap.now all.old ++ object_of _heap.now word ∷ []) }
    ensures reach { OnOk result (words_reach all.new ≡ max (words_reach all.old) (reach word)) }
{
    all.push(word)?;
    Ok(())
}

#[tactic(auto, using(crate::proofs::SectionLemmas::optional_pushed, crate::proofs::SectionLemmas::reach_pushed))]
fn push_optional(
    _heap: &Heap,
    all: &mut Items<WrittenOptional>,
    optional: WrittenOptional,
) -> Result<(), AllocError>
    ensures at { OnOk result (seen_optionals _heap.now all.new ≡ seen_optionals _heap.now all.old ++ seen_optional _heap.now optional ∷ []) }
    ensures reach { OnOk result (optionals_reach all.new ≡ max (optionals_reach all.old) (optional_reach optional)) }
{
    all.push(optional)?;
    Ok(())
}

/// What stands along a list up to the first mark, and the list from there on.
#[tactic(auto, using(crate::proofs::SectionLemmas::before_more, crate::proofs::SectionLemmas::before_mark, crate::proofs::SectionLemmas::before_end, crate::proofs::SectionLemmas::behind_more, crate::proofs::SectionLemmas::behind_mark, crate::proofs::SectionLemmas::behind_end))]
pub fn words_before(
    alloc: Global,
    heap: &Heap,
    list: Word,
) -> Result<(Items<Word>, Word), AllocError>
    requires { Lies heap.now list }
    ensures { IfOk result (λ p. SeenBefore heap.now p (before_first is_mark (items_along (object_of heap.now list))) (from_first is_mark (items_along (object_of heap.now list)))) }
{
    let mut found = Items::new(alloc);
    let mut rest = list;
    'formals: while let Seen::Pair(first, next) = heap.look(rest) {
        if is_mark(heap, first) {
            return Ok((found, rest));
        }
        push_word(heap, &mut found, first)?;
        rest = next;
    }
    Ok((found, rest))
}

/// The formals that may be left out, up to the first mark, and the list from there on. None where one is wrong.
#[tactic(auto, using(crate::proofs::SectionLemmas::each_more, crate::proofs::SectionLemmas::each_bad, crate::proofs::SectionLemmas::each_mark, crate::proofs::SectionLemmas::each_end, crate::proofs::SectionLemmas::behind_more, crate::proofs::SectionLemmas::behind_mark, crate::proofs::SectionLemmas::behind_end, crate::proofs::SectionLemmas::start))]
fn optionals_before(
    alloc: Global,
    heap: &Heap,
    list: Word,
) -> Result<Option<(Items<WrittenOptional>, Word)>, AllocError>
    requires { Lies heap.now list }
    ensures { IfOk result (λ r. SeenOptionals heap.now r (each written_optional (before_first is_mark (items_along (object_of heap.now list)))) (from_first is_mark (items_along (object_of heap.now list)))) }
{
    let mut found = Items::new(alloc);
    let mut rest = list;
    'formals: while let Seen::Pair(first, next) = heap.look(rest) {
        if is_mark(heap, first) {
            return Ok(Some((found, rest)));
        }
        match written_optional(heap, first) {
            Some(optional) => push_optional(heap, &mut found, optional)?,
            None => return Ok(None),
        }
        rest = next;
    }
    Ok(Some((found, rest)))
}

/// The formals behind a mark, where it stands next, and what is left.
#[tactic(auto, using(crate::proofs::SectionLemmas::no_mark, crate::proofs::SectionLemmas::mark_bad, crate::proofs::SectionLemmas::mark_found, crate::proofs::SectionLemmas::mark_end))]
pub fn marked_section(
    alloc: Global,
    heap: &Heap,
    mark: u32,
    list: Word,
) -> Result<Option<(Option<Items<WrittenOptional>>, Word)>, AllocError>
    requires { Lies heap.now list }
    ensures { IfOk result (λ r. SeenSection heap.now r (marked_section mark (items_along (object_of heap.now list)))) }
{
    match heap.look(list) {
        Seen::Pair(first, rest) => {
            if !is_symbol(heap, first, mark) {
                return Ok(Some((None, list)));
            }
            match optionals_before(alloc, heap, rest)? {
                None => Ok(None),
                Some((found, rest)) => Ok(Some((Some(found), rest))),
            }
        }
        Seen::Symbol(_) => Ok(Some((None, list))),
        Seen::Integer(_) => Ok(Some((None, list))),
        Seen::Text(_) => Ok(Some((None, list))),
    }
}

#[tactic(auto, using(crate::proofs::SectionLemmas::rest_wrong, crate::proofs::SectionLemmas::rest_found, crate::proofs::SectionLemmas::rest_missing))]
fn one_formal(heap: &Heap, mark: Word, rest: Word) -> Option<(Option<Word>, Word)>
    requires mark { Lies heap.now mark }
    requires rest { Lies heap.now rest }
    requires is { is_rest_mark (object_of heap.now mark) ≡ true }
    ensures { SeenRest heap.now result (rest_section (object_of heap.now mark ∷ items_along (object_of heap.now rest))) }
{
    match heap.look(rest) {
        Seen::Pair(formal, more) => {
            if is_mark(heap, formal) {
                return None;
            }
            Some((Some(formal), more))
        }
        Seen::Symbol(_) => None,
        Seen::Integer(_) => None,
        Seen::Text(_) => None,
    }
}

/// One formal behind the mark of a rest, where it stands next, and what is left.
#[tactic(auto, using(crate::proofs::SectionLemmas::rest_none, crate::proofs::SectionLemmas::rest_more, crate::proofs::SectionLemmas::rest_end))]
pub fn rest_section(heap: &Heap, list: Word) -> Option<(Option<Word>, Word)>
    requires { Lies heap.now list }
    ensures { SeenRest heap.now result (rest_section (items_along (object_of heap.now list))) }
{
    match heap.look(list) {
        Seen::Pair(mark, rest) => {
            if !is_rest_mark(heap, mark) {
                return Some((None, list));
            }
            one_formal(heap, mark, rest)
        }
        Seen::Symbol(_) => Some((None, list)),
        Seen::Integer(_) => Some((None, list)),
        Seen::Text(_) => Some((None, list)),
    }
}
