//! Rows that take forms one after the other: a node for the first, and what is left of the row.

ghost use Rattle.std.specs.Prelude.{◌≡◌, IfOk};
ghost use Rattle.model_expansion.specs.Layers as layers;
ghost use Rattle.model_expansion.specs.Layers.{made_of};
ghost use Rattle.acl_heap.specs.Objects.{Denotes};
ghost use Rattle.acl_layers.specs.Lists.{seen_left, LeftLies};
ghost use Rattle.acl_layers.specs.Layers.{StandsMade};
ghost use Rattle.acl_layers.specs.Rows.{seen_unit};

use crate::layer::{Found, Kind, Left, Made, Part};
use crate::lists::{is_end, take};
use crate::making::{FALSE, HIDDEN, call_two, forms, hidden_let, if_made, leaf};
use crate::rows::{Row, Unit};
use crate::words::{self, NIL_WORD, TRUE_WORD};
use acl_base::{SymId, Word};
use acl_heap::Heap;
use acl_syms::Symbols;
use std::alloc::{AllocError, Global};

#[tactic(auto, using(crate::proofs::RowLemmas::and_end, crate::proofs::RowLemmas::and_last, crate::proofs::RowLemmas::and_more))]
pub fn and(
    alloc: Global,
    heap: &Heap,
    _syms: &Symbols,
    left: Left,
) -> Result<Option<Made>, AllocError>
    requires { LeftLies heap.now left }
    ensures { IfOk result (λ m. StandsMade heap.now m (made_of _syms.now.symbols layers.And (seen_left heap.now left))) }
{
    match take(heap, left) {
        None => Ok(Some(leaf(TRUE_WORD))),
        Some((form, rest)) => {
            if is_end(heap, rest) {
                return Ok(Some(Made::Again(form)));
            }
            let more = Part::Rest(Row::And, rest);
            Ok(Some(if_made(alloc, Part::Form(form), more, FALSE)?))
        }
    }
}

#[tactic(auto, using(crate::proofs::RowLemmas::or_end, crate::proofs::RowLemmas::or_last, crate::proofs::RowLemmas::or_more))]
pub fn or(
    alloc: Global,
    heap: &Heap,
    _syms: &Symbols,
    left: Left,
) -> Result<Option<Made>, AllocError>
    requires { LeftLies heap.now left }
    ensures { IfOk result (λ m. StandsMade heap.now m (made_of _syms.now.symbols layers.Or (seen_left heap.now left))) }
{
    match take(heap, left) {
        None => Ok(Some(leaf(NIL_WORD))),
        Some((form, rest)) => {
            if is_end(heap, rest) {
                return Ok(Some(Made::Again(form)));
            }
            Ok(Some(hidden_let(alloc, form, Part::Rest(Row::OrTest, rest))?))
        }
    }
}

#[tactic(auto, using(crate::proofs::RowLemmas::or_test))]
pub fn or_test(
    alloc: Global,
    _heap: &Heap,
    _syms: &Symbols,
    left: Left,
) -> Result<Option<Made>, AllocError>
    requires { LeftLies _heap.now left }
    ensures { IfOk result (λ m. StandsMade _heap.now m (made_of _syms.now.symbols layers.OrTest (seen_left _heap.now left))) }
{
    Ok(Some(if_made(alloc, HIDDEN, HIDDEN, Part::Rest(Row::Or, left))?))
}

#[tactic(auto, using(crate::proofs::RowLemmas::listing_end, crate::proofs::RowLemmas::listing_more))]
pub fn listing(
    alloc: Global,
    heap: &Heap,
    _syms: &Symbols,
    left: Left,
) -> Result<Option<Made>, AllocError>
    requires { LeftLies heap.now left }
    ensures { IfOk result (λ m. StandsMade heap.now m (made_of _syms.now.symbols layers.Listing (seen_left heap.now left))) }
{
    match take(heap, left) {
        None => Ok(Some(leaf(NIL_WORD))),
        Some((form, rest)) => {
            let more = Part::Rest(Row::Listing, rest);
            Ok(Some(call_two(alloc, SymId(words::CONS), Part::Form(form), more)?))
        }
    }
}

#[tactic(auto, using(crate::proofs::RowLemmas::list_star_end, crate::proofs::RowLemmas::list_star_last, crate::proofs::RowLemmas::list_star_more))]
pub fn list_star(
    alloc: Global,
    heap: &Heap,
    _syms: &Symbols,
    left: Left,
) -> Result<Option<Made>, AllocError>
    requires { LeftLies heap.now left }
    ensures { IfOk result (λ m. StandsMade heap.now m (made_of _syms.now.symbols layers.ListStar (seen_left heap.now left))) }
{
    match take(heap, left) {
        None => Ok(None),
        Some((form, rest)) => {
            if is_end(heap, rest) {
                return Ok(Some(Made::Again(form)));
            }
            let more = Part::Rest(Row::ListStar, rest);
            Ok(Some(call_two(alloc, SymId(words::CONS), Part::Form(form), more)?))
        }
    }
}

fn unit_word(_heap: &Heap, unit: Unit) -> Word
    ensures { Denotes _heap.now result (seen_unit unit) }
{
    match unit {
        Unit::Integer(n) => Word::Small(n),
        Unit::Nil => NIL_WORD,
    }
}

/// A function of two over all that is left.
#[tactic(auto, using(crate::proofs::RowLemmas::chain_end, crate::proofs::RowLemmas::chain_last, crate::proofs::RowLemmas::chain_more))]
pub fn chain(
    alloc: Global,
    heap: &Heap,
    _syms: &Symbols,
    f: SymId,
    unit: Unit,
    left: Left,
) -> Result<Option<Made>, AllocError>
    requires { LeftLies heap.now left }
    ensures { IfOk result (λ m. StandsMade heap.now m (made_of _syms.now.symbols (layers.Chain f.0 (seen_unit unit)) (seen_left heap.now left))) }
{
    match take(heap, left) {
        None => Ok(Some(leaf(unit_word(heap, unit)))),
        Some((form, rest)) => {
            if is_end(heap, rest) {
                return Ok(Some(Made::Again(form)));
            }
            let more = Part::Rest(Row::Chain(f, unit), rest);
            Ok(Some(call_two(alloc, f, Part::Form(form), more)?))
        }
    }
}

#[tactic(auto, using(crate::proofs::RowLemmas::mv_end, crate::proofs::RowLemmas::mv_last, crate::proofs::RowLemmas::mv_more))]
pub fn several(
    alloc: Global,
    heap: &Heap,
    _syms: &Symbols,
    left: Left,
) -> Result<Option<Made>, AllocError>
    requires { LeftLies heap.now left }
    ensures { IfOk result (λ m. StandsMade heap.now m (made_of _syms.now.symbols layers.Mv (seen_left heap.now left))) }
{
    match take(heap, left) {
        None => Ok(None),
        Some((_, rest)) => {
            let alone = is_end(heap, rest);
            if alone {
                return Ok(None);
            }
            let parts = forms(alloc, heap, left)?;
            Ok(Some(Made::Stays(Found::Node(Kind::Mv, parts))))
        }
    }
}
