//! The rows of COND and CASE.

ghost use Rattle.std.specs.Prelude.{◌≡◌, Some, IfOk};
ghost use Rattle.model_expansion.specs.Forms.{elements};
ghost use Rattle.model_expansion.specs.Layers as layers;
ghost use Rattle.model_expansion.specs.Layers.{made_of, is_cond_clause, are_cond_clauses, is_case_clause, are_case_clauses, is_default, cond_layer, case_layer};
ghost use Rattle.acl_heap.specs.Objects.{object_of, Lies};
ghost use Rattle.acl_layers.specs.Lists.{seen_left, LeftLies};
ghost use Rattle.acl_layers.specs.Layers.{StandsMade, AreClauses};

use crate::layer::{Left, Made, Part, Ready};
use crate::lists::{elements, is_end, is_symbol, one, take, two};
use crate::making::{HIDDEN, hidden_let, if_made, leaf};
use crate::rows::Row;
use crate::words::{self, NIL_WORD};
use acl_base::Word;
use acl_heap::Heap;
use acl_syms::Symbols;
use std::alloc::{AllocError, Global};

#[tactic(auto, using(crate::proofs::ClauseLemmas::cond_no_list, crate::proofs::ClauseLemmas::cond_empty, crate::proofs::ClauseLemmas::cond_one, crate::proofs::ClauseLemmas::cond_two, crate::proofs::ClauseLemmas::cond_long))]
fn is_cond_clause(heap: &Heap, _syms: &Symbols, clause: Word, last: bool) -> bool
    requires { Lies heap.now clause }
    ensures { result ≡ is_cond_clause _syms.now.symbols last (elements (object_of heap.now clause)) }
{
    let Some(left) = elements(heap, clause) else {
        return false;
    };
    let Some((test, rest)) = take(heap, left) else {
        return false;
    };
    if is_end(heap, rest) {
        return true;
    }
    match one(heap, rest) {
        None => false,
        Some(_) => last || !is_symbol(heap, test, words::T),
    }
}

#[tactic(auto, using(crate::proofs::ClauseLemmas::conds_step, crate::proofs::ClauseLemmas::conds_bad, crate::proofs::ClauseLemmas::conds_end, crate::proofs::PartLemmas::shorter))]
fn are_cond_clauses(heap: &Heap, _syms: &Symbols, left: Left) -> bool
    requires { LeftLies heap.now left }
    ensures { result ≡ are_cond_clauses _syms.now.symbols (seen_left heap.now left) }
{
    let mut at = left;
    'clauses: while let Some((clause, rest)) = take(heap, at) {
        if !is_cond_clause(heap, _syms, clause, is_end(heap, rest)) {
            return false;
        }
        at = rest;
    }
    true
}

#[tactic(auto, using(crate::proofs::ClauseLemmas::layer_no_list, crate::proofs::ClauseLemmas::layer_empty, crate::proofs::ClauseLemmas::layer_one, crate::proofs::ClauseLemmas::layer_truth, crate::proofs::ClauseLemmas::layer_two, crate::proofs::ClauseLemmas::layer_long))]
fn cond_layer(
    alloc: Global,
    heap: &Heap,
    _syms: &Symbols,
    clause: Word,
    others: Left,
) -> Result<Made, AllocError>
    requires clause { Lies heap.now clause }
    requires others { LeftLies heap.now others }
    requires clauses { AreClauses (seen_left heap.now others) }
    ensures { IfOk result (λ m. StandsMade heap.now (Some m) (Some (cond_layer _syms.now.symbols (elements (object_of heap.now clause)) (seen_left heap.now others)))) }
{
    let Some(left) = elements(heap, clause) else {
        return Ok(leaf(NIL_WORD));
    };
    let Some((test, rest)) = take(heap, left) else {
        return Ok(leaf(NIL_WORD));
    };
    if is_end(heap, rest) {
        return hidden_let(alloc, test, Part::Rest(Row::CondTest, others));
    }
    let Some(value) = one(heap, rest) else {
        return Ok(leaf(NIL_WORD));
    };
    if is_symbol(heap, test, words::T) {
        return Ok(Made::Again(value));
    }
    let more = Part::Rest(Row::CondRest, others);
    if_made(alloc, Part::Form(test), Part::Form(value), more)
}

/// What is left of a COND whose clauses were looked at.
#[tactic(auto, using(crate::proofs::ClauseLemmas::row_end, crate::proofs::ClauseLemmas::row_more, crate::proofs::ClauseLemmas::others_are))]
pub fn cond_rest(
    alloc: Global,
    heap: &Heap,
    _syms: &Symbols,
    left: Left,
) -> Result<Option<Made>, AllocError>
    requires lies { LeftLies heap.now left }
    requires clauses { AreClauses (seen_left heap.now left) }
    ensures { IfOk result (λ m. StandsMade heap.now m (made_of _syms.now.symbols layers.Cond (seen_left heap.now left))) }
{
    match take(heap, left) {
        None => Ok(Some(leaf(NIL_WORD))),
        Some((clause, rest)) => Ok(Some(cond_layer(alloc, heap, _syms, clause, rest)?)),
    }
}

#[tactic(auto, using(crate::proofs::ClauseLemmas::row_bad, crate::proofs::ClauseLemmas::clauses_are))]
pub fn cond(
    alloc: Global,
    heap: &Heap,
    _syms: &Symbols,
    left: Left,
) -> Result<Option<Made>, AllocError>
    requires { LeftLies heap.now left }
    ensures { IfOk result (λ m. StandsMade heap.now m (made_of _syms.now.symbols layers.Cond (seen_left heap.now left))) }
{
    if are_cond_clauses(heap, _syms, left) {
        cond_rest(alloc, heap, _syms, left)
    } else {
        Ok(None)
    }
}

#[tactic(auto, using(crate::proofs::RowLemmas::cond_test))]
pub fn cond_test(
    alloc: Global,
    _heap: &Heap,
    _syms: &Symbols,
    left: Left,
) -> Result<Option<Made>, AllocError>
    requires lies { LeftLies _heap.now left }
    requires clauses { AreClauses (seen_left _heap.now left) }
    ensures { IfOk result (λ m. StandsMade _heap.now m (made_of _syms.now.symbols layers.CondTest (seen_left _heap.now left))) }
{
    let more = Part::Rest(Row::CondRest, left);
    Ok(Some(if_made(alloc, HIDDEN, HIDDEN, more)?))
}

fn is_default(heap: &Heap, _syms: &Symbols, key: Word) -> bool
    requires { Lies heap.now key }
    ensures { result ≡ is_default _syms.now.symbols (object_of heap.now key) }
{
    is_symbol(heap, key, words::T) || is_symbol(heap, key, words::OTHERWISE)
}

#[tactic(auto, using(crate::proofs::ClauseLemmas::case_no_list, crate::proofs::ClauseLemmas::case_two, crate::proofs::ClauseLemmas::case_other))]
fn is_case_clause(heap: &Heap, _syms: &Symbols, clause: Word, last: bool) -> bool
    requires { Lies heap.now clause }
    ensures { result ≡ is_case_clause _syms.now.symbols last (elements (object_of heap.now clause)) }
{
    let Some(left) = elements(heap, clause) else {
        return false;
    };
    match two(heap, left) {
        None => false,
        Some((key, _)) => last || !is_default(heap, _syms, key),
    }
}

#[tactic(auto, using(crate::proofs::ClauseLemmas::cases_step, crate::proofs::ClauseLemmas::cases_bad, crate::proofs::ClauseLemmas::cases_end, crate::proofs::PartLemmas::shorter))]
fn are_case_clauses(heap: &Heap, _syms: &Symbols, left: Left) -> bool
    requires { LeftLies heap.now left }
    ensures { result ≡ are_case_clauses _syms.now.symbols (seen_left heap.now left) }
{
    let mut at = left;
    'clauses: while let Some((clause, rest)) = take(heap, at) {
        if !is_case_clause(heap, _syms, clause, is_end(heap, rest)) {
            return false;
        }
        at = rest;
    }
    true
}

#[tactic(auto, using(crate::proofs::ClauseLemmas::case_end, crate::proofs::ClauseLemmas::case_bad, crate::proofs::ClauseLemmas::case_is))]
pub fn case(
    alloc: Global,
    heap: &Heap,
    _syms: &Symbols,
    left: Left,
) -> Result<Option<Made>, AllocError>
    requires { LeftLies heap.now left }
    ensures { IfOk result (λ m. StandsMade heap.now m (made_of _syms.now.symbols layers.Case (seen_left heap.now left))) }
{
    let Some((value, rest)) = take(heap, left) else {
        return Ok(None);
    };
    if !are_case_clauses(heap, _syms, rest) {
        return Ok(None);
    }
    Ok(Some(hidden_let(alloc, value, Part::Rest(Row::Clauses, rest))?))
}

#[tactic(auto, using(crate::proofs::ClauseLemmas::key_no_list, crate::proofs::ClauseLemmas::key_default, crate::proofs::ClauseLemmas::key_is, crate::proofs::ClauseLemmas::key_other))]
fn case_layer(
    alloc: Global,
    heap: &Heap,
    _syms: &Symbols,
    clause: Word,
    others: Left,
) -> Result<Made, AllocError>
    requires clause { Lies heap.now clause }
    requires others { LeftLies heap.now others }
    ensures { IfOk result (λ m. StandsMade heap.now (Some m) (Some (case_layer _syms.now.symbols (elements (object_of heap.now clause)) (seen_left heap.now others)))) }
{
    let Some(left) = elements(heap, clause) else {
        return Ok(leaf(NIL_WORD));
    };
    let Some((key, value)) = two(heap, left) else {
        return Ok(leaf(NIL_WORD));
    };
    if is_default(heap, _syms, key) {
        return Ok(Made::Again(value));
    }
    let test = Part::Ready(Ready::KeyTest(key));
    if_made(
        alloc,
        test,
        Part::Form(value),
        Part::Rest(Row::Clauses, others),
    )
}

/// What is left of a CASE whose value is bound.
#[tactic(auto, using(crate::proofs::ClauseLemmas::clauses_end, crate::proofs::ClauseLemmas::clauses_more))]
pub fn clauses(
    alloc: Global,
    heap: &Heap,
    _syms: &Symbols,
    left: Left,
) -> Result<Option<Made>, AllocError>
    requires { LeftLies heap.now left }
    ensures { IfOk result (λ m. StandsMade heap.now m (made_of _syms.now.symbols layers.Clauses (seen_left heap.now left))) }
{
    match take(heap, left) {
        None => Ok(Some(leaf(NIL_WORD))),
        Some((clause, rest)) => Ok(Some(case_layer(alloc, heap, _syms, clause, rest)?)),
    }
}
