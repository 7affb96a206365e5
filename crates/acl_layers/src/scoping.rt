//! The rows of forms that bind variables.

ghost use Rattle.std.specs.Prelude.{◌≡◌, ◌≤◌, [], ◌∷◌, length, is_some, IfOk};
ghost use Rattle.model_expansion.specs.Forms.{variable_name};
ghost use Rattle.model_expansion.specs.Layers as layers;
ghost use Rattle.model_expansion.specs.Layers.{made_of, bindings, let_of, mv_names, mv_let_parts, written_mv_let, stobj_let_of};
ghost use Rattle.acl_heap.specs.Objects.{object_of, Lies};
ghost use Rattle.acl_terms.specs.Forms.{numbers};
ghost use Rattle.acl_layers.specs.Lists.{seen_left, LeftLies, seen_bindings, bindings_reach, SeenSymbols, SeenList};
ghost use Rattle.acl_layers.specs.Layers.{StandsMade};
ghost use Rattle.acl_layers.specs.Scoping.{SeenMvLet};

use crate::binding_parts::{
    binding, bindings, body_of, bound_forms, bound_names, has_head, variables,
};
use crate::distinct::are_distinct;
use crate::layer::{Found, Kind, Left, Made, Part};
use crate::lists::{elements, four, is_end, take, two};
use crate::making::{let_one, push_form};
use crate::names::variable_name;
use crate::rows::Row;
use crate::words;
use acl_base::{SymId, Word};
use acl_heap::{Heap, Seen};
use acl_syms::Symbols;
use sqlite_items::Items;
use std::alloc::{AllocError, Global};

/// What an MV-LET binds: names, the form that gives their values, and the body.
#[derive(Debug, Drop)]
pub struct MvLet {
    pub names: Items<SymId>,
    pub form: Word,
    pub body: Word,
}

fn let_of(
    alloc: Global,
    heap: &Heap,
    _syms: &Symbols,
    bindings: &[(SymId, Word)],
    body: Word,
) -> Result<Option<Made>, AllocError>
    requires bindings { bindings_reach bindings.now ≤ length heap.now }
    requires body { Lies heap.now body }
    ensures { IfOk result (λ m. StandsMade heap.now m (let_of _syms.now.symbols (seen_bindings heap.now bindings.now) (object_of heap.now body))) }
{
    let names = bound_names(alloc, heap, bindings)?;
    if !are_distinct(alloc, names.as_slice())? {
        return Ok(None);
    }
    let mut parts = bound_forms(alloc, heap, bindings)?;
    push_form(heap, &mut parts, body)?;
    Ok(Some(Made::Stays(Found::Node(Kind::Let(names), parts))))
}

#[tactic(auto, using(crate::proofs::ScopingLemmas::let_end, crate::proofs::ScopingLemmas::let_no_body, crate::proofs::ScopingLemmas::let_no_bindings, crate::proofs::ScopingLemmas::let_is))]
pub fn let_row(
    alloc: Global,
    heap: &Heap,
    syms: &Symbols,
    left: Left,
) -> Result<Option<Made>, AllocError>
    requires { LeftLies heap.now left }
    ensures { IfOk result (λ m. StandsMade heap.now m (made_of syms.now.symbols layers.Let (seen_left heap.now left))) }
{
    let Some((list, rest)) = take(heap, left) else {
        return Ok(None);
    };
    let Some(body) = body_of(heap, syms, rest) else {
        return Ok(None);
    };
    match bindings(alloc, heap, syms, list)? {
        None => Ok(None),
        Some(bound) => let_of(alloc, heap, syms, bound.as_slice(), body),
    }
}

/// What is left of a LET*: bindings, and the body behind them.
#[tactic(auto, using(crate::proofs::ScopingLemmas::left_end, crate::proofs::ScopingLemmas::left_last, crate::proofs::ScopingLemmas::left_bad, crate::proofs::ScopingLemmas::left_more))]
pub fn let_star_rest(
    alloc: Global,
    heap: &Heap,
    syms: &Symbols,
    left: Left,
) -> Result<Option<Made>, AllocError>
    requires { LeftLies heap.now left }
    ensures { IfOk result (λ m. StandsMade heap.now m (made_of syms.now.symbols layers.Bindings (seen_left heap.now left))) }
{
    let Some((first, rest)) = take(heap, left) else {
        return Ok(None);
    };
    if is_end(heap, rest) {
        return Ok(Some(Made::Again(first)));
    }
    match binding(heap, syms, first) {
        None => Ok(None),
        Some((name, form)) => {
            let more = Part::Rest(Row::Bindings, rest);
            Ok(Some(let_one(alloc, name, form, more)?))
        }
    }
}

fn are_bindings(alloc: Global, heap: &Heap, syms: &Symbols, list: Word) -> Result<bool, AllocError>
    requires { Lies heap.now list }
    ensures { IfOk result (λ b. b ≡ is_some (bindings syms.now.symbols (object_of heap.now list))) }
{
    match bindings(alloc, heap, syms, list)? {
        None => Ok(false),
        Some(_) => Ok(true),
    }
}

#[tactic(auto, using(crate::proofs::ScopingLemmas::star_end, crate::proofs::ScopingLemmas::star_no_body, crate::proofs::ScopingLemmas::star_stops, crate::proofs::ScopingLemmas::star_goes))]
pub fn let_star(
    alloc: Global,
    heap: &Heap,
    syms: &Symbols,
    left: Left,
) -> Result<Option<Made>, AllocError>
    requires { LeftLies heap.now left }
    ensures { IfOk result (λ m. StandsMade heap.now m (made_of syms.now.symbols layers.LetStar (seen_left heap.now left))) }
{
    let Some((list, rest)) = take(heap, left) else {
        return Ok(None);
    };
    let Some(body) = body_of(heap, syms, rest) else {
        return Ok(None);
    };
    if !are_bindings(alloc, heap, syms, list)? {
        return Ok(None);
    }
    let bound = Left {
        list,
        last: Some(body),
    };
    let_star_rest(alloc, heap, syms, bound)
}

#[tactic(auto, using(crate::proofs::ScopingLemmas::no_names, crate::proofs::ScopingLemmas::few_names, crate::proofs::ScopingLemmas::twice_named, crate::proofs::ScopingLemmas::names_are))]
fn mv_names(
    alloc: Global,
    heap: &Heap,
    syms: &Symbols,
    list: Word,
) -> Result<Option<Items<SymId>>, AllocError>
    requires { Lies heap.now list }
    ensures { IfOk result (λ r. SeenSymbols r (mv_names syms.now.symbols (object_of heap.now list))) }
{
    match variables(alloc, heap, syms, list)? {
        None => Ok(None),
        Some(names) => {
            if names.len() < 2 {
                return Ok(None);
            }
            if are_distinct(alloc, names.as_slice())? {
                Ok(Some(names))
            } else {
                Ok(None)
            }
        }
    }
}

/// What an MV-LET binds, from what stands behind its head.
#[tactic(auto, using(crate::proofs::ScopingLemmas::parts_end, crate::proofs::ScopingLemmas::parts_one, crate::proofs::ScopingLemmas::parts_no_body, crate::proofs::ScopingLemmas::parts_no_names, crate::proofs::ScopingLemmas::parts_are))]
fn mv_let_parts(
    alloc: Global,
    heap: &Heap,
    syms: &Symbols,
    left: Left,
) -> Result<Option<MvLet>, AllocError>
    requires { LeftLies heap.now left }
    ensures { IfOk result (λ r. SeenMvLet heap.now r (mv_let_parts syms.now.symbols (seen_left heap.now left))) }
{
    let Some((list, left)) = take(heap, left) else {
        return Ok(None);
    };
    let Some((form, left)) = take(heap, left) else {
        return Ok(None);
    };
    let Some(body) = body_of(heap, syms, left) else {
        return Ok(None);
    };
    match mv_names(alloc, heap, syms, list)? {
        None => Ok(None),
        Some(names) => Ok(Some(MvLet { names, form, body })),
    }
}

fn two_forms(alloc: Global, a: Word, b: Word) -> Result<Items<Part>, AllocError>
    ensures { IfOk result (λ ps. ps ≡ Part.Form a ∷ Part.Form b ∷ []) }
{
    let parts = Items::from_slice(alloc, &[Part::Form(a), Part::Form(b)])?;
    Ok(parts)
}

#[tactic(auto, using(crate::proofs::ScopingLemmas::mv_none, crate::proofs::ScopingLemmas::mv_some))]
pub fn mv_let(
    alloc: Global,
    heap: &Heap,
    syms: &Symbols,
    left: Left,
) -> Result<Option<Made>, AllocError>
    requires { LeftLies heap.now left }
    ensures { IfOk result (λ m. StandsMade heap.now m (made_of syms.now.symbols layers.MvLet (seen_left heap.now left))) }
{
    match mv_let_parts(alloc, heap, syms, left)? {
        None => Ok(None),
        Some(MvLet { names, form, body }) => {
            let parts = two_forms(alloc, form, body)?;
            Ok(Some(Made::Stays(Found::Node(Kind::MvLet(names), parts))))
        }
    }
}

/// What stands behind the head of an MV-LET that is written.
fn written_mv_let(heap: &Heap, _syms: &Symbols, form: Word) -> Option<Left>
    requires { Lies heap.now form }
    ensures { SeenList heap.now result (written_mv_let _syms.now.symbols (object_of heap.now form)) }
{
    match heap.look(form) {
        Seen::Pair(_, rest) => {
            if has_head(heap, form, words::MV_LET) {
                elements(heap, rest)
            } else {
                None
            }
        }
        Seen::Integer(_) => None,
        Seen::Symbol(_) => None,
        Seen::Text(_) => None,
    }
}

#[tactic(auto, using(crate::proofs::ScopingLemmas::local_none, crate::proofs::ScopingLemmas::local_no_name, crate::proofs::ScopingLemmas::local_no_form, crate::proofs::ScopingLemmas::local_no_parts, crate::proofs::ScopingLemmas::local_is))]
pub fn with_local(
    alloc: Global,
    heap: &Heap,
    syms: &Symbols,
    left: Left,
) -> Result<Option<Made>, AllocError>
    requires { LeftLies heap.now left }
    ensures { IfOk result (λ m. StandsMade heap.now m (made_of syms.now.symbols layers.WithLocal (seen_left heap.now left))) }
{
    match two(heap, left) {
        None => Ok(None),
        Some((name, form)) => match variable_name(heap, syms, name) {
            None => Ok(None),
            Some(stobj) => match written_mv_let(heap, syms, form) {
                None => Ok(None),
                Some(behind) => match mv_let_parts(alloc, heap, syms, behind)? {
                    None => Ok(None),
                    Some(MvLet { names, form, body }) => {
                        let parts = two_forms(alloc, form, body)?;
                        let kind = Kind::WithLocal { stobj, names };
                        Ok(Some(Made::Stays(Found::Node(kind, parts))))
                    }
                },
            },
        },
    }
}

fn stobj_let_of(
    alloc: Global,
    heap: &Heap,
    _syms: &Symbols,
    bound: &[(SymId, Word)],
    vars: Items<SymId>,
    producer: Word,
    consumer: Word,
) -> Result<Option<Made>, AllocError>
    requires bound { bindings_reach bound.now ≤ length heap.now }
    requires producer { Lies heap.now producer }
    requires consumer { Lies heap.now consumer }
    ensures { IfOk result (λ m. StandsMade heap.now m (stobj_let_of _syms.now.symbols (seen_bindings heap.now bound.now) (numbers vars) (object_of heap.now producer) (object_of heap.now consumer))) }
{
    if bound.is_empty() {
        return Ok(None);
    }
    let children = bound_names(alloc, heap, bound)?;
    let mut parts = bound_forms(alloc, heap, bound)?;
    push_form(heap, &mut parts, producer)?;
    push_form(heap, &mut parts, consumer)?;
    Ok(Some(Made::Stays(Found::Node(Kind::StobjLet { children, vars }, parts))))
}

#[tactic(auto, using(crate::proofs::ScopingLemmas::stobj_none, crate::proofs::ScopingLemmas::stobj_no_bindings, crate::proofs::ScopingLemmas::stobj_no_vars, crate::proofs::ScopingLemmas::stobj_is))]
pub fn stobj_let(
    alloc: Global,
    heap: &Heap,
    syms: &Symbols,
    left: Left,
) -> Result<Option<Made>, AllocError>
    requires { LeftLies heap.now left }
    ensures { IfOk result (λ m. StandsMade heap.now m (made_of syms.now.symbols layers.StobjLet (seen_left heap.now left))) }
{
    let Some((list, names, producer, consumer)) = four(heap, left) else {
        return Ok(None);
    };
    match bindings(alloc, heap, syms, list)? {
        None => Ok(None),
        Some(bound) => match variables(alloc, heap, syms, names)? {
            None => Ok(None),
            Some(vars) => stobj_let_of(
                alloc,
                heap,
                syms,
                bound.as_slice(),
                vars,
                producer,
                consumer,
            ),
        },
    }
}
