//! Functions as they are written, by their shapes.

ghost use Rattle.std.specs.Prelude.{◌≡◌, ◌≤◌, ◌∷◌, ◌++◌, [], length, max, IfOk, OnOk};
ghost use Rattle.model_objects.specs.Object.{Pair};
ghost use Rattle.model_expansion.specs.Forms.{each_of};
ghost use Rattle.model_events.specs.Functions.{written_in, written_function, headed_function, written_clique, one_function, written_functions};
ghost use Rattle.acl_heap.specs.Objects.{object_of, Lies};
ghost use Rattle.acl_layers.specs.Lists.{items_along};
ghost use Rattle.acl_drafts.specs.Functions.{seen_function, seen_functions, function_reach, functions_reach, SeenFunction, SeenFunctions};

use crate::words;
use crate::written::WrittenFunction;
use acl_base::{SymId, Word};
use acl_declare::items_and_body;
use acl_heap::{Heap, Seen};
use acl_layers::{is_symbol, is_true_list};
use sqlite_items::Items;
use std::alloc::{AllocError, Global};

/// A function of which the name and the formals are known.
#[tactic(auto, using(crate::proofs::ShapeLemmas::no_formals, crate::proofs::ShapeLemmas::no_body, crate::proofs::ShapeLemmas::function_is))]
fn written_from(
    alloc: Global,
    heap: &Heap,
    executable: bool,
    name: Word,
    formals: Word,
    rest: Word,
) -> Result<Option<WrittenFunction>, AllocError>
    requires name { Lies heap.now name }
    requires formals { Lies heap.now formals }
    requires rest { Lies heap.now rest }
    ensures { IfOk result (λ f. SeenFunction heap.now f (written_in executable (object_of heap.now name ∷ (object_of heap.now formals ∷ items_along (object_of heap.now rest))))) }
{
    if !is_true_list(heap, formals) {
        return Ok(None);
    }
    match items_and_body(alloc, heap, rest)? {
        None => Ok(None),
        Some((items, body)) => Ok(Some(WrittenFunction {
            name,
            formals,
            items,
            body,
            executable,
        })),
    }
}

#[tactic(auto, using(crate::proofs::ShapeLemmas::named_more, crate::proofs::ShapeLemmas::named_end))]
fn written_named(
    alloc: Global,
    heap: &Heap,
    executable: bool,
    name: Word,
    rest: Word,
) -> Result<Option<WrittenFunction>, AllocError>
    requires name { Lies heap.now name }
    requires rest { Lies heap.now rest }
    ensures { IfOk result (λ f. SeenFunction heap.now f (written_in executable (object_of heap.now name ∷ items_along (object_of heap.now rest)))) }
{
    match heap.look(rest) {
        Seen::Pair(formals, rest) => {
            let function = written_from(alloc, heap, executable, name, formals, rest)?;
            Ok(function)
        }
        Seen::Symbol(_) => Ok(None),
        Seen::Integer(_) => Ok(None),
        Seen::Text(_) => Ok(None),
    }
}

/// What stands behind the head of a definition.
#[tactic(auto, using(crate::proofs::ShapeLemmas::function_bad, crate::proofs::ShapeLemmas::function_more, crate::proofs::ShapeLemmas::function_end))]
fn written_function(
    alloc: Global,
    heap: &Heap,
    executable: bool,
    d: Word,
) -> Result<Option<WrittenFunction>, AllocError>
    requires { Lies heap.now d }
    ensures { IfOk result (λ f. SeenFunction heap.now f (written_function executable (object_of heap.now d))) }
{
    if !is_true_list(heap, d) {
        return Ok(None);
    }
    match heap.look(d) {
        Seen::Pair(name, rest) => {
            let function = written_named(alloc, heap, executable, name, rest)?;
            Ok(function)
        }
        Seen::Symbol(_) => Ok(None),
        Seen::Integer(_) => Ok(None),
        Seen::Text(_) => Ok(None),
    }
}

fn by_head(
    alloc: Global,
    heap: &Heap,
    head: Word,
    d: Word,
) -> Result<Option<WrittenFunction>, AllocError>
    requires head { Lies heap.now head }
    requires d { Lies heap.now d }
    ensures { IfOk result (λ f. SeenFunction heap.now f (headed_function (Pair (object_of heap.now head) (object_of heap.now d)))) }
{
    if is_symbol(heap, head, words::DEFUN) {
        return written_function(alloc, heap, true, d);
    }
    if is_symbol(heap, head, words::DEFUND) {
        return written_function(alloc, heap, true, d);
    }
    if is_symbol(heap, head, words::DEFUN_NX) {
        return written_function(alloc, heap, false, d);
    }
    Ok(None)
}

/// A definition with its head, as it stands in a clique.
fn headed_function(
    alloc: Global,
    heap: &Heap,
    x: Word,
) -> Result<Option<WrittenFunction>, AllocError>
    requires { Lies heap.now x }
    ensures { IfOk result (λ f. SeenFunction heap.now f (headed_function (object_of heap.now x))) }
{
    match heap.look(x) {
        Seen::Pair(head, d) => {
            let function = by_head(alloc, heap, head, d)?;
            Ok(function)
        }
        Seen::Symbol(_) => Ok(None),
        Seen::Integer(_) => Ok(None),
        Seen::Text(_) => Ok(None),
    }
}

#[tactic(auto, using(crate::proofs::ShapeLemmas::function_pushed, crate::proofs::ShapeLemmas::reach_pushed))]
fn push_function(
    _heap: &Heap,
    all: &mut Items<WrittenFunction>,
    f: WrittenFunction,
) -> Result<(), AllocError>
    ensures at { OnOk result (seen_functions _heap.now all.new ≡ seen_functions _heap.now all.old ++ seen_function _heap.now f ∷ []) }
    ensures reach { OnOk result (functions_reach all.new ≡ max (functions_reach all.old) (function_reach f)) }
{
    all.push(f)?;
    Ok(())
}

/// The definitions of a list. None where it is no true list of definitions.
#[tactic(auto, using(acl_layers::proofs::EachLemmas::step_some, acl_layers::proofs::EachLemmas::step_none, acl_layers::proofs::EachLemmas::start, acl_layers::proofs::EachLemmas::end_nil, acl_layers::proofs::EachLemmas::end_symbol, acl_layers::proofs::EachLemmas::end_integer, acl_layers::proofs::EachLemmas::end_text))]
fn functions_of(
    alloc: Global,
    heap: &Heap,
    list: Word,
) -> Result<Option<Items<WrittenFunction>>, AllocError>
    requires { Lies heap.now list }
    ensures { IfOk result (λ r. SeenFunctions heap.now r (each_of headed_function (object_of heap.now list))) }
{
    let mut found = Items::new(alloc);
    let mut rest = list;
    'items: loop {
        match heap.look(rest) {
            Seen::Pair(first, next) => {
                match headed_function(alloc, heap, first)? {
                    Some(function) => push_function(heap, &mut found, function)?,
                    None => return Ok(None),
                }
                rest = next;
            }
            Seen::Symbol(s) => return if s.0 == words::NIL {
                Ok(Some(found))
            } else {
                Ok(None)
            },
            Seen::Integer(_) => return Ok(None),
            Seen::Text(_) => return Ok(None),
        }
    }
}

/// What stands behind the head of a clique.
#[tactic(auto, using(crate::proofs::ShapeLemmas::clique_none, crate::proofs::ShapeLemmas::clique_empty, crate::proofs::ShapeLemmas::clique_is))]
fn written_clique(
    alloc: Global,
    heap: &Heap,
    d: Word,
) -> Result<Option<Items<WrittenFunction>>, AllocError>
    requires { Lies heap.now d }
    ensures { IfOk result (λ r. SeenFunctions heap.now r (written_clique (object_of heap.now d))) }
{
    match functions_of(alloc, heap, d)? {
        None => Ok(None),
        Some(functions) => {
            if functions.len() == 0 {
                return Ok(None);
            }
            Ok(Some(functions))
        }
    }
}

fn only(
    alloc: Global,
    heap: &Heap,
    function: WrittenFunction,
) -> Result<Items<WrittenFunction>, AllocError>
    requires { function_reach function ≤ length heap.now }
    ensures is { IfOk result (λ fs. seen_functions heap.now fs ≡ seen_function heap.now function ∷ []) }
    ensures reach { IfOk result (λ fs. functions_reach fs ≤ length heap.now) }
{
    let mut functions = Items::new(alloc);
    push_function(heap, &mut functions, function)?;
    Ok(functions)
}

#[tactic(auto, using(crate::proofs::ShapeLemmas::one_none, crate::proofs::ShapeLemmas::one_is))]
fn one_function(
    alloc: Global,
    heap: &Heap,
    executable: bool,
    d: Word,
) -> Result<Option<Items<WrittenFunction>>, AllocError>
    requires { Lies heap.now d }
    ensures { IfOk result (λ r. SeenFunctions heap.now r (one_function executable (object_of heap.now d))) }
{
    match written_function(alloc, heap, executable, d)? {
        None => Ok(None),
        Some(function) => {
            let functions = only(alloc, heap, function)?;
            Ok(Some(functions))
        }
    }
}

/// The functions that stand behind a head. None where their shape is wrong.
pub fn written_functions(
    alloc: Global,
    heap: &Heap,
    head: SymId,
    d: Word,
) -> Result<Option<Items<WrittenFunction>>, AllocError>
    requires { Lies heap.now d }
    ensures { IfOk result (λ r. SeenFunctions heap.now r (written_functions head.0 (object_of heap.now d))) }
{
    if head.0 == words::MUTUAL_RECURSION {
        let functions = written_clique(alloc, heap, d)?;
        return Ok(functions);
    }
    if head.0 == words::DEFUN_NX {
        let functions = one_function(alloc, heap, false, d)?;
        return Ok(functions);
    }
    let functions = one_function(alloc, heap, true, d)?;
    Ok(functions)
}
