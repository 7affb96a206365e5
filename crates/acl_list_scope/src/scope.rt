//! Bindings of a scope, the innermost last.

ghost use Rattle.std.specs.Prelude.{◌≡◌, ◌<◌, ◌-◌, ℕ, List, length, drop, [], ◌∷◌, IfSome, IfNone, IfOk, OnOk, OnErr, Some, slice_get, option_map};
ghost use Rattle.model_eval.specs.Variables.{list_of, with_list, inner_stobjs, handed_back, first_stobj};
ghost use Rattle.acl_lists.specs.declared.cell.Cell.{Cell};
ghost use Rattle.acl_lists.specs.Pairs.{Within};
ghost use Rattle.model_eval.specs.ListsKeeping.{list_restored};
ghost use Rattle.acl_heap.specs.Objects.{Objects};
ghost use Rattle.acl_terms.specs.Forms.{numbers};
ghost use Rattle.acl_keep.specs.Seen.{all_seen};
ghost use Rattle.acl_list_parts.specs.Parts.{list_given};
ghost use Rattle.acl_list_scope.specs.Scopes.{scope, AreWithin, Lacks, IsLast, IsShort, number_of};

use crate::binding::Binding;
use acl_base::SymId;
use acl_lists::ListId;
use acl_terms::Shown;
use std::alloc::{AllocError, Global};

/// Where the last binding of a variable stands.
#[tactic(auto, using(crate::proofs::ScopeLemmas::lacks_none, crate::proofs::ScopeLemmas::lacks_more, crate::proofs::ScopeLemmas::last_found))]
fn last_place(bindings: &[Binding], variable: SymId) -> Option<usize>
    ensures some { IfSome result (λ i. IsLast variable.0 bindings.now i) }
    ensures within { IfSome result (λ i. i < length bindings.now) }
    ensures none { IfNone result (Lacks variable.0 bindings.now) }
{
    let count = bindings.len();
    for done in 0..count {
        let at = count - 1 - done;
        let binding = bindings[at];
        if binding.variable.0 == variable.0 {
            return Some(at);
        }
    }
    None
}

/// The binding of a place.
fn binding_at(bindings: &[Binding], at: usize) -> Binding
    requires { at < length bindings.now }
    ensures { slice_get bindings.now at ≡ Some result }
{
    bindings[at]
}

/// The list that a variable has.
#[tactic(auto, using(crate::proofs::ScopeLemmas::list_found, crate::proofs::ScopeLemmas::list_lacking, crate::proofs::ScopeLemmas::within_found))]
pub(crate) fn list_of(bindings: &[Binding], variable: SymId) -> Option<ListId>
    ensures is { (cs : List Cell) → list_given cs result ≡ list_of (scope cs bindings.now) variable.0 }
    ensures within { (cs : List Cell) → AreWithin cs bindings.now → Within cs result }
{
    match last_place(bindings, variable) {
        Some(at) => {
            let binding = binding_at(bindings, at);
            binding.list
        }
        None => None,
    }
}

/// Gives a variable another list.
#[tactic(auto, using(crate::proofs::ScopeLemmas::list_written, crate::proofs::ScopeLemmas::nothing_written, crate::proofs::ScopeLemmas::within_written))]
pub(crate) fn write(bindings: &mut Vec<Binding>, variable: SymId, list: Option<ListId>)
    ensures is { (cs : List Cell) → scope cs bindings.new.items ≡ with_list variable.0 (list_given cs list) (scope cs bindings.old.items) }
    ensures within { (cs : List Cell) → AreWithin cs bindings.old.items → Within cs list → AreWithin cs bindings.new.items }
{
    match last_place(bindings.as_slice(), variable) {
        Some(at) => {
            bindings[at] = Binding { variable, list };
        }
        None => {}
    }
}

/// Takes the innermost bindings away, so many.
#[tactic(auto, using(crate::proofs::ScopeLemmas::scope_cut, crate::proofs::ScopeLemmas::within_cut))]
pub(crate) fn take_away(bindings: &mut Vec<Binding>, n: usize)
    ensures is { (cs : List Cell) → scope cs bindings.new.items ≡ drop n (scope cs bindings.old.items) }
    ensures within { (cs : List Cell) → AreWithin cs bindings.old.items → AreWithin cs bindings.new.items }
{
    let kept = bindings.len().saturating_sub(n);
    bindings.truncate(kept);
}

/// How many formals have an actual.
#[tactic(auto, using(crate::proofs::CallLemmas::fewer_formals, crate::proofs::CallLemmas::fewer_actuals))]
fn shorter(formals: &[SymId], actuals: &[Shown]) -> usize
    ensures { IsShort (length formals.now) (length actuals.now) result }
{
    if formals.len() < actuals.len() {
        formals.len()
    } else {
        actuals.len()
    }
}

fn formal_at(formals: &[SymId], at: usize) -> SymId
    requires { at < length formals.now }
    ensures { slice_get formals.now at ≡ Some result }
{
    formals[at]
}

fn actual_at(actuals: &[Shown], at: usize) -> Shown
    requires { at < length actuals.now }
    ensures { slice_get actuals.now at ≡ Some result }
{
    actuals[at]
}

/// The bindings of a call: the objects among its actuals, by the names of its formals.
#[tactic(auto, using(crate::proofs::CallLemmas::over_start))]
pub(crate) fn handed_over(
    alloc: Global,
    bindings: &[Binding],
    formals: &[SymId],
    actuals: &[Shown],
) -> Result<Vec<Binding>, AllocError>
    ensures is { IfOk result (λ made. (cs : List Cell) (h : Objects) → scope cs made.items ≡ inner_stobjs (numbers formals.now) (all_seen h actuals.now) (scope cs bindings.now)) }
    ensures within { IfOk result (λ made. (cs : List Cell) → AreWithin cs bindings.now → AreWithin cs made.items) }
{
    let count = shorter(formals, actuals);
    let mut made = Vec::new(alloc);
    for done in 0..count {
        let at = count - 1 - done;
        let formal = formal_at(formals, at);
        match actual_at(actuals, at) {
            Shown::Value(_) => {}
            Shown::Object(variable) => {
                let list = list_of(bindings, variable);
                made.push(Binding {
                    variable: formal,
                    list,
                })?;
            }
        }
    }
    Ok(made)
}

/// Hands the lists of the formals back to the variables of the actuals.
#[tactic(auto, using(crate::proofs::CallLemmas::back_start, crate::proofs::CallLemmas::back_whole))]
pub(crate) fn hand_back(
    bindings: &mut Vec<Binding>,
    inner: &[Binding],
    formals: &[SymId],
    actuals: &[Shown],
)
    ensures is { (cs : List Cell) (h : Objects) → scope cs bindings.new.items ≡ handed_back (numbers formals.now) (all_seen h actuals.now) (scope cs inner.now) (scope cs bindings.old.items) }
    ensures within { (cs : List Cell) → AreWithin cs inner.now → AreWithin cs bindings.old.items → AreWithin cs bindings.new.items }
{
    let count = shorter(formals, actuals);
    for done in 0..count {
        let formal = formal_at(formals, done);
        match actual_at(actuals, done) {
            Shown::Value(_) => {}
            Shown::Object(variable) => {
                let list = list_of(inner, formal);
                write(bindings, variable, list);
            }
        }
    }
}

/// A copy of bindings.
#[tactic(auto)]
pub(crate) fn copied(alloc: Global, bindings: &[Binding]) -> Result<Vec<Binding>, AllocError>
    ensures { IfOk result (λ made. made.items ≡ bindings.now) }
{
    let mut made = Vec::new(alloc);
    made.extend_from_slice(bindings)?;
    Ok(made)
}

/// The variable of the first object among actuals.
#[tactic(auto, using(crate::proofs::CallLemmas::first_none, crate::proofs::CallLemmas::first_more, crate::proofs::CallLemmas::first_here))]
pub fn first_object(actuals: &[Shown]) -> Option<SymId>
    ensures { (h : Objects) → option_map number_of result ≡ first_stobj (all_seen h actuals.now) }
{
    for i in 0..actuals.len() {
        match actual_at(actuals, i) {
            Shown::Value(_) => {}
            Shown::Object(variable) => return Some(variable),
        }
    }
    None
}

/// Gives the first object among actuals the list that it had before.
#[tactic(auto)]
pub(crate) fn restore(bindings: &mut Vec<Binding>, before: &[Binding], actuals: &[Shown])
    ensures is { (cs : List Cell) (h : Objects) → scope cs bindings.new.items ≡ list_restored (first_stobj (all_seen h actuals.now)) (scope cs before.now) (scope cs bindings.old.items) }
    ensures within { (cs : List Cell) → AreWithin cs before.now → AreWithin cs bindings.old.items → AreWithin cs bindings.new.items }
{
    match first_object(actuals) {
        Some(variable) => {
            let list = list_of(before, variable);
            write(bindings, variable, list);
        }
        None => {}
    }
}

/// One more binding, as the innermost. A refusal changes nothing.
#[tactic(auto, using(crate::proofs::ScopeLemmas::scope_push, crate::proofs::ScopeLemmas::within_push))]
pub(crate) fn bind(
    bindings: &mut Vec<Binding>,
    variable: SymId,
    list: Option<ListId>,
) -> Result<(), AllocError>
    ensures is { OnOk result ((cs : List Cell) → scope cs bindings.new.items ≡ (variable.0, list_given cs list) ∷ scope cs bindings.old.items) }
    ensures within { OnOk result ((cs : List Cell) → AreWithin cs bindings.old.items → Within cs list → AreWithin cs bindings.new.items) }
    ensures err { OnErr result (bindings.new.items ≡ bindings.old.items) }
{
    bindings.push(Binding { variable, list })?;
    Ok(())
}

/// Leaves a call for the bindings that it left behind.
pub(crate) fn give_back(
    bindings: &mut Vec<Binding>,
    outer: Vec<Binding>,
    formals: &[SymId],
    actuals: &[Shown],
)
    ensures is { (cs : List Cell) (h : Objects) → scope cs bindings.new.items ≡ handed_back (numbers formals.now) (all_seen h actuals.now) (scope cs bindings.old.items) (scope cs outer.items) }
    ensures within { (cs : List Cell) → AreWithin cs bindings.old.items → AreWithin cs outer.items → AreWithin cs bindings.new.items }
{
    let inner = std::mem::replace(bindings, outer);
    hand_back(bindings, inner.as_slice(), formals, actuals);
}
