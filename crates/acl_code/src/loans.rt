//! The children that a `STOBJ-LET` binds.

ghost use Rattle.std.specs.Prelude.{◌≡◌, ◌<◌, ◌≤◌, ℕ, ◌++◌, ◌∷◌, [], map, length, nat_eq, Some, None, IfOk, option_map};
ghost use Rattle.std.specs.Option.{option_copied, option_map_or};
ghost use Rattle.std.specs.List.{list_any};
ghost use Rattle.model_terms.specs.Cores as cores;
ghost use Rattle.model_terms.specs.Cores.{reached_from, reached_by, reached};
ghost use Rattle.model_slots.specs.Resolved.{number_in, variable_at, operand_in, index_in, child_in, children_in};
ghost use Rattle.acl_terms.specs.Forms.{numbers, bound_names, seen_core, seen_cores, seen_bound, core_reach, most, CoreLies};
ghost use Rattle.acl_worlds.specs.Contents.{seen_world};
ghost use Rattle.acl_code.specs.Environments.{seen_environment};
ghost use Rattle.acl_code.specs.Tables.{seen_operand, seen_child, IndexLies, ChildrenLie};
ghost use Rattle.acl_code.specs.Constants.{OperandIsKnown, IndexIsKnown, ChildIsKnown, ChildrenAreKnown, AtIsKnown, FormIsKnown, FormsAreKnown};
ghost use Rattle.acl_code.specs.Children.{OperandLies, AtLies, ChildLies, BoundLie};

use crate::environment::Environment;
use crate::term::{Child, Operand};
use acl_base::{FnId, SymId, Word};
use acl_heap::Heap;
use acl_outputs::{has, variable};
use acl_terms::Core;
use acl_worlds::World;
use sqlite_items::Items;
use std::alloc::{AllocError, Global};

const NIL: Word = Word::Sym(SymId(1));

/// The number of a function.
#[tactic(auto, using(crate::proofs::ChildLemmas::number_seen))]
pub fn number(world: &World, _heap: &Heap, f: SymId) -> Option<FnId>
    ensures { option_map (λ (n : FnId). n.0) result ≡ number_in (seen_world _heap.now world.now) f.0 }
{
    world.find(f)
}

/// The variable of a name.
pub fn variable_operand(environment: &Environment, _heap: &Heap, name: SymId) -> Operand
    ensures is { seen_operand _heap.now result ≡ variable_at (seen_environment environment.now) name.0 }
    ensures word { OperandLies _heap.now result }
    ensures known { (n : ℕ) → 1 < n → OperandIsKnown n _heap.now result }
{
    match environment.find(name) {
        Some(slot) => Operand::Slot(slot),
        None => Operand::Const(NIL),
    }
}

/// What a variable or a constant is.
#[tactic(auto, using(crate::proofs::ChildLemmas::operand_var, crate::proofs::ChildLemmas::operand_const, crate::proofs::ChildLemmas::operand_if, crate::proofs::ChildLemmas::operand_let, crate::proofs::ChildLemmas::operand_mv, crate::proofs::ChildLemmas::operand_mv_let, crate::proofs::ChildLemmas::operand_stobj_let, crate::proofs::ChildLemmas::operand_with_local, crate::proofs::ChildLemmas::operand_must_be_equal, crate::proofs::ChildLemmas::operand_call, crate::proofs::SizeLemmas::const_word, crate::proofs::ConstantLemmas::const_in))]
fn operand(core: &Core, environment: &Environment, heap: &Heap) -> Operand
    requires { CoreLies heap.now core.now }
    ensures word { OperandLies heap.now result }
    ensures known { (n : ℕ) → 1 < n → FormIsKnown n (seen_core heap.now core.now) → OperandIsKnown n heap.now result }
    ensures is { seen_operand heap.now result ≡ operand_in (seen_environment environment.now) (seen_core heap.now core.now) }
{
    match core {
        Core::Var(x) => variable_operand(environment, heap, *x),
        Core::Const(word) => Operand::Const(*word),
        Core::If(_, _, _) => Operand::Const(NIL),
        Core::Let(_, _) => Operand::Const(NIL),
        Core::Mv(_) => Operand::Const(NIL),
        Core::MvLet(_, _, _) => Operand::Const(NIL),
        Core::StobjLet { .. } => Operand::Const(NIL),
        Core::WithLocal { .. } => Operand::Const(NIL),
        Core::MustBeEqual(_, _) => Operand::Const(NIL),
        Core::Call(_, _) => Operand::Const(NIL),
    }
}

fn index(core: Option<&Core>, environment: &Environment, heap: &Heap) -> Option<Operand>
    requires { AtLies heap.now (option_copied core) }
    ensures word { IndexLies heap.now result }
    ensures known { (n : ℕ) → 1 < n → AtIsKnown n heap.now (option_copied core.entry) → IndexIsKnown n heap.now result }
    ensures is { option_map (seen_operand heap.now) result ≡ index_in (seen_environment environment.now) (option_map (seen_core heap.now) (option_copied core.entry)) }
{
    match core {
        None => None,
        Some(core) => Some(operand(core, environment, heap)),
    }
}

/// A child that is reached by an accessor, at an index or none, in the object of a variable.
fn child_from(
    world: &World,
    heap: &Heap,
    environment: &Environment,
    vars: &[SymId],
    name: SymId,
    accessor: SymId,
    at: Option<&Core>,
    parent: &Core,
) -> Option<Child>
    requires { AtLies heap.now (option_copied at) }
    ensures word { ChildLies heap.now result }
    ensures known { (n : ℕ) → 1 < n → AtIsKnown n heap.now (option_copied at.entry) → ChildIsKnown n heap.now result }
    ensures is { option_map (seen_child heap.now) result ≡ child_in (seen_world heap.now world.now) (seen_environment environment.now) (numbers vars.now) name.0 (reached_from accessor.0 (option_map (seen_core heap.now) (option_copied at.entry)) (seen_core heap.now parent.now)) }
{
    match variable(parent, heap) {
        None => None,
        Some(parent) => match number(world, heap, accessor) {
            None => None,
            Some(accessor) => Some(Child {
                name,
                accessor,
                index: index(at, environment, heap),
                parent: variable_operand(environment, heap, parent),
                returns: has(vars, name),
            }),
        },
    }
}

#[tactic(auto, using(crate::proofs::ChildLemmas::reached_one, crate::proofs::ChildLemmas::reached_two, crate::proofs::ChildLemmas::reached_other, crate::proofs::SizeLemmas::first_lies, crate::proofs::ConstantLemmas::first_known))]
fn child_by(
    world: &World,
    heap: &Heap,
    environment: &Environment,
    vars: &[SymId],
    name: SymId,
    accessor: SymId,
    actuals: &[Core],
) -> Option<Child>
    requires { most (map core_reach actuals.now) ≤ length heap.now }
    ensures word { ChildLies heap.now result }
    ensures known { (n : ℕ) → 1 < n → FormsAreKnown n (cores.cores (seen_cores heap.now actuals.now)) → ChildIsKnown n heap.now result }
    ensures is { option_map (seen_child heap.now) result ≡ child_in (seen_world heap.now world.now) (seen_environment environment.now) (numbers vars.now) name.0 (reached_by accessor.0 (cores.cores (seen_cores heap.now actuals.now))) }
{
    if actuals.len() == 1 {
        return child_from(
            world,
            heap,
            environment,
            vars,
            name,
            accessor,
            None,
            &actuals[0],
        );
    }
    if actuals.len() == 2 {
        let at = Some(&actuals[0]);
        return child_from(
            world,
            heap,
            environment,
            vars,
            name,
            accessor,
            at,
            &actuals[1],
        );
    }
    None
}

/// The child that a name is bound to, where the form reaches one.
#[tactic(auto, using(crate::proofs::ChildLemmas::child_var, crate::proofs::ChildLemmas::child_const, crate::proofs::ChildLemmas::child_if, crate::proofs::ChildLemmas::child_let, crate::proofs::ChildLemmas::child_mv, crate::proofs::ChildLemmas::child_mv_let, crate::proofs::ChildLemmas::child_stobj_let, crate::proofs::ChildLemmas::child_with_local, crate::proofs::ChildLemmas::child_must_be_equal, crate::proofs::ChildLemmas::child_call, crate::proofs::SizeLemmas::call_words, crate::proofs::ConstantLemmas::call_in))]
fn child(
    world: &World,
    heap: &Heap,
    environment: &Environment,
    vars: &[SymId],
    name: SymId,
    bound: &Core,
) -> Option<Child>
    requires { CoreLies heap.now bound.now }
    ensures word { ChildLies heap.now result }
    ensures known { (n : ℕ) → 1 < n → FormIsKnown n (seen_core heap.now bound.now) → ChildIsKnown n heap.now result }
    ensures is { option_map (seen_child heap.now) result ≡ child_in (seen_world heap.now world.now) (seen_environment environment.now) (numbers vars.now) name.0 (reached (seen_core heap.now bound.now)) }
{
    match bound {
        Core::Var(_) => None,
        Core::Const(_) => None,
        Core::If(_, _, _) => None,
        Core::Let(_, _) => None,
        Core::Mv(_) => None,
        Core::MvLet(_, _, _) => None,
        Core::StobjLet { .. } => None,
        Core::WithLocal { .. } => None,
        Core::MustBeEqual(_, _) => None,
        Core::Call(f, actuals) => {
            child_by(world, heap, environment, vars, name, *f, actuals.as_slice())
        }
    }
}

/// The children of all bindings, where each reaches one.
#[tactic(auto, using(crate::proofs::ChildLemmas::found_start, crate::proofs::ChildLemmas::found_end, crate::proofs::ChildLemmas::found_step, crate::proofs::ChildLemmas::found_none, crate::proofs::SizeLemmas::bound_lies, crate::proofs::SizeLemmas::children_push))]
pub fn children(
    alloc: Global,
    world: &World,
    heap: &Heap,
    environment: &Environment,
    vars: &[SymId],
    bindings: &[(SymId, Core)],
) -> Result<Option<Items<Child>>, AllocError>
    requires { BoundLie heap.now bindings.now }
    ensures words { IfOk result (λ r. ChildrenLie heap.now r) }
    ensures known { IfOk result (λ r. (n : ℕ) → 1 < n → FormsAreKnown n (cores.cores (seen_bound heap.now bindings.now)) → ChildrenAreKnown n heap.now r) }
    ensures are { IfOk result (λ r. option_map (map (seen_child heap.now)) r ≡ children_in (seen_world heap.now world.now) (seen_environment environment.now) (numbers vars.now) (bound_names bindings.now) (cores.cores (seen_bound heap.now bindings.now))) }
{
    let mut found = Items::new(alloc);
    for binding in bindings {
        match child(world, heap, environment, vars, binding.0, &binding.1) {
            Some(child) => found.push(child)?,
            None => return Ok(None),
        }
    }
    Ok(Some(found))
}
