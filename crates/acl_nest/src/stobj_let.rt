//! The conditions on `STOBJ-LET`.

ghost use Rattle.std.specs.Prelude.{◌≡◌, ◌∷◌, ◌||◌, not, IfOk};
ghost use Rattle.std.specs.List.{list_any, list_all};
ghost use Rattle.model_terms.specs.Cores as cores;
ghost use Rattle.model_terms.specs.Classes.{is_stobj_name, has};
ghost use Rattle.model_terms.specs.Nested.{are_vars, parent_expected, children_hold, stobj_let_holds};
ghost use Rattle.model_terms.specs.Rules.{s13_fails};
ghost use Rattle.acl_terms.specs.Forms.{numbers, bound_names, seen_core, seen_bound, CoreLies};
ghost use Rattle.acl_terms.specs.Signatures.{seen_outs, seen_scope};
ghost use Rattle.acl_worlds.specs.Contents.{seen_world};
ghost use Rattle.acl_nest.specs.Bindings.{seen_children, BoundLie};

use crate::bindings::{BoundChild, bound_children};
use crate::children::{bind_twice, have_indices, have_names, have_parent};
use acl_base::SymId;
use acl_heap::Heap;
use acl_outputs::{has, is_stobj_name, names_of, repeats, stobjs};
use acl_terms::{Core, Out, Scope};
use acl_worlds::World;
use std::alloc::{AllocError, Global};

/// Whether a variable is a bound child or the name of no object.
fn is_var(world: &World, heap: &Heap, children: &[SymId], name: SymId) -> bool
    ensures { result ≡ (has (numbers children.now) name.0 || not (is_stobj_name (seen_world heap.now world.now) name.0)) }
{
    if has(children, name) {
        true
    } else {
        !is_stobj_name(world, heap, name)
    }
}

#[tactic(auto, using(crate::proofs::VarLemmas::vars_step, crate::proofs::VarLemmas::vars_end))]
fn all_vars(world: &World, heap: &Heap, children: &[SymId], vars: &[SymId]) -> bool
    ensures { result ≡ list_all (λ x. has (numbers children.now) x || not (is_stobj_name (seen_world heap.now world.now) x)) (numbers vars.now) }
{
    for name in vars {
        if !is_var(world, heap, children, *name) {
            return false;
        }
    }
    true
}

/// Whether there is a variable at least, all are different, and each is a bound child or the name of no object.
#[tactic(auto, using(crate::proofs::VarLemmas::vars_none, crate::proofs::VarLemmas::vars_repeat, crate::proofs::VarLemmas::vars_all))]
pub fn are_vars(world: &World, heap: &Heap, children: &[SymId], vars: &[SymId]) -> bool
    ensures { result ≡ are_vars (seen_world heap.now world.now) (numbers children.now) (numbers vars.now) }
{
    if vars.len() == 0 {
        return false;
    }
    if repeats(vars) {
        return false;
    }
    all_vars(world, heap, children, vars)
}

#[tactic(auto, using(crate::proofs::VarLemmas::any_step, crate::proofs::VarLemmas::any_end))]
fn any_child(children: &[SymId], vars: &[SymId]) -> bool
    ensures { result ≡ list_any (has (numbers children.now)) (numbers vars.now) }
{
    for name in vars {
        if has(children, *name) {
            return true;
        }
    }
    false
}

/// Whether the parent is expected where a child is put back.
pub fn parent_expected(
    alloc: Global,
    children: &[SymId],
    vars: &[SymId],
    parent: SymId,
    expected: &[Out],
) -> Result<bool, AllocError>
    ensures { IfOk result (λ b. b ≡ parent_expected (numbers children.now) (numbers vars.now) parent.0 (seen_outs expected.now)) }
{
    if any_child(children, vars) {
        let wanted = stobjs(alloc, expected)?;
        Ok(has(wanted.as_slice(), parent))
    } else {
        Ok(true)
    }
}

/// The conditions on children, by one of whom the parent is known.
#[tactic(auto, using(crate::proofs::VarLemmas::holds_no_parent, crate::proofs::VarLemmas::holds_no_names, crate::proofs::VarLemmas::holds_no_indices, crate::proofs::VarLemmas::holds_twice, crate::proofs::VarLemmas::holds_no_vars, crate::proofs::VarLemmas::holds_expected))]
fn children_hold(
    alloc: Global,
    world: &World,
    heap: &Heap,
    scope: &Scope,
    expected: &[Out],
    names: &[SymId],
    vars: &[SymId],
    parent: SymId,
    children: &[BoundChild],
) -> Result<bool, AllocError>
    ensures { IfOk result (λ b. b ≡ children_hold (seen_world heap.now world.now) (seen_scope scope.now) (seen_outs expected.now) (numbers names.now) (numbers vars.now) parent.0 (seen_children children.now)) }
{
    if !have_parent(world, heap, scope, parent, children) {
        return Ok(false);
    }
    let named = have_names(alloc, world, heap, parent, children)?;
    if !named {
        return Ok(false);
    }
    if !have_indices(scope, vars, children) {
        return Ok(false);
    }
    if bind_twice(children) {
        return Ok(false);
    }
    if !are_vars(world, heap, names, vars) {
        return Ok(false);
    }
    let holds = parent_expected(alloc, names, vars, parent, expected)?;
    Ok(holds)
}

/// The conditions, by the parts of the form.
#[tactic(auto, using(crate::proofs::LetLemmas::let_apart, crate::proofs::LetLemmas::let_empty, crate::proofs::LetLemmas::let_children))]
fn let_holds(
    alloc: Global,
    world: &World,
    heap: &Heap,
    scope: &Scope,
    expected: &[Out],
    bindings: &[(SymId, Core)],
    vars: &[SymId],
) -> Result<bool, AllocError>
    requires { BoundLie heap.now bindings.now }
    ensures { IfOk result (λ b. b ≡ stobj_let_holds (seen_world heap.now world.now) (seen_scope scope.now) (seen_outs expected.now) (bound_names bindings.now) (cores.cores (seen_bound heap.now bindings.now)) (numbers vars.now)) }
{
    match bound_children(alloc, world, heap, bindings)? {
        Some(found) => {
            let children = found.as_slice();
            if children.len() == 0 {
                return Ok(false);
            }
            let parent = children[0].parent;
            let names = names_of(alloc, bindings)?;
            let holds = children_hold(
                alloc,
                world,
                heap,
                scope,
                expected,
                names.as_slice(),
                vars,
                parent,
                children,
            )?;
            Ok(holds)
        }
        None => Ok(false),
    }
}

/// Whether the conditions on `STOBJ-LET` hold of a form in a scope of which these outputs are expected: each binding calls
/// the accessor of a child on one variable, an object's in scope and congruent to the accessor's; the names are different
/// and congruent to the children's objects; an index is a natural number or an ordinary variable in scope that the form
/// does not bind; no child is bound twice for sure; the variables are different, at least one, each a bound child or the
/// name of no object; and where one is a child, the parent is expected. They hold of every other form. Each word of the
/// form lies in the heap. An answer other than Ok is want of memory, and nothing has changed. The cost is quadratic in the
/// bindings and in the variables.
#[tactic(auto, using(crate::proofs::LetLemmas::fails_with_local, crate::proofs::LetLemmas::fails_var, crate::proofs::LetLemmas::fails_const, crate::proofs::LetLemmas::fails_if, crate::proofs::LetLemmas::fails_let, crate::proofs::LetLemmas::fails_mv, crate::proofs::LetLemmas::fails_mv_let, crate::proofs::LetLemmas::fails_stobj_let, crate::proofs::LetLemmas::fails_must_be_equal, crate::proofs::LetLemmas::fails_call, crate::proofs::ReachLemmas::bindings_lie))]
pub fn check_let(
    alloc: Global,
    node: &Core,
    scope: &Scope,
    expected: &[Out],
    world: &World,
    heap: &Heap,
) -> Result<bool, AllocError>
    requires { CoreLies heap.now node.now }
    ensures { IfOk result (λ holds. holds ≡ not (s13_fails (seen_world heap.now world.now) (seen_scope scope.now) (seen_outs expected.now) (seen_core heap.now node.now))) }
{
    match node {
        Core::Var(_) => Ok(true),
        Core::Const(_) => Ok(true),
        Core::If(_, _, _) => Ok(true),
        Core::Let(_, _) => Ok(true),
        Core::Mv(_) => Ok(true),
        Core::MvLet(_, _, _) => Ok(true),
        Core::StobjLet { bindings, vars, .. } => {
            let holds = let_holds(
                alloc,
                world,
                heap,
                scope,
                expected,
                bindings.as_slice(),
                vars.as_slice(),
            )?;
            Ok(holds)
        }
        Core::WithLocal { .. } => Ok(true),
        Core::MustBeEqual(_, _) => Ok(true),
        Core::Call(_, _) => Ok(true),
    }
}
