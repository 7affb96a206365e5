//! The conditions on `WITH-LOCAL-STOBJ`.

ghost use Rattle.std.specs.Prelude.{◌≡◌, ◌≤◌, ◌∷◌, [], not, IfOk};
ghost use Rattle.model_terms.specs.Nested.{with_local_holds};
ghost use Rattle.model_terms.specs.Rules.{s14_fails};
ghost use Rattle.model_terms.specs.Scopes.{local_scope};
ghost use Rattle.acl_terms.specs.Depths.{depth_of};
ghost use Rattle.acl_nest.specs.Local.{names_hold};
ghost use Rattle.acl_terms.specs.Forms.{numbers, seen_core};
ghost use Rattle.acl_terms.specs.Signatures.{seen_outs, seen_scope};
ghost use Rattle.acl_worlds.specs.Contents.{seen_world};

use crate::kinds::{name_kinds, outs, same_kinds, stobjs_expected};
use acl_base::SymId;
use acl_heap::Heap;
use acl_outputs::{bind, has, is_stobj_name, other_names};
use acl_terms::{Core, Out, Scope};
use acl_worlds::World;
use std::alloc::{AllocError, Global};

/// The scope of the producer: the outer names, and the object.
fn local_scope(
    alloc: Global,
    world: &World,
    heap: &Heap,
    scope: &Scope,
    stobj: SymId,
) -> Result<Scope, AllocError>
    ensures { IfOk result (λ s. seen_scope s ≡ local_scope (seen_world heap.now world.now) (seen_scope scope.now) stobj.0) }
{
    let mut inner = Scope::from_entries(alloc, scope.entries())?;
    bind(&mut inner, world, heap, &[stobj])?;
    Ok(inner)
}

/// Whether the names other than the object's are expected, and the producer gives what the names say.
fn gives_names(
    alloc: Global,
    world: &World,
    heap: &Heap,
    scope: &Scope,
    expected: &[Out],
    stobj: SymId,
    names: &[SymId],
    producer: &Core,
) -> Result<bool, AllocError>
    requires { depth_of (seen_core heap.now producer.now) ≤ 2048 }
    ensures { IfOk result (λ b. b ≡ names_hold (seen_world heap.now world.now) (seen_scope scope.now) (seen_outs expected.now) stobj.0 (numbers names.now) (seen_core heap.now producer.now)) }
{
    let others = other_names(alloc, stobj, names)?;
    let kinds = name_kinds(alloc, world, heap, others.as_slice())?;
    if !stobjs_expected(alloc, kinds.as_slice(), expected)? {
        return Ok(false);
    }
    let inner = local_scope(alloc, world, heap, scope, stobj)?;
    let given = outs(alloc, world, heap, &inner, producer)?;
    let wanted = name_kinds(alloc, world, heap, names)?;
    Ok(same_kinds(given.as_slice(), wanted.as_slice()))
}

/// The conditions, by the parts of the form.
#[tactic(auto, using(crate::proofs::LocalLemmas::local_apart, crate::proofs::LocalLemmas::local_missing, crate::proofs::LocalLemmas::local_there))]
fn local_holds(
    alloc: Global,
    world: &World,
    heap: &Heap,
    scope: &Scope,
    expected: &[Out],
    stobj: SymId,
    names: &[SymId],
    producer: &Core,
) -> Result<bool, AllocError>
    requires { depth_of (seen_core heap.now producer.now) ≤ 2048 }
    ensures { IfOk result (λ b. b ≡ with_local_holds (seen_world heap.now world.now) (seen_scope scope.now) (seen_outs expected.now) stobj.0 (numbers names.now) (seen_core heap.now producer.now)) }
{
    if !is_stobj_name(world, heap, stobj) {
        return Ok(false);
    }
    if !has(names, stobj) {
        return Ok(false);
    }
    let holds = gives_names(alloc, world, heap, scope, expected, stobj, names, producer)?;
    Ok(holds)
}

/// Whether the conditions on `WITH-LOCAL-STOBJ` hold of a form in a scope of which these outputs are expected: its object
/// is one and among the names, the other names are expected as in an `MV-LET`, and the producer gives what the names say.
/// They hold of every other form. An answer other than Ok is want of memory, and nothing has changed.
#[tactic(auto, using(crate::proofs::LocalLemmas::fails_with_local, crate::proofs::LocalLemmas::fails_var, crate::proofs::LocalLemmas::fails_const, crate::proofs::LocalLemmas::fails_if, crate::proofs::LocalLemmas::fails_let, crate::proofs::LocalLemmas::fails_mv, crate::proofs::LocalLemmas::fails_mv_let, crate::proofs::LocalLemmas::fails_stobj_let, crate::proofs::LocalLemmas::fails_must_be_equal, crate::proofs::LocalLemmas::fails_call, crate::proofs::LocalLemmas::producer_depth))]
pub fn check_local(
    alloc: Global,
    node: &Core,
    scope: &Scope,
    expected: &[Out],
    world: &World,
    heap: &Heap,
) -> Result<bool, AllocError>
    requires { depth_of (seen_core heap.now node.now) ≤ 2048 }
    ensures { IfOk result (λ holds. holds ≡ not (s14_fails (seen_world heap.now world.now) (seen_scope scope.now) (seen_outs expected.now) (seen_core heap.now node.now))) }
{
    match node {
        Core::Var(_) => Ok(true),
        Core::Const(_) => Ok(true),
        Core::If(_, _, _) => Ok(true),
        Core::Let(_, _) => Ok(true),
        Core::Mv(_) => Ok(true),
        Core::MvLet(_, _, _) => Ok(true),
        Core::StobjLet { .. } => Ok(true),
        Core::WithLocal {
            stobj,
            names,
            producer,
            ..
        } => {
            let holds = local_holds(
                alloc,
                world,
                heap,
                scope,
                expected,
                *stobj,
                names.as_slice(),
                producer.get(),
            )?;
            Ok(holds)
        }
        Core::MustBeEqual(_, _) => Ok(true),
        Core::Call(_, _) => Ok(true),
    }
}
