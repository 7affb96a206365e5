//! The scopes of producers.

ghost use Rattle.std.specs.Prelude.{◌≡◌, IfOk, option_to_list};
ghost use Rattle.model_terms.specs.Cores as cores;
ghost use Rattle.model_terms.specs.Sites.{parent_in};
ghost use Rattle.model_terms.specs.Scopes.{without, producer_scope, local_scope};
ghost use Rattle.acl_terms.specs.Forms.{bound_names, seen_bound};
ghost use Rattle.acl_terms.specs.Signatures.{seen_name, seen_scope};
ghost use Rattle.acl_worlds.specs.Contents.{seen_world};
ghost use Rattle.acl_nest.specs.Bindings.{BoundLie};

use acl_base::SymId;
use acl_heap::Heap;
use acl_nest::reached_in;
use acl_outputs::{bind, names_of, without};
use acl_terms::{Core, Scope};
use acl_worlds::World;
use std::alloc::{AllocError, Global};

/// The parent that the first binding names.
#[tactic(auto, using(crate::proofs::ParentLemmas::parent_there, crate::proofs::ParentLemmas::parent_other, crate::proofs::ParentLemmas::parent_none, acl_nest::proofs::ReachLemmas::bound_lies))]
fn parent_in(bindings: &[(SymId, Core)], heap: &Heap) -> Option<SymId>
    requires { BoundLie heap.now bindings.now }
    ensures { seen_name result ≡ parent_in (cores.cores (seen_bound heap.now bindings.now)) }
{
    if bindings.len() == 0 {
        return None;
    }
    match reached_in(&bindings[0].1, heap) {
        Some(reached) => Some(reached.parent),
        None => None,
    }
}

/// The outer names without the parent.
fn without_parent(alloc: Global, parent: Option<SymId>, scope: &Scope) -> Result<Scope, AllocError>
    ensures { IfOk result (λ s. seen_scope s ≡ without (option_to_list (seen_name parent)) (seen_scope scope.now)) }
{
    match parent {
        Some(name) => without(alloc, &[name], scope),
        None => without(alloc, &[], scope),
    }
}

/// The scope of the producer of a `STOBJ-LET`: without the parent, and with the children.
pub fn producer_scope(
    alloc: Global,
    world: &World,
    heap: &Heap,
    scope: &Scope,
    bindings: &[(SymId, Core)],
) -> Result<Scope, AllocError>
    requires { BoundLie heap.now bindings.now }
    ensures { IfOk result (λ s. seen_scope s ≡ producer_scope (seen_world heap.now world.now) (seen_scope scope.now) (parent_in (cores.cores (seen_bound heap.now bindings.now))) (bound_names bindings.now)) }
{
    let parent = parent_in(bindings, heap);
    let mut inner = without_parent(alloc, parent, scope)?;
    let children = names_of(alloc, bindings)?;
    bind(&mut inner, world, heap, children.as_slice())?;
    Ok(inner)
}

/// The scope of the producer of a `WITH-LOCAL-STOBJ`: the outer names, and the object.
pub fn local_scope(
    alloc: Global,
    world: &World,
    heap: &Heap,
    scope: &Scope,
    stobj: SymId,
) -> Result<Scope, AllocError>
    ensures { IfOk result (λ s. seen_scope s ≡ local_scope (seen_world heap.now world.now) (seen_scope scope.now) stobj.0) }
{
    let mut inner = Scope::from_entries(alloc, scope.entries())?;
    bind(&mut inner, world, heap, &[stobj])?;
    Ok(inner)
}
