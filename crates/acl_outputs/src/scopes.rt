//! Scopes once names are bound or hidden.

ghost use Rattle.std.specs.Prelude.{◌≡◌, ◌≤◌, ◌++◌, ◌∷◌, [], map, length, take, IfOk, OnOk};
ghost use Rattle.model_terms.specs.Scopes.{entry, binding, without, ordinary_names, other_names, consumer_scope, body_scope};
ghost use Rattle.acl_terms.specs.Forms.{numbers, bound_names};
ghost use Rattle.acl_terms.specs.Signatures.{seen_entry, seen_scope};
ghost use Rattle.acl_worlds.specs.Contents.{seen_world};

use crate::kinds::{is_stobj_name, name_kind};
use crate::lists::has;
use acl_base::SymId;
use acl_heap::Heap;
use acl_terms::{Core, Entry, Scope};
use acl_worlds::World;
use sqlite_items::Items;
use std::alloc::{AllocError, Global};

fn entry(world: &World, heap: &Heap, name: SymId) -> Entry
    ensures { seen_entry result ≡ entry (seen_world heap.now world.now) name.0 }
{
    Entry {
        name,
        kind: name_kind(world, heap, name),
    }
}

/// The names of bindings.
#[tactic(auto, using(crate::proofs::ScopeLemmas::names_step, crate::proofs::ScopeLemmas::names_end, crate::proofs::ListLemmas::numbers_push))]
pub fn names_of(alloc: Global, bindings: &[(SymId, Core)]) -> Result<Items<SymId>, AllocError>
    ensures { IfOk result (λ ns. numbers ns ≡ bound_names bindings.now) }
{
    let mut names = Items::new(alloc);
    for binding in bindings {
        names.push(binding.0)?;
    }
    Ok(names)
}

/// Binds names innermost, each with the kind that it has in the world.
#[tactic(auto, using(crate::proofs::ScopeLemmas::bind_step, crate::proofs::ScopeLemmas::bind_end, crate::proofs::ScopeLemmas::scope_push, crate::proofs::ScopeLemmas::take_push))]
pub fn bind(
    scope: &mut Scope,
    world: &World,
    heap: &Heap,
    names: &[SymId],
) -> Result<(), AllocError>
    ensures binds { OnOk result (seen_scope scope.new ≡ binding (seen_world heap.now world.now) (seen_scope scope.old) (numbers names.now)) }
    ensures longer { length scope.old ≤ length scope.new }
    ensures start { take (length scope.old) scope.new ≡ scope.old }
{
    for name in names {
        scope.push(entry(world, heap, *name))?;
    }
    Ok(())
}

#[tactic(auto, using(crate::proofs::ScopeLemmas::keep_here, crate::proofs::ScopeLemmas::keep_not))]
fn keep(scope: &mut Scope, names: &[SymId], entry: Entry) -> Result<(), AllocError>
    ensures { OnOk result (seen_scope scope.new ≡ seen_scope scope.old ++ without (numbers names.now) (seen_entry entry ∷ [])) }
{
    if has(names, entry.name) {
        Ok(())
    } else {
        scope.push(entry)?;
        Ok(())
    }
}

/// A scope without these names.
#[tactic(auto, using(crate::proofs::ScopeLemmas::without_step, crate::proofs::ScopeLemmas::without_end))]
pub fn without(alloc: Global, names: &[SymId], scope: &Scope) -> Result<Scope, AllocError>
    ensures { IfOk result (λ s. seen_scope s ≡ without (numbers names.now) (seen_scope scope.now)) }
{
    let mut rest = Scope::new(alloc);
    for entry in scope.entries() {
        keep(&mut rest, names, *entry)?;
    }
    Ok(rest)
}

#[tactic(auto, using(crate::proofs::ListLemmas::numbers_push, crate::proofs::ListLemmas::numbers_same))]
fn put_ordinary(
    found: &mut Items<SymId>,
    world: &World,
    heap: &Heap,
    name: SymId,
) -> Result<(), AllocError>
    ensures { OnOk result (numbers found.new ≡ numbers found.old ++ ordinary_names (seen_world heap.now world.now) (name.0 ∷ [])) }
{
    if is_stobj_name(world, heap, name) {
        Ok(())
    } else {
        found.push(name)?;
        Ok(())
    }
}

/// The names that are no object's.
#[tactic(auto, using(crate::proofs::ScopeLemmas::ordinary_step, crate::proofs::ScopeLemmas::ordinary_end))]
pub fn ordinary_names(
    alloc: Global,
    world: &World,
    heap: &Heap,
    names: &[SymId],
) -> Result<Items<SymId>, AllocError>
    ensures { IfOk result (λ ns. numbers ns ≡ ordinary_names (seen_world heap.now world.now) (numbers names.now)) }
{
    let mut found = Items::new(alloc);
    for name in names {
        put_ordinary(&mut found, world, heap, *name)?;
    }
    Ok(found)
}

#[tactic(auto, using(crate::proofs::ListLemmas::numbers_push, crate::proofs::ListLemmas::numbers_same))]
fn put_other(found: &mut Items<SymId>, stobj: SymId, name: SymId) -> Result<(), AllocError>
    ensures { OnOk result (numbers found.new ≡ numbers found.old ++ other_names stobj.0 (name.0 ∷ [])) }
{
    if name.0 == stobj.0 {
        Ok(())
    } else {
        found.push(name)?;
        Ok(())
    }
}

/// The names but for that of the object.
#[tactic(auto, using(crate::proofs::ScopeLemmas::other_step, crate::proofs::ScopeLemmas::other_end))]
pub fn other_names(alloc: Global, stobj: SymId, names: &[SymId]) -> Result<Items<SymId>, AllocError>
    ensures { IfOk result (λ ns. numbers ns ≡ other_names stobj.0 (numbers names.now)) }
{
    let mut found = Items::new(alloc);
    for name in names {
        put_other(&mut found, stobj, *name)?;
    }
    Ok(found)
}

/// The scope of the consumer of a `STOBJ-LET`: without the children, and with the ordinary variables.
pub fn consumer_scope(
    alloc: Global,
    world: &World,
    heap: &Heap,
    scope: &Scope,
    bindings: &[(SymId, Core)],
    vars: &[SymId],
) -> Result<Scope, AllocError>
    ensures { IfOk result (λ s. seen_scope s ≡ consumer_scope (seen_world heap.now world.now) (seen_scope scope.now) (bound_names bindings.now) (numbers vars.now)) }
{
    let children = names_of(alloc, bindings)?;
    let mut inner = without(alloc, children.as_slice(), scope)?;
    let ordinary = ordinary_names(alloc, world, heap, vars)?;
    bind(&mut inner, world, heap, ordinary.as_slice())?;
    Ok(inner)
}

/// The scope of the body of a `WITH-LOCAL-STOBJ`: without the object, and with the other names.
pub fn body_scope(
    alloc: Global,
    world: &World,
    heap: &Heap,
    scope: &Scope,
    stobj: SymId,
    names: &[SymId],
) -> Result<Scope, AllocError>
    ensures { IfOk result (λ s. seen_scope s ≡ body_scope (seen_world heap.now world.now) (seen_scope scope.now) stobj.0 (numbers names.now)) }
{
    let mut inner = without(alloc, &[stobj], scope)?;
    let others = other_names(alloc, stobj, names)?;
    bind(&mut inner, world, heap, others.as_slice())?;
    Ok(inner)
}
