//! The conditions on the children that a `STOBJ-LET` binds.

ghost use Rattle.std.specs.Prelude.{◌≡◌, ◌∷◌, ◌&&◌, map, not, is_some, true, IfOk};
ghost use Rattle.std.specs.Option.{option_map_or};
ghost use Rattle.std.specs.List.{list_any, list_all};
ghost use Rattle.model_terms.specs.Nested as nested;
ghost use Rattle.model_terms.specs.Nested.{child_stobj, stands_for, have_parent, have_names, constant_index, is_ordinary_in, is_index, have_indices, same_number, same_constant_index, same_child, bind_twice};
ghost use Rattle.model_terms.specs.Classes.{congruent, repeats};
ghost use Rattle.acl_terms.specs.Forms.{numbers};
ghost use Rattle.acl_terms.specs.Signatures.{seen_scope};
ghost use Rattle.acl_worlds.specs.Contents.{seen_world};
ghost use Rattle.acl_nest.specs.Accessors.{seen_holds};
ghost use Rattle.acl_nest.specs.Bindings.{seen_index, seen_child, seen_children};

use crate::accessors::HeldStobjs;
use crate::bindings::{BoundChild, ChildIndex};
use crate::kinds::is_object;
use acl_base::SymId;
use acl_heap::Heap;
use acl_outputs::{congruent, has, repeats};
use acl_terms::{Out, Scope};
use acl_worlds::World;
use sqlite_items::Items;
use std::alloc::{AllocError, Global};

// ---- the parent

/// Whether a name is the variable of an object in scope, congruent to this object.
fn stands_for(world: &World, heap: &Heap, scope: &Scope, name: SymId, stobj: SymId) -> bool
    ensures { result ≡ stands_for (seen_world heap.now world.now) (seen_scope scope.now) name.0 stobj.0 }
{
    if is_object(scope.kind_of(name)) {
        congruent(world, heap, stobj, name)
    } else {
        false
    }
}

/// Whether all are children of the object in scope whose variable this is, each reached by an accessor of a congruent
/// object.
#[tactic(auto, using(crate::proofs::ChildLemmas::parent_step, crate::proofs::ChildLemmas::parent_end))]
pub fn have_parent(
    world: &World,
    heap: &Heap,
    scope: &Scope,
    parent: SymId,
    children: &[BoundChild],
) -> bool
    ensures { result ≡ have_parent (seen_world heap.now world.now) (seen_scope scope.now) parent.0 (seen_children children.now) }
{
    for child in children {
        if child.parent.0 != parent.0 {
            return false;
        }
        if !stands_for(world, heap, scope, parent, child.accessor.stobj) {
            return false;
        }
    }
    true
}

// ---- the names

/// The object that a child is congruent to.
fn child_stobj(holds: HeldStobjs) -> SymId
    ensures { result.0 ≡ child_stobj (seen_holds holds) }
{
    match holds {
        HeldStobjs::One(stobj) => stobj,
        HeldStobjs::Many(stobj) => stobj,
    }
}

#[tactic(auto, using(crate::proofs::ChildLemmas::names_step, crate::proofs::ChildLemmas::names_end, acl_outputs::proofs::ListLemmas::numbers_push))]
fn names_of(alloc: Global, children: &[BoundChild]) -> Result<Items<SymId>, AllocError>
    ensures { IfOk result (λ ns. numbers ns ≡ map (λ (b : nested.BoundChild). b.name) (seen_children children.now)) }
{
    let mut names = Items::new(alloc);
    for child in children {
        names.push(child.name)?;
    }
    Ok(names)
}

#[tactic(auto, using(crate::proofs::ChildLemmas::congruent_step, crate::proofs::ChildLemmas::congruent_end))]
fn all_congruent(world: &World, heap: &Heap, children: &[BoundChild]) -> bool
    ensures { result ≡ list_all (λ (b : nested.BoundChild). congruent (seen_world heap.now world.now) (child_stobj b.accessor.holds) b.name) (seen_children children.now) }
{
    for child in children {
        let stobj = child_stobj(child.accessor.holds);
        if !congruent(world, heap, stobj, child.name) {
            return false;
        }
    }
    true
}

/// Whether the names are different from each other and from the parent's, each congruent to its child's object. The cost
/// is quadratic in the names.
pub fn have_names(
    alloc: Global,
    world: &World,
    heap: &Heap,
    parent: SymId,
    children: &[BoundChild],
) -> Result<bool, AllocError>
    ensures { IfOk result (λ b. b ≡ have_names (seen_world heap.now world.now) parent.0 (seen_children children.now)) }
{
    let names = names_of(alloc, children)?;
    if has(names.as_slice(), parent) {
        return Ok(false);
    }
    if repeats(names.as_slice()) {
        return Ok(false);
    }
    Ok(all_congruent(world, heap, children))
}

// ---- the indices

/// Whether a name is an ordinary variable in scope.
fn is_ordinary_in(scope: &Scope, name: SymId) -> bool
    ensures { result ≡ is_ordinary_in (seen_scope scope.now) name.0 }
{
    match scope.kind_in(name) {
        Some(kind) => match kind {
            Out::Ordinary => true,
            Out::Object(_) => false,
        },
        None => false,
    }
}

/// Whether an index is a natural number, or an ordinary variable in scope that is none of these.
fn is_index(scope: &Scope, vars: &[SymId], index: ChildIndex) -> bool
    ensures { result ≡ is_index (seen_scope scope.now) (numbers vars.now) (seen_index index) }
{
    match index {
        ChildIndex::Variable(x) => {
            if is_ordinary_in(scope, x) {
                !has(vars, x)
            } else {
                false
            }
        }
        ChildIndex::Integer(n) => n >= 0,
        ChildIndex::Other => false,
    }
}

fn has_index(scope: &Scope, vars: &[SymId], child: BoundChild) -> bool
    ensures { result ≡ option_map_or (is_index (seen_scope scope.now) (numbers vars.now)) (seen_child child).index true }
{
    match child.index {
        Some(index) => is_index(scope, vars, index),
        None => true,
    }
}

/// Whether each index is a natural number, or an ordinary variable in scope that is none of these.
#[tactic(auto, using(crate::proofs::ChildLemmas::indices_step, crate::proofs::ChildLemmas::indices_end))]
pub fn have_indices(scope: &Scope, vars: &[SymId], children: &[BoundChild]) -> bool
    ensures { result ≡ have_indices (seen_scope scope.now) (numbers vars.now) (seen_children children.now) }
{
    for child in children {
        if !has_index(scope, vars, *child) {
            return false;
        }
    }
    true
}

// ---- twins

fn same_number(a: ChildIndex, b: ChildIndex) -> bool
    ensures { result ≡ same_number (constant_index (seen_index a)) (constant_index (seen_index b)) }
{
    match a {
        ChildIndex::Variable(_) => false,
        ChildIndex::Integer(m) => match b {
            ChildIndex::Variable(_) => false,
            ChildIndex::Integer(n) => {
                if m < 0 {
                    return false;
                }
                m == n
            }
            ChildIndex::Other => false,
        },
        ChildIndex::Other => false,
    }
}

/// Whether neither has an index, or both are one natural number.
fn same_constant_index(a: BoundChild, b: BoundChild) -> bool
    ensures { result ≡ same_constant_index (seen_child a).index (seen_child b).index }
{
    match a.index {
        None => match b.index {
            None => true,
            Some(_) => false,
        },
        Some(i) => match b.index {
            None => false,
            Some(j) => same_number(i, j),
        },
    }
}

/// Whether both are one child for sure: one field, and one place in it.
fn same_child(a: BoundChild, b: BoundChild) -> bool
    ensures { result ≡ same_child (seen_child a) (seen_child b) }
{
    if a.accessor.field == b.accessor.field {
        same_constant_index(a, b)
    } else {
        false
    }
}

#[tactic(auto, using(crate::proofs::ChildLemmas::again_step, crate::proofs::ChildLemmas::again_end))]
fn bound_again(first: BoundChild, children: &[BoundChild]) -> bool
    ensures { result ≡ list_any (same_child (seen_child first)) (seen_children children.now) }
{
    for child in children {
        if same_child(first, *child) {
            return true;
        }
    }
    false
}

/// Whether one child is bound twice for sure. The cost is quadratic in the children.
#[tactic(auto, using(crate::proofs::ChildLemmas::twice_step, crate::proofs::ChildLemmas::twice_end))]
pub fn bind_twice(children: &[BoundChild]) -> bool
    ensures { result ≡ bind_twice (seen_children children.now) }
{
    for (i, child) in children.iter().enumerate() {
        if bound_again(*child, &children[i + 1..]) {
            return true;
        }
    }
    false
}
