//! What a `STOBJ-LET` binds.

ghost use Rattle.std.specs.Prelude.{◌≡◌, ◌++◌, ◌∷◌, [], map, Some, None, IfOk, option_map};
ghost use Rattle.acl_heap.specs.Objects.{object_of, Lies};
ghost use Rattle.model_terms.specs.Cores as cores;
ghost use Rattle.model_terms.specs.Cores.{reached_from, reached_by, reached};
ghost use Rattle.model_terms.specs.Nested.{takes_index, bound_child_by, bound_child, bound_children};
ghost use Rattle.acl_terms.specs.Forms.{bound_names, seen_core, seen_cores, seen_bound, CoreLies};
ghost use Rattle.acl_worlds.specs.Contents.{seen_world};
ghost use Rattle.acl_nest.specs.Accessors.{seen_holds, seen_accessor};
ghost use Rattle.acl_nest.specs.Bindings.{plain, plain_reached, plain_child, plain_children, seen_index, seen_reached, seen_child, seen_children, FormsLie, BoundLie};

use crate::accessors::{ChildAccessor, HeldStobjs, child_accessor};
use acl_base::{SymId, Word};
use acl_heap::{Heap, Seen};
use acl_outputs::variable;
use acl_terms::Core;
use acl_worlds::World;
use sqlite_items::Items;
use std::alloc::{AllocError, Global};

/// What stands as an index in an array of children.
#[derive(Clone, Copy, Debug)]
pub enum ChildIndex {
    Variable(SymId),
    Integer(i128),
    /// A form that is no index.
    Other,
}

/// A call that reaches a child.
#[derive(Clone, Copy, Debug)]
pub struct Reached {
    pub accessor: SymId,
    pub index: Option<ChildIndex>,
    /// The variable of the object that holds the child.
    pub parent: SymId,
}

/// A child under the name that it is bound to.
#[derive(Clone, Copy, Debug)]
pub struct BoundChild {
    pub name: SymId,
    pub accessor: ChildAccessor,
    /// Its place, where its field holds an array.
    pub index: Option<ChildIndex>,
    /// The variable of the object that holds it.
    pub parent: SymId,
}

fn constant_index(heap: &Heap, value: Word) -> ChildIndex
    requires { Lies heap.now value }
    ensures { seen_index result ≡ plain (cores.Const (object_of heap.now value)) }
{
    match heap.look(value) {
        Seen::Integer(n) => ChildIndex::Integer(n),
        Seen::Symbol(_) => ChildIndex::Other,
        Seen::Text(_) => ChildIndex::Other,
        Seen::Pair(_, _) => ChildIndex::Other,
    }
}

/// The index that a form is.
#[tactic(auto, using(crate::proofs::BindingLemmas::plain_var, crate::proofs::BindingLemmas::plain_const, crate::proofs::BindingLemmas::plain_if, crate::proofs::BindingLemmas::plain_let, crate::proofs::BindingLemmas::plain_mv, crate::proofs::BindingLemmas::plain_mv_let, crate::proofs::BindingLemmas::plain_stobj_let, crate::proofs::BindingLemmas::plain_with_local, crate::proofs::BindingLemmas::plain_must_be_equal, crate::proofs::BindingLemmas::plain_call, crate::proofs::ReachLemmas::const_lies))]
fn index_of(core: &Core, heap: &Heap) -> ChildIndex
    requires { CoreLies heap.now core.now }
    ensures { seen_index result ≡ plain (seen_core heap.now core.now) }
{
    match core {
        Core::Var(x) => ChildIndex::Variable(*x),
        Core::Const(value) => constant_index(heap, *value),
        Core::If(_, _, _) => ChildIndex::Other,
        Core::Let(_, _) => ChildIndex::Other,
        Core::Mv(_) => ChildIndex::Other,
        Core::MvLet(_, _, _) => ChildIndex::Other,
        Core::StobjLet { .. } => ChildIndex::Other,
        Core::WithLocal { .. } => ChildIndex::Other,
        Core::MustBeEqual(_, _) => ChildIndex::Other,
        Core::Call(_, _) => ChildIndex::Other,
    }
}

fn reached_from(
    accessor: SymId,
    index: Option<ChildIndex>,
    parent: &Core,
    heap: &Heap,
) -> Option<Reached>
    ensures { option_map seen_reached result ≡ reached_from accessor.0 (option_map seen_index index) (seen_core heap.now parent.now) }
{
    match variable(parent, heap) {
        Some(parent) => Some(Reached {
            accessor,
            index,
            parent,
        }),
        None => None,
    }
}

#[tactic(auto, using(crate::proofs::BindingLemmas::reached_one, crate::proofs::BindingLemmas::reached_two, crate::proofs::ReachLemmas::first_lies))]
fn reached_by(accessor: SymId, actuals: &[Core], heap: &Heap) -> Option<Reached>
    requires { FormsLie heap.now actuals.now }
    ensures { option_map seen_reached result ≡ option_map plain_reached (reached_by accessor.0 (cores.cores (seen_cores heap.now actuals.now))) }
{
    if actuals.len() == 1 {
        return reached_from(accessor, None, &actuals[0], heap);
    }
    if actuals.len() == 2 {
        let index = index_of(&actuals[0], heap);
        return reached_from(accessor, Some(index), &actuals[1], heap);
    }
    None
}

/// The call of an accessor on a variable, with an index before it or with none. None where a form is no such call.
#[tactic(auto, using(crate::proofs::BindingLemmas::reached_var, crate::proofs::BindingLemmas::reached_const, crate::proofs::BindingLemmas::reached_if, crate::proofs::BindingLemmas::reached_let, crate::proofs::BindingLemmas::reached_mv, crate::proofs::BindingLemmas::reached_mv_let, crate::proofs::BindingLemmas::reached_stobj_let, crate::proofs::BindingLemmas::reached_with_local, crate::proofs::BindingLemmas::reached_must_be_equal, crate::proofs::BindingLemmas::reached_call, crate::proofs::ReachLemmas::actuals_lie))]
pub fn reached_in(core: &Core, heap: &Heap) -> Option<Reached>
    requires { CoreLies heap.now core.now }
    ensures { option_map seen_reached result ≡ option_map plain_reached (reached (seen_core heap.now core.now)) }
{
    match core {
        Core::Var(_) => None,
        Core::Const(_) => None,
        Core::If(_, _, _) => None,
        Core::Let(_, _) => None,
        Core::Mv(_) => None,
        Core::MvLet(_, _, _) => None,
        Core::StobjLet { .. } => None,
        Core::WithLocal { .. } => None,
        Core::MustBeEqual(_, _) => None,
        Core::Call(f, actuals) => reached_by(*f, actuals.as_slice(), heap),
    }
}

fn takes_index(holds: HeldStobjs, index: Option<ChildIndex>) -> bool
    ensures { result ≡ takes_index (seen_holds holds) (option_map seen_index index) }
{
    match holds {
        HeldStobjs::One(_) => match index {
            None => true,
            Some(_) => false,
        },
        HeldStobjs::Many(_) => match index {
            None => false,
            Some(_) => true,
        },
    }
}

fn bound_child_by(name: SymId, reached: Reached, accessor: ChildAccessor) -> Option<BoundChild>
    ensures { option_map seen_child result ≡ bound_child_by name.0 (seen_reached reached) (seen_accessor accessor) }
{
    if takes_index(accessor.holds, reached.index) {
        Some(BoundChild {
            name,
            accessor,
            index: reached.index,
            parent: reached.parent,
        })
    } else {
        None
    }
}

/// The child that a binding names. None where what is bound is no call of a child's accessor on a variable.
#[tactic(auto, using(crate::proofs::BindingLemmas::child_there, crate::proofs::BindingLemmas::child_unreached, crate::proofs::BindingLemmas::child_apart))]
fn bound_child(world: &World, heap: &Heap, name: SymId, bound: &Core) -> Option<BoundChild>
    requires { CoreLies heap.now bound.now }
    ensures { option_map seen_child result ≡ option_map plain_child (bound_child (seen_world heap.now world.now) name.0 (seen_core heap.now bound.now)) }
{
    match reached_in(bound, heap) {
        Some(found) => match child_accessor(world, heap, found.accessor) {
            Some(accessor) => bound_child_by(name, found, accessor),
            None => None,
        },
        None => None,
    }
}

/// The children that bindings name, where each names one. Words of the forms lie in the heap.
#[tactic(auto, using(crate::proofs::BindingLemmas::found_start, crate::proofs::BindingLemmas::found_end, crate::proofs::BindingLemmas::found_step, crate::proofs::BindingLemmas::found_none, crate::proofs::ReachLemmas::bound_lies))]
pub fn bound_children(
    alloc: Global,
    world: &World,
    heap: &Heap,
    bindings: &[(SymId, Core)],
) -> Result<Option<Items<BoundChild>>, AllocError>
    requires { BoundLie heap.now bindings.now }
    ensures { IfOk result (λ r. option_map seen_children r ≡ plain_children (bound_children (seen_world heap.now world.now) (bound_names bindings.now) (cores.cores (seen_bound heap.now bindings.now)))) }
{
    let mut found = Items::new(alloc);
    for binding in bindings {
        match bound_child(world, heap, binding.0, &binding.1) {
            Some(child) => found.push(child)?,
            None => return Ok(None),
        }
    }
    Ok(Some(found))
}
