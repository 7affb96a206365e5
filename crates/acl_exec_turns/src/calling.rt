//! An export of an abstract object is called, once all actuals have values.

ghost use Rattle.std.specs.Prelude.{◌≡◌, ◌<◌, Some, length, slice_get, OnOk, OnErr};
ghost use Rattle.model_terms.specs.declared.role.AbstractRole.TheVariants as abstract_role;
ghost use Rattle.acl_terms.specs.declared.definition.Definition.TheVariants as definition;
ghost use Rattle.acl_machine.specs.declared.frame.Control.TheVariants as control;
ghost use Rattle.acl_machine.specs.declared.frame.Step.TheVariants as step;
ghost use Rattle.acl_machine.specs.Turns.{IsFirst};
ghost use Rattle.acl_machine.specs.Steps.{IsSound};
ghost use Rattle.acl_machine.specs.Views.{around};
ghost use Rattle.acl_machine.specs.Keeping.{TurnsTo, StillKeeps};

use crate::steps::begin_guard;
use acl_base::FnId;
use acl_call_turns::hand_actuals_over;
use acl_code::Terms;
use acl_heap::Heap;
use acl_keep::Keeper;
use acl_machine::{Frame, Machine, slot_in};
use acl_syms::Symbols;
use acl_terms::AbstractFunction;
use acl_worlds::World;
use std::alloc::AllocError;

/// A call of an export, which is counted: what is in scope is remembered, the actuals are handed over, and the export's guard begins
/// in their window. Where memory is refused, what was remembered is forgotten.
pub fn call_export<K: Keeper>(
    machine: &mut Machine,
    keeper: &mut K,
    _world: &World,
    _terms: &Terms,
    heap: &Heap,
    _syms: &Symbols,
    limit: u64,
    frame: Frame,
    at: u64,
    function: FnId,
    count: u64,
    of: &AbstractFunction,
) -> Result<(), AllocError>
    requires given { machine.old.control ≡ control.Give }
    requires first { IsFirst frame machine.old.frames }
    requires step { frame.step ≡ step.Calling at function count }
    requires left { machine.old.calls < limit }
    requires is { slice_get _world.now.definitions function.0 ≡ Some (definition.OfAbstract of.now) }
    requires role { of.now.role ≡ abstract_role.Export }
    requires sound { IsSound _syms.now heap.now machine.old }
    requires keeper { K.IsSound keeper.old heap.now _world.now (length _syms.now.symbols) }
    ensures turns { OnOk result (TurnsTo K.keeping (K.Keeps keeper.old) (K.Keeps keeper.new) (around heap.now _world.now _terms.now _syms.now limit) (around heap.now _world.now _terms.now _syms.now limit) machine.old machine.new) }
    ensures err { OnErr result (StillKeeps (K.Keeps keeper.old) (K.Keeps keeper.new)) }
    ensures sound { OnOk result (IsSound _syms.now heap.now machine.new) }
    ensures keeper_sound { K.IsSound keeper.new heap.now _world.now (length _syms.now.symbols) }
{
    let base = slot_in(frame.base, at)?;
    machine.count(limit)?;
    machine.actuals.copy(&machine.values, base, count)?;
    keeper.remember()?;
    match hand_actuals_over(machine, keeper, heap, base, of.formals.as_slice()) {
        Ok(names) => {
            begin_guard(machine, function, names, of.guard_term, base);
            Ok(())
        }
        Err(error) => {
            keeper.forget();
            Err(error)
        }
    }
}
