//! Calls that are left by a stop.

ghost use Rattle.std.specs.Prelude.{◌≡◌, None, Some, length, OnOk, OnErr};
ghost use Rattle.acl_terms.specs.Forms.{numbers};
ghost use Rattle.acl_keep.specs.Seen.{all_seen};
ghost use Rattle.acl_machine.specs.declared.frame.Control.TheVariants as control;
ghost use Rattle.acl_machine.specs.declared.frame.Step.TheVariants as step;
ghost use Rattle.acl_machine.specs.Keeping.{TurnsTo, StillKeeps, MayGo};
ghost use Rattle.acl_machine.specs.Steps.{IsSound};
ghost use Rattle.acl_machine.specs.Turns.{IsFirst};
ghost use Rattle.acl_machine.specs.Views.{around};
ghost use Rattle.acl_call_turns.specs.Calls.{IsInCall, formals_at, actuals_for, MayThen};

use crate::form::{close_form, stop_inside};
use crate::written::formals_of;
use acl_base::FnId;
use acl_code::Terms;
use acl_heap::Heap;
use acl_keep::Keeper;
use acl_machine::{Frame, Halt, Inside, Machine};
use acl_syms::Symbols;
use acl_worlds::World;
use std::alloc::AllocError;

/// A stop closes a call, in its guard or its body.
pub fn close_call<K: Keeper>(
    machine: &mut Machine,
    keeper: &mut K,
    world: &World,
    _terms: &Terms,
    heap: &Heap,
    _syms: &Symbols,
    _limit: u64,
    _why: Halt,
    frame: Frame,
    function: FnId,
    names: u64,
) -> Result<(), AllocError>
    requires stopped { machine.old.control ≡ control.Stopped _why }
    requires first { IsFirst frame machine.old.frames }
    requires step { IsInCall None function names frame.step }
    requires sound { IsSound _syms.now heap.now machine.old }
    requires keeper { K.IsSound keeper.old heap.now world.now (length _syms.now.symbols) }
    ensures turns { OnOk result (TurnsTo K.keeping (K.Keeps keeper.old) (K.Keeps keeper.new) (around heap.now world.now _terms.now _syms.now _limit) (around heap.now world.now _terms.now _syms.now _limit) machine.old machine.new) }
    ensures err { OnErr result (StillKeeps (K.Keeps keeper.old) (K.Keeps keeper.new)) }
    ensures sound { OnOk result (IsSound _syms.now heap.now machine.new) }
    ensures keeper_sound { K.IsSound keeper.new heap.now world.now (length _syms.now.symbols) }
{
    let formals = formals_of(world, function);
    close_form(machine)?;
    machine.take_actuals(frame.base, formals.len() as u64, names)?;
    machine.names.drop_last(names);
    keeper.hand_back(heap, formals, machine.actuals.as_slice());
    Ok(())
}

/// A stop closes the call of the function that does the work of an export: what it did is undone, and the stop came inside the
/// export.
pub fn close_exec<K: Keeper>(
    machine: &mut Machine,
    keeper: &mut K,
    world: &World,
    _terms: &Terms,
    heap: &Heap,
    _syms: &Symbols,
    _limit: u64,
    _why: Halt,
    frame: Frame,
    export: Inside,
    function: FnId,
    names: u64,
) -> Result<(), AllocError>
    requires stopped { machine.old.control ≡ control.Stopped _why }
    requires first { IsFirst frame machine.old.frames }
    requires step { IsInCall (Some export) function names frame.step }
    requires may { MayGo (K.Keeps keeper.old) (MayThen K.keeping K.MayAbandon (numbers (formals_at world.now function)) (all_seen heap.now (actuals_for world.now function frame.base names machine.old))) machine.old }
    requires sound { IsSound _syms.now heap.now machine.old }
    requires keeper { K.IsSound keeper.old heap.now world.now (length _syms.now.symbols) }
    ensures turns { OnOk result (TurnsTo K.keeping (K.Keeps keeper.old) (K.Keeps keeper.new) (around heap.now world.now _terms.now _syms.now _limit) (around heap.now world.now _terms.now _syms.now _limit) machine.old machine.new) }
    ensures err { OnErr result (StillKeeps (K.Keeps keeper.old) (K.Keeps keeper.new)) }
    ensures sound { OnOk result (IsSound _syms.now heap.now machine.new) }
    ensures keeper_sound { K.IsSound keeper.new heap.now world.now (length _syms.now.symbols) }
{
    let formals = formals_of(world, function);
    close_form(machine)?;
    machine.take_actuals(frame.base, formals.len() as u64, names)?;
    machine.names.drop_last(names);
    machine.take_outer_actuals(frame.base, export.count, export.names)?;
    stop_inside(machine, export);
    keeper.hand_back(heap, formals, machine.actuals.as_slice());
    keeper.abandon(heap, machine.outer_actuals.as_slice());
    Ok(())
}

/// A stop closes what is left of the function that does the work of an export: what it did is undone, and the stop came inside the
/// export.
pub fn close_export<K: Keeper>(
    machine: &mut Machine,
    keeper: &mut K,
    _world: &World,
    _terms: &Terms,
    heap: &Heap,
    _syms: &Symbols,
    _limit: u64,
    _why: Halt,
    frame: Frame,
    export: Inside,
) -> Result<(), AllocError>
    requires stopped { machine.old.control ≡ control.Stopped _why }
    requires first { IsFirst frame machine.old.frames }
    requires step { frame.step ≡ step.Last (Some export) }
    requires may { MayGo (K.Keeps keeper.old) K.MayAbandon machine.old }
    requires sound { IsSound _syms.now heap.now machine.old }
    requires keeper { K.IsSound keeper.old heap.now _world.now (length _syms.now.symbols) }
    ensures turns { OnOk result (TurnsTo K.keeping (K.Keeps keeper.old) (K.Keeps keeper.new) (around heap.now _world.now _terms.now _syms.now _limit) (around heap.now _world.now _terms.now _syms.now _limit) machine.old machine.new) }
    ensures err { OnErr result (StillKeeps (K.Keeps keeper.old) (K.Keeps keeper.new)) }
    ensures sound { OnOk result (IsSound _syms.now heap.now machine.new) }
    ensures keeper_sound { K.IsSound keeper.new heap.now _world.now (length _syms.now.symbols) }
{
    close_form(machine)?;
    machine.take_outer_actuals(frame.base, export.count, export.names)?;
    stop_inside(machine, export);
    keeper.abandon(heap, machine.outer_actuals.as_slice());
    Ok(())
}
