//! A stop closes an export's call, before its exec function runs.

ghost use Rattle.std.specs.Prelude.{◌≡◌, length, OnOk, OnErr};
ghost use Rattle.acl_machine.specs.declared.frame.Control.TheVariants as control;
ghost use Rattle.acl_machine.specs.declared.frame.Step.TheVariants as step;
ghost use Rattle.acl_machine.specs.Turns.{IsFirst};
ghost use Rattle.acl_machine.specs.Steps.{IsSound};
ghost use Rattle.acl_machine.specs.Views.{around};
ghost use Rattle.acl_machine.specs.Keeping.{TurnsTo, StillKeeps};

use crate::exports::{abstract_at, formals};
use crate::steps::close;
use acl_base::FnId;
use acl_code::Terms;
use acl_heap::Heap;
use acl_keep::Keeper;
use acl_machine::{Frame, Halt, Machine};
use acl_syms::Symbols;
use acl_worlds::World;
use std::alloc::AllocError;

/// A stop in its guard: what the call left behind is in scope again, and the stop is seen as before the call.
pub fn close_allowing<K: Keeper>(
    machine: &mut Machine,
    keeper: &mut K,
    world: &World,
    _terms: &Terms,
    heap: &Heap,
    _syms: &Symbols,
    _limit: u64,
    _why: Halt,
    frame: Frame,
    function: FnId,
    names: u64,
    number: u64,
) -> Result<(), AllocError>
    requires stopped { machine.old.control ≡ control.Stopped _why }
    requires first { IsFirst frame machine.old.frames }
    requires step { frame.step ≡ step.Allowing function names number }
    requires sound { IsSound _syms.now heap.now machine.old }
    requires keeper { K.IsSound keeper.old heap.now world.now (length _syms.now.symbols) }
    ensures turns { OnOk result (TurnsTo K.keeping (K.Keeps keeper.old) (K.Keeps keeper.new) (around heap.now world.now _terms.now _syms.now _limit) (around heap.now world.now _terms.now _syms.now _limit) machine.old machine.new) }
    ensures err { OnErr result (StillKeeps (K.Keeps keeper.old) (K.Keeps keeper.new)) }
    ensures sound { OnOk result (IsSound _syms.now heap.now machine.new) }
    ensures keeper_sound { K.IsSound keeper.new heap.now world.now (length _syms.now.symbols) }
{
    let of = abstract_at(world, function);
    let formals = formals(of);
    machine.take_actuals(frame.base, formals.len() as u64, names)?;
    close(machine, names, number)?;
    keeper.hand_back(heap, formals, machine.actuals.as_slice());
    keeper.forget();
    Ok(())
}

/// A stop before its exec function is called: it is seen as before the call of the export.
pub fn close_exporting<K: Keeper>(
    machine: &mut Machine,
    keeper: &mut K,
    _world: &World,
    _terms: &Terms,
    _heap: &Heap,
    _syms: &Symbols,
    _limit: u64,
    _why: Halt,
    _frame: Frame,
    _function: FnId,
    names: u64,
    number: u64,
) -> Result<(), AllocError>
    requires stopped { machine.old.control ≡ control.Stopped _why }
    requires first { IsFirst _frame machine.old.frames }
    requires step { _frame.step ≡ step.Exporting _function names number }
    requires sound { IsSound _syms.now _heap.now machine.old }
    requires keeper { K.IsSound keeper.old _heap.now _world.now (length _syms.now.symbols) }
    ensures turns { OnOk result (TurnsTo K.keeping (K.Keeps keeper.old) (K.Keeps keeper.new) (around _heap.now _world.now _terms.now _syms.now _limit) (around _heap.now _world.now _terms.now _syms.now _limit) machine.old machine.new) }
    ensures err { OnErr result (StillKeeps (K.Keeps keeper.old) (K.Keeps keeper.new)) }
    ensures sound { OnOk result (IsSound _syms.now _heap.now machine.new) }
    ensures keeper_sound { K.IsSound keeper.new _heap.now _world.now (length _syms.now.symbols) }
{
    close(machine, names, number)?;
    keeper.forget();
    Ok(())
}
