//! Exec functions that are not run: no call is left, or what stands there may not be called.

ghost use Rattle.std.specs.Prelude.{◌≡◌, ◌≤◌, ◌<◌, ◌^◌, length, slice_get, OnOk, OnErr};
ghost use Rattle.acl_machine.specs.declared.frame.Control.TheVariants as control;
ghost use Rattle.acl_machine.specs.declared.frame.Step.TheVariants as step;
ghost use Rattle.acl_machine.specs.Turns.{IsFirst};
ghost use Rattle.acl_machine.specs.Steps.{IsSound};
ghost use Rattle.acl_machine.specs.Views.{around};
ghost use Rattle.acl_machine.specs.Keeping.{TurnsTo};
ghost use Rattle.acl_exec_turns.specs.Exports.{Reads};
ghost use Rattle.acl_exec_turns.specs.Execs.{exec_number, IsNoneToRun, StillGoes};

use crate::exports::Export;
use crate::steps::{call, inside_export, stop_before, stop_inside};
use acl_base::FnId;
use acl_code::Terms;
use acl_heap::Heap;
use acl_keep::Keeper;
use acl_machine::{Frame, Halt, Machine};
use acl_syms::Symbols;
use acl_worlds::World;
use std::alloc::AllocError;

/// No call is left for an exec function: it stops, seen as before the export's call, whose beginning is forgotten.
pub(crate) fn exec_too_many<K: Keeper>(
    machine: &mut Machine,
    keeper: &mut K,
    _world: &World,
    _terms: &Terms,
    _heap: &Heap,
    _syms: &Symbols,
    _limit: u64,
    frame: Frame,
    _function: FnId,
    names: u64,
    number: u64,
)
    requires given { machine.old.control ≡ control.Give }
    requires first { IsFirst frame machine.old.frames }
    requires step { frame.step ≡ step.Exporting _function names number }
    requires none { _limit ≤ machine.old.calls }
    requires sound { IsSound _syms.now _heap.now machine.old }
    requires keeper { K.IsSound keeper.old _heap.now _world.now (length _syms.now.symbols) }
    ensures turns { TurnsTo K.keeping (K.Keeps keeper.old) (K.Keeps keeper.new) (around _heap.now _world.now _terms.now _syms.now _limit) (around _heap.now _world.now _terms.now _syms.now _limit) machine.old machine.new }
    ensures sound { IsSound _syms.now _heap.now machine.new }
    ensures keeper_sound { K.IsSound keeper.new _heap.now _world.now (length _syms.now.symbols) }
{
    stop_before(machine, names, number, frame.base);
    keeper.forget();
}

/// The exec function is none, or may not be called: its call is counted, and is refused inside the export.
#[tactic(auto, using(crate::proofs::KeepLemmas::same_goes))]
pub(crate) fn exec_refused<K: Keeper>(
    machine: &mut Machine,
    keeper: &mut K,
    _world: &World,
    _terms: &Terms,
    _heap: &Heap,
    _syms: &Symbols,
    limit: u64,
    frame: Frame,
    _function: FnId,
    names: u64,
    number: u64,
    export: Export,
) -> Result<(), AllocError>
    requires given { machine.old.control ≡ control.Give }
    requires first { IsFirst frame machine.old.frames }
    requires step { frame.step ≡ step.Exporting _function names number }
    requires left { machine.old.calls < limit }
    requires few { length machine.old.frames < 2 ^ 63 }
    requires export { Reads (slice_get _world.now.definitions _function.0) export.name export.exec export.count }
    requires refused { IsNoneToRun _world.now.definitions (exec_number _world.now _function) }
    requires sound { IsSound _syms.now _heap.now machine.old }
    requires keeper { K.IsSound keeper.old _heap.now _world.now (length _syms.now.symbols) }
    ensures turns { OnOk result (TurnsTo K.keeping (K.Keeps keeper.old) (K.Keeps keeper.new) (around _heap.now _world.now _terms.now _syms.now limit) (around _heap.now _world.now _terms.now _syms.now limit) machine.old machine.new) }
    ensures err { OnErr result (StillGoes (K.Keeps keeper.old) (K.Keeps keeper.new) machine.old) }
    ensures sound { OnOk result (IsSound _syms.now _heap.now machine.new) }
    ensures keeper_sound { K.IsSound keeper.new _heap.now _world.now (length _syms.now.symbols) }
{
    let inside = inside_export(machine, export, names, number);
    call(machine, frame.base, export.count, names, limit)?;
    stop_inside(machine, inside, Halt::Guard(export.exec), frame.base)?;
    keeper.begin_export();
    Ok(())
}
