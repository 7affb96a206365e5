//! An exec function that was written is called.

ghost use Rattle.std.specs.Prelude.{◌≡◌, ◌<◌, ◌^◌, Some, length, slice_get, OnOk, OnErr};
ghost use Rattle.acl_terms.specs.declared.definition.Definition.TheVariants as definition;
ghost use Rattle.acl_machine.specs.declared.frame.Control.TheVariants as control;
ghost use Rattle.acl_machine.specs.declared.frame.Step.TheVariants as step;
ghost use Rattle.acl_machine.specs.Turns.{IsFirst};
ghost use Rattle.acl_machine.specs.Steps.{IsSound};
ghost use Rattle.acl_machine.specs.Views.{around};
ghost use Rattle.acl_machine.specs.Keeping.{TurnsTo};
ghost use Rattle.acl_exec_turns.specs.Exports.{Reads};
ghost use Rattle.acl_exec_turns.specs.Execs.{exec_number, StillGoes};

use crate::exports::Export;
use crate::steps::{call, inside_export};
use acl_base::FnId;
use acl_call_turns::enter_function;
use acl_code::Terms;
use acl_heap::Heap;
use acl_keep::Keeper;
use acl_machine::{Frame, Machine};
use acl_syms::Symbols;
use acl_terms::Function;
use acl_worlds::World;
use std::alloc::AllocError;

/// An exec function that was written is called, which is counted: its guard begins in the window of the export, inside it. Where
/// memory is refused, the beginning of the export is taken back.
#[tactic(auto, using(crate::proofs::KeepLemmas::same_goes))]
pub(crate) fn exec_function<K: Keeper>(
    machine: &mut Machine,
    keeper: &mut K,
    _world: &World,
    _terms: &Terms,
    heap: &Heap,
    _syms: &Symbols,
    limit: u64,
    frame: Frame,
    _function: FnId,
    names: u64,
    number: u64,
    export: Export,
    exec: FnId,
    written: &Function,
) -> Result<(), AllocError>
    requires given { machine.old.control ≡ control.Give }
    requires first { IsFirst frame machine.old.frames }
    requires step { frame.step ≡ step.Exporting _function names number }
    requires left { machine.old.calls < limit }
    requires few { length machine.old.frames < 2 ^ 63 }
    requires export { Reads (slice_get _world.now.definitions _function.0) export.name export.exec export.count }
    requires number { exec_number _world.now _function ≡ Some exec.0 }
    requires is { slice_get _world.now.definitions exec.0 ≡ Some (definition.Function written.now) }
    requires sound { IsSound _syms.now heap.now machine.old }
    requires keeper { K.IsSound keeper.old heap.now _world.now (length _syms.now.symbols) }
    ensures turns { OnOk result (TurnsTo K.keeping (K.Keeps keeper.old) (K.Keeps keeper.new) (around heap.now _world.now _terms.now _syms.now limit) (around heap.now _world.now _terms.now _syms.now limit) machine.old machine.new) }
    ensures err { OnErr result (StillGoes (K.Keeps keeper.old) (K.Keeps keeper.new) machine.old) }
    ensures sound { OnOk result (IsSound _syms.now heap.now machine.new) }
    ensures keeper_sound { K.IsSound keeper.new heap.now _world.now (length _syms.now.symbols) }
{
    let inside = inside_export(machine, export, names, number);
    call(machine, frame.base, export.count, names, limit)?;
    keeper.begin_export();
    match enter_function(
        machine,
        keeper,
        heap,
        Some(inside),
        exec,
        written,
        frame.base,
    ) {
        Ok(()) => Ok(()),
        Err(error) => {
            keeper.cancel_export();
            Err(error)
        }
    }
}
