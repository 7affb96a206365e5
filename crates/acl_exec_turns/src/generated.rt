//! An exec function that an object comes with is called.

ghost use Rattle.std.specs.Prelude.{◌≡◌, ◌<◌, ◌^◌, Some, length, slice_get, OnOk, OnErr};
ghost use Rattle.acl_heap.specs.Objects.{Extends};
ghost use Rattle.acl_terms.specs.declared.definition.Definition.TheVariants as definition;
ghost use Rattle.acl_worlds.specs.Contents.{WorldLies};
ghost use Rattle.acl_code.specs.Tables.{TermsLie};
ghost use Rattle.acl_machine.specs.declared.frame.Control.TheVariants as control;
ghost use Rattle.acl_machine.specs.declared.frame.Step.TheVariants as step;
ghost use Rattle.acl_machine.specs.Turns.{IsFirst};
ghost use Rattle.acl_machine.specs.Steps.{IsSound};
ghost use Rattle.acl_machine.specs.Views.{around};
ghost use Rattle.acl_machine.specs.Keeping.{TurnsTo, MayGo};
ghost use Rattle.acl_exec_turns.specs.Exports.{Reads};
ghost use Rattle.acl_exec_turns.specs.Execs.{exec_number, MayExec, StillGoes};

use crate::exports::Export;
use crate::steps::{answer, call_with_room, inside_export};
use acl_base::FnId;
use acl_code::Terms;
use acl_heap::Heap;
use acl_keep::Keeper;
use acl_machine::{Frame, Machine};
use acl_syms::Symbols;
use acl_terms::GeneratedFunction;
use acl_worlds::{World, worlds_are_seen};
use std::alloc::AllocError;

/// An exec function that an object comes with is called, which is counted: what it answers inside the export, by the definition, or
/// its guard is not met. Where memory is refused, the beginning of the export is taken back.
#[tactic(auto, using(crate::proofs::KeepLemmas::same_goes))]
pub(crate) fn exec_generated<K: Keeper>(
    machine: &mut Machine,
    keeper: &mut K,
    world: &World,
    _terms: &Terms,
    heap: &mut Heap,
    syms: &Symbols,
    limit: u64,
    frame: Frame,
    _function: FnId,
    names: u64,
    number: u64,
    export: Export,
    _exec: FnId,
    generated: &GeneratedFunction,
) -> Result<(), AllocError>
    requires given { machine.old.control ≡ control.Give }
    requires first { IsFirst frame machine.old.frames }
    requires step { frame.step ≡ step.Exporting _function names number }
    requires left { machine.old.calls < limit }
    requires few { length machine.old.frames < 2 ^ 63 }
    requires export { Reads (slice_get world.now.definitions _function.0) export.name export.exec export.count }
    requires number { exec_number world.now _function ≡ Some _exec.0 }
    requires is { slice_get world.now.definitions _exec.0 ≡ Some (definition.Generated generated.now) }
    requires terms { TermsLie heap.old _terms.now }
    requires world { WorldLies heap.old world.now }
    requires may { MayGo (K.Keeps keeper.old) (MayExec K.keeping K.MayCall heap.old world.now _function frame.base names machine.old) machine.old }
    requires sound { IsSound syms.now heap.old machine.old }
    requires keeper { K.IsSound keeper.old heap.old world.now (length syms.now.symbols) }
    ensures turns { OnOk result (TurnsTo K.keeping (K.Keeps keeper.old) (K.Keeps keeper.new) (around heap.old world.now _terms.now syms.now limit) (around heap.new world.now _terms.now syms.now limit) machine.old machine.new) }
    ensures err { OnErr result (StillGoes (K.Keeps keeper.old) (K.Keeps keeper.new) machine.old) }
    ensures sound { OnOk result (IsSound syms.now heap.new machine.new) }
    ensures keeper_sound { K.IsSound keeper.new heap.new world.now (length syms.now.symbols) }
    ensures grows { Extends heap.old heap.new }
{
    worlds_are_seen();
    let inside = inside_export(machine, export, names, number);
    let cut = call_with_room(machine, frame.base, export.count, names, limit)?;
    let actuals = machine.actuals.as_slice();
    keeper.begin_export();
    match keeper.prepare(world, heap, syms, generated, actuals) {
        Ok(()) => {
            let effect = keeper.call(world, heap, syms, generated, actuals);
            answer(machine, effect, generated.name, inside, frame.base, cut);
            Ok(())
        }
        Err(error) => {
            keeper.cancel_export();
            Err(error)
        }
    }
}
