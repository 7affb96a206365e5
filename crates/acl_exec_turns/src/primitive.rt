//! An exec function that is a primitive is called.

ghost use Rattle.std.specs.Prelude.{◌≡◌, ◌<◌, ◌^◌, Some, length, slice_get, OnOk, OnErr};
ghost use Rattle.model_symbols.specs.Growth as growth;
ghost use Rattle.model_symbols.specs.Opening.{opening};
ghost use Rattle.model_prims.specs.Rows as rows;
ghost use Rattle.acl_forms.specs.Forms.{Grown};
ghost use Rattle.acl_terms.specs.declared.definition.Definition.TheVariants as definition;
ghost use Rattle.acl_worlds.specs.Contents.{WorldLies};
ghost use Rattle.acl_code.specs.Tables.{TermsLie};
ghost use Rattle.acl_machine.specs.declared.frame.Control.TheVariants as control;
ghost use Rattle.acl_machine.specs.declared.frame.Step.TheVariants as step;
ghost use Rattle.acl_machine.specs.Turns.{IsFirst};
ghost use Rattle.acl_machine.specs.Steps.{IsSound};
ghost use Rattle.acl_machine.specs.Views.{around};
ghost use Rattle.acl_machine.specs.Keeping.{TurnsTo};
ghost use Rattle.acl_exec_turns.specs.Exports.{Reads};
ghost use Rattle.acl_exec_turns.specs.Execs.{exec_number, StillGoes};

use crate::exports::Export;
use crate::steps::{call, give_inside, inside_export, stop_inside, why_stopped};
use acl_base::{FnId, SymId};
use acl_code::Terms;
use acl_heap::Heap;
use acl_keep::Keeper;
use acl_machine::words::words;
use acl_machine::{Frame, Machine};
use acl_syms::Symbols;
use acl_worlds::{World, worlds_are_seen};
use std::alloc::{AllocError, Global};

/// An exec function that is a primitive is called, which is counted: its value is given inside the export, or it stops there.
#[tactic(auto, using(crate::proofs::KeepLemmas::same_goes))]
pub(crate) fn exec_primitive<K: Keeper>(
    alloc: Global,
    machine: &mut Machine,
    keeper: &mut K,
    _world: &World,
    _terms: &Terms,
    heap: &mut Heap,
    syms: &mut Symbols,
    limit: u64,
    frame: Frame,
    _function: FnId,
    names: u64,
    number: u64,
    export: Export,
    _exec: FnId,
    name: SymId,
    row: u8,
    _arity: u8,
) -> Result<(), AllocError>
    requires given { machine.old.control ≡ control.Give }
    requires first { IsFirst frame machine.old.frames }
    requires step { frame.step ≡ step.Exporting _function names number }
    requires left { machine.old.calls < limit }
    requires few { length machine.old.frames < 2 ^ 63 }
    requires export { Reads (slice_get _world.now.definitions _function.0) export.name export.exec export.count }
    requires number { exec_number _world.now _function ≡ Some _exec.0 }
    requires is { slice_get _world.now.definitions _exec.0 ≡ Some (definition.Primitive name row _arity) }
    requires row { row < length rows.table }
    requires opening { growth.Extends opening syms.old }
    requires terms { TermsLie heap.old _terms.now }
    requires world { WorldLies heap.old _world.now }
    requires sound { IsSound syms.old heap.old machine.old }
    requires keeper { K.IsSound keeper.old heap.old _world.now (length syms.old.symbols) }
    ensures turns { OnOk result (TurnsTo K.keeping (K.Keeps keeper.old) (K.Keeps keeper.new) (around heap.old _world.now _terms.now syms.old limit) (around heap.new _world.now _terms.now syms.new limit) machine.old machine.new) }
    ensures err { OnErr result (StillGoes (K.Keeps keeper.old) (K.Keeps keeper.new) machine.old) }
    ensures sound { OnOk result (IsSound syms.new heap.new machine.new) }
    ensures keeper_sound { K.IsSound keeper.new heap.new _world.now (length syms.new.symbols) }
    ensures grows { Grown syms.old syms.new heap.old heap.new }
    ensures packages { syms.new.packages ≡ syms.old.packages }
{
    worlds_are_seen();
    let inside = inside_export(machine, export, names, number);
    call(machine, frame.base, export.count, names, limit)?;
    let args = words(alloc, &machine.values, frame.base, export.count, heap, syms)?;
    match acl_prims::apply(alloc, row, args.as_slice(), heap, syms) {
        Ok(word) => {
            give_inside(machine, inside, word, frame.base)?;
            keeper.begin_export();
            Ok(())
        }
        Err(stop) => {
            let why = why_stopped(stop, name)?;
            stop_inside(machine, inside, why, frame.base)?;
            keeper.begin_export();
            Ok(())
        }
    }
}
