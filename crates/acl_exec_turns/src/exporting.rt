//! The exec function of an export is called, once the export's guard holds.

ghost use Rattle.std.specs.Prelude.{◌≡◌, ◌<◌, ◌^◌, Some, length, slice_get, OnOk, OnErr};
ghost use Rattle.model_symbols.specs.Growth as growth;
ghost use Rattle.model_symbols.specs.Opening.{opening};
ghost use Rattle.acl_forms.specs.Forms.{Grown};
ghost use Rattle.acl_worlds.specs.Contents.{WorldLies};
ghost use Rattle.acl_code.specs.Tables.{TermsLie};
ghost use Rattle.acl_machine.specs.declared.frame.Control.TheVariants as control;
ghost use Rattle.acl_machine.specs.declared.frame.Step.TheVariants as step;
ghost use Rattle.acl_machine.specs.Turns.{IsFirst};
ghost use Rattle.acl_machine.specs.Steps.{IsSound};
ghost use Rattle.acl_machine.specs.Views.{around};
ghost use Rattle.acl_machine.specs.Keeping.{TurnsTo, MayGo};
ghost use Rattle.acl_exec_turns.specs.Exports.{Reads};
ghost use Rattle.acl_exec_turns.specs.Execs.{exec_number, MayExec, PrimitivesStand, StillGoes};

use crate::exports::{Export, exec_at, export_at};
use crate::function::exec_function;
use crate::generated::exec_generated;
use crate::primitive::exec_primitive;
use crate::stopping::{exec_refused, exec_too_many};
use acl_base::FnId;
use acl_code::Terms;
use acl_heap::Heap;
use acl_keep::Keeper;
use acl_machine::{Frame, Machine};
use acl_syms::Symbols;
use acl_terms::Definition;
use acl_worlds::World;
use std::alloc::{AllocError, Global};

/// The exec function with this number is called, by what it is.
#[tactic(auto, using(crate::proofs::ReadLemmas::row_there, crate::proofs::ReadLemmas::not_run))]
fn exec_run<K: Keeper>(
    alloc: Global,
    machine: &mut Machine,
    keeper: &mut K,
    world: &World,
    terms: &Terms,
    heap: &mut Heap,
    syms: &mut Symbols,
    limit: u64,
    frame: Frame,
    function: FnId,
    names: u64,
    number: u64,
    export: Export,
    exec: FnId,
) -> Result<(), AllocError>
    requires given { machine.old.control ≡ control.Give }
    requires first { IsFirst frame machine.old.frames }
    requires step { frame.step ≡ step.Exporting function names number }
    requires left { machine.old.calls < limit }
    requires few { length machine.old.frames < 2 ^ 63 }
    requires export { Reads (slice_get world.now.definitions function.0) export.name export.exec export.count }
    requires number { exec_number world.now function ≡ Some exec.0 }
    requires within { exec.0 < length world.now.definitions }
    requires opening { growth.Extends opening syms.old }
    requires terms { TermsLie heap.old terms.now }
    requires world { WorldLies heap.old world.now }
    requires rows { PrimitivesStand world.now }
    requires may { MayGo (K.Keeps keeper.old) (MayExec K.keeping K.MayCall heap.old world.now function frame.base names machine.old) machine.old }
    requires sound { IsSound syms.old heap.old machine.old }
    requires keeper { K.IsSound keeper.old heap.old world.now (length syms.old.symbols) }
    ensures turns { OnOk result (TurnsTo K.keeping (K.Keeps keeper.old) (K.Keeps keeper.new) (around heap.old world.now terms.now syms.old limit) (around heap.new world.now terms.now syms.new limit) machine.old machine.new) }
    ensures err { OnErr result (StillGoes (K.Keeps keeper.old) (K.Keeps keeper.new) machine.old) }
    ensures sound { OnOk result (IsSound syms.new heap.new machine.new) }
    ensures keeper_sound { K.IsSound keeper.new heap.new world.now (length syms.new.symbols) }
    ensures grows { Grown syms.old syms.new heap.old heap.new }
    ensures packages { syms.new.packages ≡ syms.old.packages }
{
    match world.at(exec) {
        Definition::Primitive { name, row, arity } => exec_primitive(
            alloc, machine, keeper, world, terms, heap, syms, limit, frame, function, names,
            number, export, exec, *name, *row, *arity,
        ),
        Definition::Function(written) => exec_function(
            machine, keeper, world, terms, heap, syms, limit, frame, function, names, number,
            export, exec, written,
        ),
        Definition::Macro(_) => exec_refused(
            machine, keeper, world, terms, heap, syms, limit, frame, function, names, number,
            export,
        ),
        Definition::Constant { .. } => exec_refused(
            machine, keeper, world, terms, heap, syms, limit, frame, function, names, number,
            export,
        ),
        Definition::Object { .. } => exec_refused(
            machine, keeper, world, terms, heap, syms, limit, frame, function, names, number,
            export,
        ),
        Definition::Generated(generated) => exec_generated(
            machine, keeper, world, terms, heap, syms, limit, frame, function, names, number,
            export, exec, generated,
        ),
        Definition::Abstract(_) => exec_refused(
            machine, keeper, world, terms, heap, syms, limit, frame, function, names, number,
            export,
        ),
        Definition::OfAbstract(_) => exec_refused(
            machine, keeper, world, terms, heap, syms, limit, frame, function, names, number,
            export,
        ),
        Definition::Named { .. } => exec_refused(
            machine, keeper, world, terms, heap, syms, limit, frame, function, names, number,
            export,
        ),
        Definition::Signed { .. } => exec_refused(
            machine, keeper, world, terms, heap, syms, limit, frame, function, names, number,
            export,
        ),
    }
}

/// The guard of an export holds, and what it left behind is in scope again: the exec function is called inside the export, with the
/// actuals of the export's call. Where no call is left it stops, seen as before the export's call; what is none, or may not be called,
/// or is a function of an abstract object is refused. Where memory is refused, what was kept with the machine is kept still.
#[tactic(auto, using(crate::proofs::ReadLemmas::none_found, crate::proofs::ReadLemmas::some_found, crate::proofs::KeepLemmas::same_goes))]
pub fn resume_exporting<K: Keeper>(
    alloc: Global,
    machine: &mut Machine,
    keeper: &mut K,
    world: &World,
    terms: &Terms,
    heap: &mut Heap,
    syms: &mut Symbols,
    limit: u64,
    frame: Frame,
    function: FnId,
    names: u64,
    number: u64,
) -> Result<(), AllocError>
    requires given { machine.old.control ≡ control.Give }
    requires first { IsFirst frame machine.old.frames }
    requires step { frame.step ≡ step.Exporting function names number }
    requires opening { growth.Extends opening syms.old }
    requires terms { TermsLie heap.old terms.now }
    requires world { WorldLies heap.old world.now }
    requires rows { PrimitivesStand world.now }
    requires may { MayGo (K.Keeps keeper.old) (MayExec K.keeping K.MayCall heap.old world.now function frame.base names machine.old) machine.old }
    requires sound { IsSound syms.old heap.old machine.old }
    requires keeper { K.IsSound keeper.old heap.old world.now (length syms.old.symbols) }
    ensures turns { OnOk result (TurnsTo K.keeping (K.Keeps keeper.old) (K.Keeps keeper.new) (around heap.old world.now terms.now syms.old limit) (around heap.new world.now terms.now syms.new limit) machine.old machine.new) }
    ensures err { OnErr result (StillGoes (K.Keeps keeper.old) (K.Keeps keeper.new) machine.old) }
    ensures sound { OnOk result (IsSound syms.new heap.new machine.new) }
    ensures keeper_sound { K.IsSound keeper.new heap.new world.now (length syms.new.symbols) }
    ensures grows { Grown syms.old syms.new heap.old heap.new }
    ensures packages { syms.new.packages ≡ syms.old.packages }
{
    if machine.calls >= limit {
        exec_too_many(
            machine, keeper, world, terms, heap, syms, limit, frame, function, names, number,
        );
        return Ok(());
    }
    if !machine.frames.is_shallow() {
        return Err(AllocError);
    }
    let export = export_at(world, function);
    match exec_at(world, function, export) {
        None => exec_refused(
            machine, keeper, world, terms, heap, syms, limit, frame, function, names, number,
            export,
        ),
        Some(exec) => exec_run(
            alloc, machine, keeper, world, terms, heap, syms, limit, frame, function, names,
            number, export, exec,
        ),
    }
}
