//! A function is called, once all actuals have values.

ghost use Rattle.std.specs.Prelude.{◌≡◌, ◌≤◌, ◌<◌, ◌+◌, Some, length, slice_get, OnOk, OnErr};
ghost use Rattle.acl_forms.specs.Forms.{Grown};
ghost use Rattle.acl_terms.specs.declared.definition.Definition.TheVariants as definition;
ghost use Rattle.acl_machine.specs.declared.frame.Control.TheVariants as control;
ghost use Rattle.acl_machine.specs.declared.frame.Step.TheVariants as step;
ghost use Rattle.acl_machine.specs.Keeping.{TurnsTo, MayGo};
ghost use Rattle.acl_machine.specs.Steps.{MayNotCall, IsSound};
ghost use Rattle.acl_machine.specs.Turns.{IsFirst};
ghost use Rattle.acl_machine.specs.Views.{around};
ghost use Rattle.acl_turns.specs.Asking.{AsksCalling};
ghost use Rattle.acl_turns.specs.Leaving.{MayLeave};
ghost use Rattle.acl_turns.specs.Surroundings.{Surrounds};

use acl_base::{FnId, SymId};
use acl_call_turns::call_function;
use acl_code::Terms;
use acl_exec_turns::call_export;
use acl_export_turns::{call_creator, call_recognizer};
use acl_heap::Heap;
use acl_keep::Keeper;
use acl_machine::{Frame, Halt, Machine, slot_in};
use acl_object_turns::call_generated;
use acl_syms::Symbols;
use acl_terms::{AbstractFunction, AbstractRole, Definition};
use acl_worlds::World;
use std::alloc::{AllocError, Global};

/// No call is left.
#[tactic(auto, using(crate::proofs::QuietLemmas::turns_by_too_many, crate::proofs::LeaveLemmas::leaves_nothing))]
fn call_none_left<K: Keeper>(
    machine: &mut Machine,
    keeper: &mut K,
    world: &World,
    terms: &Terms,
    heap: &Heap,
    syms: &Symbols,
    limit: u64,
    frame: Frame,
    at: u64,
    function: FnId,
    count: u64,
) -> Result<(), AllocError>
    requires given { machine.old.control ≡ control.Give }
    requires first { IsFirst frame machine.old.frames }
    requires step { frame.step ≡ step.Calling at function count }
    requires none { limit ≤ machine.old.calls }
    requires sound { IsSound syms.now heap.now machine.old }
    requires keeper { K.IsSound keeper.old heap.now world.now (length syms.now.symbols) }
    ensures turns { OnOk result (TurnsTo K.keeping (K.Keeps keeper.old) (K.Keeps keeper.new) (around heap.now world.now terms.now syms.now limit) (around heap.now world.now terms.now syms.now limit) machine.old machine.new) }
    ensures err { OnErr result (MayLeave K.keeping (K.Keeps keeper.old) (K.Keeps keeper.new) (around heap.now world.now terms.now syms.now limit) machine.old) }
    ensures sound { OnOk result (IsSound syms.now heap.now machine.new) }
    ensures keeper_sound { K.IsSound keeper.new heap.now world.now (length syms.now.symbols) }
{
    machine.call_too_many(
        keeper, world, terms, heap, syms, limit, frame, at, function, count,
    )?;
    Ok(())
}

/// No function has this number: the call is counted, and refused.
#[tactic(auto, using(crate::proofs::UnknownLemmas::turns_by_unknown, crate::proofs::UnknownLemmas::sound_unknown, crate::proofs::LeaveLemmas::leaves_nothing))]
fn call_unknown<K: Keeper>(
    machine: &mut Machine,
    keeper: &mut K,
    world: &World,
    terms: &Terms,
    heap: &Heap,
    syms: &Symbols,
    limit: u64,
    frame: Frame,
    at: u64,
    function: FnId,
    count: u64,
) -> Result<(), AllocError>
    requires given { machine.old.control ≡ control.Give }
    requires first { IsFirst frame machine.old.frames }
    requires step { frame.step ≡ step.Calling at function count }
    requires left { machine.old.calls < limit }
    requires past { length world.now.definitions ≤ function.0 }
    requires sound { IsSound syms.now heap.now machine.old }
    requires keeper { K.IsSound keeper.old heap.now world.now (length syms.now.symbols) }
    ensures turns { OnOk result (TurnsTo K.keeping (K.Keeps keeper.old) (K.Keeps keeper.new) (around heap.now world.now terms.now syms.now limit) (around heap.now world.now terms.now syms.now limit) machine.old machine.new) }
    ensures err { OnErr result (MayLeave K.keeping (K.Keeps keeper.old) (K.Keeps keeper.new) (around heap.now world.now terms.now syms.now limit) machine.old) }
    ensures sound { OnOk result (IsSound syms.now heap.now machine.new) }
    ensures keeper_sound { K.IsSound keeper.new heap.now world.now (length syms.now.symbols) }
{
    let base = slot_in(frame.base, at)?;
    machine.stop_call(base, count, Halt::Guard(SymId(0)), limit)?;
    Ok(())
}

/// What has this number may not be called: the call is counted, and refused.
#[tactic(auto, using(crate::proofs::QuietLemmas::turns_by_refusal, crate::proofs::LeaveLemmas::leaves_nothing))]
fn call_not<K: Keeper>(
    machine: &mut Machine,
    keeper: &mut K,
    world: &World,
    terms: &Terms,
    heap: &Heap,
    syms: &Symbols,
    limit: u64,
    frame: Frame,
    at: u64,
    function: FnId,
    count: u64,
) -> Result<(), AllocError>
    requires given { machine.old.control ≡ control.Give }
    requires first { IsFirst frame machine.old.frames }
    requires step { frame.step ≡ step.Calling at function count }
    requires left { machine.old.calls < limit }
    requires within { function.0 < length world.now.definitions }
    requires refused { MayNotCall (slice_get world.now.definitions function.0) }
    requires sound { IsSound syms.now heap.now machine.old }
    requires keeper { K.IsSound keeper.old heap.now world.now (length syms.now.symbols) }
    ensures turns { OnOk result (TurnsTo K.keeping (K.Keeps keeper.old) (K.Keeps keeper.new) (around heap.now world.now terms.now syms.now limit) (around heap.now world.now terms.now syms.now limit) machine.old machine.new) }
    ensures err { OnErr result (MayLeave K.keeping (K.Keeps keeper.old) (K.Keeps keeper.new) (around heap.now world.now terms.now syms.now limit) machine.old) }
    ensures sound { OnOk result (IsSound syms.now heap.now machine.new) }
    ensures keeper_sound { K.IsSound keeper.new heap.now world.now (length syms.now.symbols) }
{
    machine.call_refused(
        keeper, world, terms, heap, syms, limit, frame, at, function, count,
    )?;
    Ok(())
}

/// A primitive is called.
#[tactic(auto, using(crate::proofs::QuietLemmas::turns_by_primitive, crate::proofs::GrowthLemmas::row_within, crate::proofs::LeaveLemmas::leaves_nothing))]
fn call_row<K: Keeper>(
    alloc: Global,
    machine: &mut Machine,
    keeper: &mut K,
    world: &World,
    terms: &Terms,
    heap: &mut Heap,
    syms: &mut Symbols,
    limit: u64,
    frame: Frame,
    at: u64,
    function: FnId,
    count: u64,
    name: SymId,
    row: u8,
    arity: u8,
) -> Result<(), AllocError>
    requires given { machine.old.control ≡ control.Give }
    requires first { IsFirst frame machine.old.frames }
    requires step { frame.step ≡ step.Calling at function count }
    requires left { machine.old.calls < limit }
    requires is { slice_get world.now.definitions function.0 ≡ Some (definition.Primitive name row arity) }
    requires surrounds { Surrounds syms.old heap.old world.now terms.now }
    requires sound { IsSound syms.old heap.old machine.old }
    requires keeper { K.IsSound keeper.old heap.old world.now (length syms.old.symbols) }
    ensures turns { OnOk result (TurnsTo K.keeping (K.Keeps keeper.old) (K.Keeps keeper.new) (around heap.old world.now terms.now syms.old limit) (around heap.new world.now terms.now syms.new limit) machine.old machine.new) }
    ensures err { OnErr result (MayLeave K.keeping (K.Keeps keeper.old) (K.Keeps keeper.new) (around heap.old world.now terms.now syms.old limit) machine.old) }
    ensures sound { OnOk result (IsSound syms.new heap.new machine.new) }
    ensures keeper_sound { K.IsSound keeper.new heap.new world.now (length syms.new.symbols) }
    ensures grows { Grown syms.old syms.new heap.old heap.new }
    ensures packages { syms.new.packages ≡ syms.old.packages }
{
    machine.call_primitive(
        alloc, keeper, world, terms, heap, syms, limit, frame, at, function, count, name, row,
        arity,
    )?;
    Ok(())
}

/// A function of an abstract object is called.
#[tactic(auto, using(crate::proofs::LeaveLemmas::leaves_still, crate::proofs::LeaveLemmas::leaves_same))]
fn call_abstract<K: Keeper>(
    machine: &mut Machine,
    keeper: &mut K,
    world: &World,
    terms: &Terms,
    heap: &Heap,
    syms: &Symbols,
    limit: u64,
    frame: Frame,
    at: u64,
    function: FnId,
    count: u64,
    of: &AbstractFunction,
) -> Result<(), AllocError>
    requires given { machine.old.control ≡ control.Give }
    requires first { IsFirst frame machine.old.frames }
    requires step { frame.step ≡ step.Calling at function count }
    requires left { machine.old.calls < limit }
    requires is { slice_get world.now.definitions function.0 ≡ Some (definition.OfAbstract of.now) }
    requires sound { IsSound syms.now heap.now machine.old }
    requires keeper { K.IsSound keeper.old heap.now world.now (length syms.now.symbols) }
    ensures turns { OnOk result (TurnsTo K.keeping (K.Keeps keeper.old) (K.Keeps keeper.new) (around heap.now world.now terms.now syms.now limit) (around heap.now world.now terms.now syms.now limit) machine.old machine.new) }
    ensures err { OnErr result (MayLeave K.keeping (K.Keeps keeper.old) (K.Keeps keeper.new) (around heap.now world.now terms.now syms.now limit) machine.old) }
    ensures sound { OnOk result (IsSound syms.now heap.now machine.new) }
    ensures keeper_sound { K.IsSound keeper.new heap.now world.now (length syms.now.symbols) }
{
    match of.role {
        AbstractRole::Recognizer => call_recognizer(
            machine, keeper, world, terms, heap, syms, limit, frame, at, function, count, of,
        ),
        AbstractRole::Creator => call_creator(
            machine, keeper, world, terms, heap, syms, limit, frame, at, function, count, of,
        ),
        AbstractRole::Export => call_export(
            machine, keeper, world, terms, heap, syms, limit, frame, at, function, count, of,
        ),
    }
}

/// The function of this number is called, by what it is.
#[tactic(auto, using(crate::proofs::StepLemmas::refused_by, crate::proofs::AskLemmas::may_generated, crate::proofs::LeaveLemmas::leaves_still, acl_forms::specs::Growth::growing))]
fn call_defined<K: Keeper>(
    alloc: Global,
    machine: &mut Machine,
    keeper: &mut K,
    world: &World,
    terms: &Terms,
    heap: &mut Heap,
    syms: &mut Symbols,
    limit: u64,
    frame: Frame,
    at: u64,
    function: FnId,
    count: u64,
) -> Result<(), AllocError>
    requires given { machine.old.control ≡ control.Give }
    requires first { IsFirst frame machine.old.frames }
    requires step { frame.step ≡ step.Calling at function count }
    requires left { machine.old.calls < limit }
    requires within { function.0 < length world.now.definitions }
    requires may { MayGo (K.Keeps keeper.old) (AsksCalling K.MayCall (around heap.old world.now terms.now syms.old limit) machine.old (frame.base + at) count (slice_get world.now.definitions function.0)) machine.old }
    requires surrounds { Surrounds syms.old heap.old world.now terms.now }
    requires sound { IsSound syms.old heap.old machine.old }
    requires keeper { K.IsSound keeper.old heap.old world.now (length syms.old.symbols) }
    ensures turns { OnOk result (TurnsTo K.keeping (K.Keeps keeper.old) (K.Keeps keeper.new) (around heap.old world.now terms.now syms.old limit) (around heap.new world.now terms.now syms.new limit) machine.old machine.new) }
    ensures err { OnErr result (MayLeave K.keeping (K.Keeps keeper.old) (K.Keeps keeper.new) (around heap.old world.now terms.now syms.old limit) machine.old) }
    ensures sound { OnOk result (IsSound syms.new heap.new machine.new) }
    ensures keeper_sound { K.IsSound keeper.new heap.new world.now (length syms.new.symbols) }
    ensures grows { Grown syms.old syms.new heap.old heap.new }
    ensures packages { syms.new.packages ≡ syms.old.packages }
{
    match world.at(function) {
        Definition::Primitive { name, row, arity } => call_row(
            alloc, machine, keeper, world, terms, heap, syms, limit, frame, at, function, count,
            *name, *row, *arity,
        ),
        Definition::Function(written) => call_function(
            machine, keeper, world, terms, heap, syms, limit, frame, at, function, count, written,
        ),
        Definition::Macro(_) => call_not(
            machine, keeper, world, terms, heap, syms, limit, frame, at, function, count,
        ),
        Definition::Constant { .. } => call_not(
            machine, keeper, world, terms, heap, syms, limit, frame, at, function, count,
        ),
        Definition::Object { .. } => call_not(
            machine, keeper, world, terms, heap, syms, limit, frame, at, function, count,
        ),
        Definition::Generated(generated) => call_generated(
            machine, keeper, world, terms, heap, syms, limit, frame, at, function, count, generated,
        ),
        Definition::Abstract(_) => call_not(
            machine, keeper, world, terms, heap, syms, limit, frame, at, function, count,
        ),
        Definition::OfAbstract(of) => call_abstract(
            machine, keeper, world, terms, heap, syms, limit, frame, at, function, count, of,
        ),
        Definition::Named { .. } => call_not(
            machine, keeper, world, terms, heap, syms, limit, frame, at, function, count,
        ),
        Definition::Signed { .. } => call_not(
            machine, keeper, world, terms, heap, syms, limit, frame, at, function, count,
        ),
    }
}

/// A function is called, once all actuals have values.
#[tactic(auto, using(acl_forms::specs::Growth::growing))]
pub fn call<K: Keeper>(
    alloc: Global,
    machine: &mut Machine,
    keeper: &mut K,
    world: &World,
    terms: &Terms,
    heap: &mut Heap,
    syms: &mut Symbols,
    limit: u64,
    frame: Frame,
    at: u64,
    function: FnId,
    count: u64,
) -> Result<(), AllocError>
    requires given { machine.old.control ≡ control.Give }
    requires first { IsFirst frame machine.old.frames }
    requires step { frame.step ≡ step.Calling at function count }
    requires may { MayGo (K.Keeps keeper.old) (AsksCalling K.MayCall (around heap.old world.now terms.now syms.old limit) machine.old (frame.base + at) count (slice_get world.now.definitions function.0)) machine.old }
    requires surrounds { Surrounds syms.old heap.old world.now terms.now }
    requires sound { IsSound syms.old heap.old machine.old }
    requires keeper { K.IsSound keeper.old heap.old world.now (length syms.old.symbols) }
    ensures turns { OnOk result (TurnsTo K.keeping (K.Keeps keeper.old) (K.Keeps keeper.new) (around heap.old world.now terms.now syms.old limit) (around heap.new world.now terms.now syms.new limit) machine.old machine.new) }
    ensures err { OnErr result (MayLeave K.keeping (K.Keeps keeper.old) (K.Keeps keeper.new) (around heap.old world.now terms.now syms.old limit) machine.old) }
    ensures sound { OnOk result (IsSound syms.new heap.new machine.new) }
    ensures keeper_sound { K.IsSound keeper.new heap.new world.now (length syms.new.symbols) }
    ensures grows { Grown syms.old syms.new heap.old heap.new }
    ensures packages { syms.new.packages ≡ syms.old.packages }
{
    if machine.calls >= limit {
        return call_none_left(
            machine, keeper, world, terms, heap, syms, limit, frame, at, function, count,
        );
    }
    if function.0 >= world.mark().definitions {
        return call_unknown(
            machine, keeper, world, terms, heap, syms, limit, frame, at, function, count,
        );
    }
    call_defined(
        alloc, machine, keeper, world, terms, heap, syms, limit, frame, at, function, count,
    )
}
