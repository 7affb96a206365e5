//! The innermost form goes on with the values that it waited for, whatever it is.

ghost use Rattle.std.specs.Prelude.{◌≡◌, None, length, OnOk, OnErr};
ghost use Rattle.acl_forms.specs.Forms.{Grown};
ghost use Rattle.acl_machine.specs.declared.frame.Control.TheVariants as control;
ghost use Rattle.acl_machine.specs.declared.frame.Step.TheVariants as step;
ghost use Rattle.acl_machine.specs.Keeping.{TurnsTo, MayGo};
ghost use Rattle.acl_machine.specs.Steps.{IsSound};
ghost use Rattle.acl_machine.specs.Turns.{IsFirst};
ghost use Rattle.acl_machine.specs.Views.{around};
ghost use Rattle.acl_turns.specs.Asking.{AsksResuming};
ghost use Rattle.acl_turns.specs.Leaving.{MayLeave};
ghost use Rattle.acl_turns.specs.Surroundings.{Surrounds};

use crate::calling::call;
use acl_base::{FnId, TermId};
use acl_call_turns::{resume_body, resume_export, resume_guard};
use acl_code::Terms;
use acl_exec_turns::resume_exporting;
use acl_export_turns::resume_allowing;
use acl_heap::Heap;
use acl_keep::Keeper;
use acl_machine::{Frame, Goal, Inside, Machine, Step};
use acl_object_turns::{resume_borrowing, resume_local, resume_producing, resume_putting};
use acl_syms::Symbols;
use acl_worlds::World;
use std::alloc::{AllocError, Global};

/// A test has its value.
#[tactic(auto, using(crate::proofs::QuietLemmas::turns_by_test))]
fn go_test<K: Keeper>(
    machine: &mut Machine,
    keeper: &mut K,
    world: &World,
    terms: &Terms,
    heap: &Heap,
    syms: &Symbols,
    limit: u64,
    frame: Frame,
    held: TermId,
    other: TermId,
) -> Result<(), AllocError>
    requires given { machine.old.control ≡ control.Give }
    requires first { IsFirst frame machine.old.frames }
    requires step { frame.step ≡ step.Test held other }
    requires sound { IsSound syms.now heap.now machine.old }
    requires keeper { K.IsSound keeper.old heap.now world.now (length syms.now.symbols) }
    ensures turns { OnOk result (TurnsTo K.keeping (K.Keeps keeper.old) (K.Keeps keeper.new) (around heap.now world.now terms.now syms.now limit) (around heap.now world.now terms.now syms.now limit) machine.old machine.new) }
    ensures err { OnErr result (MayLeave K.keeping (K.Keeps keeper.old) (K.Keeps keeper.new) (around heap.now world.now terms.now syms.now limit) machine.old) }
    ensures sound { OnOk result (IsSound syms.now heap.now machine.new) }
    ensures keeper_sound { K.IsSound keeper.new heap.now world.now (length syms.now.symbols) }
{
    machine.resume_test(keeper, world, terms, heap, syms, limit, frame, held, other);
    Ok(())
}

/// A part has its value.
#[tactic(auto, using(crate::proofs::QuietLemmas::turns_by_part, crate::proofs::LeaveLemmas::leaves_nothing))]
fn go_part<K: Keeper>(
    machine: &mut Machine,
    keeper: &mut K,
    world: &World,
    terms: &Terms,
    heap: &Heap,
    syms: &Symbols,
    limit: u64,
    frame: Frame,
    at: u64,
    count: u64,
    next: TermId,
    left: u64,
    goal: Goal,
) -> Result<(), AllocError>
    requires given { machine.old.control ≡ control.Give }
    requires first { IsFirst frame machine.old.frames }
    requires step { frame.step ≡ step.Parts at count next left goal }
    requires sound { IsSound syms.now heap.now machine.old }
    requires keeper { K.IsSound keeper.old heap.now world.now (length syms.now.symbols) }
    ensures turns { OnOk result (TurnsTo K.keeping (K.Keeps keeper.old) (K.Keeps keeper.new) (around heap.now world.now terms.now syms.now limit) (around heap.now world.now terms.now syms.now limit) machine.old machine.new) }
    ensures err { OnErr result (MayLeave K.keeping (K.Keeps keeper.old) (K.Keeps keeper.new) (around heap.now world.now terms.now syms.now limit) machine.old) }
    ensures sound { OnOk result (IsSound syms.now heap.now machine.new) }
    ensures keeper_sound { K.IsSound keeper.new heap.now world.now (length syms.now.symbols) }
{
    machine.resume_part(
        keeper, world, terms, heap, syms, limit, frame, at, count, next, left, goal,
    )?;
    Ok(())
}

/// Several names have their values.
#[tactic(auto, using(crate::proofs::QuietLemmas::turns_by_several, crate::proofs::LeaveLemmas::leaves_nothing))]
fn go_several<K: Keeper>(
    machine: &mut Machine,
    keeper: &mut K,
    world: &World,
    terms: &Terms,
    heap: &Heap,
    syms: &Symbols,
    limit: u64,
    frame: Frame,
    at: u64,
    body: TermId,
) -> Result<(), AllocError>
    requires given { machine.old.control ≡ control.Give }
    requires first { IsFirst frame machine.old.frames }
    requires step { frame.step ≡ step.Several at body }
    requires sound { IsSound syms.now heap.now machine.old }
    requires keeper { K.IsSound keeper.old heap.now world.now (length syms.now.symbols) }
    ensures turns { OnOk result (TurnsTo K.keeping (K.Keeps keeper.old) (K.Keeps keeper.new) (around heap.now world.now terms.now syms.now limit) (around heap.now world.now terms.now syms.now limit) machine.old machine.new) }
    ensures err { OnErr result (MayLeave K.keeping (K.Keeps keeper.old) (K.Keeps keeper.new) (around heap.now world.now terms.now syms.now limit) machine.old) }
    ensures sound { OnOk result (IsSound syms.now heap.now machine.new) }
    ensures keeper_sound { K.IsSound keeper.new heap.now world.now (length syms.now.symbols) }
{
    machine.resume_several(keeper, world, terms, heap, syms, limit, frame, at, body)?;
    Ok(())
}

/// A form has its own value.
#[tactic(auto, using(crate::proofs::QuietLemmas::last_first, crate::proofs::QuietLemmas::turns_by_last, crate::proofs::LeaveLemmas::leaves_nothing))]
fn go_last<K: Keeper>(
    machine: &mut Machine,
    keeper: &mut K,
    world: &World,
    terms: &Terms,
    heap: &Heap,
    syms: &Symbols,
    limit: u64,
    frame: Frame,
) -> Result<(), AllocError>
    requires given { machine.old.control ≡ control.Give }
    requires first { IsFirst frame machine.old.frames }
    requires step { frame.step ≡ step.Last None }
    requires sound { IsSound syms.now heap.now machine.old }
    requires keeper { K.IsSound keeper.old heap.now world.now (length syms.now.symbols) }
    ensures turns { OnOk result (TurnsTo K.keeping (K.Keeps keeper.old) (K.Keeps keeper.new) (around heap.now world.now terms.now syms.now limit) (around heap.now world.now terms.now syms.now limit) machine.old machine.new) }
    ensures err { OnErr result (MayLeave K.keeping (K.Keeps keeper.old) (K.Keeps keeper.new) (around heap.now world.now terms.now syms.now limit) machine.old) }
    ensures sound { OnOk result (IsSound syms.now heap.now machine.new) }
    ensures keeper_sound { K.IsSound keeper.new heap.now world.now (length syms.now.symbols) }
{
    machine.resume_last(keeper, world, terms, heap, syms, limit)?;
    Ok(())
}

/// A guard has its value.
#[tactic(auto, using(crate::proofs::LeaveLemmas::leaves_guard))]
fn go_guard<K: Keeper>(
    machine: &mut Machine,
    keeper: &mut K,
    world: &World,
    terms: &Terms,
    heap: &Heap,
    syms: &Symbols,
    limit: u64,
    frame: Frame,
    inside: Option<Inside>,
    function: FnId,
    names: u64,
) -> Result<(), AllocError>
    requires given { machine.old.control ≡ control.Give }
    requires first { IsFirst frame machine.old.frames }
    requires step { frame.step ≡ step.Guarding inside function names }
    requires sound { IsSound syms.now heap.now machine.old }
    requires keeper { K.IsSound keeper.old heap.now world.now (length syms.now.symbols) }
    ensures turns { OnOk result (TurnsTo K.keeping (K.Keeps keeper.old) (K.Keeps keeper.new) (around heap.now world.now terms.now syms.now limit) (around heap.now world.now terms.now syms.now limit) machine.old machine.new) }
    ensures err { OnErr result (MayLeave K.keeping (K.Keeps keeper.old) (K.Keeps keeper.new) (around heap.now world.now terms.now syms.now limit) machine.old) }
    ensures sound { OnOk result (IsSound syms.now heap.now machine.new) }
    ensures keeper_sound { K.IsSound keeper.new heap.now world.now (length syms.now.symbols) }
{
    resume_guard(
        machine, keeper, world, terms, heap, syms, limit, frame, inside, function, names,
    )
}

/// The innermost form goes on with the values that it waited for.
#[tactic(auto, using(crate::proofs::AskLemmas::may_call, crate::proofs::AskLemmas::may_exec, crate::proofs::AskLemmas::may_borrow, crate::proofs::AskLemmas::may_unmake, crate::proofs::LeaveLemmas::leaves_still, crate::proofs::LeaveLemmas::leaves_gone, acl_forms::specs::Growth::growing))]
pub fn resume<K: Keeper>(
    alloc: Global,
    machine: &mut Machine,
    keeper: &mut K,
    world: &World,
    terms: &Terms,
    heap: &mut Heap,
    syms: &mut Symbols,
    limit: u64,
    frame: Frame,
) -> Result<(), AllocError>
    requires given { machine.old.control ≡ control.Give }
    requires first { IsFirst frame machine.old.frames }
    requires may { MayGo (K.Keeps keeper.old) (AsksResuming K.keeping K.MayCall K.MayReach K.MayLend K.MayUnmake (around heap.old world.now terms.now syms.old limit) machine.old frame.base frame.step) machine.old }
    requires surrounds { Surrounds syms.old heap.old world.now terms.now }
    requires sound { IsSound syms.old heap.old machine.old }
    requires keeper { K.IsSound keeper.old heap.old world.now (length syms.old.symbols) }
    ensures turns { OnOk result (TurnsTo K.keeping (K.Keeps keeper.old) (K.Keeps keeper.new) (around heap.old world.now terms.now syms.old limit) (around heap.new world.now terms.now syms.new limit) machine.old machine.new) }
    ensures err { OnErr result (MayLeave K.keeping (K.Keeps keeper.old) (K.Keeps keeper.new) (around heap.old world.now terms.now syms.old limit) machine.old) }
    ensures sound { OnOk result (IsSound syms.new heap.new machine.new) }
    ensures keeper_sound { K.IsSound keeper.new heap.new world.now (length syms.new.symbols) }
    ensures grows { Grown syms.old syms.new heap.old heap.new }
    ensures packages { syms.new.packages ≡ syms.old.packages }
{
    match frame.step {
        Step::Test { held, other } => go_test(
            machine, keeper, world, terms, heap, syms, limit, frame, held, other,
        ),
        Step::Parts {
            at,
            count,
            next,
            left,
            goal,
        } => go_part(
            machine, keeper, world, terms, heap, syms, limit, frame, at, count, next, left, goal,
        ),
        Step::Several { at, body } => go_several(
            machine, keeper, world, terms, heap, syms, limit, frame, at, body,
        ),
        Step::Calling {
            at,
            function,
            count,
        } => call(
            alloc, machine, keeper, world, terms, heap, syms, limit, frame, at, function, count,
        ),
        Step::Guarding {
            inside,
            function,
            names,
        } => go_guard(
            machine, keeper, world, terms, heap, syms, limit, frame, inside, function, names,
        ),
        Step::Running {
            inside,
            function,
            names,
        } => resume_body(
            machine, keeper, world, terms, heap, syms, limit, frame, inside, function, names,
        ),
        Step::Allowing {
            function,
            names,
            number,
        } => resume_allowing(
            machine, keeper, world, terms, heap, syms, limit, frame, function, names, number,
        ),
        Step::Exporting {
            function,
            names,
            number,
        } => resume_exporting(
            alloc, machine, keeper, world, terms, heap, syms, limit, frame, function, names, number,
        ),
        Step::Borrowing { at, term, bound } => resume_borrowing(
            alloc, machine, keeper, world, terms, heap, syms, limit, frame, at, term, bound,
        ),
        Step::Producing {
            at,
            loans,
            consumer,
        } => resume_producing(
            machine, keeper, world, terms, heap, syms, limit, frame, at, loans, consumer,
        ),
        Step::Putting {
            at,
            put,
            loans,
            consumer,
        } => resume_putting(
            machine, keeper, world, terms, heap, syms, limit, frame, at, put, loans, consumer,
        ),
        Step::Local { at, body } => resume_local(
            machine, keeper, world, terms, heap, syms, limit, frame, at, body,
        ),
        Step::Last { inside: None } => go_last(
            machine, keeper, world, terms, heap, syms, limit, frame,
        ),
        Step::Last {
            inside: Some(export),
        } => resume_export(
            machine, keeper, world, terms, heap, syms, limit, frame, export,
        ),
    }
}
