//! A stop closes the innermost form, whatever it waits for.

ghost use Rattle.std.specs.Prelude.{◌≡◌, length, OnOk, OnErr};
ghost use Rattle.acl_machine.specs.declared.frame.Control.TheVariants as control;
ghost use Rattle.acl_machine.specs.declared.frame.Step.TheVariants as step;
ghost use Rattle.acl_machine.specs.Keeping.{TurnsTo, MayGo};
ghost use Rattle.acl_machine.specs.Steps.{IsPlain, IsSound};
ghost use Rattle.acl_machine.specs.Turns.{IsFirst};
ghost use Rattle.acl_machine.specs.Views.{around};
ghost use Rattle.acl_call_turns.specs.Calls.{IsInCall};
ghost use Rattle.acl_object_turns.specs.Children.{HasLent};
ghost use Rattle.acl_turns.specs.Asking.{AsksUndoing, AsksClosing};
ghost use Rattle.acl_turns.specs.Leaving.{MayLeave};

use acl_base::{FnId, TermId};
use acl_call_turns::{close_call, close_exec, close_export};
use acl_code::Terms;
use acl_export_turns::{close_allowing, close_exporting};
use acl_heap::Heap;
use acl_keep::Keeper;
use acl_machine::{Frame, Halt, Inside, Machine, Step};
use acl_object_turns::{close_borrowing, close_lent, close_local};
use acl_syms::Symbols;
use acl_worlds::World;
use std::alloc::{AllocError, Global};

/// A form is closed that has nothing on the stacks of names and loans.
#[tactic(auto, using(crate::proofs::QuietLemmas::plain_first, crate::proofs::QuietLemmas::turns_by_close, crate::proofs::LeaveLemmas::leaves_nothing))]
fn close_quiet<K: Keeper>(
    machine: &mut Machine,
    keeper: &mut K,
    world: &World,
    terms: &Terms,
    heap: &Heap,
    syms: &Symbols,
    limit: u64,
    why: Halt,
    frame: Frame,
) -> Result<(), AllocError>
    requires stopped { machine.old.control ≡ control.Stopped why }
    requires first { IsFirst frame machine.old.frames }
    requires plain { IsPlain frame.step }
    requires sound { IsSound syms.now heap.now machine.old }
    requires keeper { K.IsSound keeper.old heap.now world.now (length syms.now.symbols) }
    ensures turns { OnOk result (TurnsTo K.keeping (K.Keeps keeper.old) (K.Keeps keeper.new) (around heap.now world.now terms.now syms.now limit) (around heap.now world.now terms.now syms.now limit) machine.old machine.new) }
    ensures err { OnErr result (MayLeave K.keeping (K.Keeps keeper.old) (K.Keeps keeper.new) (around heap.now world.now terms.now syms.now limit) machine.old) }
    ensures sound { OnOk result (IsSound syms.now heap.now machine.new) }
    ensures keeper_sound { K.IsSound keeper.new heap.now world.now (length syms.now.symbols) }
{
    machine.close_plain(keeper, world, terms, heap, syms, limit, why)?;
    Ok(())
}

/// A call is closed, in its guard or its body, inside an export or not.
#[tactic(auto, using(crate::proofs::AskLemmas::in_no_export, crate::proofs::AskLemmas::in_export, crate::proofs::AskLemmas::may_undo, crate::proofs::LeaveLemmas::leaves_still))]
fn close_in_call<K: Keeper>(
    machine: &mut Machine,
    keeper: &mut K,
    world: &World,
    terms: &Terms,
    heap: &Heap,
    syms: &Symbols,
    limit: u64,
    why: Halt,
    frame: Frame,
    inside: Option<Inside>,
    function: FnId,
    names: u64,
) -> Result<(), AllocError>
    requires stopped { machine.old.control ≡ control.Stopped why }
    requires first { IsFirst frame machine.old.frames }
    requires step { IsInCall inside function names frame.step }
    requires may { MayGo (K.Keeps keeper.old) (AsksUndoing K.keeping K.MayUnmake K.MayAbandon (around heap.now world.now terms.now syms.now limit) machine.old inside function names frame.base) machine.old }
    requires sound { IsSound syms.now heap.now machine.old }
    requires keeper { K.IsSound keeper.old heap.now world.now (length syms.now.symbols) }
    ensures turns { OnOk result (TurnsTo K.keeping (K.Keeps keeper.old) (K.Keeps keeper.new) (around heap.now world.now terms.now syms.now limit) (around heap.now world.now terms.now syms.now limit) machine.old machine.new) }
    ensures err { OnErr result (MayLeave K.keeping (K.Keeps keeper.old) (K.Keeps keeper.new) (around heap.now world.now terms.now syms.now limit) machine.old) }
    ensures sound { OnOk result (IsSound syms.now heap.now machine.new) }
    ensures keeper_sound { K.IsSound keeper.new heap.now world.now (length syms.now.symbols) }
{
    match inside {
        None => close_call(
            machine, keeper, world, terms, heap, syms, limit, why, frame, function, names,
        ),
        Some(export) => close_exec(
            machine, keeper, world, terms, heap, syms, limit, why, frame, export, function, names,
        ),
    }
}

/// A form is closed whose children are not all bound.
#[tactic(auto, using(crate::proofs::LeaveLemmas::leaves_nothing))]
fn close_children<K: Keeper>(
    machine: &mut Machine,
    keeper: &mut K,
    world: &World,
    terms: &Terms,
    heap: &Heap,
    syms: &Symbols,
    limit: u64,
    why: Halt,
    frame: Frame,
    at: u64,
    term: TermId,
    bound: u64,
) -> Result<(), AllocError>
    requires stopped { machine.old.control ≡ control.Stopped why }
    requires first { IsFirst frame machine.old.frames }
    requires step { frame.step ≡ step.Borrowing at term bound }
    requires sound { IsSound syms.now heap.now machine.old }
    requires keeper { K.IsSound keeper.old heap.now world.now (length syms.now.symbols) }
    ensures turns { OnOk result (TurnsTo K.keeping (K.Keeps keeper.old) (K.Keeps keeper.new) (around heap.now world.now terms.now syms.now limit) (around heap.now world.now terms.now syms.now limit) machine.old machine.new) }
    ensures err { OnErr result (MayLeave K.keeping (K.Keeps keeper.old) (K.Keeps keeper.new) (around heap.now world.now terms.now syms.now limit) machine.old) }
    ensures sound { OnOk result (IsSound syms.now heap.now machine.new) }
    ensures keeper_sound { K.IsSound keeper.new heap.now world.now (length syms.now.symbols) }
{
    close_borrowing(
        machine, keeper, world, terms, heap, syms, limit, why, frame, at, term, bound,
    )?;
    Ok(())
}

/// A form is closed that has lent children.
#[tactic(auto, using(crate::proofs::LeaveLemmas::leaves_children))]
fn close_lending<K: Keeper>(
    alloc: Global,
    machine: &mut Machine,
    keeper: &mut K,
    world: &World,
    terms: &Terms,
    heap: &Heap,
    syms: &Symbols,
    limit: u64,
    why: Halt,
    frame: Frame,
    loans: u64,
) -> Result<(), AllocError>
    requires stopped { machine.old.control ≡ control.Stopped why }
    requires first { IsFirst frame machine.old.frames }
    requires step { HasLent loans frame.step }
    requires sound { IsSound syms.now heap.now machine.old }
    requires keeper { K.IsSound keeper.old heap.now world.now (length syms.now.symbols) }
    ensures turns { OnOk result (TurnsTo K.keeping (K.Keeps keeper.old) (K.Keeps keeper.new) (around heap.now world.now terms.now syms.now limit) (around heap.now world.now terms.now syms.now limit) machine.old machine.new) }
    ensures err { OnErr result (MayLeave K.keeping (K.Keeps keeper.old) (K.Keeps keeper.new) (around heap.now world.now terms.now syms.now limit) machine.old) }
    ensures sound { OnOk result (IsSound syms.now heap.now machine.new) }
    ensures keeper_sound { K.IsSound keeper.new heap.now world.now (length syms.now.symbols) }
{
    close_lent(
        alloc, machine, keeper, world, terms, heap, syms, limit, why, frame, loans,
    )
}

/// A stop closes the innermost form.
#[tactic(auto, using(crate::proofs::StepLemmas::plain_test, crate::proofs::StepLemmas::plain_parts, crate::proofs::StepLemmas::plain_several, crate::proofs::StepLemmas::plain_calling, crate::proofs::StepLemmas::plain_last, crate::proofs::StepLemmas::lent_producing, crate::proofs::StepLemmas::lent_putting, crate::proofs::StepLemmas::in_guard, crate::proofs::StepLemmas::in_body, crate::proofs::AskLemmas::may_close_guard, crate::proofs::AskLemmas::may_close_body, crate::proofs::AskLemmas::may_close_local, crate::proofs::AskLemmas::may_close_export, crate::proofs::LeaveLemmas::leaves_still))]
pub fn close<K: Keeper>(
    alloc: Global,
    machine: &mut Machine,
    keeper: &mut K,
    world: &World,
    terms: &Terms,
    heap: &Heap,
    syms: &Symbols,
    limit: u64,
    why: Halt,
    frame: Frame,
) -> Result<(), AllocError>
    requires stopped { machine.old.control ≡ control.Stopped why }
    requires first { IsFirst frame machine.old.frames }
    requires may { MayGo (K.Keeps keeper.old) (AsksClosing K.keeping K.MayUnmake K.MayAbandon (around heap.now world.now terms.now syms.now limit) machine.old frame.base frame.step) machine.old }
    requires sound { IsSound syms.now heap.now machine.old }
    requires keeper { K.IsSound keeper.old heap.now world.now (length syms.now.symbols) }
    ensures turns { OnOk result (TurnsTo K.keeping (K.Keeps keeper.old) (K.Keeps keeper.new) (around heap.now world.now terms.now syms.now limit) (around heap.now world.now terms.now syms.now limit) machine.old machine.new) }
    ensures err { OnErr result (MayLeave K.keeping (K.Keeps keeper.old) (K.Keeps keeper.new) (around heap.now world.now terms.now syms.now limit) machine.old) }
    ensures sound { OnOk result (IsSound syms.now heap.now machine.new) }
    ensures keeper_sound { K.IsSound keeper.new heap.now world.now (length syms.now.symbols) }
{
    match frame.step {
        Step::Test { .. } => close_quiet(
            machine, keeper, world, terms, heap, syms, limit, why, frame,
        ),
        Step::Parts { .. } => close_quiet(
            machine, keeper, world, terms, heap, syms, limit, why, frame,
        ),
        Step::Several { .. } => close_quiet(
            machine, keeper, world, terms, heap, syms, limit, why, frame,
        ),
        Step::Calling { .. } => close_quiet(
            machine, keeper, world, terms, heap, syms, limit, why, frame,
        ),
        Step::Guarding {
            inside,
            function,
            names,
        } => close_in_call(
            machine, keeper, world, terms, heap, syms, limit, why, frame, inside, function, names,
        ),
        Step::Running {
            inside,
            function,
            names,
        } => close_in_call(
            machine, keeper, world, terms, heap, syms, limit, why, frame, inside, function, names,
        ),
        Step::Allowing {
            function,
            names,
            number,
        } => close_allowing(
            machine, keeper, world, terms, heap, syms, limit, why, frame, function, names, number,
        ),
        Step::Exporting {
            function,
            names,
            number,
        } => close_exporting(
            machine, keeper, world, terms, heap, syms, limit, why, frame, function, names, number,
        ),
        Step::Borrowing { at, term, bound } => close_children(
            machine, keeper, world, terms, heap, syms, limit, why, frame, at, term, bound,
        ),
        Step::Producing { loans, .. } => close_lending(
            alloc, machine, keeper, world, terms, heap, syms, limit, why, frame, loans,
        ),
        Step::Putting { loans, .. } => close_lending(
            alloc, machine, keeper, world, terms, heap, syms, limit, why, frame, loans,
        ),
        Step::Local { at, body } => close_local(
            machine, keeper, world, terms, heap, syms, limit, why, frame, at, body,
        ),
        Step::Last { inside: None } => close_quiet(
            machine, keeper, world, terms, heap, syms, limit, why, frame,
        ),
        Step::Last {
            inside: Some(export),
        } => close_export(
            machine, keeper, world, terms, heap, syms, limit, why, frame, export,
        ),
    }
}
