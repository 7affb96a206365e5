//! The guard of an export has its value.

ghost use Rattle.std.specs.Prelude.{◌≡◌, true, false, length, OnOk, OnErr};
ghost use Rattle.model_prims.specs.Kinds.{by_number, is_nil};
ghost use Rattle.model_eval.specs.Variables.{object_of};
ghost use Rattle.acl_keep.specs.Seen.{seen_shown};
ghost use Rattle.acl_machine.specs.declared.frame.Control.TheVariants as control;
ghost use Rattle.acl_machine.specs.declared.frame.Step.TheVariants as step;
ghost use Rattle.acl_machine.specs.Cells.{cell};
ghost use Rattle.acl_machine.specs.Turns.{IsFirst};
ghost use Rattle.acl_machine.specs.Steps.{IsSound};
ghost use Rattle.acl_machine.specs.Views.{around};
ghost use Rattle.acl_machine.specs.Keeping.{TurnsTo, StillKeeps};
ghost use Rattle.acl_export_turns.specs.Steps.{allowed, denied};

use crate::exports::{abstract_at, formals, name};
use crate::steps::{bare, hold_actuals, stop_before};
use acl_base::{FnId, SymId};
use acl_code::Terms;
use acl_heap::Heap;
use acl_keep::Keeper;
use acl_machine::{Frame, Halt, Machine, Step, is_false};
use acl_syms::Symbols;
use acl_worlds::World;
use std::alloc::AllocError;

/// The exec function is called next.
fn allow(machine: &mut Machine, function: FnId, names: u64, number: u64)
    ensures { machine.new ≡ allowed function names number machine.old }
{
    machine.frames.again(Step::Exporting {
        function,
        names,
        number,
    });
    machine.give_none();
}

/// The call stops with the actuals that lie ready.
fn deny(machine: &mut Machine, name: SymId, names: u64, number: u64, base: u64)
    ensures { machine.new ≡ denied name names number base machine.old }
{
    hold_actuals(machine);
    bare(machine, names, base);
    stop_before(machine, number, Halt::Guard(name));
}

/// Its value does not hold: the call stops, seen as before it.
fn resume_denied<K: Keeper>(
    machine: &mut Machine,
    keeper: &mut K,
    world: &World,
    _terms: &Terms,
    heap: &Heap,
    _syms: &Symbols,
    _limit: u64,
    frame: Frame,
    function: FnId,
    names: u64,
    number: u64,
) -> Result<(), AllocError>
    requires given { machine.old.control ≡ control.Give }
    requires first { IsFirst frame machine.old.frames }
    requires step { frame.step ≡ step.Allowing function names number }
    requires fails { is_nil by_number (object_of by_number (seen_shown heap.now (cell machine.old.given 0))) ≡ true }
    requires sound { IsSound _syms.now heap.now machine.old }
    requires keeper { K.IsSound keeper.old heap.now world.now (length _syms.now.symbols) }
    ensures turns { OnOk result (TurnsTo K.keeping (K.Keeps keeper.old) (K.Keeps keeper.new) (around heap.now world.now _terms.now _syms.now _limit) (around heap.now world.now _terms.now _syms.now _limit) machine.old machine.new) }
    ensures err { OnErr result (StillKeeps (K.Keeps keeper.old) (K.Keeps keeper.new)) }
    ensures sound { OnOk result (IsSound _syms.now heap.now machine.new) }
    ensures keeper_sound { K.IsSound keeper.new heap.now world.now (length _syms.now.symbols) }
{
    let of = abstract_at(world, function);
    let formals = formals(of);
    machine.take_actuals(frame.base, formals.len() as u64, names)?;
    keeper.hand_back(heap, formals, machine.actuals.as_slice());
    keeper.forget();
    deny(machine, name(of), names, number, frame.base);
    Ok(())
}

/// Its value holds.
fn resume_allowed<K: Keeper>(
    machine: &mut Machine,
    keeper: &mut K,
    world: &World,
    _terms: &Terms,
    heap: &Heap,
    _syms: &Symbols,
    _limit: u64,
    frame: Frame,
    function: FnId,
    names: u64,
    number: u64,
) -> Result<(), AllocError>
    requires given { machine.old.control ≡ control.Give }
    requires first { IsFirst frame machine.old.frames }
    requires step { frame.step ≡ step.Allowing function names number }
    requires holds { is_nil by_number (object_of by_number (seen_shown heap.now (cell machine.old.given 0))) ≡ false }
    requires sound { IsSound _syms.now heap.now machine.old }
    requires keeper { K.IsSound keeper.old heap.now world.now (length _syms.now.symbols) }
    ensures turns { OnOk result (TurnsTo K.keeping (K.Keeps keeper.old) (K.Keeps keeper.new) (around heap.now world.now _terms.now _syms.now _limit) (around heap.now world.now _terms.now _syms.now _limit) machine.old machine.new) }
    ensures err { OnErr result (StillKeeps (K.Keeps keeper.old) (K.Keeps keeper.new)) }
    ensures sound { OnOk result (IsSound _syms.now heap.now machine.new) }
    ensures keeper_sound { K.IsSound keeper.new heap.now world.now (length _syms.now.symbols) }
{
    let of = abstract_at(world, function);
    let formals = formals(of);
    machine.take_actuals(frame.base, formals.len() as u64, names)?;
    keeper.hand_back(heap, formals, machine.actuals.as_slice());
    allow(machine, function, names, number);
    Ok(())
}

/// The guard of an export has its value: what its call left behind is in scope again, and the exec function is called next, or the
/// call stops with its actuals, seen as before it.
pub fn resume_allowing<K: Keeper>(
    machine: &mut Machine,
    keeper: &mut K,
    world: &World,
    terms: &Terms,
    heap: &Heap,
    syms: &Symbols,
    limit: u64,
    frame: Frame,
    function: FnId,
    names: u64,
    number: u64,
) -> Result<(), AllocError>
    requires given { machine.old.control ≡ control.Give }
    requires first { IsFirst frame machine.old.frames }
    requires step { frame.step ≡ step.Allowing function names number }
    requires sound { IsSound syms.now heap.now machine.old }
    requires keeper { K.IsSound keeper.old heap.now world.now (length syms.now.symbols) }
    ensures turns { OnOk result (TurnsTo K.keeping (K.Keeps keeper.old) (K.Keeps keeper.new) (around heap.now world.now terms.now syms.now limit) (around heap.now world.now terms.now syms.now limit) machine.old machine.new) }
    ensures err { OnErr result (StillKeeps (K.Keeps keeper.old) (K.Keeps keeper.new)) }
    ensures sound { OnOk result (IsSound syms.now heap.now machine.new) }
    ensures keeper_sound { K.IsSound keeper.new heap.now world.now (length syms.now.symbols) }
{
    if is_false(heap, machine.given.get(0)) {
        resume_denied(
            machine, keeper, world, terms, heap, syms, limit, frame, function, names, number,
        )
    } else {
        resume_allowed(
            machine, keeper, world, terms, heap, syms, limit, frame, function, names, number,
        )
    }
}
