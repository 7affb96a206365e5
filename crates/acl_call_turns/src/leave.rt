//! Calls that are left by values: a guard has its value, then the body, then what is done inside an export.

ghost use Rattle.std.specs.Prelude.{◌≡◌, ◌⊎◌, true, false, Some, length, OnOk, OnErr};
ghost use Rattle.model_prims.specs.Kinds.{by_number, is_nil};
ghost use Rattle.model_eval.specs.Variables.{object_of};
ghost use Rattle.acl_terms.specs.Forms.{numbers};
ghost use Rattle.acl_keep.specs.Seen.{seen_shown, all_seen};
ghost use Rattle.acl_machine.specs.Cells.{cell};
ghost use Rattle.acl_machine.specs.declared.frame.Control.TheVariants as control;
ghost use Rattle.acl_machine.specs.declared.frame.Step.TheVariants as step;
ghost use Rattle.acl_machine.specs.Keeping.{TurnsTo, StillKeeps};
ghost use Rattle.acl_machine.specs.Steps.{IsSound};
ghost use Rattle.acl_machine.specs.Turns.{IsFirst};
ghost use Rattle.acl_machine.specs.Views.{around};
ghost use Rattle.acl_call_turns.specs.Calls.{formals_at, actuals_for, HandsBack};

use crate::form::{close_form, leave};
use crate::written::{body_of, formals_of, name_of};
use acl_base::FnId;
use acl_code::Terms;
use acl_heap::Heap;
use acl_keep::Keeper;
use acl_machine::{Frame, Halt, Inside, Machine, Step, is_false};
use acl_syms::Symbols;
use acl_worlds::World;
use std::alloc::AllocError;

/// The guard of a call was not met: the call is left, and stops with its actuals.
fn refuse<K: Keeper>(
    machine: &mut Machine,
    keeper: &mut K,
    world: &World,
    _terms: &Terms,
    heap: &Heap,
    _syms: &Symbols,
    _limit: u64,
    frame: Frame,
    inside: Option<Inside>,
    function: FnId,
    names: u64,
) -> Result<(), AllocError>
    requires given { machine.old.control ≡ control.Give }
    requires first { IsFirst frame machine.old.frames }
    requires step { frame.step ≡ step.Guarding inside function names }
    requires fails { is_nil by_number (object_of by_number (seen_shown heap.now (cell machine.old.given 0))) ≡ true }
    requires sound { IsSound _syms.now heap.now machine.old }
    requires keeper { K.IsSound keeper.old heap.now world.now (length _syms.now.symbols) }
    ensures turns { OnOk result (TurnsTo K.keeping (K.Keeps keeper.old) (K.Keeps keeper.new) (around heap.now world.now _terms.now _syms.now _limit) (around heap.now world.now _terms.now _syms.now _limit) machine.old machine.new) }
    ensures err { OnErr result (StillKeeps (K.Keeps keeper.old) (K.Keeps keeper.new)) }
    ensures sound { OnOk result (IsSound _syms.now heap.now machine.new) }
    ensures keeper_sound { K.IsSound keeper.new heap.now world.now (length _syms.now.symbols) }
{
    let formals = formals_of(world, function);
    machine.take_actuals(frame.base, formals.len() as u64, names)?;
    machine.hold_actuals();
    machine.names.drop_last(names);
    machine.frames.replace(Frame {
        step: Step::Last { inside },
        base: frame.base,
    });
    machine.stop(Halt::Guard(name_of(world, function)))?;
    keeper.hand_back(heap, formals, machine.given.as_slice());
    Ok(())
}

/// It was met: the call is left and entered again, and its body begins.
fn run<K: Keeper>(
    machine: &mut Machine,
    keeper: &mut K,
    world: &World,
    terms: &Terms,
    heap: &Heap,
    _syms: &Symbols,
    _limit: u64,
    frame: Frame,
    inside: Option<Inside>,
    function: FnId,
    names: u64,
) -> Result<(), AllocError>
    requires given { machine.old.control ≡ control.Give }
    requires first { IsFirst frame machine.old.frames }
    requires step { frame.step ≡ step.Guarding inside function names }
    requires holds { is_nil by_number (object_of by_number (seen_shown heap.now (cell machine.old.given 0))) ≡ false }
    requires sound { IsSound _syms.now heap.now machine.old }
    requires keeper { K.IsSound keeper.old heap.now world.now (length _syms.now.symbols) }
    ensures turns { OnOk result (TurnsTo K.keeping (K.Keeps keeper.old) (K.Keeps keeper.new) (around heap.now world.now terms.now _syms.now _limit) (around heap.now world.now terms.now _syms.now _limit) machine.old machine.new) }
    ensures err { OnErr result (StillKeeps (K.Keeps keeper.old) (K.Keeps keeper.new) ⊎ HandsBack K.keeping (K.Keeps keeper.old) (K.Keeps keeper.new) (numbers (formals_at world.now function)) (all_seen heap.now (actuals_for world.now function frame.base names machine.old))) }
    ensures sound { OnOk result (IsSound _syms.now heap.now machine.new) }
    ensures keeper_sound { K.IsSound keeper.new heap.now world.now (length _syms.now.symbols) }
{
    let formals = formals_of(world, function);
    machine.take_actuals(frame.base, formals.len() as u64, names)?;
    keeper.hand_back(heap, formals, machine.actuals.as_slice());
    keeper.hand_over(heap, formals, machine.actuals.as_slice())?;
    machine.frames.replace(Frame {
        step: Step::Running {
            inside,
            function,
            names,
        },
        base: frame.base,
    });
    machine.begin_term(body_of(world, terms.len(), function), frame.base);
    Ok(())
}

/// The guard of a call has its value. Where memory is refused, all is kept that was, or the call is left.
pub fn resume_guard<K: Keeper>(
    machine: &mut Machine,
    keeper: &mut K,
    world: &World,
    terms: &Terms,
    heap: &Heap,
    syms: &Symbols,
    limit: u64,
    frame: Frame,
    inside: Option<Inside>,
    function: FnId,
    names: u64,
) -> Result<(), AllocError>
    requires given { machine.old.control ≡ control.Give }
    requires first { IsFirst frame machine.old.frames }
    requires step { frame.step ≡ step.Guarding inside function names }
    requires sound { IsSound syms.now heap.now machine.old }
    requires keeper { K.IsSound keeper.old heap.now world.now (length syms.now.symbols) }
    ensures turns { OnOk result (TurnsTo K.keeping (K.Keeps keeper.old) (K.Keeps keeper.new) (around heap.now world.now terms.now syms.now limit) (around heap.now world.now terms.now syms.now limit) machine.old machine.new) }
    ensures err { OnErr result (StillKeeps (K.Keeps keeper.old) (K.Keeps keeper.new) ⊎ HandsBack K.keeping (K.Keeps keeper.old) (K.Keeps keeper.new) (numbers (formals_at world.now function)) (all_seen heap.now (actuals_for world.now function frame.base names machine.old))) }
    ensures sound { OnOk result (IsSound syms.now heap.now machine.new) }
    ensures keeper_sound { K.IsSound keeper.new heap.now world.now (length syms.now.symbols) }
{
    if is_false(heap, machine.given.get(0)) {
        match refuse(
            machine, keeper, world, terms, heap, syms, limit, frame, inside, function, names,
        ) {
            Ok(()) => Ok(()),
            Err(error) => Err(error),
        }
    } else {
        match run(
            machine, keeper, world, terms, heap, syms, limit, frame, inside, function, names,
        ) {
            Ok(()) => Ok(()),
            Err(error) => Err(error),
        }
    }
}

/// The body of a call has its values: the call is left, and they are given as the caller sees them.
pub fn resume_body<K: Keeper>(
    machine: &mut Machine,
    keeper: &mut K,
    world: &World,
    _terms: &Terms,
    heap: &Heap,
    _syms: &Symbols,
    _limit: u64,
    frame: Frame,
    inside: Option<Inside>,
    function: FnId,
    names: u64,
) -> Result<(), AllocError>
    requires given { machine.old.control ≡ control.Give }
    requires first { IsFirst frame machine.old.frames }
    requires step { frame.step ≡ step.Running inside function names }
    requires sound { IsSound _syms.now heap.now machine.old }
    requires keeper { K.IsSound keeper.old heap.now world.now (length _syms.now.symbols) }
    ensures turns { OnOk result (TurnsTo K.keeping (K.Keeps keeper.old) (K.Keeps keeper.new) (around heap.now world.now _terms.now _syms.now _limit) (around heap.now world.now _terms.now _syms.now _limit) machine.old machine.new) }
    ensures err { OnErr result (StillKeeps (K.Keeps keeper.old) (K.Keeps keeper.new)) }
    ensures sound { OnOk result (IsSound _syms.now heap.now machine.new) }
    ensures keeper_sound { K.IsSound keeper.new heap.now world.now (length _syms.now.symbols) }
{
    let formals = formals_of(world, function);
    machine.take_actuals(frame.base, formals.len() as u64, names)?;
    machine.give_outside(formals);
    machine.names.drop_last(names);
    machine.frames.replace(Frame {
        step: Step::Last { inside },
        base: frame.base,
    });
    keeper.hand_back(heap, formals, machine.actuals.as_slice());
    Ok(())
}

/// The function that does the work of an export has its values: what was written stays, and the form is closed.
pub fn resume_export<K: Keeper>(
    machine: &mut Machine,
    keeper: &mut K,
    _world: &World,
    _terms: &Terms,
    _heap: &Heap,
    _syms: &Symbols,
    _limit: u64,
    frame: Frame,
    export: Inside,
) -> Result<(), AllocError>
    requires given { machine.old.control ≡ control.Give }
    requires first { IsFirst frame machine.old.frames }
    requires step { frame.step ≡ step.Last (Some export) }
    requires sound { IsSound _syms.now _heap.now machine.old }
    requires keeper { K.IsSound keeper.old _heap.now _world.now (length _syms.now.symbols) }
    ensures turns { OnOk result (TurnsTo K.keeping (K.Keeps keeper.old) (K.Keeps keeper.new) (around _heap.now _world.now _terms.now _syms.now _limit) (around _heap.now _world.now _terms.now _syms.now _limit) machine.old machine.new) }
    ensures err { OnErr result (StillKeeps (K.Keeps keeper.old) (K.Keeps keeper.new)) }
    ensures sound { OnOk result (IsSound _syms.now _heap.now machine.new) }
    ensures keeper_sound { K.IsSound keeper.new _heap.now _world.now (length _syms.now.symbols) }
{
    close_form(machine)?;
    leave(machine, export);
    keeper.commit();
    Ok(())
}
