//! A call of a function that was written is entered.

ghost use Rattle.std.specs.Prelude.{◌≡◌, ◌<◌, ℕ, None, Some, length, slice_get, IfOk, OnOk, OnErr};
ghost use Rattle.acl_heap.specs.Objects.{Objects};
ghost use Rattle.acl_terms.specs.Forms.{numbers};
ghost use Rattle.acl_terms.specs.declared.definition.Definition.TheVariants as definition;
ghost use Rattle.acl_worlds.specs.Contents.{Content};
ghost use Rattle.acl_keep.specs.Seen.{all_seen};
ghost use Rattle.acl_machine.specs.declared.frame.Control.TheVariants as control;
ghost use Rattle.acl_machine.specs.declared.frame.Step.TheVariants as step;
ghost use Rattle.acl_machine.specs.Actuals.{names_of, under_formals, naming};
ghost use Rattle.acl_machine.specs.Cells.{WritesAll};
ghost use Rattle.acl_machine.specs.Keeping.{TurnsTo, StillKeeps};
ghost use Rattle.acl_machine.specs.Steps.{IsSound};
ghost use Rattle.acl_machine.specs.Turns.{IsFirst};
ghost use Rattle.acl_machine.specs.Views.{around};
ghost use Rattle.acl_call_turns.specs.Calls.{entered, HandsOver};

use acl_base::{FnId, SymId};
use acl_code::Terms;
use acl_heap::Heap;
use acl_keep::Keeper;
use acl_machine::{Frame, Inside, Machine, Step, slot_in};
use acl_syms::Symbols;
use acl_terms::Function;
use acl_worlds::World;
use std::alloc::AllocError;

/// The actuals that lie ready are handed over to a callee: written under the names of its formals from a number on, and the objects
/// among them handed over; how many there are. Where memory is refused, what is kept has not changed.
pub fn hand_actuals_over<K: Keeper>(
    machine: &mut Machine,
    keeper: &mut K,
    heap: &Heap,
    base: u64,
    formals: &[SymId],
) -> Result<u64, AllocError>
    ensures many { IfOk result (λ n. n ≡ length (names_of machine.old.actuals)) }
    ensures writes { OnOk result (WritesAll base (under_formals formals.now machine.old.actuals) machine.old.values machine.new.values) }
    ensures is { OnOk result (machine.new ≡ naming machine.new.values machine.old) }
    ensures keeps { OnOk result (HandsOver K.keeping (K.Keeps keeper.old) (K.Keeps keeper.new) (numbers formals.now) (all_seen heap.now machine.old.actuals)) }
    ensures err { OnErr result (StillKeeps (K.Keeps keeper.old) (K.Keeps keeper.new)) }
    ensures sound { (h : Objects) (w : Content) (n : ℕ) → K.IsSound keeper.old h w n → K.IsSound keeper.new h w n }
{
    let names = machine.rename_actuals(base, formals)?;
    keeper.hand_over(heap, formals, machine.actuals.as_slice())?;
    Ok(names)
}

/// A call of a function is entered whose actuals lie ready: its guard begins. Where memory is refused, what is kept has not changed.
pub fn enter_function<K: Keeper>(
    machine: &mut Machine,
    keeper: &mut K,
    heap: &Heap,
    inside: Option<Inside>,
    function: FnId,
    written: &Function,
    base: u64,
) -> Result<(), AllocError>
    ensures writes { OnOk result (WritesAll base (under_formals written.now.formals machine.old.actuals) machine.old.values machine.new.values) }
    ensures is { OnOk result (machine.new ≡ entered inside function base written.now.guard_term machine.new.values machine.old) }
    ensures keeps { OnOk result (HandsOver K.keeping (K.Keeps keeper.old) (K.Keeps keeper.new) (numbers written.now.formals) (all_seen heap.now machine.old.actuals)) }
    ensures err { OnErr result (StillKeeps (K.Keeps keeper.old) (K.Keeps keeper.new)) }
    ensures sound { (h : Objects) (w : Content) (n : ℕ) → K.IsSound keeper.old h w n → K.IsSound keeper.new h w n }
{
    let formals = written.formals.as_slice();
    let names = hand_actuals_over(machine, keeper, heap, base, formals)?;
    machine.frames.replace(Frame {
        step: Step::Guarding {
            inside,
            function,
            names,
        },
        base,
    });
    machine.begin_term(written.guard_term, base);
    Ok(())
}

/// A call of a function, which is counted: its guard begins, in the window of the actuals.
pub fn call_function<K: Keeper>(
    machine: &mut Machine,
    keeper: &mut K,
    _world: &World,
    _terms: &Terms,
    heap: &Heap,
    _syms: &Symbols,
    limit: u64,
    frame: Frame,
    at: u64,
    function: FnId,
    count: u64,
    written: &Function,
) -> Result<(), AllocError>
    requires given { machine.old.control ≡ control.Give }
    requires first { IsFirst frame machine.old.frames }
    requires step { frame.step ≡ step.Calling at function count }
    requires left { machine.old.calls < limit }
    requires is { slice_get _world.now.definitions function.0 ≡ Some (definition.Function written.now) }
    requires sound { IsSound _syms.now heap.now machine.old }
    requires keeper { K.IsSound keeper.old heap.now _world.now (length _syms.now.symbols) }
    ensures turns { OnOk result (TurnsTo K.keeping (K.Keeps keeper.old) (K.Keeps keeper.new) (around heap.now _world.now _terms.now _syms.now limit) (around heap.now _world.now _terms.now _syms.now limit) machine.old machine.new) }
    ensures err { OnErr result (StillKeeps (K.Keeps keeper.old) (K.Keeps keeper.new)) }
    ensures sound { OnOk result (IsSound _syms.now heap.now machine.new) }
    ensures keeper_sound { K.IsSound keeper.new heap.now _world.now (length _syms.now.symbols) }
{
    let base = slot_in(frame.base, at)?;
    machine.count(limit)?;
    machine.actuals.copy(&machine.values, base, count)?;
    enter_function(machine, keeper, heap, None, function, written, base)?;
    Ok(())
}
