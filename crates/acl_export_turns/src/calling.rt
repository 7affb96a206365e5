//! A function of an abstract object is called, once all actuals have values.

ghost use Rattle.std.specs.Prelude.{◌≡◌, ◌<◌, ◌∷◌, [], Some, None, slice_get, OnOk};
ghost use Rattle.model_terms.specs.declared.role.AbstractRole.TheVariants as abstract_role;
ghost use Rattle.acl_base.specs.declared.Word.TheVariants as word;
ghost use Rattle.acl_terms.specs.declared.outcome.Shown.TheVariants as shown;
ghost use Rattle.acl_terms.specs.declared.definition.Definition.TheVariants as definition;
ghost use Rattle.acl_machine.specs.declared.frame.Control.TheVariants as control;
ghost use Rattle.acl_machine.specs.declared.frame.Halt.TheVariants as halt;
ghost use Rattle.acl_machine.specs.declared.frame.Step.TheVariants as step;
ghost use Rattle.acl_machine.specs.Cells.{cells_from};
ghost use Rattle.acl_machine.specs.Turns.{IsFirst};
ghost use Rattle.acl_machine.specs.Steps.{IsSound, counted, giving, holding, replaced, stopped};
ghost use Rattle.acl_machine.specs.Views.{around};
ghost use Rattle.acl_machine.specs.Keeping.{TurnsTo};

use acl_base::{FnId, SymId, Word};
use acl_code::Terms;
use acl_heap::Heap;
use acl_keep::Keeper;
use acl_machine::{Frame, Halt, Machine, Step, slot_in};
use acl_syms::Symbols;
use acl_terms::{AbstractFunction, Shown};
use acl_worlds::World;
use std::alloc::AllocError;

const T: Shown = Shown::Value(Word::Sym(SymId(0)));

/// A call more is counted, and T is given.
fn give_truth(machine: &mut Machine, base: u64, limit: u64) -> Result<(), AllocError>
    requires { machine.old.calls < limit }
    ensures { OnOk result (machine.new ≡ giving (shown.Value (word.Sym (record { 0 = 0 })) ∷ []) (counted (replaced (step.Last None) base machine.old))) }
{
    machine.frames.replace(Frame {
        step: Step::Last { inside: None },
        base,
    });
    machine.count(limit)?;
    machine.give_one(T)?;
    Ok(())
}

/// A call more is counted, and stops with its actuals.
fn refuse(
    machine: &mut Machine,
    base: u64,
    count: u64,
    name: SymId,
    limit: u64,
) -> Result<(), AllocError>
    requires { machine.old.calls < limit }
    ensures { OnOk result (machine.new ≡ stopped (halt.Guard name) (counted (holding (cells_from machine.old.values base count) (replaced (step.Last None) base machine.old)))) }
{
    machine.frames.replace(Frame {
        step: Step::Last { inside: None },
        base,
    });
    machine.given.copy(&machine.values, base, count)?;
    machine.count(limit)?;
    machine.stop(Halt::Guard(name))?;
    Ok(())
}

/// A call of a recognizer, which is counted: every object of this kind is one.
pub fn call_recognizer<K: Keeper>(
    machine: &mut Machine,
    _keeper: &K,
    _world: &World,
    _terms: &Terms,
    _heap: &Heap,
    _syms: &Symbols,
    limit: u64,
    frame: Frame,
    at: u64,
    _function: FnId,
    _count: u64,
    _of: &AbstractFunction,
) -> Result<(), AllocError>
    requires given { machine.old.control ≡ control.Give }
    requires first { IsFirst frame machine.old.frames }
    requires step { frame.step ≡ step.Calling at _function _count }
    requires left { machine.old.calls < limit }
    requires is { slice_get _world.now.definitions _function.0 ≡ Some (definition.OfAbstract _of.now) }
    requires role { _of.now.role ≡ abstract_role.Recognizer }
    requires sound { IsSound _syms.now _heap.now machine.old }
    ensures turns { OnOk result (TurnsTo K.keeping (K.Keeps _keeper.now) (K.Keeps _keeper.now) (around _heap.now _world.now _terms.now _syms.now limit) (around _heap.now _world.now _terms.now _syms.now limit) machine.old machine.new) }
    ensures sound { OnOk result (IsSound _syms.now _heap.now machine.new) }
{
    let base = slot_in(frame.base, at)?;
    give_truth(machine, base, limit)?;
    Ok(())
}

/// A call of a creator, which is counted and stops with its actuals.
pub fn call_creator<K: Keeper>(
    machine: &mut Machine,
    _keeper: &K,
    _world: &World,
    _terms: &Terms,
    _heap: &Heap,
    _syms: &Symbols,
    limit: u64,
    frame: Frame,
    at: u64,
    _function: FnId,
    count: u64,
    of: &AbstractFunction,
) -> Result<(), AllocError>
    requires given { machine.old.control ≡ control.Give }
    requires first { IsFirst frame machine.old.frames }
    requires step { frame.step ≡ step.Calling at _function count }
    requires left { machine.old.calls < limit }
    requires is { slice_get _world.now.definitions _function.0 ≡ Some (definition.OfAbstract of.now) }
    requires role { of.now.role ≡ abstract_role.Creator }
    requires sound { IsSound _syms.now _heap.now machine.old }
    ensures turns { OnOk result (TurnsTo K.keeping (K.Keeps _keeper.now) (K.Keeps _keeper.now) (around _heap.now _world.now _terms.now _syms.now limit) (around _heap.now _world.now _terms.now _syms.now limit) machine.old machine.new) }
    ensures sound { OnOk result (IsSound _syms.now _heap.now machine.new) }
{
    let base = slot_in(frame.base, at)?;
    refuse(machine, base, count, of.name, limit)?;
    Ok(())
}
