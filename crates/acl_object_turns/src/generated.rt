//! Functions that objects come with.

ghost use Rattle.std.specs.Prelude.{◌≡◌, ◌<◌, ◌+◌, [], ◌∷◌, Some, None, length, slice_get, OnOk, OnErr};
ghost use Rattle.acl_heap.specs.Objects.{Extends};
ghost use Rattle.acl_terms.specs.declared.definition.Definition.TheVariants as definition;
ghost use Rattle.acl_terms.specs.Definitions.{seen_generated};
ghost use Rattle.acl_worlds.specs.Contents.{WorldLies, seen_world};
ghost use Rattle.acl_code.specs.Tables.{TermsLie};
ghost use Rattle.acl_keep.specs.Seen.{all_seen};
ghost use Rattle.acl_machine.specs.Cells.{cells_from};
ghost use Rattle.acl_machine.specs.declared.frame.Control.TheVariants as control;
ghost use Rattle.acl_machine.specs.declared.frame.Step.TheVariants as step;
ghost use Rattle.acl_machine.specs.Turns.{IsFirst};
ghost use Rattle.acl_machine.specs.Keeping.{TurnsTo, MayGo, StillKeeps};
ghost use Rattle.acl_machine.specs.Steps.{replaced, holding, IsSound};
ghost use Rattle.acl_machine.specs.Views.{around};
ghost use Rattle.acl_object_turns.specs.Steps.{given_by, with_room};

use acl_base::{FnId, SymId};
use acl_code::Terms;
use acl_heap::Heap;
use acl_keep::{Effect, Keeper};
use acl_machine::{Control, Frame, Halt, Machine, Step, slot_in};
use acl_syms::Symbols;
use acl_terms::{GeneratedFunction, Shown};
use acl_worlds::{World, worlds_are_seen};
use std::alloc::AllocError;

/// The actuals of a call, with room behind them for what it gives.
fn take_actuals(machine: &mut Machine, base: u64, count: u64) -> Result<(), AllocError>
    ensures { OnOk result (machine.new ≡ holding (with_room machine.old.values base count) (replaced (step.Last None) base machine.old)) }
{
    machine.frames.replace(Frame {
        step: Step::Last { inside: None },
        base,
    });
    machine.given.copy_with_room(&machine.values, base, count)?;
    Ok(())
}

/// The actuals that were taken.
#[tactic(auto, using(crate::proofs::CallLemmas::within_room, crate::proofs::CallLemmas::first_with_room))]
fn actuals(machine: &Machine, _base: u64, count: u64) -> &[Shown]
    requires { machine.now.given ≡ with_room machine.now.values _base count }
    ensures { result.now ≡ cells_from machine.now.values _base count }
{
    machine.given.first(count)
}

/// What a call answers is given, or the call stops with its actuals. It takes no memory.
fn answer(machine: &mut Machine, effect: Effect, name: SymId, count: u64, cut: u64)
    requires { 1 < length machine.old.given }
    ensures { machine.new ≡ given_by effect name count cut machine.old }
{
    match effect {
        Effect::Refuses => {
            machine.given.keep_first(count);
            machine.control = Control::Stopped(Halt::Guard(name));
            machine.inside = None;
            machine.cut = cut;
        }
        Effect::Gives(value) => {
            machine.given.keep_one(value);
            machine.control = Control::Give;
        }
        Effect::GivesBoth(value, bound) => {
            machine.given.keep_two(value, bound);
            machine.control = Control::Give;
        }
    }
}

/// A call of a function that an object comes with, which is counted: what it answers, by the definition, or its guard is not met.
#[tactic(auto, using(crate::proofs::CallLemmas::has_room, crate::proofs::CallLemmas::actuals_whole, crate::proofs::FrameLemmas::may_be))]
pub fn call_generated<K: Keeper>(
    machine: &mut Machine,
    keeper: &mut K,
    world: &World,
    _terms: &Terms,
    heap: &mut Heap,
    syms: &Symbols,
    limit: u64,
    frame: Frame,
    at: u64,
    _function: FnId,
    count: u64,
    function: &GeneratedFunction,
) -> Result<(), AllocError>
    requires given { machine.old.control ≡ control.Give }
    requires first { IsFirst frame machine.old.frames }
    requires step { frame.step ≡ step.Calling at _function count }
    requires left { machine.old.calls < limit }
    requires is { slice_get world.now.definitions _function.0 ≡ Some (definition.Generated function.now) }
    requires terms { TermsLie heap.old _terms.now }
    requires world { WorldLies heap.old world.now }
    requires may { MayGo (K.Keeps keeper.old) (K.MayCall (record { world = seen_world heap.old world.now; function = seen_generated function.now; values = all_seen heap.old (cells_from machine.old.values (frame.base + at) count) })) machine.old }
    requires sound { IsSound syms.now heap.old machine.old }
    requires keeper { K.IsSound keeper.old heap.old world.now (length syms.now.symbols) }
    ensures turns { OnOk result (TurnsTo K.keeping (K.Keeps keeper.old) (K.Keeps keeper.new) (around heap.old world.now _terms.now syms.now limit) (around heap.new world.now _terms.now syms.now limit) machine.old machine.new) }
    ensures err { OnErr result (StillKeeps (K.Keeps keeper.old) (K.Keeps keeper.new)) }
    ensures sound { OnOk result (IsSound syms.now heap.new machine.new) }
    ensures keeper_sound { K.IsSound keeper.new heap.new world.now (length syms.now.symbols) }
    ensures grows { Extends heap.old heap.new }
{
    worlds_are_seen();
    let base = slot_in(frame.base, at)?;
    take_actuals(machine, base, count)?;
    machine.count(limit)?;
    let cut = slot_in(machine.outer, 1)?;
    let actuals = actuals(machine, base, count);
    keeper.prepare(world, heap, syms, function, actuals)?;
    let effect = keeper.call(world, heap, syms, function, actuals);
    answer(machine, effect, function.name, count, cut);
    Ok(())
}
