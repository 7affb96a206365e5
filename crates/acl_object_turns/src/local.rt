//! Local objects.

ghost use Rattle.std.specs.Prelude.{◌≡◌, ◌≢◌, ◌≤◌, ◌<◌, [], Some, None, length, slice_get, OnOk, OnErr};
ghost use Rattle.acl_worlds.specs.Contents.{WorldLies, seen_world};
ghost use Rattle.acl_code.specs.declared.term.Term.TheVariants as term;
ghost use Rattle.acl_machine.specs.declared.frame.Control.TheVariants as control;
ghost use Rattle.acl_machine.specs.declared.frame.Halt.TheVariants as halt;
ghost use Rattle.acl_machine.specs.declared.frame.Step.TheVariants as step;
ghost use Rattle.acl_machine.specs.Turns.{IsFirst};
ghost use Rattle.acl_machine.specs.Keeping.{TurnsTo, MayGo, StillKeeps};
ghost use Rattle.acl_machine.specs.Steps.{stopped, giving, pushed, IsSound};
ghost use Rattle.acl_machine.specs.Views.{around};
ghost use Rattle.acl_object_turns.specs.Steps.{OpensLocal};

use crate::common::{close_first, write_given};
use acl_base::{SymId, TermId};
use acl_code::Terms;
use acl_heap::Heap;
use acl_keep::Keeper;
use acl_machine::{Frame, Halt, Machine, Step, slot_in};
use acl_syms::Symbols;
use acl_terms::Shown;
use acl_worlds::World;
use std::alloc::AllocError;

/// No call is left: the form that would make an object is opened, and stops.
#[tactic(auto, using(crate::proofs::FrameLemmas::opened_there))]
fn stop_unmade(machine: &mut Machine, base: u64) -> Result<(), AllocError>
    requires room { machine.old.room ≢ 0 }
    ensures { OnOk result (machine.new ≡ stopped halt.Steps (giving [] (pushed (step.Last None) base machine.old))) }
{
    machine.open_waiting(Step::Last { inside: None }, base)?;
    machine.stop(Halt::Steps)?;
    Ok(())
}

/// The form is opened that makes an object, and its producer begins.
fn open_local(
    machine: &mut Machine,
    limit: u64,
    base: u64,
    at: u64,
    stobj: SymId,
    producer: TermId,
    body: TermId,
) -> Result<(), AllocError>
    requires room { machine.old.room ≢ 0 }
    requires left { machine.old.calls < limit }
    ensures { OnOk result (OpensLocal base at stobj producer body machine.old machine.new) }
{
    let slot = slot_in(base, at)?;
    machine.values.set(slot, Shown::Object(stobj))?;
    machine.count(limit)?;
    machine.open(Step::Local { at, body }, producer, base)?;
    Ok(())
}

/// A term begins that makes an object: where there is room and a call is left, the object is made, and the producer begins.
#[tactic(auto, using(crate::proofs::FrameLemmas::may_be))]
pub fn begin_local<K: Keeper>(
    machine: &mut Machine,
    keeper: &mut K,
    world: &World,
    _terms: &Terms,
    heap: &Heap,
    syms: &Symbols,
    limit: u64,
    _term: TermId,
    base: u64,
    at: u64,
    stobj: SymId,
    producer: TermId,
    body: TermId,
) -> Result<(), AllocError>
    requires begins { machine.old.control ≡ control.Begin _term base }
    requires is { slice_get _terms.now _term.0 ≡ Some (term.WithLocal at stobj producer body) }
    requires world { WorldLies heap.now world.now }
    requires may { MayGo (K.Keeps keeper.old) (K.MayMake (seen_world heap.now world.now) stobj.0) machine.old }
    requires sound { IsSound syms.now heap.now machine.old }
    requires keeper { K.IsSound keeper.old heap.now world.now (length syms.now.symbols) }
    ensures turns { OnOk result (TurnsTo K.keeping (K.Keeps keeper.old) (K.Keeps keeper.new) (around heap.now world.now _terms.now syms.now limit) (around heap.now world.now _terms.now syms.now limit) machine.old machine.new) }
    ensures err { OnErr result (StillKeeps (K.Keeps keeper.old) (K.Keeps keeper.new)) }
    ensures sound { OnOk result (IsSound syms.now heap.now machine.new) }
    ensures keeper_sound { K.IsSound keeper.new heap.now world.now (length syms.now.symbols) }
{
    _terms.is_table();
    if machine.room == 0 {
        machine.stop(Halt::Depth)?;
        return Ok(());
    }
    if machine.calls >= limit {
        stop_unmade(machine, base)?;
        return Ok(());
    }
    open_local(machine, limit, base, at, stobj, producer, body)?;
    keeper.make(world, heap, syms, stobj)?;
    Ok(())
}

/// The producer of a form that made an object has given its values: they are written, the object is taken away, and the body
/// begins.
#[tactic(auto, using(crate::proofs::FrameLemmas::may_be))]
pub fn resume_local<K: Keeper>(
    machine: &mut Machine,
    keeper: &mut K,
    _world: &World,
    _terms: &Terms,
    _heap: &Heap,
    _syms: &Symbols,
    _limit: u64,
    frame: Frame,
    at: u64,
    body: TermId,
) -> Result<(), AllocError>
    requires given { machine.old.control ≡ control.Give }
    requires first { IsFirst frame machine.old.frames }
    requires step { frame.step ≡ step.Local at body }
    requires may { MayGo (K.Keeps keeper.old) K.MayUnmake machine.old }
    requires sound { IsSound _syms.now _heap.now machine.old }
    requires keeper { K.IsSound keeper.old _heap.now _world.now (length _syms.now.symbols) }
    ensures turns { OnOk result (TurnsTo K.keeping (K.Keeps keeper.old) (K.Keeps keeper.new) (around _heap.now _world.now _terms.now _syms.now _limit) (around _heap.now _world.now _terms.now _syms.now _limit) machine.old machine.new) }
    ensures err { OnErr result (StillKeeps (K.Keeps keeper.old) (K.Keeps keeper.new)) }
    ensures sound { OnOk result (IsSound _syms.now _heap.now machine.new) }
    ensures keeper_sound { K.IsSound keeper.new _heap.now _world.now (length _syms.now.symbols) }
{
    write_given(machine, frame.base, at)?;
    keeper.unmake();
    machine.frames.again(Step::Last { inside: None });
    machine.begin_term(body, frame.base);
    Ok(())
}

/// A stop closes a form that made an object, which is taken away.
#[tactic(auto, using(crate::proofs::FrameLemmas::may_be))]
pub fn close_local<K: Keeper>(
    machine: &mut Machine,
    keeper: &mut K,
    _world: &World,
    _terms: &Terms,
    _heap: &Heap,
    _syms: &Symbols,
    _limit: u64,
    _why: Halt,
    _frame: Frame,
    _at: u64,
    _body: TermId,
) -> Result<(), AllocError>
    requires stopped { machine.old.control ≡ control.Stopped _why }
    requires first { IsFirst _frame machine.old.frames }
    requires step { _frame.step ≡ step.Local _at _body }
    requires may { MayGo (K.Keeps keeper.old) K.MayUnmake machine.old }
    requires sound { IsSound _syms.now _heap.now machine.old }
    requires keeper { K.IsSound keeper.old _heap.now _world.now (length _syms.now.symbols) }
    ensures turns { OnOk result (TurnsTo K.keeping (K.Keeps keeper.old) (K.Keeps keeper.new) (around _heap.now _world.now _terms.now _syms.now _limit) (around _heap.now _world.now _terms.now _syms.now _limit) machine.old machine.new) }
    ensures err { OnErr result (StillKeeps (K.Keeps keeper.old) (K.Keeps keeper.new)) }
    ensures sound { OnOk result (IsSound _syms.now _heap.now machine.new) }
    ensures keeper_sound { K.IsSound keeper.new _heap.now _world.now (length _syms.now.symbols) }
{
    close_first(machine)?;
    keeper.unmake();
    Ok(())
}
