//! The children of a `STOBJ-LET` are put back, one a turn, or all of them after a stop.

ghost use Rattle.std.specs.Prelude.{◌≡◌, ◌+◌, ◌<◌, ◌≤◌, ◌∷◌, [], List, true, Some, None, length, slice_get, MatchOption, OnOk, OnErr};
ghost use Rattle.acl_keep.specs.Seen.{seen_loans};
ghost use Rattle.acl_keep.specs.Calls.{SomeArePut};
ghost use Rattle.acl_machine.specs.declared.frame.Control.TheVariants as control;
ghost use Rattle.acl_machine.specs.declared.frame.Frame.{Frame};
ghost use Rattle.acl_machine.specs.declared.frame.Halt.TheVariants as halt;
ghost use Rattle.acl_machine.specs.declared.frame.Step.TheVariants as step;
ghost use Rattle.acl_machine.specs.Cells.{top, below};
ghost use Rattle.acl_machine.specs.Turns.{IsFirst};
ghost use Rattle.acl_machine.specs.Keeping.{TurnsTo, StillKeeps};
ghost use Rattle.acl_machine.specs.Steps.{stopped, giving, again, beginning, IsSound};
ghost use Rattle.acl_machine.specs.Views.{around};
ghost use Rattle.acl_object_turns.specs.Children.{loans_in, HasLent, PutsTo};

use crate::common::{close_first, write_given};
use crate::twins::loans_of;
use acl_base::TermId;
use acl_code::Terms;
use acl_heap::Heap;
use acl_keep::{Keeper, put_all};
use acl_machine::{Borrowed, Frame, Halt, Machine, Step, slot_in};
use acl_syms::Symbols;
use acl_worlds::World;
use std::alloc::{AllocError, Global};

/// The next of so many children that are lent, behind so many, where there is one.
#[tactic(auto, using(crate::proofs::PutLemmas::none_behind))]
fn lent_behind(machine: &Machine, loans: u64, put: u64) -> Option<Borrowed>
    ensures { MatchOption result (length (top loans machine.now.loans) ≤ put) (λ b. slice_get (top loans machine.now.loans) put ≡ Some b) }
{
    match machine.loans.last(loans).get(put as usize) {
        Some(borrowed) => Some(*borrowed),
        None => None,
    }
}

fn lent_count(machine: &Machine, loans: u64) -> usize
    ensures { result ≡ length (top loans machine.now.loans) }
{
    machine.loans.last(loans).len()
}

/// All children are put back: the consumer begins.
fn begin_consumer(machine: &mut Machine, base: u64, loans: u64, consumer: TermId)
    ensures { machine.new ≡ beginning consumer base (again (step.Last None) (record machine.old { loans = below loans machine.old.loans })) }
{
    machine.loans.drop_last(loans);
    machine.frames.again(Step::Last { inside: None });
    machine.begin_term(consumer, base);
}

/// The form waits for the child behind this one.
fn pass(
    machine: &mut Machine,
    at: u64,
    put: u64,
    loans: u64,
    consumer: TermId,
) -> Result<(), AllocError>
    ensures { OnOk result (machine.new ≡ again (step.Putting at (put + 1) loans consumer) machine.old) }
{
    let put = slot_in(put, 1)?;
    machine.frames.again(Step::Putting {
        at,
        put,
        loans,
        consumer,
    });
    Ok(())
}

/// A child that the producer gives back is put back where a call is left, which is counted.
#[tactic(auto, using(crate::proofs::PutLemmas::index_whole))]
fn put_child<K: Keeper>(
    machine: &mut Machine,
    keeper: &mut K,
    _world: &World,
    _terms: &Terms,
    heap: &Heap,
    syms: &Symbols,
    limit: u64,
    frame: Frame,
    at: u64,
    put: u64,
    loans: u64,
    consumer: TermId,
    child: Borrowed,
) -> Result<(), AllocError>
    requires next { slice_get (top loans machine.old.loans) put ≡ Some child }
    requires returns { child.returns ≡ true }
    requires sound { IsSound syms.now heap.now machine.old }
    requires keeper { K.IsSound keeper.old heap.now _world.now (length syms.now.symbols) }
    ensures puts { OnOk result ((rest : List Frame) → machine.old.frames ≡ frame ∷ rest → PutsTo K.keeping (K.Keeps keeper.old) (K.Keeps keeper.new) (around heap.now _world.now _terms.now syms.now limit) frame.base at put loans consumer rest machine.old machine.new) }
    ensures err { OnErr result (StillKeeps (K.Keeps keeper.old) (K.Keeps keeper.new)) }
    ensures sound { OnOk result (IsSound syms.now heap.now machine.new) }
    ensures keeper_sound { K.IsSound keeper.new heap.now _world.now (length syms.now.symbols) }
{
    pass(machine, at, put, loans, consumer)?;
    if machine.calls >= limit {
        machine.stop(Halt::Steps)?;
        return Ok(());
    }
    machine.count(limit)?;
    machine.give_none();
    keeper.put(heap, syms, child.loan)?;
    Ok(())
}

/// A child that was lent is put back, where the producer gives it back.
fn put_lent<K: Keeper>(
    machine: &mut Machine,
    keeper: &mut K,
    world: &World,
    terms: &Terms,
    heap: &Heap,
    syms: &Symbols,
    limit: u64,
    frame: Frame,
    at: u64,
    put: u64,
    loans: u64,
    consumer: TermId,
    child: Borrowed,
) -> Result<(), AllocError>
    requires next { slice_get (top loans machine.old.loans) put ≡ Some child }
    requires sound { IsSound syms.now heap.now machine.old }
    requires keeper { K.IsSound keeper.old heap.now world.now (length syms.now.symbols) }
    ensures puts { OnOk result ((rest : List Frame) → machine.old.frames ≡ frame ∷ rest → PutsTo K.keeping (K.Keeps keeper.old) (K.Keeps keeper.new) (around heap.now world.now terms.now syms.now limit) frame.base at put loans consumer rest machine.old machine.new) }
    ensures err { OnErr result (StillKeeps (K.Keeps keeper.old) (K.Keeps keeper.new)) }
    ensures sound { OnOk result (IsSound syms.now heap.now machine.new) }
    ensures keeper_sound { K.IsSound keeper.new heap.now world.now (length syms.now.symbols) }
{
    let returns = child.returns;
    if returns {
        put_child(
            machine, keeper, world, terms, heap, syms, limit, frame, at, put, loans, consumer,
            child,
        )?;
        Ok(())
    } else {
        pass(machine, at, put, loans, consumer)?;
        machine.give_none();
        Ok(())
    }
}

/// The next child is put back where the producer gives it back, or the consumer begins.
fn put_next<K: Keeper>(
    machine: &mut Machine,
    keeper: &mut K,
    world: &World,
    terms: &Terms,
    heap: &Heap,
    syms: &Symbols,
    limit: u64,
    frame: Frame,
    at: u64,
    put: u64,
    loans: u64,
    consumer: TermId,
) -> Result<(), AllocError>
    requires sound { IsSound syms.now heap.now machine.old }
    requires keeper { K.IsSound keeper.old heap.now world.now (length syms.now.symbols) }
    ensures puts { OnOk result ((rest : List Frame) → machine.old.frames ≡ frame ∷ rest → PutsTo K.keeping (K.Keeps keeper.old) (K.Keeps keeper.new) (around heap.now world.now terms.now syms.now limit) frame.base at put loans consumer rest machine.old machine.new) }
    ensures err { OnErr result (StillKeeps (K.Keeps keeper.old) (K.Keeps keeper.new)) }
    ensures sound { OnOk result (IsSound syms.now heap.now machine.new) }
    ensures keeper_sound { K.IsSound keeper.new heap.now world.now (length syms.now.symbols) }
{
    match lent_behind(machine, loans, put) {
        None => {
            let count = lent_count(machine, loans);
            begin_consumer(machine, frame.base, loans, consumer);
            keeper.end_loans(count);
            Ok(())
        }
        Some(child) => {
            put_lent(
                machine, keeper, world, terms, heap, syms, limit, frame, at, put, loans, consumer,
                child,
            )?;
            Ok(())
        }
    }
}

/// The producer of a `STOBJ-LET` has given its values: they are written, and the first child is put back where the producer gives
/// it back, or the consumer begins.
#[tactic(auto, using(crate::proofs::WholeLemmas::sound_written))]
pub fn resume_producing<K: Keeper>(
    machine: &mut Machine,
    keeper: &mut K,
    world: &World,
    terms: &Terms,
    heap: &Heap,
    syms: &Symbols,
    limit: u64,
    frame: Frame,
    at: u64,
    loans: u64,
    consumer: TermId,
) -> Result<(), AllocError>
    requires given { machine.old.control ≡ control.Give }
    requires first { IsFirst frame machine.old.frames }
    requires step { frame.step ≡ step.Producing at loans consumer }
    requires sound { IsSound syms.now heap.now machine.old }
    requires keeper { K.IsSound keeper.old heap.now world.now (length syms.now.symbols) }
    ensures turns { OnOk result (TurnsTo K.keeping (K.Keeps keeper.old) (K.Keeps keeper.new) (around heap.now world.now terms.now syms.now limit) (around heap.now world.now terms.now syms.now limit) machine.old machine.new) }
    ensures err { OnErr result (StillKeeps (K.Keeps keeper.old) (K.Keeps keeper.new)) }
    ensures sound { OnOk result (IsSound syms.now heap.now machine.new) }
    ensures keeper_sound { K.IsSound keeper.new heap.now world.now (length syms.now.symbols) }
{
    write_given(machine, frame.base, at)?;
    put_next(
        machine, keeper, world, terms, heap, syms, limit, frame, at, 0, loans, consumer,
    )?;
    Ok(())
}

/// So many children have been put back, or are not given back: the next one, or the consumer begins.
pub fn resume_putting<K: Keeper>(
    machine: &mut Machine,
    keeper: &mut K,
    world: &World,
    terms: &Terms,
    heap: &Heap,
    syms: &Symbols,
    limit: u64,
    frame: Frame,
    at: u64,
    put: u64,
    loans: u64,
    consumer: TermId,
) -> Result<(), AllocError>
    requires given { machine.old.control ≡ control.Give }
    requires first { IsFirst frame machine.old.frames }
    requires step { frame.step ≡ step.Putting at put loans consumer }
    requires sound { IsSound syms.now heap.now machine.old }
    requires keeper { K.IsSound keeper.old heap.now world.now (length syms.now.symbols) }
    ensures turns { OnOk result (TurnsTo K.keeping (K.Keeps keeper.old) (K.Keeps keeper.new) (around heap.now world.now terms.now syms.now limit) (around heap.now world.now terms.now syms.now limit) machine.old machine.new) }
    ensures err { OnErr result (StillKeeps (K.Keeps keeper.old) (K.Keeps keeper.new)) }
    ensures sound { OnOk result (IsSound syms.now heap.now machine.new) }
    ensures keeper_sound { K.IsSound keeper.new heap.now world.now (length syms.now.symbols) }
{
    put_next(
        machine, keeper, world, terms, heap, syms, limit, frame, at, put, loans, consumer,
    )?;
    Ok(())
}

/// A stop closes a form that has lent children: all of them are put back, and are no objects in scope. Where memory is refused, some
/// of them are put back, the first ones, and no other.
#[tactic(auto, using(crate::proofs::PutLemmas::none_put, crate::proofs::PutLemmas::some_put, crate::proofs::PutLemmas::lent_whole))]
pub fn close_lent<K: Keeper>(
    alloc: Global,
    machine: &mut Machine,
    keeper: &mut K,
    _world: &World,
    _terms: &Terms,
    heap: &Heap,
    syms: &Symbols,
    _limit: u64,
    _why: Halt,
    _frame: Frame,
    loans: u64,
) -> Result<(), AllocError>
    requires stopped { machine.old.control ≡ control.Stopped _why }
    requires first { IsFirst _frame machine.old.frames }
    requires step { HasLent loans _frame.step }
    requires sound { IsSound syms.now heap.now machine.old }
    requires keeper { K.IsSound keeper.old heap.now _world.now (length syms.now.symbols) }
    ensures turns { OnOk result (TurnsTo K.keeping (K.Keeps keeper.old) (K.Keeps keeper.new) (around heap.now _world.now _terms.now syms.now _limit) (around heap.now _world.now _terms.now syms.now _limit) machine.old machine.new) }
    ensures err { OnErr result (SomeArePut K.keeping (K.Keeps keeper.old) (K.Keeps keeper.new) (seen_loans heap.now (loans_in (top loans machine.old.loans)))) }
    ensures sound { OnOk result (IsSound syms.now heap.now machine.new) }
    ensures keeper_sound { K.IsSound keeper.new heap.now _world.now (length syms.now.symbols) }
{
    let lent = loans_of(alloc, machine.loans.last(loans))?;
    close_first(machine)?;
    put_all(keeper, heap, syms, lent.as_slice())?;
    keeper.end_loans(lent.len());
    machine.loans.drop_last(loans);
    Ok(())
}
