//! The children of a `STOBJ-LET` are bound, one a turn.

ghost use Rattle.std.specs.Prelude.{◌≡◌, ◌+◌, ◌≤◌, ◌<◌, ◌++◌, ◌∷◌, [], Some, None, drop, length, slice_get, OnOk};
ghost use Rattle.model_eval.specs.Lending.{field_number};
ghost use Rattle.acl_worlds.specs.Contents.{seen_world};
ghost use Rattle.acl_terms.specs.declared.outcome.Shown.TheVariants as shown;
ghost use Rattle.acl_code.specs.Tables.{seen_operand, seen_child, tree_at};
ghost use Rattle.acl_machine.specs.declared.frame.Control.TheVariants as control;
ghost use Rattle.acl_machine.specs.declared.frame.Halt.TheVariants as halt;
ghost use Rattle.acl_machine.specs.declared.frame.Step.TheVariants as step;
ghost use Rattle.acl_machine.specs.Cells.{memory_of, below};
ghost use Rattle.acl_machine.specs.Constants.{IndexIsWhole};
ghost use Rattle.acl_machine.specs.Turns.{IsFirst};
ghost use Rattle.acl_machine.specs.Keeping.{TurnsTo, MayGo};
ghost use Rattle.acl_machine.specs.Steps.{stopped, giving, again, counted, IsSound};
ghost use Rattle.acl_machine.specs.Views.{around, children_of};
ghost use Rattle.acl_object_turns.specs.Children.{operand_cell, loan_cells, parent_shown, MayReachIn};

use crate::common::close_first;
use crate::reading::{loan_of, name_of, value_of};
use acl_base::{SymId, TermId};
use acl_code::{Child, Terms};
use acl_heap::Heap;
use acl_keep::{Keeper, Loan};
use acl_machine::{Borrowed, Frame, Halt, Machine, Step, Values, slot_in};
use acl_syms::Symbols;
use acl_terms::Shown;
use acl_worlds::World;
use std::alloc::AllocError;

/// A form stops whose children are not all bound; so many are.
pub fn stop_borrowing(machine: &mut Machine, bound: u64, why: Halt) -> Result<(), AllocError>
    ensures { OnOk result (machine.new ≡ stopped why (again (step.Last None) (record machine.old { loans = below bound machine.old.loans }))) }
{
    machine.loans.drop_last(bound);
    machine.frames.again(Step::Last { inside: None });
    machine.stop(why)?;
    Ok(())
}

/// One child more is bound, and its accessor's call is counted.
fn bind_child(
    machine: &mut Machine,
    limit: u64,
    at: u64,
    term: TermId,
    bound: u64,
    child: Borrowed,
) -> Result<(), AllocError>
    requires left { machine.old.calls < limit }
    ensures { OnOk result (machine.new ≡ giving [] (again (step.Borrowing at term (bound + 1)) (counted (record machine.old { loans = machine.old.loans ++ child ∷ [] })))) }
{
    let more = slot_in(bound, 1)?;
    machine.loans.push(child)?;
    machine.count(limit)?;
    machine.frames.again(Step::Borrowing {
        at,
        term,
        bound: more,
    });
    machine.give_none();
    Ok(())
}

/// What an accessor was called on.
fn write_called(given: &mut Values, loan: Loan) -> Result<(), AllocError>
    ensures { OnOk result (given.new ≡ loan_cells loan) }
{
    given.clear();
    if let Some(word) = loan.index {
        given.push(Shown::Value(word))?;
    }
    given.push(Shown::Object(loan.parent))?;
    Ok(())
}

/// An accessor's call is counted, and stops since its guard is not met.
fn refuse_child(
    machine: &mut Machine,
    limit: u64,
    bound: u64,
    accessor: SymId,
    loan: Loan,
) -> Result<(), AllocError>
    requires left { machine.old.calls < limit }
    ensures { OnOk result (machine.new ≡ stopped (halt.Guard accessor) (again (step.Last None) (record (counted (record machine.old { given = loan_cells loan })) { loans = below bound machine.old.loans }))) }
{
    write_called(&mut machine.given, loan)?;
    machine.count(limit)?;
    stop_borrowing(machine, bound, Halt::Guard(accessor))?;
    Ok(())
}

/// An accessor's call on a parent is counted: the child is bound, where the parent has it.
#[tactic(auto, using(crate::proofs::BorrowLemmas::may_reach, crate::proofs::ChildWholeLemmas::child_index_whole))]
fn borrow_from<K: Keeper>(
    machine: &mut Machine,
    keeper: &K,
    world: &World,
    _terms: &Terms,
    heap: &Heap,
    syms: &Symbols,
    limit: u64,
    frame: Frame,
    at: u64,
    term: TermId,
    bound: u64,
    child: Child,
    parent: SymId,
) -> Result<(), AllocError>
    requires given { machine.old.control ≡ control.Give }
    requires first { IsFirst frame machine.old.frames }
    requires step { frame.step ≡ step.Borrowing at term bound }
    requires next { drop bound (children_of (tree_at heap.now _terms.now term)) ≡ seen_child heap.now child ∷ drop (bound + 1) (children_of (tree_at heap.now _terms.now term)) }
    requires parent { operand_cell machine.old.values frame.base child.parent ≡ shown.Object parent }
    requires may { MayGo (K.Keeps keeper.now) (MayReachIn K.MayReach (parent_shown (memory_of heap.now machine.old.values) frame.base (seen_operand heap.now child.parent)) (field_number (slice_get (seen_world heap.now world.now) child.accessor.0))) machine.old }
    requires whole { IndexIsWhole syms.now heap.now child.index }
    requires sound { IsSound syms.now heap.now machine.old }
    ensures turns { OnOk result (TurnsTo K.keeping (K.Keeps keeper.now) (K.Keeps keeper.now) (around heap.now world.now _terms.now syms.now limit) (around heap.now world.now _terms.now syms.now limit) machine.old machine.new) }
    ensures sound { OnOk result (IsSound syms.now heap.now machine.new) }
{
    if machine.calls >= limit {
        stop_borrowing(machine, bound, Halt::Steps)?;
        return Ok(());
    }
    let loan = loan_of(world, &machine.values, frame.base, parent, child);
    let reached = keeper.is_reached(heap, syms, parent, loan.field, loan.index);
    if reached {
        let returns = child.returns;
        bind_child(machine, limit, at, term, bound, Borrowed { loan, returns })?;
        Ok(())
    } else {
        let accessor = name_of(world, child.accessor);
        refuse_child(machine, limit, bound, accessor, loan)?;
        Ok(())
    }
}

/// The next child of a `STOBJ-LET`: its parent is read, its accessor's call is counted, and it is bound where the parent has it.
pub fn borrow_child<K: Keeper>(
    machine: &mut Machine,
    keeper: &K,
    world: &World,
    _terms: &Terms,
    heap: &Heap,
    syms: &Symbols,
    limit: u64,
    frame: Frame,
    at: u64,
    term: TermId,
    bound: u64,
    child: Child,
) -> Result<(), AllocError>
    requires given { machine.old.control ≡ control.Give }
    requires first { IsFirst frame machine.old.frames }
    requires step { frame.step ≡ step.Borrowing at term bound }
    requires next { drop bound (children_of (tree_at heap.now _terms.now term)) ≡ seen_child heap.now child ∷ drop (bound + 1) (children_of (tree_at heap.now _terms.now term)) }
    requires may { MayGo (K.Keeps keeper.now) (MayReachIn K.MayReach (parent_shown (memory_of heap.now machine.old.values) frame.base (seen_operand heap.now child.parent)) (field_number (slice_get (seen_world heap.now world.now) child.accessor.0))) machine.old }
    requires whole { IndexIsWhole syms.now heap.now child.index }
    requires sound { IsSound syms.now heap.now machine.old }
    ensures turns { OnOk result (TurnsTo K.keeping (K.Keeps keeper.now) (K.Keeps keeper.now) (around heap.now world.now _terms.now syms.now limit) (around heap.now world.now _terms.now syms.now limit) machine.old machine.new) }
    ensures sound { OnOk result (IsSound syms.now heap.now machine.new) }
{
    match value_of(&machine.values, frame.base, child.parent) {
        Shown::Value(_) => {
            stop_borrowing(machine, bound, Halt::Depth)?;
            Ok(())
        }
        Shown::Object(parent) => {
            borrow_from(
                machine, keeper, world, _terms, heap, syms, limit, frame, at, term, bound, child,
                parent,
            )?;
            Ok(())
        }
    }
}

/// A stop closes a form whose children are not all bound.
pub fn close_borrowing<K: Keeper>(
    machine: &mut Machine,
    _keeper: &K,
    _world: &World,
    _terms: &Terms,
    _heap: &Heap,
    _syms: &Symbols,
    _limit: u64,
    _why: Halt,
    _frame: Frame,
    _at: u64,
    _term: TermId,
    bound: u64,
) -> Result<(), AllocError>
    requires stopped { machine.old.control ≡ control.Stopped _why }
    requires first { IsFirst _frame machine.old.frames }
    requires step { _frame.step ≡ step.Borrowing _at _term bound }
    requires sound { IsSound _syms.now _heap.now machine.old }
    ensures turns { OnOk result (TurnsTo K.keeping (K.Keeps _keeper.now) (K.Keeps _keeper.now) (around _heap.now _world.now _terms.now _syms.now _limit) (around _heap.now _world.now _terms.now _syms.now _limit) machine.old machine.new) }
    ensures sound { OnOk result (IsSound _syms.now _heap.now machine.new) }
{
    close_first(machine)?;
    machine.loans.drop_last(bound);
    Ok(())
}
