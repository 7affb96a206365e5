//! The children of a `STOBJ-LET` are lent once all are bound.

ghost use Rattle.std.specs.Prelude.{◌≡◌, ◌+◌, [], Some, None, drop, length, slice_get, OnOk, OnErr};
ghost use Rattle.model_prims.specs.Kinds.{by_number};
ghost use Rattle.model_eval.specs.Lending.{are_twins};
ghost use Rattle.model_eval.specs.Evaluated.{stobj_let_word};
ghost use Rattle.acl_worlds.specs.Contents.{seen_world};
ghost use Rattle.acl_code.specs.Tables.{tree_at};
ghost use Rattle.acl_keep.specs.Seen.{seen_loans};
ghost use Rattle.acl_machine.specs.declared.frame.Control.TheVariants as control;
ghost use Rattle.acl_machine.specs.declared.frame.Halt.TheVariants as halt;
ghost use Rattle.acl_machine.specs.declared.frame.Step.TheVariants as step;
ghost use Rattle.acl_machine.specs.Cells.{memory_of, top, below};
ghost use Rattle.acl_machine.specs.Constants.{ConstantsAreWhole};
ghost use Rattle.acl_machine.specs.Turns.{IsFirst};
ghost use Rattle.acl_machine.specs.Keeping.{TurnsTo, MayGo, StillKeeps};
ghost use Rattle.acl_machine.specs.Steps.{stopped, again, IsSound};
ghost use Rattle.acl_machine.specs.Views.{around, children_of};
ghost use Rattle.acl_object_turns.specs.Children.{loans_in, all_indices, MayLendOf, MayBorrow, LendsAll};

use crate::borrow::{borrow_child, stop_borrowing};
use crate::reading::{Ends, child_behind, read_ends};
use crate::twins::{are_twins, children_of, loans_of, write_indices};
use acl_base::{SymId, TermId};
use acl_code::Terms;
use acl_heap::Heap;
use acl_keep::{Keeper, Loan};
use acl_machine::{Frame, Halt, Machine, Step, slot_in};
use acl_syms::Symbols;
use acl_worlds::World;
use std::alloc::{AllocError, Global};

/// The symbol that names what stops for two equal indices.
const STOBJ_LET: SymId = SymId(121);

/// A form stops that binds one element twice.
fn stop_twins(machine: &mut Machine, loans: &[Loan], bound: u64) -> Result<(), AllocError>
    ensures { OnOk result (machine.new ≡ stopped (halt.Guard (record { 0 = stobj_let_word })) (again (step.Last None) (record machine.old { given = all_indices loans.now; loans = below bound machine.old.loans }))) }
{
    write_indices(&mut machine.given, loans)?;
    stop_borrowing(machine, bound, Halt::Guard(STOBJ_LET))?;
    Ok(())
}

/// The children are written, and the producer begins.
fn write_children(
    alloc: Global,
    machine: &mut Machine,
    base: u64,
    at: u64,
    bound: u64,
    ends: Ends,
    loans: &[Loan],
) -> Result<(), AllocError>
    ensures { OnOk result (LendsAll base at bound loans.now ends.producer ends.consumer machine.old machine.new) }
{
    let children = children_of(alloc, loans)?;
    let first = slot_in(base, at)?;
    machine.values.set_all(first, children.as_slice())?;
    let consumer = ends.consumer;
    machine.frames.again(Step::Producing {
        at,
        loans: bound,
        consumer,
    });
    machine.begin_term(ends.producer, base);
    Ok(())
}

/// All children are bound: they are lent, and the producer begins.
#[tactic(auto, using(crate::proofs::LendLemmas::may_lend, crate::proofs::PutLemmas::lent_whole))]
fn lend_children<K: Keeper>(
    alloc: Global,
    machine: &mut Machine,
    keeper: &mut K,
    _world: &World,
    terms: &Terms,
    heap: &Heap,
    syms: &Symbols,
    _limit: u64,
    frame: Frame,
    at: u64,
    term: TermId,
    bound: u64,
) -> Result<(), AllocError>
    requires given { machine.old.control ≡ control.Give }
    requires first { IsFirst frame machine.old.frames }
    requires step { frame.step ≡ step.Borrowing at term bound }
    requires next { drop bound (children_of (tree_at heap.now terms.now term)) ≡ [] }
    requires may { MayGo (K.Keeps keeper.old) (MayLendOf K.MayLend (are_twins by_number (seen_loans heap.now (loans_in (top bound machine.old.loans)))) (seen_loans heap.now (loans_in (top bound machine.old.loans)))) machine.old }
    requires sound { IsSound syms.now heap.now machine.old }
    requires keeper { K.IsSound keeper.old heap.now _world.now (length syms.now.symbols) }
    ensures turns { OnOk result (TurnsTo K.keeping (K.Keeps keeper.old) (K.Keeps keeper.new) (around heap.now _world.now terms.now syms.now _limit) (around heap.now _world.now terms.now syms.now _limit) machine.old machine.new) }
    ensures err { OnErr result (StillKeeps (K.Keeps keeper.old) (K.Keeps keeper.new)) }
    ensures sound { OnOk result (IsSound syms.now heap.now machine.new) }
    ensures keeper_sound { K.IsSound keeper.new heap.now _world.now (length syms.now.symbols) }
{
    let loans = loans_of(alloc, machine.loans.last(bound))?;
    let twins = are_twins(heap, syms, loans.as_slice())?;
    if twins {
        stop_twins(machine, loans.as_slice(), bound)?;
        return Ok(());
    }
    let ends = read_ends(terms, heap, term);
    write_children(
        alloc,
        machine,
        frame.base,
        at,
        bound,
        ends,
        loans.as_slice(),
    )?;
    keeper.lend(heap, syms, loans.as_slice())?;
    Ok(())
}

/// The children of a `STOBJ-LET`: the next one is bound, or all are lent.
#[tactic(auto, using(crate::proofs::LendLemmas::may_child, crate::proofs::LendLemmas::may_all))]
pub fn resume_borrowing<K: Keeper>(
    alloc: Global,
    machine: &mut Machine,
    keeper: &mut K,
    world: &World,
    terms: &Terms,
    heap: &Heap,
    syms: &Symbols,
    limit: u64,
    frame: Frame,
    at: u64,
    term: TermId,
    bound: u64,
) -> Result<(), AllocError>
    requires given { machine.old.control ≡ control.Give }
    requires first { IsFirst frame machine.old.frames }
    requires step { frame.step ≡ step.Borrowing at term bound }
    requires constants { ConstantsAreWhole syms.now heap.now terms.now }
    requires may { MayGo (K.Keeps keeper.old) (MayBorrow K.MayReach K.MayLend (seen_world heap.now world.now) (memory_of heap.now machine.old.values) frame.base (drop bound (children_of (tree_at heap.now terms.now term))) (seen_loans heap.now (loans_in (top bound machine.old.loans)))) machine.old }
    requires sound { IsSound syms.now heap.now machine.old }
    requires keeper { K.IsSound keeper.old heap.now world.now (length syms.now.symbols) }
    ensures turns { OnOk result (TurnsTo K.keeping (K.Keeps keeper.old) (K.Keeps keeper.new) (around heap.now world.now terms.now syms.now limit) (around heap.now world.now terms.now syms.now limit) machine.old machine.new) }
    ensures err { OnErr result (StillKeeps (K.Keeps keeper.old) (K.Keeps keeper.new)) }
    ensures sound { OnOk result (IsSound syms.now heap.now machine.new) }
    ensures keeper_sound { K.IsSound keeper.new heap.now world.now (length syms.now.symbols) }
{
    match child_behind(terms, heap, syms, term, bound) {
        Some(child) => {
            borrow_child(
                machine, keeper, world, terms, heap, syms, limit, frame, at, term, bound, child,
            )?;
            Ok(())
        }
        None => {
            lend_children(
                alloc, machine, keeper, world, terms, heap, syms, limit, frame, at, term, bound,
            )?;
            Ok(())
        }
    }
}
