//! One turn of a machine.

ghost use Rattle.std.specs.Prelude.{◌≡◌, length, IfOk, OnOk, OnErr};
ghost use Rattle.acl_forms.specs.Forms.{Grown};
ghost use Rattle.acl_machine.specs.declared.frame.Control.TheVariants as control;
ghost use Rattle.acl_machine.specs.Steps.{IsSound};
ghost use Rattle.acl_machine.specs.Views.{around};
ghost use Rattle.acl_turns.specs.Asking.{MayTurn};
ghost use Rattle.acl_turns.specs.Leaving.{MayLeave};
ghost use Rattle.acl_turns.specs.Surroundings.{Surrounds};
ghost use Rattle.acl_turns.specs.Taking.{Taken};

use crate::beginning::begin;
use crate::closing::close;
use crate::resuming::resume;
use acl_base::TermId;
use acl_code::Terms;
use acl_heap::Heap;
use acl_keep::Keeper;
use acl_machine::{Control, Halt, Machine, Turn};
use acl_syms::Symbols;
use acl_worlds::World;
use std::alloc::{AllocError, Global};

/// A term begins.
#[tactic(auto, using(crate::proofs::TakeLemmas::may_begin, crate::proofs::LeaveLemmas::leaves_kept, acl_forms::specs::Growth::growing))]
fn take_begin<K: Keeper>(
    machine: &mut Machine,
    keeper: &mut K,
    world: &World,
    terms: &Terms,
    heap: &mut Heap,
    syms: &mut Symbols,
    limit: u64,
    t: TermId,
    base: u64,
) -> Result<Turn, AllocError>
    requires begins { machine.old.control ≡ control.Begin t base }
    requires may { MayTurn K.keeping K.MayCall K.MayReach K.MayLend K.MayMake K.MayUnmake K.MayAbandon (K.Keeps keeper.old) (around heap.old world.now terms.now syms.old limit) machine.old }
    requires surrounds { Surrounds syms.old heap.old world.now terms.now }
    requires sound { IsSound syms.old heap.old machine.old }
    requires keeper { K.IsSound keeper.old heap.old world.now (length syms.old.symbols) }
    ensures ok { IfOk result (λ t. Taken K.keeping (K.Keeps keeper.old) (K.Keeps keeper.new) (around heap.old world.now terms.now syms.old limit) (around heap.new world.now terms.now syms.new limit) machine.old machine.new t) }
    ensures err { OnErr result (MayLeave K.keeping (K.Keeps keeper.old) (K.Keeps keeper.new) (around heap.old world.now terms.now syms.old limit) machine.old) }
    ensures sound { OnOk result (IsSound syms.new heap.new machine.new) }
    ensures keeper_sound { K.IsSound keeper.new heap.new world.now (length syms.new.symbols) }
    ensures grows { Grown syms.old syms.new heap.old heap.new }
    ensures packages { syms.new.packages ≡ syms.old.packages }
{
    match begin(machine, keeper, world, terms, heap, syms, limit, t, base) {
        Ok(()) => Ok(Turn::Going),
        Err(error) => Err(error),
    }
}

/// The innermost form is given its values, where there is one.
#[tactic(auto, using(crate::proofs::TakeLemmas::may_give, crate::proofs::TakeLemmas::over_given, acl_forms::specs::Growth::growing))]
fn take_give<K: Keeper>(
    alloc: Global,
    machine: &mut Machine,
    keeper: &mut K,
    world: &World,
    terms: &Terms,
    heap: &mut Heap,
    syms: &mut Symbols,
    limit: u64,
) -> Result<Turn, AllocError>
    requires given { machine.old.control ≡ control.Give }
    requires may { MayTurn K.keeping K.MayCall K.MayReach K.MayLend K.MayMake K.MayUnmake K.MayAbandon (K.Keeps keeper.old) (around heap.old world.now terms.now syms.old limit) machine.old }
    requires surrounds { Surrounds syms.old heap.old world.now terms.now }
    requires sound { IsSound syms.old heap.old machine.old }
    requires keeper { K.IsSound keeper.old heap.old world.now (length syms.old.symbols) }
    ensures ok { IfOk result (λ t. Taken K.keeping (K.Keeps keeper.old) (K.Keeps keeper.new) (around heap.old world.now terms.now syms.old limit) (around heap.new world.now terms.now syms.new limit) machine.old machine.new t) }
    ensures err { OnErr result (MayLeave K.keeping (K.Keeps keeper.old) (K.Keeps keeper.new) (around heap.old world.now terms.now syms.old limit) machine.old) }
    ensures sound { OnOk result (IsSound syms.new heap.new machine.new) }
    ensures keeper_sound { K.IsSound keeper.new heap.new world.now (length syms.new.symbols) }
    ensures grows { Grown syms.old syms.new heap.old heap.new }
    ensures packages { syms.new.packages ≡ syms.old.packages }
{
    match machine.frames.first() {
        None => Ok(Turn::Over),
        Some(frame) => match resume(
            alloc, machine, keeper, world, terms, heap, syms, limit, frame,
        ) {
            Ok(()) => Ok(Turn::Going),
            Err(error) => Err(error),
        },
    }
}

/// A stop closes the innermost form, where there is one.
#[tactic(auto, using(crate::proofs::TakeLemmas::may_stop, crate::proofs::TakeLemmas::over_stopped, acl_forms::specs::Growth::growing))]
fn take_stop<K: Keeper>(
    alloc: Global,
    machine: &mut Machine,
    keeper: &mut K,
    world: &World,
    terms: &Terms,
    heap: &mut Heap,
    syms: &mut Symbols,
    limit: u64,
    why: Halt,
) -> Result<Turn, AllocError>
    requires stopped { machine.old.control ≡ control.Stopped why }
    requires may { MayTurn K.keeping K.MayCall K.MayReach K.MayLend K.MayMake K.MayUnmake K.MayAbandon (K.Keeps keeper.old) (around heap.old world.now terms.now syms.old limit) machine.old }
    requires surrounds { Surrounds syms.old heap.old world.now terms.now }
    requires sound { IsSound syms.old heap.old machine.old }
    requires keeper { K.IsSound keeper.old heap.old world.now (length syms.old.symbols) }
    ensures ok { IfOk result (λ t. Taken K.keeping (K.Keeps keeper.old) (K.Keeps keeper.new) (around heap.old world.now terms.now syms.old limit) (around heap.new world.now terms.now syms.new limit) machine.old machine.new t) }
    ensures err { OnErr result (MayLeave K.keeping (K.Keeps keeper.old) (K.Keeps keeper.new) (around heap.old world.now terms.now syms.old limit) machine.old) }
    ensures sound { OnOk result (IsSound syms.new heap.new machine.new) }
    ensures keeper_sound { K.IsSound keeper.new heap.new world.now (length syms.new.symbols) }
    ensures grows { Grown syms.old syms.new heap.old heap.new }
    ensures packages { syms.new.packages ≡ syms.old.packages }
{
    match machine.frames.first() {
        None => Ok(Turn::Over),
        Some(frame) => match close(
            alloc, machine, keeper, world, terms, heap, syms, limit, why, frame,
        ) {
            Ok(()) => Ok(Turn::Going),
            Err(error) => Err(error),
        },
    }
}

/// One turn of a machine, or it is over. Where memory is refused, what may be kept is what was, or what `Leaves` says.
#[tactic(auto, using(crate::proofs::GrowthLemmas::surrounds_later))]
pub fn turn<K: Keeper>(
    alloc: Global,
    machine: &mut Machine,
    keeper: &mut K,
    world: &World,
    terms: &Terms,
    heap: &mut Heap,
    syms: &mut Symbols,
    limit: u64,
) -> Result<Turn, AllocError>
    requires may { MayTurn K.keeping K.MayCall K.MayReach K.MayLend K.MayMake K.MayUnmake K.MayAbandon (K.Keeps keeper.old) (around heap.old world.now terms.now syms.old limit) machine.old }
    requires surrounds { Surrounds syms.old heap.old world.now terms.now }
    requires sound { IsSound syms.old heap.old machine.old }
    requires keeper { K.IsSound keeper.old heap.old world.now (length syms.old.symbols) }
    ensures ok { IfOk result (λ t. Taken K.keeping (K.Keeps keeper.old) (K.Keeps keeper.new) (around heap.old world.now terms.now syms.old limit) (around heap.new world.now terms.now syms.new limit) machine.old machine.new t) }
    ensures err { OnErr result (MayLeave K.keeping (K.Keeps keeper.old) (K.Keeps keeper.new) (around heap.old world.now terms.now syms.old limit) machine.old) }
    ensures sound { OnOk result (IsSound syms.new heap.new machine.new) }
    ensures keeper_sound { K.IsSound keeper.new heap.new world.now (length syms.new.symbols) }
    ensures grows { Grown syms.old syms.new heap.old heap.new }
    ensures packages { syms.new.packages ≡ syms.old.packages }
    ensures surrounds { Surrounds syms.new heap.new world.now terms.now }
{
    match machine.control {
        Control::Begin { term, base } => take_begin(
            machine, keeper, world, terms, heap, syms, limit, term, base,
        ),
        Control::Give => take_give(alloc, machine, keeper, world, terms, heap, syms, limit),
        Control::Stopped(why) => take_stop(
            alloc, machine, keeper, world, terms, heap, syms, limit, why,
        ),
    }
}
