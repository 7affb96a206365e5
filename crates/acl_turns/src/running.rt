//! Turns until a machine is over.

ghost use Rattle.std.specs.Prelude.{◌≡◌, [], length, OnOk, OnErr};
ghost use Rattle.acl_forms.specs.Forms.{Grown};
ghost use Rattle.acl_machine.specs.Turns.{IsOver, IsLate};
ghost use Rattle.acl_machine.specs.Steps.{IsSound};
ghost use Rattle.acl_machine.specs.Views.{around};
ghost use Rattle.acl_turns.specs.Runs.{MayRun, RunsTo, EndsTo, Fails};
ghost use Rattle.acl_turns.specs.Surroundings.{Surrounds};

use crate::turning::turn;
use acl_code::Terms;
use acl_heap::Heap;
use acl_keep::Keeper;
use acl_machine::{Machine, Turn};
use acl_syms::Symbols;
use acl_worlds::World;
use std::alloc::{AllocError, Global};

/// Turns until a machine is over. Where memory is refused, so it was at a turn to which turns have led; so it is answered too after
/// 2^64 - 1 turns.
#[tactic(auto, using(crate::proofs::RunLemmas::run_starts, acl_forms::specs::Growth::growing))]
pub fn run<K: Keeper>(
    alloc: Global,
    machine: &mut Machine,
    keeper: &mut K,
    world: &World,
    terms: &Terms,
    heap: &mut Heap,
    syms: &mut Symbols,
    limit: u64,
) -> Result<(), AllocError>
    requires may { MayRun K.keeping K.MayCall K.MayReach K.MayLend K.MayMake K.MayUnmake K.MayAbandon (K.Keeps keeper.old) (around heap.old world.now terms.now syms.old limit) machine.old }
    requires surrounds { Surrounds syms.old heap.old world.now terms.now }
    requires sound { IsSound syms.old heap.old machine.old }
    requires keeper { K.IsSound keeper.old heap.old world.now (length syms.old.symbols) }
    ensures runs { OnOk result (RunsTo K.keeping (K.Keeps keeper.old) (K.Keeps keeper.new) (around heap.old world.now terms.now syms.old limit) (around heap.new world.now terms.now syms.new limit) machine.old machine.new) }
    ensures over { OnOk result (IsOver K.keeping (around heap.new world.now terms.now syms.new limit) machine.new) }
    ensures ends { OnOk result (EndsTo K.keeping (K.Keeps keeper.old) (K.Keeps keeper.new) (around heap.old world.now terms.now syms.old limit) (around heap.new world.now terms.now syms.new limit) machine.old machine.new) }
    ensures late { OnOk result (IsLate machine.new.control) }
    ensures closed { OnOk result (machine.new.frames ≡ []) }
    ensures err { OnErr result (Fails K.keeping (K.Keeps keeper.old) (K.Keeps keeper.new) (around heap.old world.now terms.now syms.old limit) machine.old) }
    ensures sound { OnOk result (IsSound syms.new heap.new machine.new) }
    ensures keeper_sound { K.IsSound keeper.new heap.new world.now (length syms.new.symbols) }
    ensures grows { Grown syms.old syms.new heap.old heap.new }
    ensures packages { syms.new.packages ≡ syms.old.packages }
    ensures surrounds { Surrounds syms.new heap.new world.now terms.now }
{
    'turns: for _ in 0..u64::MAX {
        match turn(alloc, machine, keeper, world, terms, heap, syms, limit) {
            Ok(did) => match did {
                Turn::Going => {}
                Turn::Over => return Ok(()),
            },
            Err(error) => return Err(error),
        }
    }
    Err(AllocError)
}
