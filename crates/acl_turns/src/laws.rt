//! What is known of turns that follow one another, and of keepers that refuse nothing.

ghost use Rattle.acl_machine.specs.Views.{around};
ghost use Rattle.acl_turns.specs.Asking.{AsksNothing, MayTurn};
ghost use Rattle.acl_turns.specs.Laws.{RunsLead};
ghost use Rattle.acl_turns.specs.Runs.{IsKept, MayRun};

use acl_code::Terms;
use acl_heap::Heap;
use acl_keep::Keeper;
use acl_machine::Machine;
use acl_syms::Symbols;
use acl_worlds::World;

/// A keeper that refuses nothing that turns may ask, as one of lists, and that keeps something with a machine: its next turn may be
/// taken, and all turns to the end.
pub fn may_run<K: Keeper>(
    _machine: &Machine,
    _keeper: &K,
    _world: &World,
    _terms: &Terms,
    _heap: &Heap,
    _syms: &Symbols,
    _limit: u64,
)
    requires asks { AsksNothing K.keeping K.MayCall K.MayReach K.MayLend K.MayMake K.MayUnmake K.MayAbandon }
    requires kept { IsKept (K.Keeps _keeper.now) _machine.now }
    ensures turn { MayTurn K.keeping K.MayCall K.MayReach K.MayLend K.MayMake K.MayUnmake K.MayAbandon (K.Keeps _keeper.now) (around _heap.now _world.now _terms.now _syms.now _limit) _machine.now }
    ensures run { MayRun K.keeping K.MayCall K.MayReach K.MayLend K.MayMake K.MayUnmake K.MayAbandon (K.Keeps _keeper.now) (around _heap.now _world.now _terms.now _syms.now _limit) _machine.now }
{}

/// Turns that follow one another are turns of the machine over trees, by the rules that hold at first, and lead to its end.
#[tactic(auto, using(crate::proofs::LeadLemmas::runs_lead))]
pub fn runs_are_turns<K: Keeper>(_keeper: &K)
    ensures { RunsLead K.keeping }
{}
