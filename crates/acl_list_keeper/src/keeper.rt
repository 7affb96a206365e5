//! The keeper.

ghost use Rattle.std.specs.Prelude.{◌≡◌, ℕ, [], List, length, IfOk, Some, None, option_map};
ghost use Rattle.model_eval.specs.Outcomes.{Stobjs};
ghost use Rattle.model_eval.specs.GeneratedCalls.{list_or_none};
ghost use Rattle.model_eval.specs.ListsKeeping.{lists_keeping};
ghost use Rattle.acl_heap.specs.Objects.{Objects, Extends};
ghost use Rattle.acl_forms.specs.Forms.{AreWhole};
ghost use Rattle.acl_terms.specs.Definitions.{seen_generated};
ghost use Rattle.acl_worlds.specs.Contents.{Content, seen_world};
ghost use Rattle.acl_keep.specs.Seen.{all_seen, words_in};
ghost use Rattle.acl_lists.specs.Pairs.{Within};
ghost use Rattle.acl_list_parts.specs.Parts.{list_given};
ghost use Rattle.acl_list_scope.specs.Scopes.{scope, AreWithin, number_of};
ghost use Rattle.acl_list_scope.specs.Kept as kept;
ghost use Rattle.acl_list_keeper.specs.Readiness.{IsReady};
ghost use Rattle.acl_list_keeper.specs.Sound as fitting;
ghost use Rattle.acl_list_keeper.specs.Stays.{sound_later};

use crate::ready::{Ready, apply, ready_of};
use acl_base::{SymId, Word};
use acl_heap::Heap;
use acl_keep::{Effect, Keeper, Loan};
use acl_list_calls::done_by;
use acl_list_scope::{ScopedLists, first_object};
use acl_lists::ListId;
use acl_syms::Symbols;
use acl_terms::{GeneratedFunction, Shown};
use acl_worlds::World;
use std::alloc::{AllocError, Global};

/// Objects in scope as lists in a table, and what a call that was prepared will do.
#[derive(Drop)]
pub struct ListKeeper {
    pub scoped: ScopedLists,
    pub ready: Option<Ready>,
}

impl ListKeeper {
    /// Nothing is in scope, and no call is open. It takes no memory.
    pub fn new(alloc: Global) -> ListKeeper
        ensures keeps { kept.Keeps result.scoped [] [] }
        ensures sound { (h : Objects) (w : Content) (n : ℕ) → fitting.WorldFits h w n → fitting.IsSound result.scoped result.ready h w n }
    {
        ListKeeper {
            scoped: ScopedLists::new(alloc),
            ready: None,
        }
    }
}

/// The list that a variable has; without one, the empty list.
fn list_for(scoped: &ScopedLists, variable: Option<SymId>) -> Option<ListId>
    ensures within { AreWithin scoped.now.lists scoped.now.bindings.items → Within scoped.now.lists result }
    ensures is { list_given scoped.now.lists result ≡ list_or_none lists_keeping (scope scoped.now.lists scoped.now.bindings.items) (option_map number_of variable) }
{
    match variable {
        Some(variable) => scoped.list_of(variable),
        None => None,
    }
}

/// Makes a call ready. What is refused may have added cells to the table.
fn prepared(
    scoped: &mut ScopedLists,
    world: &World,
    heap: &mut Heap,
    _syms: &Symbols,
    function: &GeneratedFunction,
    values: &[Shown],
) -> Result<Ready, AllocError>
    requires whole { AreWhole _syms.now heap.old (words_in values.now) }
    requires sound { fitting.IsSound scoped.old None heap.old world.now (length _syms.now.symbols) }
    ensures keeps { (k : Stobjs ℕ) (ls : List (Stobjs ℕ)) → kept.Keeps scoped.old k ls → kept.Keeps scoped.new k ls }
    ensures heap { Extends heap.old heap.new }
    ensures ready { IfOk result (λ r. IsReady scoped.new (Some r) heap.new (record { world = seen_world heap.new world.now; function = seen_generated function.now; values = all_seen heap.new values.now })) }
    ensures fits { IfOk result (λ r. fitting.ReadyFits scoped.new.lists heap.new (length _syms.now.symbols) (Some r)) }
{
    let variable = first_object(values);
    let list = list_for(scoped, variable);
    let done = done_by(
        scoped.alloc,
        &mut scoped.lists,
        world,
        heap,
        function,
        values,
        list,
    )?;
    Ok(ready_of(done, variable))
}

impl Keeper for ListKeeper {
    ghost Kept = { Stobjs ℕ };

    ghost Left = { Stobjs ℕ };

    ghost keeping = { lists_keeping };

    ghost Keeps = { λ s k ls. kept.Keeps s.scoped k ls };

    ghost IsSound = { λ s h w n. fitting.IsSound s.scoped s.ready h w n };

    ghost MayCall = { λ c k ls. Unit {0} };

    ghost MayReach = { λ parent field k ls. Unit {0} };

    ghost MayLend = { λ loans k ls. Unit {0} };

    ghost MayMake = { λ w x k ls. Unit {0} };

    ghost MayUnmake = { λ k ls. Unit {0} };

    ghost MayAbandon = { λ k ls. Unit {0} };

    ghost IsPrepared = { λ s h c. IsReady s.scoped s.ready h c };

    fn prepare(
        &mut self,
        world: &World,
        heap: &mut Heap,
        syms: &Symbols,
        function: &GeneratedFunction,
        values: &[Shown],
    ) -> Result<(), AllocError> {
        self.ready = None;
        let ready = prepared(&mut self.scoped, world, heap, syms, function, values)?;
        self.ready = Some(ready);
        Ok(())
    }

    fn call(
        &mut self,
        _world: &World,
        _heap: &Heap,
        _syms: &Symbols,
        _function: &GeneratedFunction,
        _values: &[Shown],
    ) -> Effect {
        match self.ready {
            Some(ready) => {
                apply(&mut self.scoped, ready.change);
                self.ready = None;
                ready.effect
            }
            None => Effect::Refuses,
        }
    }

    fn hand_over(
        &mut self,
        heap: &Heap,
        formals: &[SymId],
        actuals: &[Shown],
    ) -> Result<(), AllocError> {
        self.ready = None;
        match self.scoped.hand_over(heap, formals, actuals) {
            Ok(()) => Ok(()),
            Err(refused) => Err(refused),
        }
    }

    fn hand_back(&mut self, heap: &Heap, formals: &[SymId], actuals: &[Shown]) {
        self.ready = None;
        self.scoped.hand_back(heap, formals, actuals);
    }

    fn remember(&mut self) -> Result<(), AllocError> {
        self.ready = None;
        match self.scoped.remember() {
            Ok(()) => Ok(()),
            Err(refused) => Err(refused),
        }
    }

    fn forget(&mut self) {
        self.ready = None;
        self.scoped.forget();
    }

    fn begin_export(&mut self) {
        self.ready = None;
        self.scoped.begin_export();
    }

    fn cancel_export(&mut self) {
        self.ready = None;
        self.scoped.cancel_export();
    }

    fn commit(&mut self) {
        self.ready = None;
        self.scoped.commit();
    }

    fn abandon(&mut self, heap: &Heap, actuals: &[Shown]) {
        self.ready = None;
        self.scoped.abandon(heap, actuals);
    }

    fn is_reached(
        &self,
        heap: &Heap,
        syms: &Symbols,
        parent: SymId,
        field: u32,
        index: Option<Word>,
    ) -> bool {
        self.scoped.is_reached(heap, syms, parent, field, index)
    }

    fn lend(&mut self, heap: &Heap, syms: &Symbols, loans: &[Loan]) -> Result<(), AllocError> {
        self.ready = None;
        match self.scoped.lend(heap, syms, loans) {
            Ok(()) => Ok(()),
            Err(refused) => Err(refused),
        }
    }

    fn put(&mut self, heap: &Heap, syms: &Symbols, loan: Loan) -> Result<(), AllocError> {
        self.ready = None;
        match self.scoped.put(heap, syms, loan) {
            Ok(()) => Ok(()),
            Err(refused) => Err(refused),
        }
    }

    fn end_loans(&mut self, n: usize) {
        self.ready = None;
        self.scoped.end_loans(n);
    }

    fn make(
        &mut self,
        world: &World,
        heap: &Heap,
        syms: &Symbols,
        stobj: SymId,
    ) -> Result<(), AllocError> {
        self.ready = None;
        match self.scoped.make(world, heap, syms, stobj) {
            Ok(()) => Ok(()),
            Err(refused) => Err(refused),
        }
    }

    fn unmake(&mut self) {
        self.ready = None;
        self.scoped.unmake();
    }

    ghost stays_sound = { λ s h h' w n n' e l i. sound_later s.scoped s.ready h h' w n n' e l i };
}
