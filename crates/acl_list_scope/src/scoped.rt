//! Lists in scope, with what open calls have left behind.

ghost use Rattle.std.specs.Prelude.{◌≡◌, ℕ, [], ◌∷◌, ◌++◌, List, IfSome, IfNone, IfOk, OnOk, OnErr, option_map};
ghost use Rattle.model_eval.specs.Outcomes.{Stobjs};
ghost use Rattle.model_eval.specs.ListsKeeping.{lists_keeping};
ghost use Rattle.model_eval.specs.StobjLayouts.{new_list};
ghost use Rattle.acl_terms.specs.Forms.{numbers};
ghost use Rattle.acl_worlds.specs.Contents.{seen_world, WorldLies};
ghost use Rattle.model_eval.specs.Variables.{list_of, with_list};
ghost use Rattle.acl_heap.specs.Objects.{object_of};
ghost use Rattle.acl_forms.specs.Forms.{AreWhole};
ghost use Rattle.acl_keep.specs.Seen.{all_seen, seen_loan, seen_loans, index_words, loan_words};
ghost use Rattle.acl_keep.specs.Calls.{has_child};
ghost use Rattle.acl_lists.specs.Pairs.{Within};
ghost use Rattle.acl_list_parts.specs.Parts.{list_given};
ghost use Rattle.acl_list_scope.specs.Scopes.{scope, AreWithin};
ghost use Rattle.acl_list_scope.specs.Kept.{Keeps};

use crate::binding::{Binding, Scope};
use crate::{lending, scope};
use acl_base::{SymId, Word};
use acl_heap::Heap;
use acl_keep::Loan;
use acl_lists::{ListId, Lists};
use acl_syms::Symbols;
use acl_terms::Shown;
use acl_worlds::World;
use std::alloc::{AllocError, Global};

/// Objects in scope as lists in a table.
#[derive(Drop)]
pub struct ScopedLists {
    pub alloc: Global,
    pub lists: Lists,
    /// What is in scope.
    pub bindings: Vec<Binding>,
    /// What calls that are open have left behind.
    pub behind: Vec<Scope>,
}

/// Leaves bindings behind, with others in their place. A refusal changes nothing.
fn leave_behind(
    behind: &mut Vec<Scope>,
    bindings: &mut Vec<Binding>,
    inner: Vec<Binding>,
) -> Result<(), AllocError>
    ensures ok { OnOk result (behind.new.items ≡ behind.old.items ++ record { bindings = bindings.old } ∷ []) }
    ensures now { OnOk result (bindings.new.items ≡ inner.items) }
    ensures err { OnErr result (behind.new.items ≡ behind.old.items) }
    ensures same { OnErr result (bindings.new.items ≡ bindings.old.items) }
{
    let outer = std::mem::replace(bindings, inner);
    match behind.push(Scope { bindings: outer }) {
        Ok(()) => Ok(()),
        Err(refused) => {
            let kept = refused.value;
            *bindings = kept.bindings;
            Err(AllocError)
        }
    }
}

/// Takes out what was left behind last.
fn take_last(behind: &mut Vec<Scope>) -> Option<Scope>
    ensures some { IfSome result (λ s. behind.old.items ≡ behind.new.items ++ s ∷ []) }
    ensures none { IfNone result (behind.old.items ≡ []) }
    ensures same { IfNone result (behind.new.items ≡ behind.old.items) }
{
    behind.pop()
}

impl ScopedLists {
    /// Nothing is in scope, and no call is open. It takes no memory.
    pub fn new(alloc: Global) -> ScopedLists
        ensures { Keeps result [] [] }
    {
        ScopedLists {
            alloc,
            lists: Lists::new(alloc),
            bindings: Vec::new(alloc),
            behind: Vec::new(alloc),
        }
    }

    /// Hands the objects among the actuals over to a call, by the names of its formals. What is in scope stays behind.
    pub fn hand_over(
        &mut self,
        _heap: &Heap,
        formals: &[SymId],
        actuals: &[Shown],
    ) -> Result<(), AllocError>
        ensures ok { OnOk result ((k : Stobjs ℕ) (ls : List (Stobjs ℕ)) → Keeps self.old k ls → Keeps self.new (lists_keeping.hand_over (numbers formals.now) (all_seen _heap.now actuals.now) k) (lists_keeping.behind k ∷ ls)) }
        ensures err { OnErr result ((k : Stobjs ℕ) (ls : List (Stobjs ℕ)) → Keeps self.old k ls → Keeps self.new k ls) }
    {
        let inner = scope::handed_over(self.alloc, self.bindings.as_slice(), formals, actuals)?;
        match leave_behind(&mut self.behind, &mut self.bindings, inner) {
            Ok(()) => Ok(()),
            Err(refused) => Err(refused),
        }
    }

    /// Leaves a call: what it left behind is in scope again.
    pub fn hand_back(&mut self, _heap: &Heap, formals: &[SymId], actuals: &[Shown])
        ensures keeps { (k : Stobjs ℕ) (left : Stobjs ℕ) (ls : List (Stobjs ℕ)) → Keeps self.old k (left ∷ ls) → Keeps self.new (lists_keeping.hand_back (numbers formals.now) (all_seen _heap.now actuals.now) k left) ls }
        ensures none { (k : Stobjs ℕ) → Keeps self.old k [] → Keeps self.new k [] }
    {
        match take_last(&mut self.behind) {
            Some(outer) => {
                scope::give_back(&mut self.bindings, outer.bindings, formals, actuals);
            }
            None => {}
        }
    }

    /// Remembers what is in scope at the call of an export.
    pub fn remember(&mut self) -> Result<(), AllocError>
        ensures ok { OnOk result ((k : Stobjs ℕ) (ls : List (Stobjs ℕ)) → Keeps self.old k ls → Keeps self.new k (lists_keeping.behind k ∷ ls)) }
        ensures err { OnErr result ((k : Stobjs ℕ) (ls : List (Stobjs ℕ)) → Keeps self.old k ls → Keeps self.new k ls) }
    {
        let inner = scope::copied(self.alloc, self.bindings.as_slice())?;
        match leave_behind(&mut self.behind, &mut self.bindings, inner) {
            Ok(()) => Ok(()),
            Err(refused) => Err(refused),
        }
    }

    /// Forgets what was remembered last.
    pub fn forget(&mut self)
        ensures keeps { (k : Stobjs ℕ) (left : Stobjs ℕ) (ls : List (Stobjs ℕ)) → Keeps self.old k (left ∷ ls) → Keeps self.new k ls }
        ensures none { (k : Stobjs ℕ) → Keeps self.old k [] → Keeps self.new k [] }
    {
        match take_last(&mut self.behind) {
            Some(_before) => {}
            None => {}
        }
    }

    /// The function begins that does the work of an export.
    pub fn begin_export(&mut self)
        ensures { (k : Stobjs ℕ) (ls : List (Stobjs ℕ)) → Keeps self.old k ls → Keeps self.new (lists_keeping.begin_export k) ls }
    {
        let _ = &self.alloc;
    }

    /// Takes the beginning of an export back inside which nothing was done.
    pub fn cancel_export(&mut self)
        ensures { (k : Stobjs ℕ) (ls : List (Stobjs ℕ)) → Keeps self.old (lists_keeping.begin_export k) ls → Keeps self.new k ls }
    {
        let _ = &self.alloc;
    }

    /// It has ended: what was written stays, and what was remembered last is forgotten.
    pub fn commit(&mut self)
        ensures keeps { (k : Stobjs ℕ) (left : Stobjs ℕ) (ls : List (Stobjs ℕ)) → Keeps self.old k (left ∷ ls) → Keeps self.new (lists_keeping.commit k) ls }
        ensures none { (k : Stobjs ℕ) → Keeps self.old k [] → Keeps self.new k [] }
    {
        self.forget();
    }

    /// It has stopped: the object of the export, of whose call these are the actuals, is as it was when that was remembered.
    pub fn abandon(&mut self, _heap: &Heap, actuals: &[Shown])
        ensures keeps { (k : Stobjs ℕ) (left : Stobjs ℕ) (ls : List (Stobjs ℕ)) → Keeps self.old k (left ∷ ls) → Keeps self.new (lists_keeping.abandon (all_seen _heap.now actuals.now) left k) ls }
        ensures none { (k : Stobjs ℕ) → Keeps self.old k [] → Keeps self.new k [] }
    {
        match take_last(&mut self.behind) {
            Some(before) => {
                scope::restore(&mut self.bindings, before.bindings.as_slice(), actuals);
            }
            None => {}
        }
    }

    /// The list that a variable has.
    pub fn list_of(&self, variable: SymId) -> Option<ListId>
        ensures is { list_given self.now.lists result ≡ list_of (scope self.now.lists self.now.bindings.items) variable.0 }
        ensures within { AreWithin self.now.lists self.now.bindings.items → Within self.now.lists result }
    {
        scope::list_of(self.bindings.as_slice(), variable)
    }

    /// Gives a variable another list of the table.
    pub fn write(&mut self, variable: SymId, list: Option<ListId>)
        ensures keeps { (k : Stobjs ℕ) (ls : List (Stobjs ℕ)) → Keeps self.old k ls → Within self.old.lists list → Keeps self.new (with_list variable.0 (list_given self.old.lists list) k) ls }
        ensures lists { self.new.lists ≡ self.old.lists }
    {
        scope::write(&mut self.bindings, variable, list);
    }

    /// Whether a field of a parent has a child of this index; without an index it has.
    pub fn is_reached(
        &self,
        heap: &Heap,
        syms: &Symbols,
        parent: SymId,
        field: u32,
        index: Option<Word>,
    ) -> bool
        requires within { AreWithin self.now.lists self.now.bindings.items }
        requires whole { AreWhole syms.now heap.now (index_words index) }
        ensures { (k : Stobjs ℕ) (ls : List (Stobjs ℕ)) → Keeps self.now k ls → result ≡ has_child lists_keeping (option_map (object_of heap.now) index) parent.0 field k }
    {
        lending::index_in(heap, syms, index);
        lending::has_child(
            &self.lists,
            self.bindings.as_slice(),
            heap,
            parent,
            field,
            index,
        )
    }

    /// Lends children: each is an object in scope.
    pub fn lend(&mut self, heap: &Heap, syms: &Symbols, loans: &[Loan]) -> Result<(), AllocError>
        requires within { AreWithin self.old.lists self.old.bindings.items }
        requires whole { AreWhole syms.now heap.now (loan_words loans.now) }
        ensures ok { OnOk result ((k : Stobjs ℕ) (ls : List (Stobjs ℕ)) → Keeps self.old k ls → Keeps self.new (lists_keeping.lend (seen_loans heap.now loans.now) k) ls) }
        ensures err { OnErr result ((k : Stobjs ℕ) (ls : List (Stobjs ℕ)) → Keeps self.old k ls → Keeps self.new k ls) }
    {
        let bindings = self.bindings.as_slice();
        let lent = lending::all_lent(self.alloc, &self.lists, bindings, heap, syms, loans)?;
        match self.bindings.extend_from_slice(lent.as_slice()) {
            Ok(()) => Ok(()),
            Err(refused) => Err(refused),
        }
    }

    /// Puts a child into its parent.
    pub fn put(&mut self, heap: &Heap, syms: &Symbols, loan: Loan) -> Result<(), AllocError>
        requires { AreWhole syms.now heap.now (index_words loan.index) }
        ensures ok { OnOk result ((k : Stobjs ℕ) (ls : List (Stobjs ℕ)) → Keeps self.old k ls → Keeps self.new (lists_keeping.put (seen_loan heap.now loan) k) ls) }
        ensures err { OnErr result ((k : Stobjs ℕ) (ls : List (Stobjs ℕ)) → Keeps self.old k ls → Keeps self.new k ls) }
    {
        match lending::put(
            self.alloc,
            &mut self.lists,
            &mut self.bindings,
            heap,
            syms,
            loan,
        ) {
            Ok(()) => Ok(()),
            Err(refused) => Err(refused),
        }
    }

    /// Takes the objects that were lent last out of the scope, so many.
    pub fn end_loans(&mut self, n: usize)
        ensures { (k : Stobjs ℕ) (ls : List (Stobjs ℕ)) → Keeps self.old k ls → Keeps self.new (lists_keeping.end_loans n k) ls }
    {
        scope::take_away(&mut self.bindings, n);
    }

    /// Takes the local object away that was made last.
    pub fn unmake(&mut self)
        ensures { (k : Stobjs ℕ) (ls : List (Stobjs ℕ)) → Keeps self.old k ls → Keeps self.new (lists_keeping.unmake k) ls }
    {
        scope::take_away(&mut self.bindings, 1);
    }

    /// Makes a local object, as it begins.
    pub fn make(
        &mut self,
        world: &World,
        heap: &Heap,
        _syms: &Symbols,
        stobj: SymId,
    ) -> Result<(), AllocError>
        requires { WorldLies heap.now world.now }
        ensures ok { OnOk result ((k : Stobjs ℕ) (ls : List (Stobjs ℕ)) → Keeps self.old k ls → Keeps self.new (lists_keeping.make stobj.0 (new_list (seen_world heap.now world.now) stobj.0) k) ls) }
        ensures err { OnErr result ((k : Stobjs ℕ) (ls : List (Stobjs ℕ)) → Keeps self.old k ls → Keeps self.new k ls) }
    {
        let n = acl_new_lists::new_list(self.alloc, &mut self.lists, world, heap, stobj)?;
        match scope::bind(&mut self.bindings, stobj, Some(n)) {
            Ok(()) => Ok(()),
            Err(refused) => Err(refused),
        }
    }
}
