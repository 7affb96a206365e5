//! A term begins.

ghost use Rattle.std.specs.Prelude.{◌≡◌, ◌+◌, [], ◌∷◌, length, slice_get, None, OnOk};
ghost use Rattle.acl_machine.specs.declared.frame.Control.TheVariants as control;
ghost use Rattle.acl_machine.specs.declared.frame.Step.TheVariants as step;
ghost use Rattle.acl_machine.specs.Cells.{cell};
ghost use Rattle.acl_machine.specs.Steps.{IsOpenedAlone, giving, opened_to, beginning, parts_step, parts_next, IsSound};
ghost use Rattle.acl_machine.specs.Constants.{ConstantsAreWhole};
ghost use Rattle.acl_machine.specs.Turns.{Turns};
ghost use Rattle.acl_machine.specs.Views.{around};

use crate::frame::{Goal, Step};
use crate::machine::Machine;
use acl_base::TermId;
use acl_code::{Parts, Term, Terms};
use acl_heap::Heap;
use acl_keep::Keeper;
use acl_syms::Symbols;
use acl_terms::Shown;
use acl_worlds::World;
use std::alloc::AllocError;

impl Machine {
    fn begin_slot(&mut self, base: u64, slot: u64) -> Result<(), AllocError>
        ensures { OnOk result (self.new ≡ giving (cell self.old.values (base + slot) ∷ []) self.old) }
    {
        let value = self.values.get_in(base, slot);
        self.give_one(value)
    }

    fn begin_if(
        &mut self,
        base: u64,
        test: TermId,
        held: TermId,
        other: TermId,
    ) -> Result<(), AllocError>
        ensures { OnOk result (self.new ≡ opened_to (step.Test held other) base (beginning test base) self.old) }
    {
        self.open(Step::Test { held, other }, test, base)
    }

    fn begin_several(
        &mut self,
        base: u64,
        at: u64,
        bound: TermId,
        body: TermId,
    ) -> Result<(), AllocError>
        ensures { OnOk result (self.new ≡ opened_to (step.Several at body) base (beginning bound base) self.old) }
    {
        self.open(Step::Several { at, body }, bound, base)
    }

    fn begin_logic(&mut self, base: u64, logic: TermId) -> Result<(), AllocError>
        ensures { OnOk result (self.new ≡ opened_to (step.Last None) base (beginning logic base) self.old) }
    {
        self.open(Step::Last { inside: None }, logic, base)
    }

    fn begin_children(&mut self, base: u64, at: u64, term: TermId) -> Result<(), AllocError>
        ensures { OnOk result (self.new ≡ opened_to (step.Borrowing at term 0) base (giving []) self.old) }
    {
        let bound = 0;
        self.open_waiting(Step::Borrowing { at, term, bound }, base)
    }

    fn begin_parts(
        &mut self,
        terms: &Terms,
        base: u64,
        at: u64,
        parts: Parts,
        goal: Goal,
    ) -> Result<(), AllocError>
        ensures { OnOk result (self.new ≡ opened_to (parts_step (length terms.now) at 0 parts.first parts.count goal) base (parts_next (length terms.now) base at 0 parts.first parts.count goal) self.old) }
    {
        self.open_parts(terms.len(), base, at, parts.first, parts.count, goal)
    }

    /// A term begins that stands for itself and makes no object: a variable or a constant is given, and another is opened.
    #[tactic(auto, using(crate::proofs::TermLemmas::alone_part, crate::proofs::TermLemmas::alone_local))]
    pub fn begin<K: Keeper>(
        &mut self,
        _keeper: &K,
        _world: &World,
        terms: &Terms,
        _heap: &Heap,
        _syms: &Symbols,
        _limit: u64,
        t: TermId,
        base: u64,
    ) -> Result<(), AllocError>
        requires begins { self.old.control ≡ control.Begin t base }
        requires own { IsOpenedAlone (slice_get terms.now t.0) }
        requires constants { ConstantsAreWhole _syms.now _heap.now terms.now }
        requires sound { IsSound _syms.now _heap.now self.old }
        ensures ok { OnOk result (Turns K.keeping (around _heap.now _world.now terms.now _syms.now _limit) (around _heap.now _world.now terms.now _syms.now _limit) self.old self.new) }
        ensures sound { OnOk result (IsSound _syms.now _heap.now self.new) }
    {
        terms.is_table();
        if t.0 >= terms.len() {
            return self.begin_slot(base, 0);
        }
        match terms.term(t) {
            Term::Slot(slot) => self.begin_slot(base, *slot),
            Term::Const(word) => self.give_one(Shown::Value(*word)),
            Term::Part(_) => unreachable!(),
            Term::If {
                at: _,
                test,
                then,
                other,
            } => self.begin_if(base, *test, *then, *other),
            Term::Let { at, bound, body } => {
                self.begin_parts(terms, base, *at, *bound, Goal::Body(*body))
            }
            Term::Mv { at, parts } => self.begin_parts(terms, base, *at, *parts, Goal::Values),
            Term::MvLet { at, bound, body } => self.begin_several(base, *at, *bound, *body),
            Term::StobjLet { at, .. } => self.begin_children(base, *at, t),
            Term::WithLocal { .. } => unreachable!(),
            Term::MustBeEqual(logic) => self.begin_logic(base, *logic),
            Term::Call {
                at,
                function,
                actuals,
            } => self.begin_parts(terms, base, *at, *actuals, Goal::Call(*function)),
        }
    }
}
