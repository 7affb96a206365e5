//! The machine, and what is common to its turns.

ghost use Rattle.std.specs.Prelude.{◌≡◌, ◌≢◌, ◌+◌, ◌<◌, [], ◌∷◌, length, slice_get, OnOk, OnErr, IfSome, IfNone};
ghost use Rattle.acl_code.specs.Tables.{tree_at};
ghost use Rattle.acl_machine.specs.Steps.{IsOwn, stopped, giving, opened_to, again, beginning, parts_step, parts_next, goal_step, goal_done, pushed};

use crate::frame::{Control, Frame, Goal, Halt, Step};
use crate::stack::Stack;
use crate::values::{Loans, Names, Values};
use acl_base::{SymId, TermId};
use acl_code::{Term, Terms};
use acl_heap::Heap;
use std::alloc::AllocError;

/// The open forms, what is done next, and the counts.
#[derive(Drop)]
pub struct Machine {
    /// How many more forms may be open.
    pub room: u64,
    pub frames: Stack,
    pub values: Values,
    pub names: Names,
    pub loans: Loans,
    pub control: Control,
    /// What is given to the innermost form, or what a guard refused.
    pub given: Values,
    /// Room for the actuals of the call that is entered or left, and for those of the export's call around it.
    pub actuals: Values,
    pub outer_actuals: Values,
    /// The outermost export that a stop came inside.
    pub inside: Option<SymId>,
    /// The number of the outer call that a stop came at or inside, from 1 on.
    pub cut: u64,
    /// The calls counted so far, and those of them that no export made.
    pub calls: u64,
    pub outer: u64,
}

/// The term that a part stands for, where it is one.
#[tactic(auto, using(crate::proofs::TermLemmas::part_tree, crate::proofs::TermLemmas::part_earlier, crate::proofs::TermLemmas::own_by, crate::proofs::TermLemmas::own_past))]
fn part(terms: &Terms, _heap: &Heap, t: TermId) -> Option<TermId>
    ensures earlier { IfSome result (λ u. u.0 < t.0) }
    ensures is { IfSome result (λ u. tree_at _heap.now terms.now u ≡ tree_at _heap.now terms.now t) }
    ensures own { IfNone result (IsOwn (slice_get terms.now t.0)) }
{
    terms.is_table();
    if t.0 < terms.len() {
        match terms.term(t) {
            Term::Slot(_) => None,
            Term::Const(_) => None,
            Term::Part(u) => Some(*u),
            Term::If { .. } => None,
            Term::Let { .. } => None,
            Term::Mv { .. } => None,
            Term::MvLet { .. } => None,
            Term::StobjLet { .. } => None,
            Term::WithLocal { .. } => None,
            Term::MustBeEqual(_) => None,
            Term::Call { .. } => None,
        }
    } else {
        None
    }
}

/// The term that a number stands for, which is no part.
pub fn whole(terms: &Terms, heap: &Heap, t: TermId) -> TermId
    ensures is { tree_at heap.now terms.now result ≡ tree_at heap.now terms.now t }
    ensures own { IsOwn (slice_get terms.now result.0) }
{
    let mut t = t;
    while let Some(u) = part(terms, heap, t) {
        t = u;
    }
    t
}

impl Machine {
    /// The machine stops, here.
    pub fn stop(&mut self, why: Halt) -> Result<(), AllocError>
        ensures ok { OnOk result (self.new ≡ stopped why self.old) }
    {
        match self.outer.checked_add(1) {
            Some(cut) => {
                self.control = Control::Stopped(why);
                self.inside = None;
                self.cut = cut;
                Ok(())
            }
            None => Err(AllocError),
        }
    }

    /// A term begins, in a window.
    pub fn begin_term(&mut self, term: TermId, base: u64)
        ensures { self.new ≡ beginning term base self.old }
    {
        self.control = Control::Begin { term, base };
    }

    /// No values are given.
    pub fn give_none(&mut self)
        ensures { self.new ≡ giving [] self.old }
    {
        self.given.clear();
        self.control = Control::Give;
    }

    /// A value is given.
    pub fn give_one(&mut self, value: acl_terms::Shown) -> Result<(), AllocError>
        ensures { OnOk result (self.new ≡ giving (value ∷ []) self.old) }
    {
        self.given.set_only(value)?;
        self.control = Control::Give;
        Ok(())
    }

    /// What is done once all parts have values.
    fn finish_parts(&mut self, base: u64, at: u64, count: u64, goal: Goal) -> Result<(), AllocError>
        ensures { OnOk result (self.new ≡ goal_done base at count goal self.old) }
    {
        match goal {
            Goal::Body(body) => {
                self.begin_term(body, base);
                Ok(())
            }
            Goal::Values => match base.checked_add(at) {
                Some(first) => {
                    self.given.copy(&self.values, first, count)?;
                    self.control = Control::Give;
                    Ok(())
                }
                None => Err(AllocError),
            },
            Goal::Call(_) => {
                self.give_none();
                Ok(())
            }
        }
    }

    /// The next part begins, or what comes after all parts.
    pub fn next_part(
        &mut self,
        terms: u64,
        base: u64,
        at: u64,
        count: u64,
        next: TermId,
        left: u64,
        goal: Goal,
    ) -> Result<(), AllocError>
        ensures { OnOk result (self.new ≡ parts_next terms base at count next left goal self.old) }
    {
        if 0 < left && next.0 < terms {
            self.begin_term(next, base);
            Ok(())
        } else {
            self.finish_parts(base, at, count, goal)
        }
    }

    /// A form is opened where there is room.
    fn push(&mut self, step: Step, base: u64) -> Result<(), AllocError>
        requires { self.old.room ≢ 0 }
        ensures { OnOk result (self.new ≡ pushed step base self.old) }
    {
        self.frames.push(Frame { step, base })?;
        self.room -= 1;
        Ok(())
    }

    /// A form is opened, and a part of it begins.
    pub fn open(&mut self, step: Step, part: TermId, base: u64) -> Result<(), AllocError>
        ensures { OnOk result (self.new ≡ opened_to step base (beginning part base) self.old) }
    {
        if self.room == 0 {
            self.stop(Halt::Depth)
        } else {
            self.push(step, base)?;
            self.begin_term(part, base);
            Ok(())
        }
    }

    /// A form is opened that waits for nothing.
    pub fn open_waiting(&mut self, step: Step, base: u64) -> Result<(), AllocError>
        ensures { OnOk result (self.new ≡ opened_to step base (giving []) self.old) }
    {
        if self.room == 0 {
            self.stop(Halt::Depth)
        } else {
            self.push(step, base)?;
            self.give_none();
            Ok(())
        }
    }

    /// A form with parts is opened.
    pub fn open_parts(
        &mut self,
        terms: u64,
        base: u64,
        at: u64,
        next: TermId,
        left: u64,
        goal: Goal,
    ) -> Result<(), AllocError>
        ensures { OnOk result (self.new ≡ opened_to (parts_step terms at 0 next left goal) base (parts_next terms base at 0 next left goal) self.old) }
    {
        if self.room == 0 {
            self.stop(Halt::Depth)
        } else {
            self.push(step_of_parts(terms, at, 0, next, left, goal), base)?;
            self.next_part(terms, base, at, 0, next, left, goal)
        }
    }
}

/// What a form waits for once all its parts have values.
fn step_of_goal(at: u64, count: u64, goal: Goal) -> Step
    ensures { result ≡ goal_step at count goal }
{
    match goal {
        Goal::Body(_) => Step::Last { inside: None },
        Goal::Values => Step::Last { inside: None },
        Goal::Call(function) => Step::Calling {
            at,
            function,
            count,
        },
    }
}

/// What a form waits for whose next part begins, or whose parts all have values.
pub fn step_of_parts(terms: u64, at: u64, count: u64, next: TermId, left: u64, goal: Goal) -> Step
    ensures { result ≡ parts_step terms at count next left goal }
{
    if 0 < left && next.0 < terms {
        Step::Parts {
            at,
            count,
            next: TermId(next.0 + 1),
            left: left - 1,
            goal,
        }
    } else {
        step_of_goal(at, count, goal)
    }
}
