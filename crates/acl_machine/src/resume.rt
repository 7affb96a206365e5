//! The innermost form goes on with the values that it waited for.

ghost use Rattle.std.specs.Prelude.{◌≡◌, ◌+◌, IfOk, OnOk, if◌then◌else◌};
ghost use Rattle.model_prims.specs.Kinds.{by_number, is_nil};
ghost use Rattle.model_eval.specs.Variables.{object_of};
ghost use Rattle.acl_keep.specs.Seen.{seen_shown};
ghost use Rattle.acl_machine.specs.declared.frame.Control.TheVariants as control;
ghost use Rattle.acl_machine.specs.declared.frame.Step.TheVariants as step;
ghost use Rattle.acl_machine.specs.Turns.{Turns, IsFirst};
ghost use Rattle.acl_machine.specs.Steps.{HasLast, IsSound};
ghost use Rattle.acl_machine.specs.Views.{around};

use crate::frame::{Frame, Goal, Step};
use crate::machine::{Machine, step_of_parts};
use acl_base::{TermId, Word};
use acl_code::Terms;
use acl_heap::Heap;
use acl_keep::Keeper;
use acl_syms::Symbols;
use acl_terms::Shown;
use acl_worlds::World;
use std::alloc::AllocError;

/// Whether a test that gave this value does not hold. An object counts as NIL.
#[tactic(auto, using(crate::proofs::GoLemmas::small_holds, crate::proofs::GoLemmas::big_holds, crate::proofs::GoLemmas::str_holds, crate::proofs::GoLemmas::cons_holds, crate::proofs::GoLemmas::sym_tests, crate::proofs::GoLemmas::object_tests))]
pub fn is_false(heap: &Heap, value: Shown) -> bool
    ensures { result ≡ is_nil by_number (object_of by_number (seen_shown heap.now value)) }
{
    heap.is_heap();
    match value {
        Shown::Value(Word::Small(_)) => false,
        Shown::Value(Word::Big(_)) => false,
        Shown::Value(Word::Sym(s)) => s.0 == 1,
        Shown::Value(Word::Str(_)) => false,
        Shown::Value(Word::Cons(_)) => false,
        Shown::Object(_) => true,
    }
}

fn branch(fails: bool, held: TermId, other: TermId) -> TermId
    ensures { result ≡ (if fails then other else held) }
{
    if fails { other } else { held }
}

/// The number of a slot, in a window.
pub fn slot_in(base: u64, slot: u64) -> Result<u64, AllocError>
    ensures { IfOk result (λ at. at ≡ base + slot) }
{
    match base.checked_add(slot) {
        Some(at) => Ok(at),
        None => Err(AllocError),
    }
}

fn slot_of_part(base: u64, at: u64, count: u64) -> Result<u64, AllocError>
    ensures { IfOk result (λ slot. slot ≡ base + (at + count)) }
{
    let own = slot_in(at, count)?;
    let slot = slot_in(base, own)?;
    Ok(slot)
}

fn next_count(count: u64) -> Result<u64, AllocError>
    ensures { IfOk result (λ more. more ≡ count + 1) }
{
    match count.checked_add(1) {
        Some(more) => Ok(more),
        None => Err(AllocError),
    }
}

impl Machine {
    /// A test has its value: the branch begins.
    pub fn resume_test<K: Keeper>(
        &mut self,
        _keeper: &K,
        _world: &World,
        _terms: &Terms,
        _heap: &Heap,
        _syms: &Symbols,
        _limit: u64,
        frame: Frame,
        held: TermId,
        other: TermId,
    )
        requires given { self.old.control ≡ control.Give }
        requires first { IsFirst frame self.old.frames }
        requires step { frame.step ≡ step.Test held other }
        requires sound { IsSound _syms.now _heap.now self.old }
        ensures turns { Turns K.keeping (around _heap.now _world.now _terms.now _syms.now _limit) (around _heap.now _world.now _terms.now _syms.now _limit) self.old self.new }
        ensures sound { IsSound _syms.now _heap.now self.new }
    {
        let value = self.given.get(0);
        let next = branch(is_false(_heap, value), held, other);
        self.frames.again(Step::Last { inside: None });
        self.begin_term(next, frame.base);
    }

    /// A part has its value, which is written at its slot: the next part begins, or what comes after all.
    pub fn resume_part<K: Keeper>(
        &mut self,
        _keeper: &K,
        _world: &World,
        _terms: &Terms,
        _heap: &Heap,
        _syms: &Symbols,
        _limit: u64,
        frame: Frame,
        at: u64,
        count: u64,
        next: TermId,
        left: u64,
        goal: Goal,
    ) -> Result<(), AllocError>
        requires given { self.old.control ≡ control.Give }
        requires first { IsFirst frame self.old.frames }
        requires step { frame.step ≡ step.Parts at count next left goal }
        requires sound { IsSound _syms.now _heap.now self.old }
        ensures turns { OnOk result (Turns K.keeping (around _heap.now _world.now _terms.now _syms.now _limit) (around _heap.now _world.now _terms.now _syms.now _limit) self.old self.new) }
        ensures sound { OnOk result (IsSound _syms.now _heap.now self.new) }
    {
        let value = self.given.get(0);
        let slot = slot_of_part(frame.base, at, count)?;
        self.values.set(slot, value)?;
        let terms = _terms.len();
        let more = next_count(count)?;
        self.frames
            .again(step_of_parts(terms, at, more, next, left, goal));
        self.next_part(terms, frame.base, at, more, next, left, goal)?;
        Ok(())
    }

    /// A form that binds several names has their values: the body begins.
    pub fn resume_several<K: Keeper>(
        &mut self,
        _keeper: &K,
        _world: &World,
        _terms: &Terms,
        _heap: &Heap,
        _syms: &Symbols,
        _limit: u64,
        frame: Frame,
        at: u64,
        body: TermId,
    ) -> Result<(), AllocError>
        requires given { self.old.control ≡ control.Give }
        requires first { IsFirst frame self.old.frames }
        requires step { frame.step ≡ step.Several at body }
        requires sound { IsSound _syms.now _heap.now self.old }
        ensures turns { OnOk result (Turns K.keeping (around _heap.now _world.now _terms.now _syms.now _limit) (around _heap.now _world.now _terms.now _syms.now _limit) self.old self.new) }
        ensures sound { OnOk result (IsSound _syms.now _heap.now self.new) }
    {
        let first = slot_in(frame.base, at)?;
        self.values.set_all(first, self.given.as_slice())?;
        self.frames.again(Step::Last { inside: None });
        self.begin_term(body, frame.base);
        Ok(())
    }

    /// A form has its own value: it is closed, and the value goes to the form around it.
    pub fn resume_last<K: Keeper>(
        &mut self,
        _keeper: &K,
        _world: &World,
        _terms: &Terms,
        _heap: &Heap,
        _syms: &Symbols,
        _limit: u64,
    ) -> Result<(), AllocError>
        requires given { self.old.control ≡ control.Give }
        requires last { HasLast self.old.frames }
        requires sound { IsSound _syms.now _heap.now self.old }
        ensures turns { OnOk result (Turns K.keeping (around _heap.now _world.now _terms.now _syms.now _limit) (around _heap.now _world.now _terms.now _syms.now _limit) self.old self.new) }
        ensures sound { OnOk result (IsSound _syms.now _heap.now self.new) }
    {
        match self.room.checked_add(1) {
            Some(room) => {
                let _ = self.frames.pop();
                self.room = room;
                Ok(())
            }
            None => Err(AllocError),
        }
    }
}
