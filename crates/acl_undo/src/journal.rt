//! `Journal`. A clause sees a journal as what was noted and whether it is open.
ghost use Rattle.std.specs.Prelude.{◌≡◌, true, false, [], ◌∷◌, ◌++◌, reverse, MatchOption, IfErr, OnOk, OnErr};
ghost use Rattle.acl_undo.specs.Parts.{after_all, AllFit};

use crate::undo::Undo;
use std::alloc::Global;
use std::marker::Model;

/// The old parts of a state that were noted since the journal was opened.
#[derive(Drop)]
pub struct Journal<T> {
    notes: Vec<T>,
    is_open: bool,
}

impl<T> Model for Journal<T> {
    ghost use Rattle.std.specs.Prelude.{◌≡◌, false, []};
    ghost use Rattle.acl_undo.specs.Parts.{Noted, noted_code};

    ghost Value = { Noted T };

    ghost coded = { noted_code T.code };

    ghost view = { λ j. record { parts = j.notes.items; is_open = j.is_open } };

    ghost invariant = { λ j. j.is_open ≡ false → j.notes.items ≡ [] };
}

impl<T> Journal<T> {
    /// A closed journal. It takes no memory.
    pub fn new(alloc: Global) -> Journal<T>
        ensures closed { result.is_open ≡ false }
        ensures parts { result.parts ≡ [] }
    {
        Journal {
            notes: Vec::new(alloc),
            is_open: false,
        }
    }

    /// Opens the journal, with nothing noted.
    pub fn open(&mut self)
        requires { self.old.is_open ≡ false }
        ensures open { self.new.is_open ≡ true }
        ensures parts { self.new.parts ≡ [] }
    {
        self.is_open = true;
    }

    /// Notes a part, or hands it back for want of memory.
    pub fn note(&mut self, old: T) -> Result<(), T>
        requires { self.old.is_open ≡ true }
        ensures open { self.new.is_open ≡ true }
        ensures noted { OnOk result (self.new.parts ≡ self.old.parts ++ old ∷ []) }
        ensures refused { OnErr result (self.new.parts ≡ self.old.parts) }
        ensures handed_back { IfErr result (λ part. part ≡ old) }
    {
        match self.notes.push(old) {
            Ok(()) => Ok(()),
            Err(failed) => Err(failed.value),
        }
    }

    /// Forgets all parts, the newest first, and closes the journal.
    pub fn close<S>(&mut self, state: &mut S)
    where
        T: Undo<S>,
        requires open { self.old.is_open ≡ true }
        requires fit { AllFit T.fits T.forgotten (reverse self.old.parts) state.old }
        ensures closed { self.new.is_open ≡ false }
        ensures parts { self.new.parts ≡ [] }
        ensures state { state.new ≡ after_all T.forgotten (reverse self.old.parts) state.old }
        ensures same { T.stands_for_same state.old state.new }
    {
        while let Some(part) = self.take_newest() {
            part.forget(state);
        }
        self.is_open = false;
    }

    /// Puts all parts back, the newest first, and closes the journal.
    pub fn roll_back<S>(&mut self, state: &mut S)
    where
        T: Undo<S>,
        requires open { self.old.is_open ≡ true }
        requires fit { AllFit T.fits T.undone (reverse self.old.parts) state.old }
        ensures closed { self.new.is_open ≡ false }
        ensures parts { self.new.parts ≡ [] }
        ensures state { state.new ≡ after_all T.undone (reverse self.old.parts) state.old }
    {
        while let Some(old) = self.take_newest() {
            old.undo(state);
        }
        self.is_open = false;
    }

    fn take_newest(&mut self) -> Option<T>
        requires { self.old.is_open ≡ true }
        ensures open { self.new.is_open ≡ true }
        ensures parts { MatchOption result ((self.old.parts ≡ []) × (self.new.parts ≡ [])) (λ part. self.old.parts ≡ self.new.parts ++ part ∷ []) }
    {
        self.notes.pop()
    }
}
