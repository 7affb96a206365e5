//! Loans that are made and read, and values with room for an answer.

ghost use Rattle.std.specs.Prelude.{◌≡◌, ◌≤◌, ◌<◌, ◌∷◌, ◌++◌, [], length, take, OnOk, OnErr};
ghost use Rattle.acl_machine.specs.Cells.{nil_there, cells_from, top};

use crate::frame::Borrowed;
use crate::values::{Loans, NIL, Values};
use acl_terms::Shown;
use std::alloc::AllocError;

impl Loans {
    /// One loan more. A refused one leaves the loans as they were.
    pub fn push(&mut self, loan: Borrowed) -> Result<(), AllocError>
        ensures ok { OnOk result (self.new ≡ self.old ++ loan ∷ []) }
        ensures err { OnErr result (self.new ≡ self.old) }
    {
        self.items.push(loan)?;
        Ok(())
    }

    /// So many of the last loans, or all where there are not so many.
    pub fn last(&self, n: u64) -> &[Borrowed]
        ensures { result.now ≡ top n self.now }
    {
        let below = self.items.len().saturating_sub(n as usize);
        &self.items[below..]
    }
}

impl Values {
    /// So many values of others, from a number on, and two of `NIL` behind them: room for what a call gives.
    pub fn copy_with_room(&mut self, others: &Values, at: u64, count: u64) -> Result<(), AllocError>
        ensures { OnOk result (self.new ≡ cells_from others.now at count ++ nil_there ∷ nil_there ∷ []) }
    {
        self.copy(others, at, count)?;
        self.items.push(NIL)?;
        self.items.push(NIL)?;
        Ok(())
    }

    /// The first values, so many.
    pub fn first(&self, n: u64) -> &[Shown]
        requires { n ≤ length self.now }
        ensures { result.now ≡ take n self.now }
    {
        &self.items[..n as usize]
    }

    /// The first values alone, so many. It takes no memory.
    pub fn keep_first(&mut self, n: u64)
        ensures { self.new ≡ take n self.old }
    {
        self.items.truncate(n as usize);
    }

    /// This value alone, in the place of the first. It takes no memory.
    #[tactic(auto, using(crate::proofs::CellLemmas::one_kept))]
    pub fn keep_one(&mut self, value: Shown)
        requires { 0 < length self.old }
        ensures { self.new ≡ value ∷ [] }
    {
        self.items[0] = value;
        self.items.truncate(1);
    }

    /// These two values alone, in the places of the first. It takes no memory.
    #[tactic(auto, using(crate::proofs::CellLemmas::two_kept))]
    pub fn keep_two(&mut self, first: Shown, second: Shown)
        requires { 1 < length self.old }
        ensures { self.new ≡ first ∷ second ∷ [] }
    {
        self.items[0] = first;
        self.items[1] = second;
        self.items.truncate(2);
    }
}
