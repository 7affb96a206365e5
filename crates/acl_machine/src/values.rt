//! The stack of values, and what frames have beside numbers.

ghost use Rattle.std.specs.Prelude.{◌≡◌, ◌+◌, ◌<◌, ◌∷◌, ◌++◌, [], length, slice_set, OnOk, OnErr};
ghost use Rattle.acl_machine.specs.Cells.{cell, cells_from, Writes, WritesAll, below};

use crate::frame::Borrowed;
use acl_base::{SymId, Word};
use acl_terms::Shown;
use std::alloc::{AllocError, Global};
use std::marker::Model;

pub(crate) const NIL: Shown = Shown::Value(Word::Sym(SymId(1)));

/// Values by their numbers; what lies behind the end is NIL.
#[derive(Drop)]
pub struct Values {
    pub(crate) items: Vec<Shown>,
}

impl Model for Values {
    ghost use Rattle.std.specs.Prelude.{List};
    ghost use Rattle.acl_terms.specs.declared.outcome.Shown.{Shown};

    ghost Value = { List Shown };

    ghost view = { λ s. s.items.items };
}

impl Values {
    /// No values. It takes no memory.
    pub fn new(alloc: Global) -> Values
        ensures { result ≡ [] }
    {
        Values {
            items: Vec::new(alloc),
        }
    }

    /// The values in order.
    pub fn as_slice(&self) -> &[Shown]
        ensures { result.now ≡ self.now }
    {
        self.items.as_slice()
    }

    /// The value of a number.
    #[tactic(auto, using(crate::proofs::CellLemmas::cell_there, crate::proofs::CellLemmas::cell_behind))]
    pub fn get(&self, at: u64) -> Shown
        ensures { result ≡ cell self.now at }
    {
        let at = at as usize;
        if at < self.items.len() {
            self.items[at]
        } else {
            NIL
        }
    }

    /// The value of a slot, in a window.
    #[tactic(auto, using(crate::proofs::CellLemmas::cell_behind))]
    pub fn get_in(&self, base: u64, slot: u64) -> Shown
        ensures { result ≡ cell self.now (base + slot) }
    {
        let n = self.items.len() as u64;
        if base >= n || slot >= n - base {
            NIL
        } else {
            self.get(base + slot)
        }
    }

    /// Writes a value. A refused one leaves the values as they were.
    #[tactic(auto, using(crate::proofs::CellLemmas::writes_there, crate::proofs::CellLemmas::writes_behind))]
    pub fn set(&mut self, at: u64, value: Shown) -> Result<(), AllocError>
        ensures { OnOk result (Writes at value self.old self.new) }
    {
        let at = at as usize;
        if at < self.items.len() {
            self.items[at] = value;
            Ok(())
        } else {
            self.items.resize(at, NIL)?;
            self.items.push(value)?;
            Ok(())
        }
    }

    /// Writes values, one behind the other.
    #[tactic(auto, using(crate::proofs::MemoryLemmas::writes_none, crate::proofs::MemoryLemmas::writes_one, crate::proofs::MemoryLemmas::writes_ended))]
    pub fn set_all(&mut self, at: u64, values: &[Shown]) -> Result<(), AllocError>
        ensures { OnOk result (WritesAll at values.now self.old self.new) }
    {
        let mut k = values.len();
        while k > 0 {
            k -= 1;
            match at.checked_add(k as u64) {
                Some(i) => self.set(i, values[k])?,
                None => return Err(AllocError),
            }
        }
        Ok(())
    }

    /// How many there are.
    pub fn len(&self) -> usize
        ensures { result ≡ length self.now }
    {
        self.items.len()
    }

    /// One more value.
    pub fn push(&mut self, value: Shown) -> Result<(), AllocError>
        ensures { OnOk result (self.new ≡ self.old ++ value ∷ []) }
    {
        self.items.push(value)?;
        Ok(())
    }

    /// Another value in place of one. It takes no memory.
    pub fn replace(&mut self, at: usize, value: Shown)
        requires { at < length self.old }
        ensures { self.new ≡ slice_set self.old at value }
    {
        self.items[at] = value;
    }

    /// No values. It takes no memory.
    pub fn clear(&mut self)
        ensures { self.new ≡ [] }
    {
        self.items.clear();
    }

    /// This value alone.
    pub fn set_only(&mut self, value: Shown) -> Result<(), AllocError>
        ensures { OnOk result (self.new ≡ value ∷ []) }
    {
        self.items.clear();
        self.items.push(value)?;
        Ok(())
    }

    #[tactic(auto, using(crate::proofs::CellLemmas::copy_start, crate::proofs::CellLemmas::copy_step, crate::proofs::CellLemmas::copy_end))]
    /// So many values of others, from a number on, and no other.
    pub fn copy(&mut self, others: &Values, at: u64, count: u64) -> Result<(), AllocError>
        ensures { OnOk result (self.new ≡ cells_from others.now at count) }
    {
        self.items.clear();
        for k in 0..count {
            match at.checked_add(k) {
                Some(i) => self.items.push(others.get(i))?,
                None => return Err(AllocError),
            }
        }
        Ok(())
    }
}

/// The names of the objects among the actuals of calls, those of the last call last.
#[derive(Drop)]
pub struct Names {
    items: Vec<SymId>,
}

impl Model for Names {
    ghost use Rattle.std.specs.Prelude.{List};
    ghost use Rattle.acl_base.specs.declared.SymId.{SymId};

    ghost Value = { List SymId };

    ghost view = { λ s. s.items.items };
}

impl Names {
    /// No names. It takes no memory.
    pub fn new(alloc: Global) -> Names
        ensures { result ≡ [] }
    {
        Names {
            items: Vec::new(alloc),
        }
    }

    /// The names, those of the last call last.
    pub fn as_slice(&self) -> &[SymId]
        ensures { result.now ≡ self.now }
    {
        self.items.as_slice()
    }

    /// One more name.
    pub fn push(&mut self, name: SymId) -> Result<(), AllocError>
        ensures { OnOk result (self.new ≡ self.old ++ name ∷ []) }
    {
        self.items.push(name)?;
        Ok(())
    }

    /// Takes so many of the last names out.
    pub fn drop_last(&mut self, n: u64)
        ensures { self.new ≡ below n self.old }
    {
        let left = self.items.len().saturating_sub(n as usize);
        self.items.truncate(left);
    }
}

/// The loans of forms that are under way, those of the last form last.
#[derive(Drop)]
pub struct Loans {
    pub(crate) items: Vec<Borrowed>,
}

impl Model for Loans {
    ghost use Rattle.std.specs.Prelude.{List};
    ghost use Rattle.acl_machine.specs.declared.frame.Borrowed.{Borrowed};

    ghost Value = { List Borrowed };

    ghost view = { λ s. s.items.items };
}

impl Loans {
    /// No loans. It takes no memory.
    pub fn new(alloc: Global) -> Loans
        ensures { result ≡ [] }
    {
        Loans {
            items: Vec::new(alloc),
        }
    }

    /// Takes so many of the last loans out.
    pub fn drop_last(&mut self, n: u64)
        ensures { self.new ≡ below n self.old }
    {
        let left = self.items.len().saturating_sub(n as usize);
        self.items.truncate(left);
    }
}
