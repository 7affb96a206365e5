//! The table of cells.

ghost use Rattle.std.specs.Prelude.{◌≡◌, ◌≤◌, ◌<◌, [], ◌∷◌, ◌++◌, length, take, Some, slice_get, IfOk, OnOk, OnErr};
ghost use Rattle.acl_lists.specs.Tables.{StandsOver, IsTable, Grown, forest, list_at, list_over};

use crate::cell::{Cell, ListId};
use std::alloc::{AllocError, Global};
use std::marker::Model;

/// Lists by their numbers, each a cell over earlier ones. Contracts see the cells.
#[derive(Drop)]
pub struct Lists {
    pub(crate) cells: Vec<Cell>,
}

impl Model for Lists {
    ghost use Rattle.std.specs.Prelude.{List};
    ghost use Rattle.acl_lists.specs.declared.cell.Cell.{Cell};
    ghost use Rattle.acl_lists.specs.Tables.{IsTable};

    ghost Value = { List Cell };

    ghost use Rattle.acl_lists.specs.contracts.cell.Cell as cell_row;
    ghost use Rattle.std.specs.Coded.{codes};

    ghost coded = { Prim.hlevel (codes, cell_row.the_row.coded) };

    ghost view = { λ t. t.cells.items };

    ghost invariant = { λ t. IsTable t.cells.items };
}

impl Lists {
    /// A table without lists. It takes no memory.
    #[tactic(auto, using(crate::proofs::TableLemmas::empty_table))]
    pub fn new(alloc: Global) -> Lists
        ensures { result ≡ [] }
    {
        Lists {
            cells: Vec::new(alloc),
        }
    }

    /// What holds of every table. It does nothing when it runs.
    pub fn is_table(&self)
        ensures { IsTable self.now }
    {
        let _ = &self.cells;
    }

    /// How many cells there are: the place to cut the table back to.
    pub fn len(&self) -> u64
        ensures { result ≡ length self.now }
    {
        self.cells.len() as u64
    }

    /// The cell of a number.
    pub(crate) fn cell(&self, n: ListId) -> &Cell
        requires { n.0 < length self.now }
        ensures { slice_get self.now n.0 ≡ Some result.now }
    {
        &self.cells[n.0 as usize]
    }

    /// Puts a cell last, and answers its number. A refused cell leaves the table as it was.
    #[tactic(auto, using(crate::proofs::TableLemmas::table_push))]
    fn push(&mut self, cell: Cell) -> Result<ListId, AllocError>
        requires { StandsOver (length self.old) cell }
        ensures number { IfOk result (λ n. n.0 ≡ length self.old) }
        ensures ok { OnOk result (self.new ≡ self.old ++ cell ∷ []) }
        ensures err { OnErr result (self.new ≡ self.old) }
    {
        let at = self.cells.len();
        self.cells.push(cell)?;
        Ok(ListId(at as u64))
    }

    /// The list of a cell over those that are there. A refused cell leaves the table as it was.
    #[tactic(auto, using(crate::proofs::TableLemmas::list_pushed, crate::proofs::TableLemmas::grown_push, crate::proofs::TableLemmas::grown_none, crate::proofs::TableLemmas::last_within))]
    pub(crate) fn add(&mut self, cell: Cell) -> Result<ListId, AllocError>
        requires { StandsOver (length self.old) cell }
        ensures within { IfOk result (λ n. n.0 < length self.new) }
        ensures is { IfOk result (λ n. list_at self.new n ≡ list_over (forest self.old) cell) }
        ensures grows { Grown self.old self.new }
        ensures err { OnErr result (self.new ≡ self.old) }
    {
        let n = self.push(cell)?;
        Ok(n)
    }

    /// Takes out all cells but the first, this many. It takes no memory.
    #[tactic(auto, using(crate::proofs::TableLemmas::table_take))]
    pub fn cut_to(&mut self, len: u64)
        requires { len ≤ length self.old }
        ensures { self.new ≡ take len self.old }
    {
        self.cells.truncate(len as usize);
    }
}
