//! A region of cells: those that were never taken, those of trees that were given back, and the others.
ghost use Rattle.std.specs.Prelude.{◌≡◌, ◌≤◌, ◌<◌, ◌+◌, ◌-◌, ◌++◌, [], length, max, replicate, OnOk, OnErr, IsOk};
ghost use Rattle.acl_pool.specs.Cells.{cell_at, blank, most_cells};
ghost use Rattle.acl_pool.specs.Steps.{with_cell, give_at, give_with, IsWithin, name_with, root_cell, placed_again, HasPlace, Places};

use crate::cell::{Cell, Kind, Part, Role};
use crate::cells::Cells;
use std::alloc::{AllocError, Global};

/// The most cells. No block of memory has more.
const MOST_CELLS: usize = 1 << 58;

/// Cells, of which those from `top` on were never taken.
#[derive(Drop)]
pub struct Region {
    cells: Cells,
    top: usize,
    /// The place of the tree that was given back last, where there are spare cells.
    given: u64,
    /// The cells of the trees that were given back.
    pub spare: u64,
}

impl Region {
    pub fn new(alloc: Global) -> Region
        ensures { result ≡ record { cells = []; top = 0; given = 0; spare = 0 } }
    {
        Region {
            cells: Cells::new(alloc),
            top: 0,
            given: 0,
            spare: 0,
        }
    }

    /// Makes room for `count` cells to be taken.
    pub fn reserve(&mut self, count: u64) -> Result<(), AllocError>
        requires count { count ≤ 1048576 }
        requires top { (self.old.top ≤ length self.old.cells) × (length self.old.cells ≤ most_cells) }
        ensures same { (self.new.top ≡ self.old.top) × (self.new.given ≡ self.old.given) × (self.new.spare ≡ self.old.spare) }
        ensures room { OnOk result (self.old.top + count ≤ length self.new.cells + self.old.spare) }
        ensures longer { self.new.cells ≡ self.old.cells ++ replicate (length self.new.cells - length self.old.cells) blank }
        ensures most { length self.new.cells ≤ most_cells }
        ensures refused { OnErr result (self.new ≡ self.old) }
        ensures spare { count ≤ self.old.spare → IsOk result }
    {
        let wanted = self.top + count.saturating_sub(self.spare) as usize;
        let len = self.cells.len();
        if wanted > len {
            if wanted > MOST_CELLS {
                return Err(AllocError);
            }
            let room = wanted.max(2 * len).min(MOST_CELLS);
            self.cells.lengthen(room)?;
        }
        Ok(())
    }

    /// Takes a cell and writes it. A given-back tree whose cell is taken is broken up into its parts.
    #[tactic(auto, unfolding(crate::specs::Steps::placed_new))]
    pub fn place(&mut self, cell: Cell) -> u64
        requires { HasPlace self.old }
        ensures { Places self.old self.new cell result }
    {
        if self.spare > 0 {
            self.place_again(cell)
        } else {
            let at = self.top;
            self.cells.set(at as u64, cell);
            self.top += 1;
            at as u64
        }
    }

    #[tactic(auto, using(crate::proofs::FitsLemmas::written, crate::proofs::GivenLemmas::popped, crate::proofs::NewLemmas::placed, crate::proofs::TextLemmas::seen_tree, crate::proofs::BuildLemmas::gives_wide), unfolding(crate::specs::Steps::placed_again))]
    fn place_again(&mut self, cell: Cell) -> u64
        requires place { HasPlace self.old }
        requires spare { 0 < self.old.spare }
        ensures region { self.new ≡ placed_again self.old cell }
        ensures at { result ≡ self.old.given }
    {
        let at = self.given;
        let old = self.cells.get(at);
        self.given = old.link;
        self.spare -= 1;
        self.cells.set(at, cell);
        self.give(old.left());
        self.give(old.right());
        at
    }

    /// Puts the tree of a part, if it has one, in front of those that were given back.
    pub fn give(&mut self, part: Part)
        requires { IsWithin self.old part.kind part.bits }
        ensures { self.new ≡ give_with self.old part.kind part.bits }
    {
        match part.kind {
            Kind::Small => {}
            Kind::Sym => {}
            Kind::Bits => {}
            Kind::Heap => {}
            Kind::Big => self.give_at(part.bits),
            Kind::Str => self.give_at(part.bits),
            Kind::Cons => self.give_at(part.bits),
        }
    }

    fn give_at(&mut self, at: u64)
        requires { at < length self.old.cells }
        ensures { self.new ≡ give_at self.old at }
    {
        let mut cell = self.cells.get(at);
        cell.link = self.given;
        cell.role = Role::Inside;
        self.cells.set(at, cell);
        self.given = at;
    }

    /// Makes the tree of a part, if it has one, that of a root of `count` cells.
    pub fn name(&mut self, part: Part, count: u64)
        requires { IsWithin self.old part.kind part.bits }
        ensures { self.new ≡ name_with self.old part.kind part.bits count }
    {
        match part.kind {
            Kind::Small => {}
            Kind::Sym => {}
            Kind::Bits => {}
            Kind::Heap => {}
            Kind::Big => self.name_at(part.bits, count, Role::Wide),
            Kind::Str => self.name_at(part.bits, count, Role::Text),
            Kind::Cons => self.name_at(part.bits, count, Role::Pair),
        }
    }

    fn name_at(&mut self, at: u64, count: u64, role: Role)
        requires { at < length self.old.cells }
        ensures { self.new ≡ with_cell self.old at (root_cell (cell_at self.old.cells at) count role) }
    {
        let mut cell = self.cells.get(at);
        cell.link = count;
        cell.role = role;
        self.cells.set(at, cell);
    }

    pub fn read(&self, at: u64) -> Cell
        requires { at < length self.now.cells }
        ensures { result ≡ cell_at self.now.cells at }
    {
        self.cells.get(at)
    }

    pub fn write(&mut self, at: u64, cell: Cell)
        requires { at < length self.old.cells }
        ensures { self.new ≡ with_cell self.old at cell }
    {
        self.cells.set(at, cell);
    }
}
