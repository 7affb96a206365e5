//! Objects of their own in cells that are taken again: a pool. Contracts see it as what stands at each of its places,
//! and the number of its spare cells.
#![tactic(auto)]

ghost use Rattle.std.specs.Prelude.{◌≡◌, ◌≤◌, [], IfOk, IsOk, OnErr};
ghost use Rattle.model_objects.specs.Object.{cells, Integer};
ghost use Rattle.acl_heap.specs.Objects.{object_of, Lies, Denotes, Extends};
ghost use Rattle.acl_pool.specs.Roots.{used, object_at, IsLive, IsPool, PutsIn, GivesBack};

mod cell;
mod cells;
mod copying;
mod region;
mod unpacking;

use crate::cell::Part;
use crate::region::Region;
use acl_base::Word;
use acl_heap::Heap;
use std::alloc::{AllocError, Global};
use std::marker::Model;

/// What a pool gave for an object that was put in: a word, and the number of cells that the object takes.
///
/// A root of no cells is the value itself. It is live in every pool, and takes no place in any.
#[derive(Clone, Copy, Debug, PartialEq, Eq)]
pub struct Root {
    word: Word,
    cells: u64,
}

impl Root {
    /// The root of an integer of 64 bits.
    pub fn of(n: i64) -> Root
        ensures { result ≡ record { word = Word.Small n; cells = 0 } }
    {
        Root {
            word: Word::Small(n),
            cells: 0,
        }
    }

    /// The number of cells.
    pub fn cells(&self) -> u64
        ensures { result ≡ self.now.cells }
    {
        self.cells
    }
}

/// Objects in cells of 32 bytes. A pair takes a cell beside its parts, a string one and one for each 8 of its bytes,
/// a wide integer one, a small integer and a symbol none. No two roots share a cell.
#[derive(Drop)]
pub struct Pool {
    alloc: Global,
    region: Region,
    used: u64,
}

impl Model for Pool {
    ghost use Rattle.acl_pool.specs.Roots.{Held, held_code};
    ghost use Rattle.acl_pool.specs.Cells.{held_of, IsSound};

    ghost Value = { Held };

    ghost coded = { held_code };

    ghost view = { λ p. held_of p.region };

    ghost invariant = { λ p. IsSound p.region p.used };
}

impl Pool {
    /// A pool with nothing in it. It takes no memory.
    pub fn new(alloc: Global) -> Pool
        ensures { result ≡ record { places = []; spare = 0 } }
    {
        Pool {
            alloc,
            region: Region::new(alloc),
            used: 0,
        }
    }

    /// Puts a copy of the object in. It is refused for want of memory alone, and never where its cells are spare.
    pub fn put(&mut self, heap: &Heap, w: Word) -> Result<Root, AllocError>
        requires { Lies heap.now w }
        ensures ok { IfOk result (λ r. PutsIn self.old self.new r (object_of heap.now w)) }
        ensures room { cells (object_of heap.now w) ≤ self.old.spare → IsOk result }
        ensures refused { OnErr result (self.new ≡ self.old) }
    {
        heap.is_heap();
        let count = heap.cells(w);
        self.region.reserve(count)?;
        let part = self.region.copy(heap, w);
        self.region.name(part, count);
        self.used += count;
        Ok(Root {
            word: part.word(),
            cells: count,
        })
    }

    /// Makes a copy of the root's object in the heap.
    pub fn copy_out(&self, r: &Root, heap: &mut Heap) -> Result<Word, AllocError>
        requires { IsLive self.now r.now }
        ensures grows { Extends heap.old heap.new }
        ensures ok { IfOk result (λ w. Denotes heap.new w (object_at self.now r.now)) }
    {
        self.region.copy_out(self.alloc, Part::of(r.word), heap)
    }

    /// Gives the cells of a root back, in a bounded number of steps. The tree is broken up as its cells are taken again.
    #[tactic(auto, using(crate::proofs::BackLemmas::gives_nothing))]
    pub fn give_back(&mut self, r: Root)
        requires { IsLive self.old r }
        ensures { GivesBack self.old self.new r }
    {
        if r.cells > 0 {
            self.region.give(Part::of(r.word));
            self.region.spare += r.cells;
            self.used -= r.cells;
        }
    }

    /// The cells of all roots that are live.
    pub fn used(&self) -> u64
        ensures { result ≡ used self.now }
    {
        self.used
    }

    /// How many cells were given back and not taken again.
    pub fn spare(&self) -> u64
        ensures { result ≡ self.now.spare }
    {
        self.region.spare
    }

    /// What holds of every pool: its places hold wide integers, strings and pairs, none too heavy. It does nothing when
    /// it runs.
    pub fn is_pool(&self)
        ensures { IsPool self.now }
    {
        let _ = &self.region;
    }
}
