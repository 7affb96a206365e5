//! A heap of cells that only grows, until it is cut back to a mark. Contracts see it as the list of the objects of its
//! cells, the oldest first.
#![tactic(auto)]

ghost use Rattle.std.specs.Prelude.{IsTrue, ◌≡◌, ℕ, ◌+◌, ◌≤◌, ◌<◌, [], ◌∷◌, ◌++◌, length, take, true, IfOk, OnOk, OnErr, IfErr};
ghost use Rattle.model_objects.specs.Object.{Object, Integer, Symbol, Text, Pair, weight, cells, fits_64, max_weight};
ghost use Rattle.acl_heap.specs.Objects.{object_of, car_of, cdr_of, IsPair, IsText, IsInteger, Lies, Denotes, Extends, IsHeap};
ghost use Rattle.acl_heap.specs.Faults.{RefusedFor};
ghost use Rattle.acl_heap.specs.Seeing.{Sees, IsSmallest};
ghost use Rattle.acl_heap.specs.Cells.{Reads, IsCell, object_at};

mod equality;
#[cfg(test)]
mod tests;

use acl_base::{SymId, Word};
use std::alloc::{AllocError, AllocFailed, Global};
use std::marker::Model;
use thiserror::Error;

/// The largest weight of a value.
pub const MAX_WEIGHT: u64 = 1_048_576;

/// Why a heap did not take an object.
#[derive(Debug, Drop, Error)]
pub enum HeapFault {
    /// The object would be heavier than a value may be.
    #[error("an object of weight {weight} is too large")]
    TooLarge {
        /// Its weight.
        weight: u64,
    },
    #[error("memory was refused")]
    Memory,
}

impl From<AllocError> for HeapFault {
    ghost use Rattle.acl_heap.specs.declared.HeapFault.TheVariants.{Memory};

    ghost from_gives = { λ _ e. e ≡ Memory };

    fn from(_: AllocError) -> Self {
        HeapFault::Memory
    }
}

impl<T: Drop> From<AllocFailed<T>> for HeapFault {
    ghost use Rattle.acl_heap.specs.declared.HeapFault.TheVariants.{Memory};

    ghost from_gives = { λ _ e. e ≡ Memory };

    fn from(_: AllocFailed<T>) -> Self {
        HeapFault::Memory
    }
}

/// An object, seen one level deep.
#[derive(Clone, Copy)]
pub enum Seen<'a> {
    Integer(i128),
    Symbol(SymId),
    Text(&'a [u8]),
    /// A pair, by its car and its cdr.
    Pair(Word, Word),
}

/// How large the object of a cell is.
#[derive(Clone, Copy)]
struct Size {
    weight: u32,
    cells: u32,
}

#[derive(Drop)]
enum Cell {
    PairCell(Word, Word, Size),
    TextCell(Vec<u8>),
    WideCell(i128),
}

/// A place to cut a heap back to: how many cells it had.
#[derive(Clone, Copy, Debug)]
pub struct Mark {
    top: usize,
}

/// A heap of cells.
#[derive(Drop)]
pub struct Heap {
    alloc: Global,
    cells: Vec<Cell>,
}

impl Model for Heap {
    ghost use Rattle.acl_heap.specs.Objects.{Objects};
    ghost use Rattle.model_objects.specs.Stored.{object_code};
    ghost use Rattle.std.specs.Coded.{coded_list};
    ghost use Rattle.std.specs.Prelude.{[]};

    ghost Value = { Objects };

    ghost coded = { coded_list object_code };

    ghost use Rattle.acl_heap.specs.Cells.{objects_from, AreCells};

    ghost view = { λ h. objects_from [] h.cells.items };

    ghost invariant = { λ h. AreCells [] h.cells.items };
}

impl Heap {
    /// A heap without cells.
    pub fn new(alloc: Global) -> Heap
        ensures { result ≡ [] }
    {
        Heap {
            alloc,
            cells: Vec::new(alloc),
        }
    }

    fn cell(&self, n: u64) -> &Cell
        requires { n < length self.now }
        ensures { Reads self.now n result.now }
    {
        &self.cells[n as usize]
    }

    fn push(&mut self, cell: Cell) -> Result<u64, HeapFault>
        requires { IsCell self.old cell }
        ensures ok { IfOk result (λ n. (n ≡ length self.old) × (self.new ≡ self.old ++ object_at self.old cell ∷ [])) }
        ensures fault { IfErr result (λ e. e ≡ HeapFault.Memory) }
        ensures err { OnErr result (self.new ≡ self.old) }
    {
        let at = self.cells.len() as u64;
        self.cells.push(cell)?;
        Ok(at)
    }

    /// What kind of object the word stands for, and its parts.
    pub fn look(&self, w: Word) -> Seen<'_>
        requires { Lies self.now w }
        ensures sees { Sees self.now (object_of self.now w) result }
        ensures small { IsSmallest w result }
    {
        match w {
            Word::Small(n) => Seen::Integer(n as i128),
            Word::Sym(s) => Seen::Symbol(s),
            Word::Big(n) => self.look_at(n),
            Word::Str(n) => self.look_at(n),
            Word::Cons(n) => self.look_at(n),
        }
    }

    fn look_at(&self, n: u64) -> Seen<'_>
        requires { n < length self.now }
        ensures sees { Sees self.now (object_of self.now (Word.Cons n)) result }
        ensures small { (w : Word) → IsSmallest w result }
    {
        match self.cell(n) {
            Cell::PairCell(a, d, _) => Seen::Pair(*a, *d),
            Cell::TextCell(bytes) => Seen::Text(bytes.as_slice()),
            Cell::WideCell(n) => Seen::Integer(*n),
        }
    }

    #[tactic(auto, using(crate::proofs::SizeLemmas::cells_within))]
    fn size_at(&self, n: u64) -> Size
        requires { n < length self.now }
        ensures weight { result.weight ≡ weight (object_of self.now (Word.Cons n)) }
        ensures cells { result.cells ≡ cells (object_of self.now (Word.Cons n)) }
        ensures fewer { result.cells ≤ result.weight }
        ensures most { result.weight ≤ max_weight }
    {
        match self.cell(n) {
            Cell::PairCell(_, _, size) => *size,
            Cell::TextCell(bytes) => Size {
                weight: 1 + bytes.len() as u32,
                cells: 1 + (bytes.len() as u32 + 7) / 8,
            },
            Cell::WideCell(_) => Size {
                weight: 1,
                cells: 1,
            },
        }
    }

    fn size(&self, w: Word) -> Size
        requires { Lies self.now w }
        ensures weight { result.weight ≡ weight (object_of self.now w) }
        ensures cells { result.cells ≡ cells (object_of self.now w) }
        ensures fewer { result.cells ≤ result.weight }
        ensures most { result.weight ≤ max_weight }
    {
        match w {
            Word::Small(_) => Size {
                weight: 1,
                cells: 0,
            },
            Word::Sym(_) => Size {
                weight: 1,
                cells: 0,
            },
            Word::Big(n) => self.size_at(n),
            Word::Str(n) => self.size_at(n),
            Word::Cons(n) => self.size_at(n),
        }
    }

    /// The weight of the object.
    pub fn weight(&self, w: Word) -> u64
        requires { Lies self.now w }
        ensures is { result ≡ weight (object_of self.now w) }
        ensures most { result ≤ max_weight }
    {
        self.size(w).weight as u64
    }

    /// How many cells the object takes in a pool.
    pub fn cells(&self, w: Word) -> u64
        requires { Lies self.now w }
        ensures is { result ≡ cells (object_of self.now w) }
        ensures most { result ≤ max_weight }
    {
        self.size(w).cells as u64
    }

    /// The pair of two objects.
    #[tactic(auto, using(crate::proofs::CellLemmas::pushed))]
    pub fn cons(&mut self, a: Word, d: Word) -> Result<Word, HeapFault>
        requires car { Lies self.old a }
        requires cdr { Lies self.old d }
        ensures grows { Extends self.old self.new }
        ensures ok { IfOk result (λ w. Denotes self.new w (Pair (object_of self.old a) (object_of self.old d))) }
        ensures fits { OnOk result (weight (Pair (object_of self.old a) (object_of self.old d)) ≤ max_weight) }
        ensures fault { IfErr result (RefusedFor (weight (Pair (object_of self.old a) (object_of self.old d)))) }
        ensures err { OnErr result (self.new ≡ self.old) }
    {
        let car = self.size(a);
        let cdr = self.size(d);
        let weight = 1 + (car.weight + cdr.weight);
        if weight as u64 > MAX_WEIGHT {
            return Err(HeapFault::TooLarge {
                weight: weight as u64,
            });
        }
        let cells = 1 + (car.cells + cdr.cells);
        let at = self.push(Cell::PairCell(a, d, Size { weight, cells }))?;
        Ok(Word::Cons(at))
    }

    /// The string of these bytes.
    #[tactic(auto, using(crate::proofs::CellLemmas::pushed))]
    pub fn string(&mut self, bytes: &[u8]) -> Result<Word, HeapFault>
        ensures grows { Extends self.old self.new }
        ensures ok { IfOk result (λ w. Denotes self.new w (Text bytes.now)) }
        ensures fits { OnOk result (1 + length bytes.now ≤ max_weight) }
        ensures fault { IfErr result (RefusedFor (1 + length bytes.now)) }
        ensures err { OnErr result (self.new ≡ self.old) }
    {
        let weight = 1 + bytes.len() as u64;
        if weight > MAX_WEIGHT {
            return Err(HeapFault::TooLarge { weight });
        }
        let text = Vec::from_slice(self.alloc, bytes)?;
        let at = self.push(Cell::TextCell(text))?;
        Ok(Word::Str(at))
    }

    /// The integer. One of 64 bits takes no memory.
    #[tactic(auto, using(crate::proofs::CellLemmas::pushed))]
    pub fn int(&mut self, n: i128) -> Result<Word, HeapFault>
        ensures grows { Extends self.old self.new }
        ensures ok { IfOk result (λ w. Denotes self.new w (Integer n)) }
        ensures small { IsTrue (fits_64 n) → (result ≡ Ok (Word.Small n)) × (self.new ≡ self.old) }
        ensures fault { IfErr result (λ e. e ≡ HeapFault.Memory) }
        ensures err { OnErr result (self.new ≡ self.old) }
    {
        match i64::try_from(n) {
            Ok(small) => Ok(Word::Small(small)),
            Err(_) => {
                let at = self.push(Cell::WideCell(n))?;
                Ok(Word::Big(at))
            }
        }
    }

    /// The car of a pair.
    pub fn car(&self, w: Word) -> Word
        requires lies { Lies self.now w }
        requires pair { IsPair (object_of self.now w) }
        ensures { Denotes self.now result (car_of (object_of self.now w)) }
    {
        match self.look(w) {
            Seen::Pair(a, _) => a,
            Seen::Integer(_) => unreachable!(),
            Seen::Symbol(_) => unreachable!(),
            Seen::Text(_) => unreachable!(),
        }
    }

    /// The cdr of a pair.
    pub fn cdr(&self, w: Word) -> Word
        requires lies { Lies self.now w }
        requires pair { IsPair (object_of self.now w) }
        ensures { Denotes self.now result (cdr_of (object_of self.now w)) }
    {
        match self.look(w) {
            Seen::Pair(_, d) => d,
            Seen::Integer(_) => unreachable!(),
            Seen::Symbol(_) => unreachable!(),
            Seen::Text(_) => unreachable!(),
        }
    }

    /// The value of an integer.
    pub fn int_of(&self, w: Word) -> i128
        requires lies { Lies self.now w }
        requires integer { IsInteger (object_of self.now w) }
        ensures { object_of self.now w ≡ Integer result }
    {
        match self.look(w) {
            Seen::Integer(n) => n,
            Seen::Pair(_, _) => unreachable!(),
            Seen::Symbol(_) => unreachable!(),
            Seen::Text(_) => unreachable!(),
        }
    }

    /// The bytes of a string.
    pub fn bytes_of(&self, w: Word) -> &[u8]
        requires lies { Lies self.now w }
        requires text { IsText (object_of self.now w) }
        ensures { object_of self.now w ≡ Text result.now }
    {
        match self.look(w) {
            Seen::Text(bytes) => bytes,
            Seen::Integer(_) => unreachable!(),
            Seen::Symbol(_) => unreachable!(),
            Seen::Pair(_, _) => unreachable!(),
        }
    }

    /// What holds of every heap: its cells hold wide integers, strings and pairs, none too heavy. It does nothing when it
    /// runs.
    pub fn is_heap(&self)
        ensures { IsHeap self.now }
    {
        let _ = &self.cells;
    }

    /// The place to which the heap has grown.
    pub fn mark(&self) -> Mark
        ensures { result.top ≡ length self.now }
    {
        Mark {
            top: self.cells.len(),
        }
    }

    /// Cuts the heap back to a place to which it had grown.
    pub fn reset(&mut self, m: Mark)
        requires { m.top ≤ length self.old }
        ensures { self.new ≡ take m.top self.old }
    {
        self.cells.truncate(m.top);
    }
}
