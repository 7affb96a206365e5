//! Objects of a heap copied into a region.
//!
//! A pair that is still to be copied stands in its own cell, by its place in the heap; these cells are linked.
ghost use Rattle.std.specs.Prelude.{◌≡◌, ◌+◌, ◌<◌, ◌≤◌, ◌/◌, ◌^◌, FitsSigned, true, false, drop, length, slice_index_or};
ghost use Rattle.std.proofs.Common.{get_or};
ghost use Rattle.std.specs.Int.{w128};
ghost use Rattle.model_objects.specs.Object.{Integer, Text, cells, fits_64, max_weight};
ghost use Rattle.acl_heap.specs.Objects.{object_of, nothing, Lies, IsPair};
ghost use Rattle.acl_pool.specs.Trees.{IsNarrow, number, numbers, chain, tree_of};
ghost use Rattle.acl_pool.specs.Building.{Gives, IsRoomy, room};
ghost use Rattle.acl_pool.specs.Copying.{Starts, IsCopying, Continues, HasRoom, Copied};

use crate::cell::{Cell, Kind, Part};
use crate::region::Region;
use acl_base::Word;
use acl_heap::{Heap, Seen};

/// The pairs that are still to be copied: the place of the first, and their number.
#[derive(Clone, Copy)]
struct Waiting {
    first: u64,
    count: u64,
}

/// The eight bytes from `at` on, with zeros behind the last.
#[tactic(auto, using(crate::proofs::TextLemmas::number_from))]
fn eight(bytes: &[u8], at: usize) -> u64
    requires { at + 8 < 2 ^ 64 }
    ensures { result ≡ number (drop at bytes.now) }
{
    u64::from_le_bytes([
        byte(bytes, at),
        byte(bytes, at + 1),
        byte(bytes, at + 2),
        byte(bytes, at + 3),
        byte(bytes, at + 4),
        byte(bytes, at + 5),
        byte(bytes, at + 6),
        byte(bytes, at + 7),
    ])
}

fn byte(bytes: &[u8], at: usize) -> u8
    ensures { result ≡ slice_index_or bytes.now at 0 }
{
    if at < bytes.len() { bytes[at] } else { 0 }
}

/// What holds of every integer of 64 bits. It does nothing when it runs.
fn is_small(n: i64)
    ensures small { fits_64 n ≡ true }
    ensures narrow { FitsSigned w128 n }
{
    let _ = n;
}

impl Region {
    /// Copies an object into cells, for which there is room.
    pub fn copy(&mut self, heap: &Heap, w: Word) -> Part
        requires lies { Lies heap.now w }
        requires light { cells (object_of heap.now w) ≤ max_weight }
        requires room { HasRoom self.old (cells (object_of heap.now w)) }
        ensures { Copied heap.now self.old self.new result (object_of heap.now w) }
    {
        let mut waiting = Waiting { first: 0, count: 0 };
        let part = self.begin(heap, w, &mut waiting);
        while waiting.count > 0 {
            self.copy_pair(heap, &mut waiting);
        }
        part
    }

    /// Copies the pair that was put off last.
    fn copy_pair(&mut self, heap: &Heap, waiting: &mut Waiting)
        requires copying { IsCopying heap.now self.old waiting.old }
        requires some { 0 < waiting.old.count }
        ensures goes { Continues heap.now self.old self.new waiting.old waiting.new }
        ensures less { room self.new + waiting.new.count < room self.old + waiting.old.count }
    {
        let at = waiting.first;
        let cell = self.read(at);
        waiting.first = cell.link;
        waiting.count -= 1;
        match heap.look(Word::Cons(cell.left().bits)) {
            Seen::Pair(a, d) => {
                let left = self.begin(heap, a, waiting);
                let right = self.begin(heap, d, waiting);
                self.write(at, Cell::of(left, right, 0));
            }
            Seen::Integer(_) => unreachable!(),
            Seen::Symbol(_) => unreachable!(),
            Seen::Text(_) => unreachable!(),
        }
    }

    /// Copies what is no pair, and puts a pair off.
    fn begin(&mut self, heap: &Heap, w: Word, waiting: &mut Waiting) -> Part
        requires lies { Lies heap.now w }
        requires count { waiting.old.count ≤ max_weight }
        requires room { IsRoomy self.old (cells (object_of heap.now w)) }
        ensures { Starts heap.now self.old self.new waiting.old waiting.new result (object_of heap.now w) }
    {
        match w {
            Word::Small(n) => {
                is_small(n);
                Part::of(w)
            }
            Word::Sym(_) => Part::of(w),
            Word::Big(n) => self.begin_at(heap, n, waiting),
            Word::Str(n) => self.begin_at(heap, n, waiting),
            Word::Cons(n) => self.begin_at(heap, n, waiting),
        }
    }

    fn begin_at(&mut self, heap: &Heap, n: u64, waiting: &mut Waiting) -> Part
        requires lies { n < length heap.now }
        requires count { waiting.old.count ≤ max_weight }
        requires room { IsRoomy self.old (cells (get_or heap.now n nothing)) }
        ensures { Starts heap.now self.old self.new waiting.old waiting.new result (get_or heap.now n nothing) }
    {
        heap.is_heap();
        match heap.look(Word::Cons(n)) {
            Seen::Pair(_, _) => self.put_off(heap, n, waiting),
            Seen::Text(bytes) => self.copy_text(bytes),
            Seen::Integer(n) => self.copy_wide(n),
            Seen::Symbol(_) => unreachable!(),
        }
    }

    fn put_off(&mut self, heap: &Heap, n: u64, waiting: &mut Waiting) -> Part
        requires lies { n < length heap.now }
        requires pair { IsPair (get_or heap.now n nothing) }
        requires count { waiting.old.count ≤ max_weight }
        requires room { IsRoomy self.old 1 }
        ensures { Starts heap.now self.old self.new waiting.old waiting.new result (get_or heap.now n nothing) }
    {
        let pair = Part {
            kind: Kind::Heap,
            bits: n,
        };
        let _ = heap;
        let at = self.place(Cell::of(pair, Part::bits(0), waiting.first));
        waiting.first = at;
        waiting.count += 1;
        Part {
            kind: Kind::Cons,
            bits: at,
        }
    }

    fn copy_wide(&mut self, n: i128) -> Part
        requires room { IsRoomy self.old 1 }
        requires wide { fits_64 n ≡ false }
        ensures gives { Gives self.old self.new result (tree_of (Integer n)) 1 }
        ensures narrow { IsNarrow (Integer n) }
    {
        let bits = n.cast_unsigned();
        let low = (bits % (1 << 64)) as u64;
        let high = (bits / (1 << 64)) as u64;
        let at = self.place(Cell::of(Part::bits(low), Part::bits(high), 0));
        Part {
            kind: Kind::Big,
            bits: at,
        }
    }

    fn copy_text(&mut self, bytes: &[u8]) -> Part
        requires room { IsRoomy self.old (1 + (length bytes.now + 7) / 8) }
        requires short { length bytes.now ≤ 1048576 }
        ensures gives { Gives self.old self.new result (tree_of (Text bytes.now)) (1 + (length bytes.now + 7) / 8) }
        ensures narrow { IsNarrow (Text bytes.now) }
    {
        let rest = self.copy_bytes(bytes);
        let at = self.place(Cell::of(Part::bits(bytes.len() as u64), rest, 0));
        Part {
            kind: Kind::Str,
            bits: at,
        }
    }

    fn copy_bytes(&mut self, bytes: &[u8]) -> Part
        requires room { IsRoomy self.old ((length bytes.now + 7) / 8) }
        requires short { length bytes.now ≤ 1048576 }
        ensures { Gives self.old self.new result (chain (numbers ((length bytes.now + 7) / 8) bytes.now)) ((length bytes.now + 7) / 8) }
    {
        let mut rest = Part::bits(0);
        let count = (bytes.len() + 7) / 8;
        for done in 0..count {
            let first = eight(bytes, 8 * (count - 1 - done));
            let at = self.place(Cell::of(Part::bits(first), rest, 0));
            rest = Part {
                kind: Kind::Str,
                bits: at,
            };
        }
        rest
    }
}
