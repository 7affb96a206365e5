//! `RawArray`. A clause sees an array as the list of its elements.
ghost use Rattle.std.specs.Prelude.{◌≡◌, ◌-◌, ◌<◌, ◌≤◌, ◌++◌, length, take, replicate, slice_index_or, slice_set, IfOk, IsOk, OnOk, OnErr};

use crate::block::Block;
use crate::filling::{fill, reserve, stretch, widen};
use std::alloc::{AllocError, Allocator, Global};
use std::marker::Model;

/// An array of plain values, in one block of memory from the allocator that it keeps.
///
/// An array made with length 0 has no memory.
pub struct RawArray<T: Copy, A: Allocator = Global> {
    alloc: A,
    block: Block<T, A>,
    len: usize,
    used: usize,
    room: usize,
}

impl<T: Copy, A: Allocator> Model for RawArray<T, A> {
    ghost use Rattle.std.specs.Prelude.{List, take};
    ghost use Rattle.acl_rawmem.specs.Fields.{IsSound};

    ghost Value = { List T };

    ghost view = { λ a. take a.len a.block.items };

    ghost invariant = { λ a. IsSound a.len a.used a.room a.block.room a.block.items a.alloc a.block.heap };
}

impl<T: Copy, A: Allocator> Drop for RawArray<T, A> {
    fn drop(self) {
        let RawArray {
            alloc,
            block,
            len: _,
            used: _,
            room,
        } = self;
        block.give_back(&alloc, room);
    }
}

impl<T: Copy, A: Allocator> RawArray<T, A> {
    /// An array of `n` times `value`. It takes no memory where `n` is 0.
    pub fn filled(alloc: A, n: usize, value: T) -> Result<RawArray<T, A>, AllocError>
        ensures elements { IfOk result (λ a. a ≡ replicate n value) }
        ensures nothing_to_hold { n ≡ 0 → IsOk result }
    {
        let mut block = reserve(&alloc, n)?;
        fill(&mut block, 0, n, value);
        Ok(RawArray {
            alloc,
            block,
            len: n,
            used: n,
            room: n,
        })
    }

    /// The number of elements.
    pub fn len(&self) -> usize
        ensures { result ≡ length self.now }
    {
        self.len
    }

    /// The element at `index`.
    pub fn get(&self, index: usize) -> T
        requires { index < length self.now }
        ensures { (d : T) → result ≡ slice_index_or self.now index d }
    {
        self.block.read(index)
    }

    /// Puts `value` at `index`.
    #[tactic(auto, using(crate::proofs::Lists::cut_of_written))]
    pub fn set(&mut self, index: usize, value: T)
        requires { index < length self.old }
        ensures { self.new ≡ slice_set self.old index value }
    {
        self.block.write(index, value);
    }

    /// Cuts the array to `n` elements, or lengthens it with `fill`.
    ///
    /// A longer array that does not fit its block moves to one of exactly `n` elements. A shorter one keeps its block.
    pub fn resize(&mut self, n: usize, fill: T) -> Result<(), AllocError>
        ensures elements { OnOk result (self.new ≡ take n self.old ++ replicate (n - length self.old) fill) }
        ensures refused { OnErr result (self.new ≡ self.old) }
        ensures cut { n ≤ length self.old → IsOk result }
    {
        if n > self.len {
            self.lengthen(n, fill)
        } else {
            self.len = n;
            Ok(())
        }
    }

    fn lengthen(&mut self, n: usize, value: T) -> Result<(), AllocError>
        requires { length self.old < n }
        ensures elements { OnOk result (self.new ≡ self.old ++ replicate (n - length self.old) value) }
        ensures refused { OnErr result (self.new ≡ self.old) }
    {
        if n > self.room {
            widen(&self.alloc, &mut self.block, self.len, self.room, n)?;
            stretch(&mut self.block, self.len, self.len, n, value);
            self.used = n;
            self.room = n;
        } else {
            stretch(&mut self.block, self.len, self.used, n, value);
            self.used = self.used.max(n);
        }
        self.len = n;
        Ok(())
    }
}
