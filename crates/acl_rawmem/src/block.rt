//! Blocks of memory: the five functions that follow a pointer.
ghost use Rattle.std.specs.Prelude.{◌≡◌, ℕ, ◌<◌, ◌++◌, [], ◌∷◌, List, length, slice_index_or, slice_set, IfOk, IsOk};
ghost use Rattle.std.specs.Allocator.{FitsBlock};
ghost use Rattle.acl_rawmem.specs.Owned.{owned, lent};

use std::alloc::{AllocError, Allocator};
use std::marker::{Model, PhantomData};
use std::mem::{align_of, size_of};
use std::ptr::null_mut;

/// A block with room for `room` elements, of which the first are written: `items`.
///
/// It belongs to the allocator whose handle has the value `heap`, and goes back to it by `give_back` alone: a block is
/// never dropped. Where `room` is 0 there is no memory.
pub struct Block<T: Copy, A: Allocator> {
    at: *mut T,
    by: PhantomData<A>,
    ghost heap: { A },
    ghost room: { ℕ },
    ghost items: { List T },
}

impl<T: Copy, A: Allocator> Model for Block<T, A> {
    ghost also_owns = { λ h. owned (A.dealloc_token h.heap) T.row h.at h.room h.items };

    ghost also_shares = { λ h p. lent T.row h.at h.room h.items };
}

impl<T: Copy, A: Allocator> Block<T, A> {
    /// A block with no element yet. It takes no memory where `room` is 0.
    pub fn allocate(alloc: &A, room: usize) -> Result<Block<T, A>, AllocError>
        requires { FitsBlock T.row room }
        ensures block { IfOk result (λ b. (b.items ≡ []) × (b.room ≡ room) × (b.heap ≡ alloc.now)) }
        ensures nothing_to_hold { room ≡ 0 → IsOk result }
    {
        if room == 0 {
            return Ok(Block {
                at: null_mut(),
                by: PhantomData,
            });
        }
        match alloc.allocate(room * size_of::<T>(), align_of::<T>()) {
            Ok(block) => Ok(Block {
                at: block as *mut T,
                by: PhantomData,
            }),
            Err(refused) => Err(refused),
        }
    }

    /// The element at `index`.
    pub fn read(&self, index: usize) -> T
        requires { index < length self.now.items }
        ensures { (d : T) → result ≡ slice_index_or self.now.items index d }
    {
        unsafe { *self.at.add(index) }
    }

    /// Puts `value` at `index`.
    pub fn write(&mut self, index: usize, value: T)
        requires { index < length self.old.items }
        ensures items { self.new.items ≡ slice_set self.old.items index value }
        ensures same { (self.new.room ≡ self.old.room) × (self.new.heap ≡ self.old.heap) }
    {
        unsafe { *self.at.add(index) = value };
    }

    /// Puts `value` behind the `used` elements.
    pub fn push(&mut self, used: usize, value: T)
        requires { (used ≡ length self.old.items) × (used < self.old.room) }
        ensures items { self.new.items ≡ self.old.items ++ value ∷ [] }
        ensures same { (self.new.room ≡ self.old.room) × (self.new.heap ≡ self.old.heap) }
    {
        unsafe { self.at.add(used).write(value) };
    }

    /// Ends the block. `room` is what it was allocated with.
    pub fn give_back(self, alloc: &A, room: usize)
        requires { (room ≡ self.room) × (alloc.now ≡ self.heap) }
    {
        let Block { at, by: _ } = self;
        if room > 0 {
            unsafe { alloc.deallocate(at as *mut u8, room * size_of::<T>(), align_of::<T>()) };
        }
    }
}
