//! Blocks filled and copied, element by element.
ghost use Rattle.std.specs.Prelude.{◌≡◌, ◌-◌, ◌*◌, ◌<◌, ◌≤◌, ◌++◌, [], length, take, drop, replicate, max, IfOk, IsOk, OnOk, OnErr};
ghost use Rattle.std.specs.Mem.{type_size};
ghost use prog.Memory.{capped};

use crate::block::Block;
use std::alloc::{AllocError, Allocator};
use std::mem::{replace, size_of};

/// The bytes of an element.
fn element_size<T>() -> usize
    ensures { result ≡ capped (type_size T.row) }
{
    size_of::<T>()
}

/// A block with room for `room` elements. It refuses more bytes than a block may have.
pub fn reserve<T: Copy, A: Allocator>(alloc: &A, room: usize) -> Result<Block<T, A>, AllocError>
    ensures block { IfOk result (λ b. (b.items ≡ []) × (b.room ≡ room) × (b.heap ≡ alloc.now)) }
    ensures nothing_to_hold { room ≡ 0 → IsOk result }
{
    match room.checked_mul(element_size::<T>()) {
        Some(bytes) => {
            if bytes > isize::MAX as usize {
                return Err(AllocError);
            }
            Block::allocate(alloc, room)
        }
        None => Err(AllocError),
    }
}

/// Puts `value` at the places from `start` up to `end`.
#[tactic(auto, using(crate::proofs::Lists::overwritten_more))]
pub fn overwrite<T: Copy, A: Allocator>(block: &mut Block<T, A>, start: usize, end: usize, value: T)
    requires { (start ≤ end) × (end ≤ length block.old.items) }
    ensures items { block.new.items ≡ take start block.old.items ++ replicate (end - start) value ++ drop end block.old.items }
    ensures same { (block.new.room ≡ block.old.room) × (block.new.heap ≡ block.old.heap) }
{
    for at in start..end {
        block.write(at, value);
    }
}

/// Puts `value` behind the `used` elements until there are `end`.
pub fn fill<T: Copy, A: Allocator>(block: &mut Block<T, A>, used: usize, end: usize, value: T)
    requires { (used ≡ length block.old.items) × (used ≤ end) × (end ≤ block.old.room) }
    ensures items { block.new.items ≡ block.old.items ++ replicate (end - used) value }
    ensures same { (block.new.room ≡ block.old.room) × (block.new.heap ≡ block.old.heap) }
{
    for at in used..end {
        block.push(at, value);
    }
}

/// Puts the first `count` elements of `from` into an empty block.
#[tactic(auto, using(crate::proofs::Lists::copied_more))]
pub fn copy<T: Copy, A: Allocator>(from: &Block<T, A>, to: &mut Block<T, A>, count: usize)
    requires { (count ≤ length from.now.items) × (count ≤ to.old.room) × (to.old.items ≡ []) }
    ensures items { to.new.items ≡ take count from.now.items }
    ensures same { (to.new.room ≡ to.old.room) × (to.new.heap ≡ to.old.heap) }
{
    for at in 0..count {
        to.push(at, from.read(at));
    }
}

/// Moves the first `len` elements of a block for `room` into one for `n`, and gives the old block back.
pub fn widen<T: Copy, A: Allocator>(
    alloc: &A,
    block: &mut Block<T, A>,
    len: usize,
    room: usize,
    n: usize,
) -> Result<(), AllocError>
    requires { (len ≤ length block.old.items) × (len ≤ n) × (room ≡ block.old.room) × (block.old.heap ≡ alloc.now) }
    ensures moved { OnOk result ((block.new.items ≡ take len block.old.items) × (block.new.room ≡ n) × (block.new.heap ≡ block.old.heap)) }
    ensures refused { OnErr result (block.new ≡ block.old) }
{
    let mut wider = reserve(alloc, n)?;
    copy(block, &mut wider, len);
    let narrow = replace(block, wider);
    narrow.give_back(alloc, room);
    Ok(())
}

/// Makes the first `n` elements of a block the first `len` of it and then `value`.
#[tactic(auto, using(crate::proofs::Lists::stretched))]
pub fn stretch<T: Copy, A: Allocator>(
    block: &mut Block<T, A>,
    len: usize,
    used: usize,
    n: usize,
    value: T,
)
    requires { (len ≤ used) × (len ≤ n) × (used ≡ length block.old.items) × (n ≤ block.old.room) × (used ≤ block.old.room) }
    ensures elements { take n block.new.items ≡ take len block.old.items ++ replicate (n - len) value }
    ensures used { length block.new.items ≡ max used n }
    ensures same { (block.new.room ≡ block.old.room) × (block.new.heap ≡ block.old.heap) }
{
    overwrite(block, len, used.min(n), value);
    fill(block, used, used.max(n), value);
}
