//! Texts, and the forms and faults in them.

mod faults;
mod pieces;
mod spellings;

ghost use Rattle.std.specs.Prelude.{◌≡◌, IfOk, IfSome};
ghost use Rattle.acl_heap.specs.Objects.{Lies};

use super::*;
use acl_base::{PkgId, Word};
use acl_heap::Heap;
use acl_syms::Symbols;
use std::alloc::AllocError;
use std::vec::Vec;

/// What stands first in a whole input.
pub fn first(alloc: Global, heap: &mut Heap, bytes: &[u8]) -> Result<Option<Word>, TextFault>
    ensures { IfOk result (λ found. IfSome found (Lies heap.new)) }
{
    let mut syms = Symbols::new(alloc)?;
    let mut reader = Reader::new(alloc);
    reader.feed(bytes)?;
    reader.finish();
    reader.take(heap, &mut syms, PkgId(2))
}

/// The part, so many times behind the head.
pub fn repeated(
    alloc: Global,
    head: &[u8],
    part: &[u8],
    count: u64,
) -> Result<Vec<u8>, AllocError> {
    let mut bytes = Vec::from_slice(alloc, head)?;
    for _ in 0..count {
        bytes.extend_from_slice(part)?;
    }
    Ok(bytes)
}
