//! A form from text.

ghost use Rattle.std.specs.Prelude.{◌≡◌, IfOk, IfSome};
ghost use Rattle.model_symbols.specs.Growth.{Extends};
ghost use Rattle.model_symbols.specs.Opening.{opening};
ghost use Rattle.acl_forms.specs.Forms.{Grown, IsWhole};

use acl_base::Word;
use acl_heap::Heap;
use acl_read::{Reader, TextFault};
use acl_syms::Symbols;
use std::alloc::Global;

/// The first form of a text, its names in ACL2; None where it has none.
pub fn read(
    alloc: Global,
    heap: &mut Heap,
    syms: &mut Symbols,
    bytes: &[u8],
) -> Result<Option<Word>, TextFault>
    requires opening { Extends opening syms.old }
    ensures grows { Grown syms.old syms.new heap.old heap.new }
    ensures packages { syms.new.packages ≡ syms.old.packages }
    ensures whole { IfOk result (λ found. IfSome found (IsWhole syms.new heap.new)) }
{
    let mut reader = Reader::new(alloc);
    reader.feed(bytes)?;
    reader.finish();
    match syms.find_package(b"ACL2") {
        None => Ok(None),
        Some(acl2) => reader.take(heap, syms, acl2),
    }
}
