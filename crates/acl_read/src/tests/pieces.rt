//! A book that comes whole, and in pieces.

ghost use Rattle.std.specs.Prelude.{◌≡◌, ◌<◌, length, IfOk, IfSome};
ghost use Rattle.model_symbols.specs.Growth.{Extends};
ghost use Rattle.model_symbols.specs.Opening.{opening};
ghost use Rattle.acl_forms.specs.Forms.{IsWhole, Grown};
ghost use Rattle.acl_read.specs.Reading.{IsReady, has_ended};

use super::repeated;
use crate::{Reader, TextCause, TextFault};
use acl_base::{PkgId, Word};
use acl_heap::Heap;
use acl_syms::Symbols;
use std::alloc::Global;
use std::test::*;

/// Ten forms.
const PART: &[u8] =
    b"(defun f (x) (car x)) ; a comment (with a bracket\n'quoted-word \"a \\\" and a \\\\\"\n#| a block #| in a block |# |# |a name| `(a ,b ,@c . ,d) (1 -2 +3. #xff #b-101 #o17)(a . (b . c)) :key acl2::long-name 170141183460469231731687303715884105727\n";

/// A form that one reader has and the other has not.
const APART: TextFault = TextFault {
    cause: TextCause::Unfinished,
    offset: 0,
};

/// The next form of a reader. Another reader of the same heap and symbols goes on behind it.
fn take_beside(
    reader: &mut Reader,
    other: &Reader,
    heap: &mut Heap,
    syms: &mut Symbols,
    current: PkgId,
) -> Result<Option<Word>, TextFault>
    requires reader { IsReady syms.old current reader.old }
    requires other { IsReady syms.old current other.now }
    requires package { current.0 < length syms.old.packages }
    requires opening { Extends opening syms.old }
    ensures reader { IsReady syms.new current reader.new }
    ensures other { IsReady syms.new current other.now }
    ensures package { current.0 < length syms.new.packages }
    ensures opening { Extends opening syms.new }
    ensures ended { has_ended reader.new ≡ has_ended reader.old }
    ensures grows { Grown syms.old syms.new heap.old heap.new }
    ensures whole { IfOk result (λ found. IfSome found (IsWhole syms.new heap.new)) }
{
    let _ = other;
    reader.take(heap, syms, current)
}

/// Whether the readers' next forms are the same, where the first has one.
fn next_alike(
    cut: &mut Reader,
    whole: &mut Reader,
    heap: &mut Heap,
    syms: &mut Symbols,
    current: PkgId,
) -> Result<bool, TextFault>
    requires cut { IsReady syms.old current cut.old }
    requires whole { IsReady syms.old current whole.old }
    requires package { current.0 < length syms.old.packages }
    requires opening { Extends opening syms.old }
    ensures cut { IsReady syms.new current cut.new }
    ensures whole { IsReady syms.new current whole.new }
    ensures package { current.0 < length syms.new.packages }
    ensures opening { Extends opening syms.new }
    ensures ended { has_ended cut.new ≡ has_ended cut.old }
{
    let w = match take_beside(cut, whole, heap, syms, current)? {
        Some(w) => w,
        None => return Ok(false),
    };
    match take_beside(whole, cut, heap, syms, current)? {
        Some(v) => {
            if heap.equal(w, v)? {
                Ok(true)
            } else {
                Err(APART)
            }
        }
        None => Err(APART),
    }
}

/// How many forms have come; each is the next of the whole book, too.
fn count_alike(
    cut: &mut Reader,
    whole: &mut Reader,
    heap: &mut Heap,
    syms: &mut Symbols,
    current: PkgId,
) -> Result<u64, TextFault>
    requires cut { IsReady syms.old current cut.old }
    requires whole { IsReady syms.old current whole.old }
    requires package { current.0 < length syms.old.packages }
    requires opening { Extends opening syms.old }
    ensures cut { IsReady syms.new current cut.new }
    ensures whole { IsReady syms.new current whole.new }
    ensures package { current.0 < length syms.new.packages }
    ensures opening { Extends opening syms.new }
    ensures ended { has_ended cut.new ≡ has_ended cut.old }
{
    for count in 0..200 {
        if !next_alike(cut, whole, heap, syms, current)? {
            return Ok(count);
        }
    }
    Ok(200)
}

/// How many forms a book has, which are the same where it comes whole and where it comes in pieces of this size.
fn forms_in_pieces(alloc: Global, book: &[u8], size: usize) -> Result<u64, TextFault>
    requires { 0 < size }
{
    let current = PkgId(2);
    let mut heap = Heap::new(alloc);
    let mut syms = Symbols::new(alloc)?;
    let mut whole = Reader::new(alloc);
    whole.feed(book)?;
    whole.finish();
    let mut cut = Reader::new(alloc);
    let mut count = 0u64;
    let mut at = 0;
    while at < book.len() {
        let end = at + size.min(book.len() - at);
        cut.feed(&book[at..end])?;
        let more = count_alike(&mut cut, &mut whole, &mut heap, &mut syms, current)?;
        count = count.saturating_add(more);
        at = end;
    }
    cut.finish();
    let more = count_alike(&mut cut, &mut whole, &mut heap, &mut syms, current)?;
    Ok(count.saturating_add(more))
}

#[test]
fn a_book_of_a_hundred_forms(rt: HostRuntime) -> Result<(), Fail> {
    let book = repeated(rt.alloc(), b"", PART, 10)?;
    for size in [1, 2, 3, 7, 4_096] {
        assert_eq!(rt;
            forms_in_pieces(rt.alloc(), book.as_slice(), size),
            Ok(100),
            "in pieces of {size}"
        );
    }
    Ok(())
}
