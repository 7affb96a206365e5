//! Lists of symbols that stand one after another in the table of symbols.

ghost use Rattle.std.specs.Prelude.{◌≤◌, ◌+◌, ◌-◌, IfOk};
ghost use Rattle.model_expansion.specs.Forms.{list};
ghost use Rattle.model_books.specs.Opening.{symbols_from};
ghost use Rattle.acl_heap.specs.Objects.{Lies, Denotes, Extends};
ghost use Rattle.acl_opening.specs.Opened.{Listed};

use acl_base::{SymId, Word};
use acl_heap::{Heap, HeapFault};
use std::alloc::AllocError;

/// `NIL`.
const NIL: Word = Word::Sym(SymId(1));

/// A symbol before a list of those that come behind it.
#[tactic(auto, using(crate::proofs::OpenedLemmas::one_more))]
fn symbol_before(heap: &mut Heap, end: u32, done: u32, rest: Word) -> Result<Word, AllocError>
    requires more { done + 1 ≤ end }
    requires few { end ≤ 195 }
    requires rest { Listed heap.old rest end done }
    ensures grows { Extends heap.old heap.new }
    ensures ok { IfOk result (λ w. Listed heap.new w end (done + 1)) }
{
    match heap.cons(Word::Sym(SymId(end - 1 - done)), rest) {
        Ok(w) => Ok(w),
        Err(HeapFault::Memory) => Err(AllocError),
        Err(HeapFault::TooLarge { .. }) => unreachable!(),
    }
}

/// A list of the last so many symbols before a number.
#[tactic(auto, using(acl_heap::specs::Growth::growth))]
pub(crate) fn symbols_before(heap: &mut Heap, end: u32, count: u32) -> Result<Word, AllocError>
    requires more { count ≤ end }
    requires few { end ≤ 195 }
    ensures grows { Extends heap.old heap.new }
    ensures ok { IfOk result (λ w. Denotes heap.new w (list (symbols_from (end - count) count))) }
{
    let mut rest = NIL;
    for done in 0..count {
        rest = symbol_before(heap, end, done, rest)?;
    }
    Ok(rest)
}
