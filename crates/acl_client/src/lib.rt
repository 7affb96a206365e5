//! Callers of the heap and the table of symbols that see their public clauses alone.
#![tactic(auto)]

ghost use Rattle.std.specs.Prelude.{◌≡◌, ℕ, ◌≤◌, ◌<◌, [], ◌∷◌, length, IfOk, OnOk, Some, codes};
ghost use Rattle.model_objects.specs.Object.{Object, Integer, Symbol, Text, Pair};
ghost use Rattle.model_symbols.specs.Growth as tables;
ghost use Rattle.model_symbols.specs.Symbols.{package_number};
ghost use Rattle.model_symbols.specs.Tables.{symbol_under, number_in};
ghost use Rattle.acl_heap.specs.Objects.{object_of, reach, Lies, Denotes, Extends};
ghost use Rattle.acl_forms.specs.Forms.{StandsFor, Grown};
ghost use Rattle.acl_client.specs.Lists.{nil, list_of, reversed_onto};

#[cfg(test)]
mod tests;

use acl_base::{PkgId, SymId, Word};
use acl_heap::{Heap, HeapFault, Seen};
use acl_syms::{SymFault, Symbols};
use thiserror::Error;

/// The empty list.
pub const NIL: Word = Word::Sym(SymId(1));

/// What a heap or a table refused.
#[derive(Debug, Drop, Error)]
pub enum Refused {
    #[error(transparent)]
    Heap(#[from] HeapFault),
    #[error(transparent)]
    Symbols(#[from] SymFault),
}

/// The list of three integers.
pub fn three(heap: &mut Heap, a: i128, b: i128, c: i128) -> Result<Word, HeapFault>
    ensures grows { Extends heap.old heap.new }
    ensures ok { IfOk result (λ w. Denotes heap.new w (list_of (Integer a ∷ Integer b ∷ Integer c ∷ []))) }
{
    let first = heap.int(a)?;
    let second = heap.int(b)?;
    let third = heap.int(c)?;
    let end = heap.cons(third, NIL)?;
    let rest = heap.cons(second, end)?;
    heap.cons(first, rest)
}

/// The elements of a list, the last first.
pub fn reverse(heap: &mut Heap, list: Word) -> Result<Word, HeapFault>
    requires { Lies heap.old list }
    ensures grows { Extends heap.old heap.new }
    ensures ok { IfOk result (λ w. Denotes heap.new w (reversed_onto (object_of heap.old list) nil)) }
{
    let mut done = NIL;
    let mut rest = list;
    while let Seen::Pair(first, next) = heap.look(rest) {
        done = heap.cons(first, done)?;
        rest = next;
    }
    Ok(done)
}

/// Whether a list of three integers reads the same from its end. The heap is afterwards as before.
pub fn is_palindrome(heap: &mut Heap, a: i128, b: i128, c: i128) -> Result<bool, HeapFault>
    ensures { OnOk result (heap.new ≡ heap.old) }
{
    let mark = heap.mark();
    let list = three(heap, a, b, c)?;
    let turned = reverse(heap, list)?;
    let same = heap.equal(list, turned)?;
    heap.reset(mark);
    Ok(same)
}

/// The list of three integers, which stays when what was made after it is given up.
pub fn three_kept(heap: &mut Heap, a: i128, b: i128, c: i128) -> Result<Word, HeapFault>
    ensures { IfOk result (λ w. Denotes heap.new w (list_of (Integer a ∷ Integer b ∷ Integer c ∷ []))) }
{
    let kept = three(heap, a, b, c)?;
    let top = heap.mark();
    let _turned = reverse(heap, kept)?;
    heap.reset(top);
    Ok(kept)
}

/// The symbol of a name, looked up before and after others are interned.
pub fn looked_up_twice(
    symbols: &mut Symbols,
    p: PkgId,
    name: &[u8],
    others: &[&[u8]],
) -> Result<(SymId, SymId), SymFault>
    requires { p.0 < length symbols.old.packages }
    ensures grows { tables.Extends symbols.old symbols.new }
    ensures same { IfOk result (λ found. found.0.0 ≡ found.1.0) }
    ensures named { IfOk result (λ found. tables.IsSymbol symbols.new.symbols found.1.0 (symbol_under symbols.old p.0 name.now)) }
{
    let before = symbols.intern_in(p, name)?;
    intern_others(symbols, p, others)?;
    let after = symbols.intern_in(p, name)?;
    symbols.is_table();
    Ok((before, after))
}

fn intern_others(symbols: &mut Symbols, p: PkgId, others: &[&[u8]]) -> Result<(), SymFault>
    requires { p.0 < length symbols.old.packages }
    ensures grows { tables.Extends symbols.old symbols.new }
    ensures packages { symbols.new.packages ≡ symbols.old.packages }
{
    for other in others {
        symbols.intern_in(p, other)?;
    }
    Ok(())
}

/// The pair of a symbol and a string, which stands for its form whatever is interned and made after it.
#[tactic(auto, using(acl_forms::specs::Growth::growing))]
pub fn entry(
    heap: &mut Heap,
    symbols: &mut Symbols,
    p: PkgId,
    name: &[u8],
    text: &[u8],
) -> Result<Word, Refused>
    requires { p.0 < length symbols.old.packages }
    ensures grows { Grown symbols.old symbols.new heap.old heap.new }
    ensures ok { IfOk result (λ w. StandsFor symbols.new heap.new w (Pair (Symbol (symbol_under symbols.old p.0 name.now)) (Text text.now))) }
{
    let key = symbols.intern_in(p, name)?;
    let value = heap.string(text)?;
    let pair = heap.cons(Word::Sym(key), value)?;
    let _other = symbols.intern_in(p, text)?;
    let _more = heap.string(name)?;
    Ok(pair)
}
