//! The primitives that compute.

ghost use Rattle.std.specs.Prelude.{IfSome};
ghost use Rattle.acl_heap.specs.Objects.{object_of, Lies, Extends};
ghost use Rattle.model_prims.specs.Kinds.{by_number};
ghost use Rattle.model_prims.specs.Values.{computed, without_sign};
ghost use Rattle.model_prims.specs.Applied.{bounded, number_or};
ghost use Rattle.acl_numbers.specs.Answers.{IsAnswer, IsGiven};

use crate::integers;
use crate::kinds::{fix, is_integer, is_natural, natural, small};
use crate::narrow::{of_one, of_two};
use crate::stops::PrimStop;
use acl_base::Word;
use acl_heap::{Heap, Seen};
use acl_syms::Symbols;
use model_prims::Arithmetic;

/// The integer, where there is one in range.
pub fn number(n: Option<i128>, heap: &mut Heap, _syms: &Symbols) -> Result<Word, PrimStop>
    ensures answer { IsAnswer heap.new _syms.now.symbols (number_or _syms.now.symbols n) result }
    ensures grows { Extends heap.old heap.new }
{
    match n {
        Some(n) => match heap.int(n) {
            Ok(word) => Ok(word),
            Err(_) => Err(PrimStop::Memory),
        },
        None => Err(PrimStop::Range),
    }
}

#[tactic(auto, unfolding(model_prims::specs::Applied::bounded))]
fn without_sign(x: Word, heap: &mut Heap, syms: &Symbols) -> Result<Word, PrimStop>
    requires { Lies heap.old x }
    ensures answer { IsAnswer heap.new syms.now.symbols (bounded syms.now (without_sign by_number (object_of heap.old x))) result }
    ensures grows { Extends heap.old heap.new }
{
    match heap.look(x) {
        Seen::Integer(n) => {
            if n < 0 {
                number(n.checked_neg(), heap, syms)
            } else {
                Ok(x)
            }
        }
        Seen::Symbol(_) => Ok(x),
        Seen::Text(_) => Ok(x),
        Seen::Pair(_, _) => Ok(x),
    }
}

/// What the primitive gives, in 128 bits.
#[tactic(auto, unfolding(model_prims::specs::Applied::bounded, model_prims::specs::Values::computed))]
fn wide(
    prim: Arithmetic,
    x: Word,
    y: Word,
    heap: &mut Heap,
    syms: &Symbols,
) -> Result<Word, PrimStop>
    requires x { Lies heap.old x }
    requires y { Lies heap.old y }
    ensures answer { IsAnswer heap.new syms.now.symbols (bounded syms.now (computed by_number prim (object_of heap.old x) (object_of heap.old y))) result }
    ensures grows { Extends heap.old heap.new }
{
    let i = fix(heap, x);
    let j = fix(heap, y);
    match prim {
        Arithmetic::Plus => number(i.checked_add(j), heap, syms),
        Arithmetic::Times => number(i.checked_mul(j), heap, syms),
        Arithmetic::Minus => number(i.checked_neg(), heap, syms),
        Arithmetic::Nfix => Ok(if is_natural(heap, x) {
            x
        } else {
            Word::Small(0)
        }),
        Arithmetic::Ifix => Ok(if is_integer(heap, x) {
            x
        } else {
            Word::Small(0)
        }),
        Arithmetic::Abs => without_sign(x, heap, syms),
        Arithmetic::Min => Ok(if i < j { x } else { y }),
        Arithmetic::Max => Ok(if j < i { x } else { y }),
        Arithmetic::Floor => number(integers::floor(i, j), heap, syms),
        Arithmetic::Mod => number(Some(integers::modulo(i, j)), heap, syms),
        Arithmetic::Truncate => number(integers::truncate(i, j), heap, syms),
        Arithmetic::Rem => number(Some(integers::remainder(i, j)), heap, syms),
        Arithmetic::Expt => number(integers::power(i, natural(heap, y)), heap, syms),
        Arithmetic::Ash => number(integers::shift(i, j), heap, syms),
        Arithmetic::Lognot => number(Some(integers::not(i)), heap, syms),
        Arithmetic::Logand => number(Some(integers::and(i, j)), heap, syms),
        Arithmetic::Logior => number(Some(integers::or(i, j)), heap, syms),
        Arithmetic::Logxor => number(Some(integers::xor(i, j)), heap, syms),
    }
}

/// What the primitive gives, where 64 bits are enough for that.
#[tactic(auto, using(crate::proofs::NarrowLemmas::operands))]
fn narrow(prim: Arithmetic, x: Word, y: Word, _heap: &Heap, syms: &Symbols) -> Option<Word>
    ensures { IfSome result (IsGiven _heap.now syms.now.symbols (bounded syms.now (computed by_number prim (object_of _heap.now x) (object_of _heap.now y)))) }
{
    let i = small(x)?;
    match small(y) {
        Some(j) => {
            let n = of_two(prim, i, j, syms)?;
            Some(Word::Small(n))
        }
        None => {
            let n = of_one(prim, i, y, _heap, syms)?;
            Some(Word::Small(n))
        }
    }
}

/// What a primitive that computes gives of two objects.
pub fn computed(
    prim: Arithmetic,
    x: Word,
    y: Word,
    heap: &mut Heap,
    syms: &Symbols,
) -> Result<Word, PrimStop>
    requires x { Lies heap.old x }
    requires y { Lies heap.old y }
    ensures answer { IsAnswer heap.new syms.now.symbols (bounded syms.now (computed by_number prim (object_of heap.old x) (object_of heap.old y))) result }
    ensures grows { Extends heap.old heap.new }
{
    match narrow(prim, x, y, heap, syms) {
        Some(word) => Ok(word),
        None => wide(prim, x, y, heap, syms),
    }
}
