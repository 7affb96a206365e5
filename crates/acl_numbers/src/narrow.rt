//! Arithmetic on integers of 64 bits: None where 64 bits are not enough.

ghost use Rattle.std.specs.Prelude.{◌≡◌, IfSome};
ghost use Rattle.model_objects.specs.Object.{Integer};
ghost use Rattle.model_prims.specs.Kinds.{by_number};
ghost use Rattle.model_prims.specs.Numbers.{floor_of, mod_of, truncate_of, rem_of};
ghost use Rattle.model_prims.specs.Values.{computed, without_sign};
ghost use Rattle.model_prims.specs.Applied.{Gives, bounded};
ghost use Rattle.acl_heap.specs.Objects.{object_of};
ghost use Rattle.acl_numbers.specs.Narrow.{in_64};

use crate::integers;
use acl_base::Word;
use acl_heap::Heap;
use acl_syms::Symbols;
use model_prims::Arithmetic;

/// The quotient, rounded down; 0 where the divisor is 0.
#[tactic(auto, using(crate::proofs::NarrowLemmas::floors))]
pub fn floor(i: i64, j: i64) -> Option<i64>
    ensures { result ≡ in_64 (floor_of i j) }
{
    if j == 0 {
        return Some(0);
    }
    if j == -1 {
        return i.checked_neg();
    }
    let quotient = i.div_euclid(j);
    if j > 0 {
        return Some(quotient);
    }
    if i.rem_euclid(j) == 0 {
        return Some(quotient);
    }
    quotient.checked_sub(1)
}

/// What the quotient leaves of the dividend when it is rounded down.
#[tactic(auto, using(crate::proofs::Divided::remainders))]
pub fn modulo(i: i64, j: i64) -> i64
    ensures { result ≡ mod_of i j }
{
    if j == 0 {
        return i;
    }
    if j == -1 {
        return 0;
    }
    let rest = i.rem_euclid(j);
    if j > 0 {
        return rest;
    }
    if rest == 0 {
        return 0;
    }
    rest + j
}

/// The quotient, rounded to 0; 0 where the divisor is 0.
#[tactic(auto, using(crate::proofs::NarrowLemmas::floors))]
pub fn truncate(i: i64, j: i64) -> Option<i64>
    ensures { result ≡ in_64 (truncate_of i j) }
{
    if j == 0 { Some(0) } else { i.checked_div(j) }
}

/// What the quotient leaves of the dividend when it is rounded to 0.
pub fn remainder(i: i64, j: i64) -> i64
    ensures { result ≡ rem_of i j }
{
    if j == 0 { i } else { i.wrapping_rem(j) }
}

/// The integer, where it has 64 bits.
#[tactic(auto, using(crate::proofs::NarrowLemmas::floors))]
fn narrowed(n: i128) -> Option<i64>
    ensures { result ≡ in_64 n }
{
    i64::try_from(n).ok()
}

#[tactic(auto, using(crate::proofs::NarrowLemmas::signs))]
fn without_sign(i: i64, _syms: &Symbols) -> Option<i64>
    ensures { IfSome result (λ n. bounded _syms.now (without_sign by_number (Integer i)) ≡ Gives (Integer n) _syms.now.symbols) }
{
    if i < 0 { i.checked_neg() } else { Some(i) }
}

/// What a primitive of one integer gives of it.
#[tactic(auto, using(crate::proofs::NarrowLemmas::narrow), unfolding(model_prims::specs::Applied::bounded, model_prims::specs::Values::computed))]
pub fn of_one(prim: Arithmetic, i: i64, _y: Word, _heap: &Heap, _syms: &Symbols) -> Option<i64>
    ensures { IfSome result (λ n. bounded _syms.now (computed by_number prim (Integer i) (object_of _heap.now _y)) ≡ Gives (Integer n) _syms.now.symbols) }
{
    match prim {
        Arithmetic::Minus => i.checked_neg(),
        Arithmetic::Lognot => Some(!i),
        Arithmetic::Abs => without_sign(i, _syms),
        Arithmetic::Nfix => None,
        Arithmetic::Ifix => None,
        Arithmetic::Plus => None,
        Arithmetic::Times => None,
        Arithmetic::Min => None,
        Arithmetic::Max => None,
        Arithmetic::Floor => None,
        Arithmetic::Mod => None,
        Arithmetic::Truncate => None,
        Arithmetic::Rem => None,
        Arithmetic::Expt => None,
        Arithmetic::Ash => None,
        Arithmetic::Logand => None,
        Arithmetic::Logior => None,
        Arithmetic::Logxor => None,
    }
}

/// What a primitive of two integers gives of them.
#[tactic(auto, using(crate::proofs::NarrowLemmas::narrow), unfolding(model_prims::specs::Applied::bounded, model_prims::specs::Values::computed))]
pub fn of_two(prim: Arithmetic, i: i64, j: i64, _syms: &Symbols) -> Option<i64>
    ensures { IfSome result (λ n. bounded _syms.now (computed by_number prim (Integer i) (Integer j)) ≡ Gives (Integer n) _syms.now.symbols) }
{
    match prim {
        Arithmetic::Plus => i.checked_add(j),
        Arithmetic::Times => i.checked_mul(j),
        Arithmetic::Min => Some(if i < j { i } else { j }),
        Arithmetic::Max => Some(if j < i { i } else { j }),
        Arithmetic::Floor => floor(i, j),
        Arithmetic::Mod => Some(modulo(i, j)),
        Arithmetic::Truncate => truncate(i, j),
        Arithmetic::Rem => Some(remainder(i, j)),
        Arithmetic::Logand => narrowed(integers::and(i as i128, j as i128)),
        Arithmetic::Logior => narrowed(integers::or(i as i128, j as i128)),
        Arithmetic::Logxor => narrowed(integers::xor(i as i128, j as i128)),
        Arithmetic::Minus => None,
        Arithmetic::Nfix => None,
        Arithmetic::Ifix => None,
        Arithmetic::Abs => None,
        Arithmetic::Expt => None,
        Arithmetic::Ash => None,
        Arithmetic::Lognot => None,
    }
}
