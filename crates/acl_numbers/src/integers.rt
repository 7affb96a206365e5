//! Arithmetic on integers of 128 bits, as the primitives have it: None where the result is out of range.

ghost use Rattle.std.specs.Prelude.{◌≡◌, ◌<◌, ◌^◌, pos, ◌*ℤ◌};
ghost use Rattle.model_prims.specs.Numbers.{floor_of, mod_of, truncate_of, rem_of, lognot, logand, logior, logxor, in_range, unit_power, power_in_range, shift_in_range};

#[tactic(auto, using(crate::proofs::Divided::floors))]
/// The quotient, rounded down; 0 where the divisor is 0.
pub fn floor(i: i128, j: i128) -> Option<i128>
    ensures { result ≡ in_range (floor_of i j) }
{
    if j == 0 {
        return Some(0);
    }
    if j == -1 {
        return i.checked_neg();
    }
    let quotient = i.div_euclid(j);
    if j > 0 {
        return Some(quotient);
    }
    if i.rem_euclid(j) == 0 {
        return Some(quotient);
    }
    quotient.checked_sub(1)
}

#[tactic(auto, using(crate::proofs::Divided::remainders))]
/// What the quotient leaves of the dividend when it is rounded down.
pub fn modulo(i: i128, j: i128) -> i128
    ensures { result ≡ mod_of i j }
{
    if j == 0 {
        return i;
    }
    if j == -1 {
        return 0;
    }
    let rest = i.rem_euclid(j);
    if j > 0 {
        return rest;
    }
    if rest == 0 {
        return 0;
    }
    rest + j
}

/// The quotient, rounded to 0; 0 where the divisor is 0.
pub fn truncate(i: i128, j: i128) -> Option<i128>
    ensures { result ≡ in_range (truncate_of i j) }
{
    if j == 0 { Some(0) } else { i.checked_div(j) }
}

/// What the quotient leaves of the dividend when it is rounded to 0.
pub fn remainder(i: i128, j: i128) -> i128
    ensures { result ≡ rem_of i j }
{
    if j == 0 { i } else { i.wrapping_rem(j) }
}

/// A power of 0, 1 or -1.
fn unit_power(base: i128, exponent: u128) -> i128
    ensures { result ≡ unit_power base exponent }
{
    if base < 0 {
        if exponent % 2 == 0 { 1 } else { base }
    } else if exponent == 0 {
        1
    } else {
        base
    }
}

/// The power.
pub fn power(base: i128, exponent: u128) -> Option<i128>
    ensures { result ≡ power_in_range base exponent }
{
    if base.unsigned_abs() < 2 {
        Some(unit_power(base, exponent))
    } else if exponent < 128 {
        base.checked_pow(exponent as u32)
    } else {
        None
    }
}

#[tactic(auto, using(crate::proofs::Divided::products))]
/// The integer times 2 to a power below 128.
fn raised(i: i128, count: u32) -> Option<i128>
    requires { count < 128 }
    ensures { result ≡ in_range (i *ℤ pos (2 ^ count)) }
{
    if count < 127 {
        i.checked_mul(1 << count)
    } else if i == -1 {
        Some(i128::MIN)
    } else if i == 0 {
        Some(0)
    } else {
        None
    }
}

/// The integer times 2 to the count, rounded down.
pub fn shift(i: i128, count: i128) -> Option<i128>
    ensures { result ≡ shift_in_range i count }
{
    if count >= 0 {
        if i == 0 {
            Some(0)
        } else if count < 128 {
            raised(i, count as u32)
        } else {
            None
        }
    } else if count > -128 {
        i.checked_shr((-count) as u32)
    } else if i < 0 {
        Some(-1)
    } else {
        Some(0)
    }
}

pub fn not(x: i128) -> i128
    ensures { result ≡ lognot x }
{
    !x
}

#[tactic(auto, using(model_prims::proofs::Bits::and_is))]
pub fn and(x: i128, y: i128) -> i128
    ensures { result ≡ logand x y }
{
    x & y
}

#[tactic(auto, using(model_prims::proofs::Bits::or_is))]
pub fn or(x: i128, y: i128) -> i128
    ensures { result ≡ logior x y }
{
    x | y
}

#[tactic(auto, using(model_prims::proofs::Bits::xor_is))]
pub fn xor(x: i128, y: i128) -> i128
    ensures { result ≡ logxor x y }
{
    x ^ y
}
