//! Writes objects as bytes.

ghost use Rattle.std.specs.Prelude.{◌≡◌, ◌<◌, ◌++◌, ◌∷◌, ◌^◌, [], length, true, OnOk, pos, negsuc, ◌<ℤ◌, ◌≤ℤ◌};
ghost use Rattle.model_objects.specs.Object.{fits_128};
ghost use Rattle.acl_heap.specs.Objects.{object_of, Lies};
ghost use Rattle.acl_hash.specs.Bytes.{kind_byte, narrow_bytes, wide_bytes, number_bytes, integer_bytes, low_bytes};
ghost use Rattle.acl_hash.specs.Making.{Writes};

use acl_base::{SymId, Word};
use acl_heap::{Heap, Seen};
use std::alloc::AllocError;

/// What the first byte of an object tells.
#[derive(Clone, Copy)]
pub(crate) enum Kind {
    /// An integer from 0 on, of 64 bits.
    Natural,
    /// An integer below 0, by 64 bits.
    Negative,
    /// An integer from 0 on, of more bits.
    WideNatural,
    /// An integer below 0, by more bits.
    WideNegative,
    /// A symbol, by its number.
    Named,
    /// A string, by its length and its bytes.
    Spelt,
    /// A pair, by its car and its cdr.
    Parted,
}

impl Kind {
    fn byte(self) -> u8
        ensures { result ≡ kind_byte self }
    {
        match self {
            Kind::Natural => 0,
            Kind::Negative => 1,
            Kind::WideNatural => 2,
            Kind::WideNegative => 3,
            Kind::Named => 4,
            Kind::Spelt => 5,
            Kind::Parted => 6,
        }
    }
}

#[tactic(auto, unfolding(crate::specs::Bytes::low_bytes))]
fn put_low(out: &mut Vec<u8>, n: u64) -> Result<(), AllocError>
    ensures { OnOk result (out.new.items ≡ out.old.items ++ low_bytes n) }
{
    out.extend_from_slice(&n.to_le_bytes())?;
    Ok(())
}

fn put_narrow(out: &mut Vec<u8>, kind: Kind, n: u64) -> Result<(), AllocError>
    ensures { OnOk result (out.new.items ≡ out.old.items ++ narrow_bytes kind n) }
{
    out.push(kind.byte())?;
    put_low(out, n)?;
    Ok(())
}

fn put_wide(out: &mut Vec<u8>, kind: Kind, n: u128) -> Result<(), AllocError>
    ensures { OnOk result (out.new.items ≡ out.old.items ++ wide_bytes kind n) }
{
    let lower = (n % (1 << 64)) as u64;
    let upper = (n / (1 << 64)) as u64;
    out.push(kind.byte())?;
    put_low(out, lower)?;
    put_low(out, upper)?;
    Ok(())
}

fn put_number(out: &mut Vec<u8>, narrow: Kind, wide: Kind, n: u128) -> Result<(), AllocError>
    ensures { OnOk result (out.new.items ≡ out.old.items ++ number_bytes narrow wide n) }
{
    match u64::try_from(n) {
        Ok(small) => put_narrow(out, narrow, small),
        Err(_) => put_wide(out, wide, n),
    }
}

/// How far below 0 the integer lies, less 1.
fn size_below(n: i128) -> u128
    requires { n <ℤ pos 0 }
    ensures { n ≡ negsuc result }
{
    (-(n + 1)) as u128
}

fn size_above(n: i128) -> u128
    requires { pos 0 ≤ℤ n }
    ensures { n ≡ pos result }
{
    n as u128
}

#[tactic(auto, using(crate::proofs::MakeLemmas::natural_bytes, crate::proofs::MakeLemmas::negative_bytes))]
fn put_integer(out: &mut Vec<u8>, n: i128) -> Result<(), AllocError>
    ensures ok { OnOk result (out.new.items ≡ out.old.items ++ integer_bytes n) }
    ensures fits { fits_128 n ≡ true }
{
    if n < 0 {
        let size = size_below(n);
        put_number(out, Kind::Negative, Kind::WideNegative, size)?;
    } else {
        let size = size_above(n);
        put_number(out, Kind::Natural, Kind::WideNatural, size)?;
    }
    Ok(())
}

fn put_symbol(out: &mut Vec<u8>, s: SymId) -> Result<(), AllocError>
    ensures ok { OnOk result (out.new.items ≡ out.old.items ++ narrow_bytes Kind.Named s.0) }
    ensures fits { s.0 < 2 ^ 64 }
{
    put_narrow(out, Kind::Named, s.0 as u64)
}

fn put_text(out: &mut Vec<u8>, bytes: &[u8]) -> Result<(), AllocError>
    ensures ok { OnOk result (out.new.items ≡ out.old.items ++ (narrow_bytes Kind.Spelt (length bytes.now) ++ bytes.now)) }
    ensures fits { length bytes.now < 2 ^ 64 }
{
    put_narrow(out, Kind::Spelt, bytes.len() as u64)?;
    out.extend_from_slice(bytes)?;
    Ok(())
}

/// A pair's first byte; its parts are left.
fn put_pair(out: &mut Vec<u8>, left: &mut Vec<Word>, a: Word, d: Word) -> Result<(), AllocError>
    ensures out { OnOk result (out.new.items ≡ out.old.items ++ (kind_byte Kind.Parted ∷ [])) }
    ensures left { OnOk result (left.new.items ≡ (left.old.items ++ d ∷ []) ++ a ∷ []) }
{
    out.push(Kind::Parted.byte())?;
    left.push(d)?;
    left.push(a)?;
    Ok(())
}

/// Writes the object of the word, or a pair's first byte, with its parts left to write.
pub(crate) fn put_item(
    heap: &Heap,
    out: &mut Vec<u8>,
    left: &mut Vec<Word>,
    w: Word,
) -> Result<(), AllocError>
    requires { Lies heap.now w }
    ensures { OnOk result (Writes heap.now (object_of heap.now w) out.old.items out.new.items left.old.items left.new.items) }
{
    match heap.look(w) {
        Seen::Integer(n) => put_integer(out, n),
        Seen::Symbol(s) => put_symbol(out, s),
        Seen::Text(bytes) => put_text(out, bytes),
        Seen::Pair(a, d) => {
            put_pair(out, left, a, d)?;
            Ok(())
        }
    }
}
