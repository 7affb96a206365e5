//! Cells of 32 bytes, and the parts in them.
ghost use Rattle.std.specs.Prelude.{◌≡◌, ◌<◌, ◌↔◌, IsTrue};
ghost use Rattle.acl_pool.specs.Trees.{IsFitting, part_of, word_of};

use acl_base::{SymId, Word};

/// What a part of a cell is.
#[derive(Clone, Copy, PartialEq, Eq)]
pub enum Kind {
    /// An integer of 64 bits.
    Small,
    Sym,
    /// Eight bytes of a string, its length, or half of a wide integer.
    Bits,
    /// The place of a wide integer.
    Big,
    /// The place of a string, or of the rest of one.
    Str,
    /// The place of a pair.
    Cons,
    /// The place of a pair in a heap that is still to be copied.
    Heap,
}

/// A part of a cell.
#[derive(Clone, Copy)]
pub struct Part {
    pub kind: Kind,
    pub bits: u64,
}

/// What the root of a cell is, if one stands there.
#[derive(Clone, Copy)]
pub enum Role {
    /// No root: the cell lies in a tree, or is not in use.
    Inside,
    Wide,
    Text,
    Pair,
}

/// A cell: two parts, and a number. For a root it is the number of its cells; for a tree that was given back, the place
/// of the next; for a pair to be copied, the place of the next.
#[derive(Clone, Copy)]
pub struct Cell {
    pub left: u64,
    pub right: u64,
    pub link: u64,
    pub left_kind: Kind,
    pub right_kind: Kind,
    pub role: Role,
}

impl Part {
    pub fn bits(bits: u64) -> Part
        ensures { result ≡ record { kind = Kind.Bits; bits = bits } }
    {
        Part {
            kind: Kind::Bits,
            bits,
        }
    }

    /// The part for a word of a pool.
    pub fn of(w: Word) -> Part
        ensures part { result ≡ part_of w }
        ensures back { word_of result ≡ w }
        ensures fits { IsFitting w }
    {
        match w {
            Word::Small(n) => Part {
                kind: Kind::Small,
                bits: n.cast_unsigned(),
            },
            Word::Big(bits) => Part {
                kind: Kind::Big,
                bits,
            },
            Word::Sym(s) => Part {
                kind: Kind::Sym,
                bits: s.0 as u64,
            },
            Word::Str(bits) => Part {
                kind: Kind::Str,
                bits,
            },
            Word::Cons(bits) => Part {
                kind: Kind::Cons,
                bits,
            },
        }
    }

    pub fn is_pair(self) -> bool
        ensures { IsTrue result ↔ (self.kind ≡ Kind.Cons) }
    {
        match self.kind {
            Kind::Small => false,
            Kind::Sym => false,
            Kind::Bits => false,
            Kind::Big => false,
            Kind::Str => false,
            Kind::Cons => true,
            Kind::Heap => false,
        }
    }

    /// The word for a part. The number of a symbol is below 2^32.
    pub fn word(self) -> Word
        ensures { result ≡ word_of self }
    {
        match self.kind {
            Kind::Small => Word::Small(self.bits.cast_signed()),
            Kind::Bits => Word::Small(self.bits.cast_signed()),
            Kind::Big => Word::Big(self.bits),
            Kind::Sym => symbol(self.bits),
            Kind::Str => Word::Str(self.bits),
            Kind::Cons => Word::Cons(self.bits),
            Kind::Heap => Word::Cons(self.bits),
        }
    }
}

fn symbol(bits: u64) -> Word
    ensures { result ≡ word_of (record { kind = Kind.Sym; bits = bits }) }
{
    match u32::try_from(bits) {
        Ok(s) => Word::Sym(SymId(s)),
        Err(_) => Word::Sym(SymId(0)),
    }
}

impl Cell {
    /// A cell of two parts, where no root stands.
    pub fn of(left: Part, right: Part, link: u64) -> Cell
        ensures { result ≡ record { left = left.bits; right = right.bits; link = link; left_kind = left.kind; right_kind = right.kind; role = Role.Inside } }
    {
        Cell {
            left: left.bits,
            right: right.bits,
            link,
            left_kind: left.kind,
            right_kind: right.kind,
            role: Role::Inside,
        }
    }

    /// A cell of two zeros.
    pub fn blank() -> Cell
        ensures { result ≡ record { left = 0; right = 0; link = 0; left_kind = Kind.Small; right_kind = Kind.Small; role = Role.Inside } }
    {
        Cell {
            left: 0,
            right: 0,
            link: 0,
            left_kind: Kind::Small,
            right_kind: Kind::Small,
            role: Role::Inside,
        }
    }

    pub fn left(self) -> Part
        ensures { result ≡ record { kind = self.left_kind; bits = self.left } }
    {
        Part {
            kind: self.left_kind,
            bits: self.left,
        }
    }

    pub fn right(self) -> Part
        ensures { result ≡ record { kind = self.right_kind; bits = self.right } }
    {
        Part {
            kind: self.right_kind,
            bits: self.right,
        }
    }
}
