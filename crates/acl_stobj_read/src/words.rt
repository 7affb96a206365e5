//! The numbers of the symbols that definitions of stobjs are told by, and the words of two of them.

use acl_base::{SymId, Word};

/// `T`.
pub const TRUE_WORD: Word = Word::Sym(SymId(0));

/// `NIL`.
pub const NIL_WORD: Word = Word::Sym(SymId(1));

pub const EQ: u32 = 14;

pub const EQL: u32 = 15;

pub const EQUAL: u32 = 16;

pub const ARRAY: u32 = 113;

pub const HASH_TABLE: u32 = 114;
