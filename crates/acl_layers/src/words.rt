//! The numbers of the symbols that core forms and built-in macros are told by, and the words of a few of them.

use acl_base::{SymId, Word};

/// `T`.
pub const TRUE_WORD: Word = Word::Sym(SymId(0));

/// `NIL`.
pub const NIL_WORD: Word = Word::Sym(SymId(1));

/// The variable that takes the value of a form for another.
pub const HIDDEN_VARIABLE: SymId = SymId(195);

pub const T: u32 = 0;

pub const NIL: u32 = 1;

pub const QUOTE: u32 = 2;

pub const IF: u32 = 3;

pub const LET: u32 = 4;

pub const LET_STAR: u32 = 5;

pub const CAR: u32 = 6;

pub const CDR: u32 = 7;

pub const CONS: u32 = 8;

pub const ATOM: u32 = 10;

pub const NULL: u32 = 12;

pub const NOT: u32 = 13;

pub const EQL: u32 = 15;

pub const SYMBOLP: u32 = 17;

pub const STRINGP: u32 = 18;

pub const INTEGERP: u32 = 19;

pub const BELOW: u32 = 20;

pub const AT_MOST: u32 = 23;

pub const ABOVE: u32 = 24;

pub const AT_LEAST: u32 = 25;

pub const PLUS: u32 = 26;

pub const TIMES: u32 = 27;

pub const MINUS: u32 = 28;

pub const ADD_ONE: u32 = 29;

pub const SUBTRACT_ONE: u32 = 30;

pub const LOGAND: u32 = 41;

pub const LOGIOR: u32 = 42;

pub const LOGXOR: u32 = 43;

pub const LIST: u32 = 49;

pub const LIST_STAR: u32 = 50;

pub const APPEND: u32 = 51;

pub const MEMBER: u32 = 52;

pub const ASSOC: u32 = 53;

pub const AND: u32 = 54;

pub const OR: u32 = 55;

pub const COND: u32 = 56;

pub const CASE: u32 = 57;

pub const OTHERWISE: u32 = 58;

pub const THE: u32 = 59;

pub const FIRST: u32 = 60;

pub const SECOND: u32 = 61;

pub const THIRD: u32 = 62;

pub const FOURTH: u32 = 63;

pub const FIFTH: u32 = 64;

pub const REST: u32 = 65;

pub const CAAR: u32 = 66;

pub const CDDDDR: u32 = 93;

pub const DECLARE: u32 = 94;

pub const INTEGER: u32 = 106;

pub const SIGNED_BYTE: u32 = 107;

pub const UNSIGNED_BYTE: u32 = 108;

pub const BIT: u32 = 109;

pub const SYMBOL: u32 = 110;

pub const STRING: u32 = 111;

pub const BOOLEAN: u32 = 112;

pub const MV: u32 = 119;

pub const MV_LET: u32 = 120;

pub const STOBJ_LET: u32 = 121;

pub const WITH_LOCAL_STOBJ: u32 = 122;

pub const MUST_BE_EQUAL: u32 = 123;

pub const MBE: u32 = 124;

pub const MBT: u32 = 125;

pub const PROG2: u32 = 126;

pub const THE_CHECK: u32 = 127;

pub const BINARY_PLUS: u32 = 128;

pub const BINARY_TIMES: u32 = 129;

pub const UNARY_MINUS: u32 = 130;

pub const BINARY_LOGAND: u32 = 131;

pub const BINARY_LOGIOR: u32 = 132;

pub const BINARY_LOGXOR: u32 = 133;

pub const BOOLEANP: u32 = 140;

pub const BINARY_APPEND: u32 = 144;

pub const MEMBER_EQUAL: u32 = 146;

pub const MEMBER_EQ: u32 = 147;

pub const ASSOC_EQUAL: u32 = 148;

pub const ASSOC_EQ: u32 = 149;

pub const UNION_EQUAL: u32 = 150;

pub const UNION_EQ: u32 = 151;
