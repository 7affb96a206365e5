//! The numbers of the symbols that types and their tests are written with.

pub const T: u32 = 0;

pub const NIL: u32 = 1;

pub const CONS: u32 = 8;

pub const CONSP: u32 = 9;

pub const ATOM: u32 = 10;

pub const NULL: u32 = 12;

pub const NOT: u32 = 13;

pub const SYMBOLP: u32 = 17;

pub const STRINGP: u32 = 18;

pub const INTEGERP: u32 = 19;

pub const BELOW: u32 = 20;

/// `*`, an end that is left open.
pub const STAR: u32 = 27;

pub const MEMBER: u32 = 52;

pub const AND: u32 = 54;

pub const OR: u32 = 55;

pub const INTEGER: u32 = 106;

pub const SIGNED_BYTE: u32 = 107;

pub const UNSIGNED_BYTE: u32 = 108;

pub const BIT: u32 = 109;

pub const SYMBOL: u32 = 110;

pub const STRING: u32 = 111;

pub const BOOLEAN: u32 = 112;

pub const BOOLEANP: u32 = 140;

pub const MEMBER_EQUAL: u32 = 146;
