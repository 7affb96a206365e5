//! The numbers of the symbols that definitions of macros are told by.

pub const NIL: u32 = 1;

pub const QUOTE: u32 = 2;

/// `&OPTIONAL`.
pub const OPTIONAL: u32 = 115;

/// `&REST`.
pub const REST: u32 = 116;

/// `&BODY`.
pub const BODY: u32 = 117;

/// `&KEY`.
pub const KEY: u32 = 118;
