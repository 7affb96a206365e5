//! The numbers of `T` and `NIL`, and of the predicates that types are tested with.

pub const T: u32 = 0;

pub const NIL: u32 = 1;

pub const CONSP: u32 = 9;

pub const ATOM: u32 = 10;

pub const NULL: u32 = 12;

pub const NOT: u32 = 13;

pub const SYMBOLP: u32 = 17;

pub const STRINGP: u32 = 18;

pub const INTEGERP: u32 = 19;

pub const BOOLEANP: u32 = 140;
