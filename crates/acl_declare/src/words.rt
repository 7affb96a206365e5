//! The numbers of the symbols that declarations are told by.

pub const T: u32 = 0;

pub const NIL: u32 = 1;

pub const NOT: u32 = 13;

pub const AND: u32 = 54;

pub const OR: u32 = 55;

pub const DECLARE: u32 = 94;

pub const TYPE: u32 = 95;

pub const IGNORE: u32 = 96;

pub const IGNORABLE: u32 = 97;

pub const OPTIMIZE: u32 = 98;

pub const SATISFIES: u32 = 105;

pub const XARGS: u32 = 157;

pub const DEFUN: u32 = 99;

pub const DEFMACRO: u32 = 100;

pub const IN_PACKAGE: u32 = 101;

pub const PROGN: u32 = 102;

pub const DEFCONST: u32 = 158;

pub const DEFPKG: u32 = 159;

pub const DEFUND: u32 = 160;

pub const DEFUN_NX: u32 = 161;

pub const MUTUAL_RECURSION: u32 = 162;

pub const DEFSTOBJ: u32 = 163;

pub const DEFABSSTOBJ: u32 = 164;

/// The first of the heads that are skipped, which stand one after another, and the last.
pub const DEFTHM: u32 = 167;

pub const LAST_SKIPPED: u32 = 185;

/// The first of the heads that are not supported, and the last.
pub const INCLUDE_BOOK: u32 = 186;

pub const CW: u32 = 194;
