//! The numbers of the symbols that definitions of functions are told by.

pub const NIL: u32 = 1;

pub const DEFUN: u32 = 99;

pub const DEFUND: u32 = 160;

pub const DEFUN_NX: u32 = 161;

pub const MUTUAL_RECURSION: u32 = 162;
