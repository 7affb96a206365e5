//! The lexemes of a form, and the parts that they leave open.
#![tactic(auto)]

mod frames;
mod putting;

use acl_base::SymId;
pub use frames::{full_dot, in_backquote};
pub use model_text::{TextCause, TextFault};
pub use putting::add;

/// What bytes are made of, besides blanks and comments: an integer, a symbol or a string, or a mark.
#[derive(Debug, Drop)]
pub enum Lexeme {
    Number(i128),
    Name(SymId),
    Text(Vec<u8>),
    Open,
    Close,
    Dot,
    Quote,
    Backquote,
    Comma,
    CommaAt,
}

/// A lexeme, and the offset of its first byte.
#[derive(Debug, Drop)]
pub struct Placed {
    pub lexeme: Lexeme,
    pub at: u64,
}

/// A part that is open: what waits for its form, or a list by what it has so far.
#[derive(Clone, Copy, Debug)]
pub enum Frame {
    Quoted,
    Backquoted,
    Unquoted,
    Splicing,
    /// A list with nothing in it.
    Empty,
    /// A list with a form in it.
    Holding,
    /// A list with a dot at this offset.
    Dotted(u64),
    /// A list with a dot at this offset, and a form behind it.
    Ended(u64),
}

/// Whether the form at hand goes on, or has ended.
#[derive(Clone, Copy, Debug, PartialEq, Eq)]
pub enum Progress {
    Going,
    Ended,
}
