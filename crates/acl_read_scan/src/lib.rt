//! Reads bytes, one after the other, until a form has been read whole.
#![tactic(auto)]

mod bytes;
mod counting;
mod marks;
mod resolving;
mod scanning;
mod tokens;

pub use acl_read_lexemes::{Frame, Lexeme, Placed, Progress};
pub use model_text::{TextCause, TextFault};
pub use scanning::advance;

/// What the bytes so far end in.
#[derive(Clone, Copy, Debug)]
pub enum Inside {
    /// Between tokens, or in a token outside its bars.
    Free,
    /// Between two bars of a token.
    Bars,
    /// Behind a backslash there.
    BarsEscape,
    String,
    /// Behind a backslash in a string.
    StringEscape,
    /// A comment up to the end of its line.
    Line,
    /// So many block comments.
    Block(u64),
    /// Behind a `#` there.
    BlockHash(u64),
    /// Behind a `|` there.
    BlockBar(u64),
    /// Behind a comma.
    AfterComma,
}

/// What has been read of the form at hand.
#[derive(Drop)]
pub struct Built {
    pub frames: Vec<Frame>,
    pub lexemes: Vec<Placed>,
    pub inside: Inside,
    /// The bytes of the token that has begun, or of the text of the string.
    pub token: Vec<u8>,
    /// The offset of the next byte.
    pub at: u64,
    /// Where the outermost form begins, or the comment that stands in no form.
    pub first: u64,
}

/// How many bytes an input may have.
pub const MOST_INPUT: u64 = 67_108_864;
