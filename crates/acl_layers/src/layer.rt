//! What a row makes: a form that stands at its place, or a node with its parts.

use crate::rows::Row;
use acl_base::{SymId, Word};
use sqlite_items::Items;

/// A core form that is ready, in short.
#[derive(Clone, Copy, Debug)]
pub enum Ready {
    Variable(SymId),
    Constant(Word),
    /// The test of this key of a CASE.
    KeyTest(Word),
    /// The test of this type, over the hidden variable.
    TypeTest(Word),
}

/// Elements of a list, and one more behind them where there is one.
#[derive(Clone, Copy, Debug)]
pub struct Left {
    pub list: Word,
    pub last: Option<Word>,
}

/// What stands at the place of a part.
#[derive(Clone, Copy, Debug)]
pub enum Part {
    /// A form that is still to be expanded.
    Form(Word),
    Ready(Ready),
    /// What is left of a row.
    Rest(Row, Left),
}

/// A node, apart from its parts.
#[derive(Debug, Drop)]
pub enum Kind {
    If,
    Let(Items<SymId>),
    Mv,
    MvLet(Items<SymId>),
    StobjLet {
        children: Items<SymId>,
        vars: Items<SymId>,
    },
    WithLocal {
        stobj: SymId,
        names: Items<SymId>,
    },
    MustBeEqual,
    Call(SymId),
}

/// What stands at a place: a whole core form, or a node.
#[derive(Debug, Drop)]
pub enum Found {
    Leaf(Ready),
    Node(Kind, Items<Part>),
}

/// What a row makes of its place: another form that stands there, or what is found there.
#[derive(Debug, Drop)]
pub enum Made {
    Again(Word),
    Stays(Found),
}
