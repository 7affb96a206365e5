//! Terms.

use acl_base::{FnId, SymId, TermId, Word};
use sqlite_items::Items;

/// A variable, by its slot, or a constant. A name without a variable is the constant NIL.
#[derive(Clone, Copy, Debug)]
pub enum Operand {
    Slot(u64),
    Const(Word),
}

/// A child that a `STOBJ-LET` binds.
#[derive(Clone, Copy, Debug)]
pub struct Child {
    pub name: SymId,
    pub accessor: FnId,
    /// Its place in an array of children.
    pub index: Option<Operand>,
    /// The variable of the parent.
    pub parent: Operand,
    /// Whether the producer gives it back.
    pub returns: bool,
}

/// The parts of a term: terms that stand one after another. Each is a variable, a constant or a `Part`.
#[derive(Clone, Copy, Debug)]
pub struct Parts {
    pub first: TermId,
    pub count: u64,
}

/// A term. Its parts stand before it in the table. Its own values begin at the slot `at`: part number k has its value in
/// that slot and k more, and so have the names that it binds.
#[derive(Debug, Drop)]
pub enum Term {
    /// The variable in this slot.
    Slot(u64),
    Const(Word),
    /// A part that stands elsewhere.
    Part(TermId),
    If {
        at: u64,
        test: TermId,
        then: TermId,
        other: TermId,
    },
    Let {
        at: u64,
        bound: Parts,
        body: TermId,
    },
    Mv {
        at: u64,
        parts: Parts,
    },
    MvLet {
        at: u64,
        bound: TermId,
        body: TermId,
    },
    StobjLet {
        at: u64,
        children: Items<Child>,
        producer: TermId,
        consumer: TermId,
    },
    WithLocal {
        at: u64,
        stobj: SymId,
        producer: TermId,
        body: TermId,
    },
    /// The logic's part.
    MustBeEqual(TermId),
    Call {
        at: u64,
        function: FnId,
        actuals: Parts,
    },
}
