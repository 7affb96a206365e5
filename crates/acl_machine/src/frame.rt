//! Frames, what the machine does next, and why it stops.

use acl_base::{FnId, SymId, TermId};
use acl_keep::Loan;

/// What is done once all parts of a form have values.
#[derive(Clone, Copy)]
pub enum Goal {
    Body(TermId),
    Values,
    /// A call of the function.
    Call(FnId),
}

/// An export whose exec function runs.
#[derive(Clone, Copy)]
pub struct Inside {
    pub name: SymId,
    /// How many actuals it has, in the window of the frame.
    pub count: u64,
    /// How many objects are among them: their names lie on the stack of names.
    pub names: u64,
    /// The number of its call among the outer calls.
    pub number: u64,
    /// The outer calls before those of the exec function.
    pub outer: u64,
}

/// What an open form waits for; `at` is the first of the form's own slots.
#[derive(Clone, Copy)]
pub enum Step {
    /// What comes where it holds, and where not.
    Test {
        held: TermId,
        other: TermId,
    },
    /// So many parts have values; the terms of the parts after this one, and how many.
    Parts {
        at: u64,
        count: u64,
        next: TermId,
        left: u64,
        goal: Goal,
    },
    Several {
        at: u64,
        body: TermId,
    },
    /// A call, and how many actuals.
    Calling {
        at: u64,
        function: FnId,
        count: u64,
    },
    /// In the callee's window; the names of so many objects among the actuals lie on the stack of names.
    Guarding {
        inside: Option<Inside>,
        function: FnId,
        names: u64,
    },
    Running {
        inside: Option<Inside>,
        function: FnId,
        names: u64,
    },
    /// An export: its guard, and then its exec function.
    Allowing {
        function: FnId,
        names: u64,
        number: u64,
    },
    Exporting {
        function: FnId,
        names: u64,
        number: u64,
    },
    /// Children of a term, so many of which are bound; their loans lie on the stack of loans.
    Borrowing {
        at: u64,
        term: TermId,
        bound: u64,
    },
    Producing {
        at: u64,
        loans: u64,
        consumer: TermId,
    },
    /// So many of the loans are put back.
    Putting {
        at: u64,
        put: u64,
        loans: u64,
        consumer: TermId,
    },
    Local {
        at: u64,
        body: TermId,
    },
    Last {
        inside: Option<Inside>,
    },
}

/// An open form, and where its window begins.
#[derive(Clone, Copy)]
pub struct Frame {
    pub step: Step,
    pub base: u64,
}

/// Why it stops. The arguments that a guard refused are the values given.
#[derive(Clone, Copy)]
pub enum Halt {
    Guard(SymId),
    Steps,
    Depth,
    Range(SymId),
    Large(SymId),
    Symbols(SymId),
}

/// What the machine does next.
#[derive(Clone, Copy)]
pub enum Control {
    Begin { term: TermId, base: u64 },
    /// The values given go to the innermost form.
    Give,
    Stopped(Halt),
}

/// What a turn did.
#[derive(Clone, Copy)]
pub enum Turn {
    Going,
    Over,
}

/// A child that is lent, and whether the producer gives it back.
#[derive(Clone, Copy)]
pub struct Borrowed {
    pub loan: Loan,
    pub returns: bool,
}
