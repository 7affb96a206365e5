//! What evaluations give.

use acl_base::{SymId, Word};
use sqlite_items::Items;

/// What a form gives, and what a variable or a formal is.
#[derive(Clone, Copy, Debug)]
pub enum Shown {
    /// An ordinary value.
    Value(Word),
    /// An object, by its name.
    Object(SymId),
}

/// Why an evaluation stopped.
#[derive(Debug, Drop)]
pub enum Stop {
    /// A guard was not met: the function and its arguments.
    Guard { function: SymId, args: Items<Shown> },
    /// No call is left.
    Steps,
    /// Too many terms are open.
    Depth,
    /// An integer is out of the range that the function takes.
    Range { function: SymId },
    /// A value would be too heavy.
    Large { function: SymId },
    /// There would be too many symbols.
    Symbols { function: SymId },
    /// Memory was refused.
    Memory,
}
