//! A constant before its form is evaluated, and why it does not come into a world.

use acl_base::{SymId, Word};
use acl_terms::Stop;

/// A constant whose name may be given, and the form of its value.
#[derive(Clone, Copy, Debug)]
pub struct ConstantDraft {
    pub name: SymId,
    pub form: Word,
}

/// Why a constant does not come into a world.
#[derive(Debug, Drop)]
pub enum EntryFault {
    /// The evaluation of its form stopped.
    Stopped(Stop),
    /// Memory was refused.
    Memory,
}
