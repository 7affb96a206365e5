//! Why the definition of a stobj is refused.

ghost use Rattle.std.specs.Prelude.{◌≡◌};

use acl_base::{SymId, Word};
use std::alloc::{AllocError, AllocFailed};

/// Why the definition of a stobj is refused.
#[derive(Clone, Copy, Debug)]
pub enum StobjFault {
    BadShape,
    BadName(Word),
    /// The type of this field is not accepted.
    BadType(SymId),
    /// The initial value of this field does not meet its type.
    BadInitial(SymId),
    SymbolLimit,
    NameInUse(SymId),
    /// The place of the first field that differs from that of the stobj that this is to be congruent to.
    CongruenceMismatch(usize),
    /// Memory was refused.
    Memory,
}

impl From<AllocError> for StobjFault {
    ghost use Rattle.acl_stobj_written.specs.declared.fault.StobjFault.TheVariants.{Memory};

    ghost from_gives = { λ _ e. e ≡ Memory };

    fn from(_: AllocError) -> Self {
        StobjFault::Memory
    }
}

impl<T: Drop> From<AllocFailed<T>> for StobjFault {
    ghost use Rattle.acl_stobj_written.specs.declared.fault.StobjFault.TheVariants.{Memory};

    ghost from_gives = { λ _ e. e ≡ Memory };

    fn from(_: AllocFailed<T>) -> Self {
        StobjFault::Memory
    }
}
