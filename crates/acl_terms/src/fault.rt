//! Why forms and events are refused.

ghost use Rattle.std.specs.Prelude.{◌≡◌};

use crate::outcome::Stop;
use acl_base::{SymId, Word};
use model_terms::Rule;
use sqlite_items::Items;
use std::alloc::{AllocError, AllocFailed};

/// The numbers of children from the root of a form down to a part.
pub type Place = Items<u32>;

/// Why a core form is not accepted.
#[derive(Debug, Drop)]
pub enum ThreadFault {
    /// The first place at which a rule fails, and the smallest rule that fails there.
    Rule { rule: Rule, place: Place },
    /// Memory was refused.
    Memory,
}

/// Why a form is not expanded.
#[derive(Debug, Drop)]
pub enum ExpandFault {
    /// The arguments are not those that the macro takes.
    MacroArgs { head: SymId },
    /// The form has not the shape that its head asks for.
    BadShape { head: SymId },
    /// The macro's body stopped.
    MacroStopped(Stop),
    UnknownFunction { name: SymId },
    /// Another number of arguments.
    Arity { name: SymId },
    /// The core form would be too deep.
    TooNested,
    /// Memory was refused.
    Memory,
}

/// Why an event is refused.
#[derive(Debug, Drop)]
pub enum DefFault {
    NameInUse(SymId),
    BadName(Word),
    DuplicateFormal(SymId),
    BadDeclare(SymId),
    BadType(SymId),
    BadInitial(SymId),
    /// The fields differ from those of the object that this is to be congruent to: the first of them.
    CongruenceMismatch { place: u32 },
    UnknownPackage(Word),
    PackageExists(Word),
    ImportClash { first: SymId, second: SymId },
    SymbolLimit,
    NotSupported { head: SymId },
    Thread(ThreadFault),
    Expand(ExpandFault),
    /// Memory was refused.
    Memory,
}

/// Why an abstract object is refused.
#[derive(Debug, Drop)]
pub enum AbsFault {
    BadShape,
    BadName(Word),
    SymbolLimit,
    NameInUse(SymId),
    FoundationNotConcrete(SymId),
    MissingFunction(SymId),
    SignatureMismatch(SymId),
    GuardNotExecutable { export: SymId, fault: ThreadFault },
    /// The obligation of this function would be too heavy.
    TooLarge { name: SymId },
    /// Memory was refused.
    Memory,
}

impl From<AllocError> for ThreadFault {
    ghost use Rattle.acl_terms.specs.declared.fault.ThreadFault.TheVariants.{Memory};

    ghost from_gives = { λ _ e. e ≡ Memory };

    fn from(_: AllocError) -> Self {
        ThreadFault::Memory
    }
}

impl<T: Drop> From<AllocFailed<T>> for ThreadFault {
    ghost use Rattle.acl_terms.specs.declared.fault.ThreadFault.TheVariants.{Memory};

    ghost from_gives = { λ _ e. e ≡ Memory };

    fn from(_: AllocFailed<T>) -> Self {
        ThreadFault::Memory
    }
}

impl From<AllocError> for ExpandFault {
    ghost use Rattle.acl_terms.specs.declared.fault.ExpandFault.TheVariants.{Memory};

    ghost from_gives = { λ _ e. e ≡ Memory };

    fn from(_: AllocError) -> Self {
        ExpandFault::Memory
    }
}

impl<T: Drop> From<AllocFailed<T>> for ExpandFault {
    ghost use Rattle.acl_terms.specs.declared.fault.ExpandFault.TheVariants.{Memory};

    ghost from_gives = { λ _ e. e ≡ Memory };

    fn from(_: AllocFailed<T>) -> Self {
        ExpandFault::Memory
    }
}

impl From<AllocError> for DefFault {
    ghost use Rattle.acl_terms.specs.declared.fault.DefFault.TheVariants.{Memory};

    ghost from_gives = { λ _ e. e ≡ Memory };

    fn from(_: AllocError) -> Self {
        DefFault::Memory
    }
}

impl<T: Drop> From<AllocFailed<T>> for DefFault {
    ghost use Rattle.acl_terms.specs.declared.fault.DefFault.TheVariants.{Memory};

    ghost from_gives = { λ _ e. e ≡ Memory };

    fn from(_: AllocFailed<T>) -> Self {
        DefFault::Memory
    }
}

impl From<AllocError> for AbsFault {
    ghost use Rattle.acl_terms.specs.declared.fault.AbsFault.TheVariants.{Memory};

    ghost from_gives = { λ _ e. e ≡ Memory };

    fn from(_: AllocError) -> Self {
        AbsFault::Memory
    }
}

impl<T: Drop> From<AllocFailed<T>> for AbsFault {
    ghost use Rattle.acl_terms.specs.declared.fault.AbsFault.TheVariants.{Memory};

    ghost from_gives = { λ _ e. e ≡ Memory };

    fn from(_: AllocFailed<T>) -> Self {
        AbsFault::Memory
    }
}
