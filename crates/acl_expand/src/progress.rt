//! What is threaded through an expansion, and how it is refused.

ghost use Rattle.std.specs.Prelude.{◌≡◌, None};

use acl_base::SymId;
use acl_terms::ExpandFault;
use std::alloc::AllocError;

/// Where a stop came from.
#[derive(Clone, Copy, Debug)]
pub struct Origin {
    /// The outermost export that it came inside.
    pub inside: Option<SymId>,
    /// The outer call that it came at or inside, from 1 on.
    pub cut: u64,
}

/// What is counted in the course of a command.
#[derive(Clone, Copy, Debug)]
pub struct Progress {
    /// The calls counted so far.
    pub calls: u64,
    /// Those of them that no export made.
    pub outer: u64,
    /// Of the last evaluation that was made.
    pub last: Option<Origin>,
    /// Of the evaluation of the command's own form; 1 where none was made.
    pub cut: u64,
}

/// Why there is no core form, and the export that a stop was inside.
#[derive(Debug, Drop)]
pub struct Refused {
    pub fault: ExpandFault,
    pub inside: Option<SymId>,
}

/// A fault that is no stop of an evaluation.
pub fn no_stop(fault: ExpandFault) -> Refused
    ensures { result ≡ record { fault = fault; inside = None } }
{
    Refused {
        fault,
        inside: None,
    }
}

impl From<AllocError> for Refused {
    ghost use Rattle.acl_expand.specs.Refusals.{is_memory};

    ghost from_gives = { λ _ e. is_memory e };

    fn from(_: AllocError) -> Self {
        no_stop(ExpandFault::Memory)
    }
}
