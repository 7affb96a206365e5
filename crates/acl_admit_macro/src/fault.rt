//! Why the definition of a macro is refused.

ghost use Rattle.std.specs.Prelude.{◌≡◌};
ghost use Rattle.acl_admit_macro.specs.Faults.{of_draft, is_memory, of_refused, of_thread};

use acl_base::{SymId, Word};
use acl_drafts::DraftFault;
use acl_expand::Refused;
use acl_terms::{ExpandFault, Place, Rule, ThreadFault};

/// The first refusal: of what is written, then of the expansion of the body, then of the rules.
#[derive(Debug, Drop)]
pub enum MacroFault {
    BadShape,
    BadName(Word),
    NameInUse(SymId),
    DuplicateFormal(SymId),
    /// A declaration of this macro.
    BadDeclare(SymId),
    /// The body has no core form.
    Expand(Refused),
    /// The first place at which a rule fails, and the smallest rule that fails there. The place begins with 0 for the formals, or
    /// with 0, 1 for the body.
    Rule { rule: Rule, place: Place },
    /// Memory was refused.
    Memory,
}

/// The refusal of what is written.
pub(crate) fn of_draft(fault: DraftFault) -> MacroFault
    ensures { result ≡ of_draft fault }
{
    match fault {
        DraftFault::BadShape => MacroFault::BadShape,
        DraftFault::BadName(name) => MacroFault::BadName(name),
        DraftFault::NameInUse(name) => MacroFault::NameInUse(name),
        DraftFault::DuplicateFormal(formal) => MacroFault::DuplicateFormal(formal),
        DraftFault::BadDeclare(name) => MacroFault::BadDeclare(name),
        DraftFault::Memory => MacroFault::Memory,
    }
}

fn is_memory(fault: &ExpandFault) -> bool
    ensures { result ≡ is_memory fault.now }
{
    match fault {
        ExpandFault::MacroArgs { .. } => false,
        ExpandFault::BadShape { .. } => false,
        ExpandFault::MacroStopped(_) => false,
        ExpandFault::UnknownFunction { .. } => false,
        ExpandFault::Arity { .. } => false,
        ExpandFault::TooNested => false,
        ExpandFault::Memory => true,
    }
}

/// The refusal of an expansion.
pub(crate) fn of_refused(refused: Refused) -> MacroFault
    ensures { result ≡ of_refused refused }
{
    if is_memory(&refused.fault) {
        MacroFault::Memory
    } else {
        MacroFault::Expand(refused)
    }
}

/// The refusal of a rule.
pub(crate) fn of_thread(fault: ThreadFault) -> MacroFault
    ensures { result ≡ of_thread fault }
{
    match fault {
        ThreadFault::Rule { rule, place } => MacroFault::Rule { rule, place },
        ThreadFault::Memory => MacroFault::Memory,
    }
}
