//! Functions that were expanded.

ghost use Rattle.std.specs.Prelude.{◌≡◌, ◌∷◌, ◌++◌, [], OnOk};

use acl_check::Member;
use std::alloc::{AllocError, Global};

/// Functions that are to be admitted together, in the order of their drafts, and of each whether it runs.
#[derive(Drop)]
pub struct Candidates {
    pub members: Vec<Member>,
    pub executable: Vec<bool>,
}

/// No functions. It takes no memory.
pub fn none(alloc: Global) -> Candidates
    ensures members { result.members.items ≡ [] }
    ensures executable { result.executable.items ≡ [] }
{
    Candidates {
        members: Vec::new(alloc),
        executable: Vec::new(alloc),
    }
}

/// One more function behind the others.
pub fn add(candidates: &mut Candidates, member: Member, executable: bool) -> Result<(), AllocError>
    ensures members { OnOk result (candidates.new.members.items ≡ candidates.old.members.items ++ member ∷ []) }
    ensures executable { OnOk result (candidates.new.executable.items ≡ candidates.old.executable.items ++ executable ∷ []) }
{
    candidates.members.push(member)?;
    candidates.executable.push(executable)?;
    Ok(())
}
