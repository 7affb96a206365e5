//! Reading a whole input.

ghost use Rattle.std.specs.Prelude.{◌≡◌, ◌≤◌, ◌<◌, [], take, length, IfOk, IfErr, IsErrOf};
ghost use Rattle.acl_edge.specs.Outside.{Gives, HasRisen};
ghost use Rattle.acl_session.specs.Runs.{IsInput};

use acl_edge::{Failed, Source};
use std::alloc::{AllocError, AllocFailed, Global};

/// Why an input was not read.
#[derive(Clone, Copy, Debug, PartialEq, Eq)]
pub enum Unread {
    Fault,
    Memory,
}

impl From<AllocError> for Unread {
    ghost use Rattle.acl_session.specs.declared.reading.Unread.TheVariants.{Memory};

    ghost from_gives = { λ _ e. e ≡ Memory };

    fn from(_: AllocError) -> Self {
        Unread::Memory
    }
}

impl<T: Drop> From<AllocFailed<T>> for Unread {
    ghost use Rattle.acl_session.specs.declared.reading.Unread.TheVariants.{Memory};

    ghost from_gives = { λ _ e. e ≡ Memory };

    fn from(_: AllocFailed<T>) -> Self {
        Unread::Memory
    }
}

impl From<Failed> for Unread {
    ghost use Rattle.acl_session.specs.declared.reading.Unread.TheVariants.{Fault};

    ghost from_gives = { λ _ e. e ≡ Fault };

    fn from(_: Failed) -> Self {
        Unread::Fault
    }
}

/// How many bytes are asked for at once.
const PIECE: usize = 65_536;

/// The most bytes of a book.
pub const MOST_BYTES: usize = 1_048_576;

/// All bytes of the source, or more of them than a book may have.
pub fn read_input<S: Source>(alloc: Global, source: &mut S) -> Result<Vec<u8>, Unread>
    ensures input { IfOk result (λ bytes. IsInput (S.left source.old) bytes.items) }
    ensures fault { IsErrOf result Unread.Fault → HasRisen (S.faults source.old) (S.faults source.new) }
    ensures quiet { IfOk result (λ _. S.faults source.new ≡ S.faults source.old) }
    ensures counts { S.faults source.old ≤ S.faults source.new }
{
    let mut piece = vec![in alloc; 0u8; PIECE]?;
    let mut input = Vec::new(alloc);
    while input.len() <= MOST_BYTES {
        let count = source.read(piece.as_mut_slice())?;
        if count == 0 {
            break;
        }
        input.extend_from_slice(&piece[..count])?;
    }
    Ok(input)
}
