//! The text of forms: what stands first in some bytes, the faults of a text, and the printed form. Definitions, and the
//! names of the faults.
#![tactic(auto)]

use std::alloc::{AllocError, AllocFailed};

/// Why a text cannot be read on.
#[derive(Clone, Copy, Debug, PartialEq, Eq)]
pub enum TextCause {
    StrayClose,
    BadDot,
    CommaOutside,
    BadToken,
    BadByte,
    IntegerTooWide,
    TooDeep,
    UnknownPackage,
    TooManySymbols,
    FormTooLong,
    TooLarge,
    Unfinished,
    InputTooLong,
    Memory,
}

/// A cause, and the offset of the byte that it is charged to, counted from the first byte of the input.
#[derive(Clone, Copy, Debug, PartialEq, Eq)]
pub struct TextFault {
    pub cause: TextCause,
    pub offset: u64,
}

const NO_MEMORY: TextFault = TextFault {
    cause: TextCause::Memory,
    offset: 0,
};

impl From<AllocError> for TextFault {
    ghost use Rattle.std.specs.Prelude.{◌≡◌};
    ghost use Rattle.model_text.specs.declared.TextCause.TheVariants.{Memory};

    ghost from_gives = { λ _ e. (e.cause ≡ Memory) × (e.offset ≡ 0) };

    fn from(_: AllocError) -> Self {
        NO_MEMORY
    }
}

impl<T: Drop> From<AllocFailed<T>> for TextFault {
    ghost use Rattle.std.specs.Prelude.{◌≡◌};
    ghost use Rattle.model_text.specs.declared.TextCause.TheVariants.{Memory};

    ghost from_gives = { λ _ e. (e.cause ≡ Memory) × (e.offset ≡ 0) };

    fn from(_: AllocFailed<T>) -> Self {
        NO_MEMORY
    }
}
