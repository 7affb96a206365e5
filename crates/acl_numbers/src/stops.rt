//! Why a call of a primitive stops.

ghost use Rattle.std.specs.Prelude.{◌≡◌};
ghost use Rattle.acl_numbers.specs.Answers.{answer_of};

use acl_base::Word;
use acl_heap::HeapFault;
use std::alloc::AllocError;

/// Why a call of a primitive stops.
#[derive(Clone, Copy, Debug, PartialEq, Eq)]
pub enum PrimStop {
    /// The guard does not hold.
    Guard,
    /// The result has more than 128 bits.
    Range,
    /// The result is heavier than a value may be.
    TooLarge,
    /// There is no room for one more symbol.
    SymbolLimit,
    /// Memory was refused.
    Memory,
}

impl From<AllocError> for PrimStop {
    ghost use Rattle.acl_numbers.specs.declared.stops.PrimStop.TheVariants.{Memory};

    ghost from_gives = { λ _ e. e ≡ Memory };

    fn from(_: AllocError) -> Self {
        PrimStop::Memory
    }
}

/// The answer, where a heap was to hold the value.
pub fn answer(made: Result<Word, HeapFault>) -> Result<Word, PrimStop>
    ensures { result ≡ answer_of made }
{
    match made {
        Ok(word) => Ok(word),
        Err(HeapFault::TooLarge { weight: _ }) => Err(PrimStop::TooLarge),
        Err(HeapFault::Memory) => Err(PrimStop::Memory),
    }
}
