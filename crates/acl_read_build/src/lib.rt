//! Builds the word of a form from its lexemes.
#![tactic(auto)]

mod building;
mod joining;
mod making;

use acl_base::Word;
pub use building::build;
use std::alloc::{AllocError, AllocFailed};

/// Why a form was not built.
#[derive(Clone, Copy, Debug)]
pub enum Refusal {
    /// It is heavier than a value may be.
    TooLarge,
    /// Memory was refused.
    Memory,
}

impl From<AllocError> for Refusal {
    ghost use Rattle.std.specs.Prelude.{◌≡◌};
    ghost use Rattle.acl_read_build.specs.declared.Refusal.TheVariants.{Memory};

    ghost from_gives = { λ _ e. e ≡ Memory };

    fn from(_: AllocError) -> Self {
        Refusal::Memory
    }
}

impl<T: Drop> From<AllocFailed<T>> for Refusal {
    ghost use Rattle.std.specs.Prelude.{◌≡◌};
    ghost use Rattle.acl_read_build.specs.declared.Refusal.TheVariants.{Memory};

    ghost from_gives = { λ _ e. e ≡ Memory };

    fn from(_: AllocFailed<T>) -> Self {
        Refusal::Memory
    }
}

/// What was read: a form without commas, what has commas, by the form that it expands to, or what is spliced.
#[derive(Clone, Copy)]
enum Item {
    Plain(Word),
    Made(Word),
    Spliced(Word),
}

/// A part that is open, with what it holds.
#[derive(Drop)]
enum Slot {
    Quoted,
    Backquoted,
    Unquoted,
    Splicing,
    Opened(Vec<Item>),
    Dotted(Vec<Item>, u64),
    Ended(Vec<Item>, u64, Item),
}
