//! The types that every crate shares: numbers of things, words, limits, statuses and layouts of objects.
#![tactic(auto)]

ghost use Rattle.std.specs.Prelude.{◌≡◌, ◌≤◌, ◌↔◌, IsSome, IfSome};
ghost use Rattle.acl_base.specs.Limits.{AreLimits};

mod layout;
mod status;

pub use layout::{Field, Kind, Layout, Test};
pub use status::Status;

/// The number of a symbol.
#[derive(Clone, Copy, Debug, PartialEq, Eq, PartialOrd, Ord, Hash)]
pub struct SymId(pub u32);

/// The number of a package.
#[derive(Clone, Copy, Debug, PartialEq, Eq, PartialOrd, Ord, Hash)]
pub struct PkgId(pub u64);

/// The number of a definition in a world.
#[derive(Clone, Copy, Debug, PartialEq, Eq, PartialOrd, Ord, Hash)]
pub struct FnId(pub u64);

/// The number of a term in a world.
#[derive(Clone, Copy, Debug, PartialEq, Eq, PartialOrd, Ord, Hash)]
pub struct TermId(pub u64);

/// The number of a live object in a store.
#[derive(Clone, Copy, Debug, PartialEq, Eq, PartialOrd, Ord, Hash)]
pub struct NodeId(pub u64);

/// The number of a layout in a world.
#[derive(Clone, Copy, Debug, PartialEq, Eq, PartialOrd, Ord, Hash)]
pub struct LayoutId(pub u64);

/// An object: a small one by value, or a place in a heap.
#[derive(Clone, Copy, Debug, PartialEq, Eq)]
pub enum Word {
    /// An integer of 64 bits.
    Small(i64),
    /// An integer that needs more than 64 bits.
    Big(u64),
    Sym(SymId),
    /// A string of bytes.
    Str(u64),
    Cons(u64),
}

/// The most steps that a command may be given.
pub const MOST_STEPS: u64 = 10_000_000;

/// The most terms that a command may be allowed to have open.
pub const MOST_DEPTH: u32 = 200_000;

/// How many calls a command may make, and how many terms it may have open.
#[derive(Clone, Copy, Debug, PartialEq, Eq)]
pub struct Limits {
    /// Calls and macro expansions of one command.
    pub steps: u64,
    /// Terms that are open at once.
    pub depth: u32,
}

impl Limits {
    /// These limits, where each is at least 1 and at most what the product allows.
    pub fn checked(steps: u64, depth: u32) -> Option<Limits>
        ensures allowed { IsSome result ↔ AreLimits steps depth }
        ensures steps { IfSome result (λ limits. limits.steps ≡ steps) }
        ensures depth { IfSome result (λ limits. limits.depth ≡ depth) }
    {
        if steps >= 1 && steps <= MOST_STEPS && depth >= 1 && depth <= MOST_DEPTH {
            Some(Limits { steps, depth })
        } else {
            None
        }
    }
}
