//! Whether a core form is as small as the check of forms and the making of terms ask.
#![tactic(auto)]

ghost use Rattle.acl_narrow.specs.Laws.{NarrowFit};

mod narrow;
#[cfg(test)]
mod tests;

pub use narrow::is_narrow;

/// A narrow form whose words lie in a heap may be checked there, and its term may be made there.
#[tactic(auto, using(crate::proofs::FitLemmas::narrow_fit))]
pub fn narrow_forms_fit()
    ensures { NarrowFit }
{}
