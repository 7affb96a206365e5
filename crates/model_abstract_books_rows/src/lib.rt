//! Books and obligations, computed: commands as checked and as abstract evaluation answer them, and obligations that hold.
#![tactic(auto)]

ghost use Rattle.model_abstract_books_rows.specs.Rows.{Doubled, Stopping};
ghost use Rattle.model_abstract_books_rows.specs.HoldingRows.{HoldingRows};
ghost use Rattle.model_abstract_books_rows.specs.Identity.{IdentityHolds};

/// A book whose abstract stobj holds a number and whose foundation holds its double: what is written, and that every answer
/// is that of abstract evaluation with as many calls.
#[tactic(auto, using(crate::proofs::RowDoubled::is_computed))]
pub fn doubled()
    ensures { Doubled }
{}

/// A book that stops inside an export: up to there the answers are those of abstract evaluation.
#[tactic(auto, using(crate::proofs::RowStopping::is_computed))]
pub fn stopping()
    ensures { Stopping }
{}

/// An obligation that says nothing holds, and one that is false does not.
#[tactic(auto, using(crate::proofs::RowHolding::obligations_hold_or_not))]
pub fn obligations_hold_or_not()
    ensures { HoldingRows }
{}

/// A book whose abstract stobj is its foundation as a list of the logic: its six obligations hold.
#[tactic(auto, using(crate::proofs::RowIdentity::identity_holds))]
pub fn identity_obligations_hold()
    ensures { IdentityHolds }
{}
