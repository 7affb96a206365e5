// A law of readers.

ghost use Rattle.acl_read.specs.Laws.{KeepsFitting};

/// A reader goes on where it stopped, in the middle of a form too, after others have made symbols and packages known.
#[tactic(auto, using(crate::proofs::LaterLemmas::keeps_fitting))]
pub fn growth_keeps_readers()
    ensures { KeepsFitting }
{}
