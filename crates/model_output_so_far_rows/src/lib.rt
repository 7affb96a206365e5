//! Whole books, run by the definitions alone: the bytes and the status that the definitions give for them.
#![tactic(auto)]

ghost use Rattle.model_output_so_far_rows.specs.Rows.{AreWritten, AreMixed, AreNamed, ArePackages, AreCalls, EndInFaults};

/// Books of one object.
#[tactic(auto, using(crate::proofs::RowLemmas::are_written))]
pub fn books_are_written()
    ensures { AreWritten }
{}

/// Forms that are no commands, and wrong calls of an object's functions.
#[tactic(auto, using(crate::proofs::RowLemmas::are_mixed))]
pub fn other_forms_are_refused()
    ensures { AreMixed }
{}

/// Names and shapes of definitions.
#[tactic(auto, using(crate::proofs::RowLemmas::are_named))]
pub fn names_are_tested()
    ensures { AreNamed }
{}

/// The choice of a package.
#[tactic(auto, using(crate::proofs::RowLemmas::are_packages))]
pub fn packages_are_entered()
    ensures { ArePackages }
{}

/// Calls of primitives.
#[tactic(auto, using(crate::proofs::RowLemmas::are_calls))]
pub fn primitives_are_called()
    ensures { AreCalls }
{}

/// Inputs that end in a text fault.
#[tactic(auto, using(crate::proofs::RowLemmas::end_in_faults))]
pub fn faults_end_books()
    ensures { EndInFaults }
{}
