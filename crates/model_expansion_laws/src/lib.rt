//! Laws of expansion: what the tests of types say, what comes first, what is counted, and how deep core forms are.
#![tactic(auto)]

ghost use Rattle.model_expansion_laws.specs.Counting.{CoresAreNotTooDeep, ExpansionCounts};
ghost use Rattle.model_expansion_laws.specs.Depth.{DepthComesFirst};
ghost use Rattle.model_expansion_laws.specs.Tests.{TermsSay, TestsSay, TypesAreWritten};

/// The test of a type gives a value other than `NIL` exactly where the stobj meets the type, and stops at a limit alone.
#[tactic(auto, using(crate::proofs::TestLemmas::tests_say))]
pub fn tests_say_what_types_mean()
    ensures { TestsSay }
{}

/// A node that is too deep is refused before all else, uncounted.
#[tactic(auto, using(crate::proofs::DepthLemmas::depth_comes_first))]
pub fn depth_comes_first()
    ensures { DepthComesFirst }
{}

/// Calls never fall and never pass the limit, symbols are only added, and a fault at the limit has counted exactly so many.
#[tactic(auto, using(crate::proofs::CountLemmas::expansion_counts))]
pub fn expansion_counts_calls()
    ensures { ExpansionCounts }
{}

/// No core form that an expansion makes is too deep.
#[tactic(auto, using(crate::proofs::NestingLemmas::cores_are_not_too_deep))]
pub fn cores_are_not_too_deep()
    ensures { CoresAreNotTooDeep }
{}

/// Each type that is read is one whose test can be written.
#[tactic(auto, using(crate::proofs::WrittenLemmas::types_are_written))]
pub fn read_types_can_be_tested()
    ensures { TypesAreWritten }
{}

/// The test of a type as it is written gives a value other than `NIL` exactly where the stobj meets the type, and stops at a limit alone.
#[tactic(auto, using(crate::proofs::WrittenLemmas::terms_say))]
pub fn terms_of_types_say_what_types_mean()
    ensures { TermsSay }
{}
