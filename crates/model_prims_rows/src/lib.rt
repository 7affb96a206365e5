//! The primitives at their edges: what the definitions give, computed, beside what was worked out by hand.
#![tactic(auto)]

ghost use Rattle.model_prims_rows.specs.Examples.{AreRight};
ghost use Rattle.model_prims_rows.specs.Tests.{recognizer_examples, relation_examples};
ghost use Rattle.model_prims_rows.specs.Arithmetic.{sum_examples, division_examples, power_examples, bit_examples};
ghost use Rattle.model_prims_rows.specs.Lists.{part_examples, list_examples, search_examples, HasWeightLimit};
ghost use Rattle.model_prims_rows.specs.Names.{name_examples, choice_examples};
ghost use Rattle.model_prims_rows.specs.Logic.{AreLogic, logic_examples};
ghost use Rattle.model_prims_rows.specs.Table.{IsOfOpening, AreConstants};

#[tactic(auto, using(crate::proofs::Computed::recognizers))]
pub fn recognizers()
    ensures { AreRight recognizer_examples }
{}

#[tactic(auto, using(crate::proofs::Computed::relations))]
pub fn relations()
    ensures { AreRight relation_examples }
{}

#[tactic(auto, using(crate::proofs::Computed::sums))]
pub fn sums()
    ensures { AreRight sum_examples }
{}

#[tactic(auto, using(crate::proofs::Computed::divisions))]
pub fn divisions()
    ensures { AreRight division_examples }
{}

#[tactic(auto, using(crate::proofs::Computed::powers))]
pub fn powers()
    ensures { AreRight power_examples }
{}

#[tactic(auto, using(crate::proofs::Computed::bits))]
pub fn bits()
    ensures { AreRight bit_examples }
{}

#[tactic(auto, using(crate::proofs::Computed::parts))]
pub fn parts()
    ensures { AreRight part_examples }
{}

#[tactic(auto, using(crate::proofs::Computed::lists))]
pub fn lists()
    ensures { AreRight list_examples }
{}

#[tactic(auto, using(crate::proofs::Computed::searches))]
pub fn searches()
    ensures { AreRight search_examples }
{}

#[tactic(auto, using(crate::proofs::Computed::weights))]
pub fn weights()
    ensures { HasWeightLimit }
{}

#[tactic(auto, using(crate::proofs::Computed::names))]
pub fn names()
    ensures { AreRight name_examples }
{}

#[tactic(auto, using(crate::proofs::Computed::choices))]
pub fn choices()
    ensures { AreRight choice_examples }
{}

/// Outside the guards, and beyond the bounds.
#[tactic(auto, using(crate::proofs::Computed::logic))]
pub fn logic()
    ensures { AreLogic logic_examples }
{}

/// The name of each primitive is a symbol that every table of symbols begins with, and no two have one name.
#[tactic(auto, using(crate::proofs::Computed::of_opening))]
pub fn names_are_known()
    ensures { IsOfOpening }
{}

/// The values of the two constants are true lists of symbols that every table of symbols begins with.
#[tactic(auto, using(crate::proofs::Computed::constants))]
pub fn constants_are_lists()
    ensures { AreConstants }
{}
