//! The forms that words stand for, and what stays of them when heap and table grow. Definitions, and laws about them.
#![tactic(auto)]

ghost use Rattle.acl_forms.specs.Laws.{IsGrowth};

/// Growth of heap and table, of either and step by step, keeps what words stand for.
#[tactic(auto, using(crate::proofs::LawLemmas::is_growth))]
pub fn growth_keeps_forms()
    ensures { IsGrowth }
{}
