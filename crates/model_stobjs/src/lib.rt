//! The definition of concrete and of abstract stobjs: reading them, refusals in their order, what they bring to the world,
//! and obligations. Definitions, and a law.
#![tactic(auto)]

ghost use Rattle.model_stobjs.specs.Laws.{HasAName};

/// Each function of a field has a name that is made for it.
#[tactic(auto, using(crate::proofs::LawLemmas::each_has_a_name))]
pub fn functions_have_names()
    ensures { HasAName }
{}
