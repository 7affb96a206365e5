//! Laws on what an expansion makes, as the check of forms and the making of terms ask it: how deep a form is, and that its constants are known.
#![tactic(auto)]

ghost use Rattle.acl_fits.specs.Laws.{DepthsAgree, ExpansionsAreShallow, KnowledgeAgrees};

/// The depth of a form that the check asks is the one that an expansion keeps to.
#[tactic(auto, using(crate::proofs::DepthLemmas::depths_agree))]
pub fn depths_agree()
    ensures { DepthsAgree }
{}

/// A form that an expansion made is at most 2,048 deep, so that it may be checked and its term made.
#[tactic(auto, using(crate::proofs::DepthLemmas::expansions_are_shallow))]
pub fn expansions_are_shallow()
    ensures { ExpansionsAreShallow }
{}

/// The constants of a form are known as terms ask it exactly where they are as an expansion gives it.
#[tactic(auto, using(crate::proofs::KnownLemmas::knowledge_agrees))]
pub fn knowledge_agrees()
    ensures { KnowledgeAgrees }
{}
