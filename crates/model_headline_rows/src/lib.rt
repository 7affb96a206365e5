//! A session in which a concrete and an abstract stobj are live, and commands there, that meet the statements that this
//! repository is for: so that none of them is empty.
#![tactic(auto)]

ghost use Rattle.model_headline_rows.specs.Instances.{AreMetWithLiveStobjs};

/// Where a concrete and an abstract stobj are live and the obligations hold, the statements on sessions that commands have
/// made are met: by a command that writes the one and by a command that calls an export of the other.
#[tactic(auto, using(crate::proofs::InstanceLemmas::are_met_with_live_stobjs))]
pub fn statements_are_met_with_live_stobjs()
    ensures { AreMetWithLiveStobjs }
{}
