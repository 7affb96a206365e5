//! The outcome of a machine that is over.

ghost use Rattle.std.specs.Prelude.{◌≡◌, IfOk};
ghost use Rattle.acl_machine.specs.declared.frame.Control.TheVariants as control;
ghost use Rattle.acl_machine.specs.Turns.{IsLate};
ghost use Rattle.acl_evaluate.specs.Ended.{IsStop, IsEnd, IsRefused};

use acl_engine::Outcome;
use acl_machine::{Control, Halt, Machine};
use acl_terms::{Shown, Stop};
use sqlite_items::Items;
use std::alloc::{AllocError, Global};

/// Why a machine stopped, with the arguments that a guard refused.
#[tactic(auto, using(crate::proofs::EndedLemmas::guard_stop, crate::proofs::EndedLemmas::steps_stop, crate::proofs::EndedLemmas::depth_stop, crate::proofs::EndedLemmas::range_stop, crate::proofs::EndedLemmas::large_stop, crate::proofs::EndedLemmas::symbols_stop))]
fn stop_of(alloc: Global, why: Halt, given: &[Shown]) -> Result<Stop, AllocError>
    ensures { IfOk result (λ s. IsStop given.now why s) }
{
    match why {
        Halt::Guard(function) => {
            let args = Items::from_slice(alloc, given)?;
            Ok(Stop::Guard { function, args })
        }
        Halt::Steps => Ok(Stop::Steps),
        Halt::Depth => Ok(Stop::Depth),
        Halt::Range(function) => Ok(Stop::Range { function }),
        Halt::Large(function) => Ok(Stop::Large { function }),
        Halt::Symbols(function) => Ok(Stop::Symbols { function }),
    }
}

/// A copy of values.
fn copied(alloc: Global, values: &[Shown]) -> Result<Vec<Shown>, AllocError>
    ensures { IfOk result (λ made. made.items ≡ values.now) }
{
    let mut made = Vec::new(alloc);
    made.extend_from_slice(values)?;
    Ok(made)
}

/// The outcome of a machine that has given its values.
#[tactic(auto, using(crate::proofs::EndedLemmas::given_end))]
fn given_outcome(alloc: Global, machine: &Machine) -> Result<Outcome, AllocError>
    requires given { machine.now.control ≡ control.Give }
    ensures { IfOk result (λ o. IsEnd machine.now o) }
{
    let values = copied(alloc, machine.given.as_slice())?;
    Ok(Outcome {
        stop: None,
        values,
        calls: machine.calls,
        outer: machine.outer,
        inside: None,
        cut: 0,
    })
}

/// The outcome of a machine that has stopped.
#[tactic(auto, using(crate::proofs::EndedLemmas::stopped_end))]
fn stopped_outcome(alloc: Global, machine: &Machine, why: Halt) -> Result<Outcome, AllocError>
    requires stopped { machine.now.control ≡ control.Stopped why }
    ensures { IfOk result (λ o. IsEnd machine.now o) }
{
    let stop = stop_of(alloc, why, machine.given.as_slice())?;
    Ok(Outcome {
        stop: Some(stop),
        values: Vec::new(alloc),
        calls: machine.calls,
        outer: machine.outer,
        inside: machine.inside,
        cut: machine.cut,
    })
}

/// The outcome of a machine that is over.
#[tactic(auto, using(crate::proofs::EndedLemmas::not_late))]
pub fn outcome_of(alloc: Global, machine: &Machine) -> Result<Outcome, AllocError>
    requires late { IsLate machine.now.control }
    ensures { IfOk result (λ o. IsEnd machine.now o) }
{
    match machine.control {
        Control::Begin { .. } => unreachable!(),
        Control::Give => given_outcome(alloc, machine),
        Control::Stopped(why) => stopped_outcome(alloc, machine, why),
    }
}

/// Memory was refused; so many calls were counted before.
pub fn refused(alloc: Global, used: u64) -> Outcome
    ensures { IsRefused used result }
{
    Outcome {
        stop: Some(Stop::Memory),
        values: Vec::new(alloc),
        calls: used,
        outer: 0,
        inside: None,
        cut: 0,
    }
}
