//! Faults on their way out of a form.

ghost use Rattle.std.specs.Prelude.{◌≡◌, [], Some, None, reverse, IfOk, option_map};
ghost use Rattle.std.specs.Option.{option_or};
ghost use Rattle.model_terms_laws.specs.Parts.{fault_down};
ghost use Rattle.acl_thread.specs.Own.{when};
ghost use Rattle.acl_thread.specs.Walks.{Names, seen_fault, at_form};

use acl_terms::{Place, Rule, ThreadFault};
use sqlite_items::Items;
use std::alloc::{AllocError, Global};

/// A rule that fails somewhere in a form.
#[derive(Debug, Drop)]
pub struct Fault {
    pub rule: Rule,
    /// The numbers of children from the place of the fault outwards.
    pub outward: Items<u32>,
}

/// The rule where it fails, else the one that comes later.
pub fn when(fails: bool, rule: Rule, later: Option<Rule>) -> Option<Rule>
    ensures { result ≡ when fails rule later }
{
    if fails { Some(rule) } else { later }
}

/// The first of two faults that come one after the other.
pub fn either(first: Option<Fault>, second: Option<Fault>) -> Option<Fault>
    ensures { option_map seen_fault result ≡ option_or (option_map seen_fault first) (option_map seen_fault second) }
{
    match first {
        Some(fault) => Some(fault),
        None => second,
    }
}

/// A fault of a child, seen from the form.
#[tactic(auto, using(crate::proofs::FaultLemmas::further_out))]
pub fn down(child: u32, fault: Option<Fault>) -> Result<Option<Fault>, AllocError>
    ensures { IfOk result (λ r. option_map seen_fault r ≡ fault_down child (option_map seen_fault fault)) }
{
    match fault {
        Some(fault) => {
            let Fault { rule, mut outward } = fault;
            outward.push(child)?;
            Ok(Some(Fault { rule, outward }))
        }
        None => Ok(None),
    }
}

/// The fault of a form itself, else the one below it.
pub fn settle(alloc: Global, rule: Option<Rule>, below: Option<Fault>) -> Option<Fault>
    ensures { option_map seen_fault result ≡ option_or (at_form rule) (option_map seen_fault below) }
{
    match rule {
        Some(rule) => Some(Fault {
            rule,
            outward: Items::new(alloc),
        }),
        None => below,
    }
}

/// The numbers in the opposite order.
#[tactic(auto, using(crate::proofs::FaultLemmas::turned_start, crate::proofs::FaultLemmas::turned_step, crate::proofs::FaultLemmas::turned_end))]
fn turned(alloc: Global, outward: &[u32]) -> Result<Place, AllocError>
    ensures { IfOk result (λ p. p ≡ reverse outward.now) }
{
    let mut place = Items::new(alloc);
    for i in 0..outward.len() {
        place.push(outward[outward.len() - 1 - i])?;
    }
    Ok(place)
}

/// The answer that names a fault.
pub fn named(alloc: Global, fault: Fault) -> Result<ThreadFault, AllocError>
    ensures { IfOk result (λ e. Names (seen_fault fault) e) }
{
    let place = turned(alloc, fault.outward.as_slice())?;
    Ok(ThreadFault::Rule {
        rule: fault.rule,
        place,
    })
}
