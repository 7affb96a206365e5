//! A machine that is begun on a term.

ghost use Rattle.std.specs.Prelude.{◌≡◌, IfOk};
ghost use Rattle.acl_evaluate.specs.Begun.{all_values, begun_machine};

use acl_base::{TermId, Word};
use acl_machine::{Control, Loans, Machine, Names, Stack, Values};
use acl_terms::Shown;
use std::alloc::{AllocError, Global};

/// The values of words, in order.
#[tactic(auto, using(crate::proofs::BegunLemmas::values_step, crate::proofs::BegunLemmas::values_ended))]
pub fn values_of(alloc: Global, words: &[Word]) -> Result<Values, AllocError>
    ensures { IfOk result (λ vs. vs ≡ all_values words.now) }
{
    let mut values = Values::new(alloc);
    for word in words {
        values.push(Shown::Value(*word))?;
    }
    Ok(values)
}

/// A machine that is to evaluate a term in whose first slots these values lie, with so many calls counted before, and with room for
/// so many open forms. It takes no memory.
pub fn begun(alloc: Global, term: TermId, values: Values, used: u64, depth: u32) -> Machine
    ensures { result ≡ begun_machine term values used depth }
{
    Machine {
        room: depth as u64,
        frames: Stack::new(alloc),
        values,
        names: Names::new(alloc),
        loans: Loans::new(alloc),
        control: Control::Begin { term, base: 0 },
        given: Values::new(alloc),
        actuals: Values::new(alloc),
        outer_actuals: Values::new(alloc),
        inside: None,
        cut: 0,
        calls: used,
        outer: 0,
    }
}
