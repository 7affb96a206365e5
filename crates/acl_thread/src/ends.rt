//! What is left to do at a form once its parts are done.

ghost use Rattle.std.specs.Prelude.{◌≡◌, IfOk, None, option_map};
ghost use Rattle.std.specs.Option.{option_or};
ghost use Rattle.model_terms_laws.specs.Parts.{fault_down};
ghost use Rattle.acl_terms.specs.Signatures.{seen_outs};
ghost use Rattle.acl_thread.specs.Walks.{seen_fault, at_form};

use crate::fault::{Fault, down, either, settle};
use acl_terms::{Out, Rule};
use sqlite_items::Items;
use std::alloc::{AllocError, Global};

/// What the pass gives at a form.
#[derive(Debug, Drop)]
pub struct Walked {
    /// Its outputs by text, where they are known.
    pub outputs: Option<Items<Out>>,
    /// The first fault in it.
    pub fault: Option<Fault>,
}

/// What the pass gives at the forms that a `LET` binds.
#[derive(Debug, Drop)]
pub struct Bound {
    /// The first fault among them.
    pub fault: Option<Fault>,
    /// Whether an object is bound to what does not give exactly that object.
    pub wrong: bool,
}

/// The outputs that are known, of the first where both are.
fn known_first(first: Option<Items<Out>>, second: Option<Items<Out>>) -> Option<Items<Out>>
    ensures { option_map seen_outs result ≡ option_or (option_map seen_outs first) (option_map seen_outs second) }
{
    match first {
        Some(outs) => Some(outs),
        None => second,
    }
}

/// An `IF`, by its test and its branches.
pub fn finish_if(
    alloc: Global,
    rule: Option<Rule>,
    test: Walked,
    then: Walked,
    other: Walked,
) -> Result<Walked, AllocError>
    ensures outputs { IfOk result (λ r. option_map seen_outs r.outputs ≡ option_or (option_map seen_outs then.outputs) (option_map seen_outs other.outputs)) }
    ensures fault { IfOk result (λ r. option_map seen_fault r.fault ≡ option_or (at_form rule) (option_or (fault_down 0 (option_map seen_fault test.fault)) (option_or (fault_down 1 (option_map seen_fault then.fault)) (fault_down 2 (option_map seen_fault other.fault))))) }
{
    let Walked {
        outputs: _,
        fault: first,
    } = test;
    let Walked {
        outputs: known,
        fault: second,
    } = then;
    let Walked {
        outputs: others,
        fault: third,
    } = other;
    let first = down(0, first)?;
    let second = down(1, second)?;
    let third = down(2, third)?;
    let fault = settle(alloc, rule, either(first, either(second, third)));
    let outputs = known_first(known, others);
    Ok(Walked { outputs, fault })
}

/// A form whose second part gives its outputs.
pub fn finish_second(
    alloc: Global,
    rule: Option<Rule>,
    first: Walked,
    second: Walked,
) -> Result<Walked, AllocError>
    ensures outputs { IfOk result (λ r. option_map seen_outs r.outputs ≡ option_map seen_outs second.outputs) }
    ensures fault { IfOk result (λ r. option_map seen_fault r.fault ≡ option_or (at_form rule) (option_or (fault_down 0 (option_map seen_fault first.fault)) (fault_down 1 (option_map seen_fault second.fault)))) }
{
    let Walked {
        outputs: _,
        fault: outer,
    } = first;
    let Walked {
        outputs,
        fault: inner,
    } = second;
    let outer = down(0, outer)?;
    let inner = down(1, inner)?;
    let fault = settle(alloc, rule, either(outer, inner));
    Ok(Walked { outputs, fault })
}

/// A form whose first part gives its outputs.
pub fn finish_first(
    alloc: Global,
    rule: Option<Rule>,
    first: Walked,
    second: Walked,
) -> Result<Walked, AllocError>
    ensures outputs { IfOk result (λ r. option_map seen_outs r.outputs ≡ option_map seen_outs first.outputs) }
    ensures fault { IfOk result (λ r. option_map seen_fault r.fault ≡ option_or (at_form rule) (option_or (fault_down 0 (option_map seen_fault first.fault)) (fault_down 1 (option_map seen_fault second.fault)))) }
{
    let Walked {
        outputs,
        fault: outer,
    } = first;
    let Walked {
        outputs: _,
        fault: inner,
    } = second;
    let outer = down(0, outer)?;
    let inner = down(1, inner)?;
    let fault = settle(alloc, rule, either(outer, inner));
    Ok(Walked { outputs, fault })
}

/// A `LET`, by what it binds and its body, the child of this number.
pub fn finish_let(
    alloc: Global,
    rule: Option<Rule>,
    bound: Option<Fault>,
    number: u32,
    body: Walked,
) -> Result<Walked, AllocError>
    ensures outputs { IfOk result (λ r. option_map seen_outs r.outputs ≡ option_map seen_outs body.outputs) }
    ensures fault { IfOk result (λ r. option_map seen_fault r.fault ≡ option_or (at_form rule) (option_or (option_map seen_fault bound) (fault_down number (option_map seen_fault body.fault)))) }
{
    let Walked {
        outputs,
        fault: inner,
    } = body;
    let inner = down(number, inner)?;
    let fault = settle(alloc, rule, either(bound, inner));
    Ok(Walked { outputs, fault })
}

/// A form that gives these outputs, by the first fault below it.
pub fn finish(
    alloc: Global,
    rule: Option<Rule>,
    outputs: Option<Items<Out>>,
    below: Option<Fault>,
) -> Walked
    ensures outputs { result.outputs ≡ outputs }
    ensures fault { option_map seen_fault result.fault ≡ option_or (at_form rule) (option_map seen_fault below) }
{
    let fault = settle(alloc, rule, below);
    Walked { outputs, fault }
}
