//! The first fault of a form and of functions that are being admitted.

ghost use Rattle.std.specs.Prelude.{◌≡◌, ◌≤◌, ◌<◌, ◌+◌, ◌^◌, ◌∷◌, [], map, length, None, IfOk, option_map};
ghost use Rattle.std.specs.List.{All};
ghost use Rattle.std.specs.Option.{option_or};
ghost use Rattle.model_terms.specs.declared.rule.Mode.TheVariants.{Executable, Logic};
ghost use Rattle.model_terms.specs.Faults.{first_fault, head_fault, function_fault, logic_fault, member_fault, clique_fault, outs_of, at};
ghost use Rattle.acl_terms.specs.Definitions.{seen_definition};
ghost use Rattle.acl_terms.specs.Forms.{seen_core};
ghost use Rattle.acl_terms.specs.Signatures.{seen_outs, seen_scope};
ghost use Rattle.acl_worlds.specs.Contents.{seen_world};
ghost use Rattle.acl_thread.specs.Sizes.{Fits};
ghost use Rattle.acl_thread.specs.Walks.{seen_fault};
ghost use Rattle.acl_check.specs.Members.{seen_member, seen_members, FitsMember, own_outs};

use crate::declared::{fails_s10, ordinary_scope};
use crate::member::{Member, formal_scope};
use acl_base::SymId;
use acl_heap::Heap;
use acl_terms::{Core, Definition, Mode, Out, Rule, Scope};
use acl_thread::{Fault, down, either, runs, walk};
use acl_worlds::World;
use sqlite_items::Items;
use std::alloc::{AllocError, Global};

/// The first fault of a form in a scope, of which these outputs are expected.
#[tactic(auto, using(crate::proofs::FaultLemmas::form_is))]
pub fn form_fault(
    alloc: Global,
    world: &World,
    heap: &Heap,
    mode: Mode,
    scope: &Scope,
    core: &Core,
    expected: &[Out],
) -> Result<Option<Fault>, AllocError>
    requires { Fits heap.now core.now }
    ensures { IfOk result (λ f. option_map seen_fault f ≡ first_fault (seen_world heap.now world.now) mode (seen_scope scope.now) (seen_core heap.now core.now) (seen_outs expected.now)) }
{
    let walked = walk(alloc, world, heap, mode, scope, core, None, expected)?;
    Ok(walked.fault)
}

/// A fault of a form that stands at a place of two numbers.
#[tactic(auto, using(crate::proofs::FaultLemmas::at_two))]
pub fn below(outer: u32, inner: u32, fault: Option<Fault>) -> Result<Option<Fault>, AllocError>
    ensures { IfOk result (λ f. option_map seen_fault f ≡ at (outer ∷ inner ∷ []) (option_map seen_fault fault)) }
{
    let fault = down(inner, fault)?;
    let fault = down(outer, fault)?;
    Ok(fault)
}

/// The fault of a rule at a place of one number.
pub fn at_number(alloc: Global, rule: Rule, n: u32) -> Result<Fault, AllocError>
    ensures { IfOk result (λ f. seen_fault f ≡ record { rule = rule; place = n ∷ [] }) }
{
    let mut outward = Items::new(alloc);
    outward.push(n)?;
    Ok(Fault { rule, outward })
}

/// The fault at the head of a function, number n of its clique.
#[tactic(auto, using(crate::proofs::FaultLemmas::head_there, crate::proofs::FaultLemmas::head_none))]
fn head_fault(
    alloc: Global,
    world: &World,
    heap: &Heap,
    n: u32,
    member: &Member,
) -> Result<Option<Fault>, AllocError>
    ensures { IfOk result (λ f. option_map seen_fault f ≡ head_fault (seen_world heap.now world.now) n (seen_member heap.now member.now)) }
{
    if fails_s10(
        world,
        heap,
        member.formals.as_slice(),
        member.stobjs.as_slice(),
    ) {
        let fault = at_number(alloc, Rule::S10, n)?;
        Ok(Some(fault))
    } else {
        Ok(None)
    }
}

/// The outputs of a definition; one ordinary where it has no signature.
fn definition_outs(
    alloc: Global,
    definition: &Definition,
    _heap: &Heap,
) -> Result<Items<Out>, AllocError>
    ensures { IfOk result (λ os. seen_outs os ≡ own_outs (seen_definition _heap.now definition.now)) }
{
    let signature = match definition {
        Definition::Primitive { .. } => return Items::from_slice(alloc, &[Out::Ordinary]),
        Definition::Function(function) => &function.signature,
        Definition::Macro(_) => return Items::from_slice(alloc, &[Out::Ordinary]),
        Definition::Constant { .. } => return Items::from_slice(alloc, &[Out::Ordinary]),
        Definition::Object { .. } => return Items::from_slice(alloc, &[Out::Ordinary]),
        Definition::Generated(function) => &function.signature,
        Definition::Abstract(_) => return Items::from_slice(alloc, &[Out::Ordinary]),
        Definition::OfAbstract(function) => &function.signature,
        Definition::Named { .. } => return Items::from_slice(alloc, &[Out::Ordinary]),
        Definition::Signed { signature, .. } => signature,
    };
    let outs = Items::from_slice(alloc, signature.outs.as_slice())?;
    Ok(outs)
}

/// The outputs of a function's signature; one ordinary where it has none.
#[tactic(auto, using(crate::proofs::FaultLemmas::outs_there, crate::proofs::FaultLemmas::outs_nowhere))]
fn outs_of(alloc: Global, world: &World, heap: &Heap, f: SymId) -> Result<Items<Out>, AllocError>
    ensures { IfOk result (λ os. seen_outs os ≡ outs_of (seen_world heap.now world.now) f.0) }
{
    match world.look(f, heap) {
        Some(definition) => {
            let outs = definition_outs(alloc, definition, heap)?;
            Ok(outs)
        }
        None => Items::from_slice(alloc, &[Out::Ordinary]),
    }
}

/// The first fault of a function that runs, number n of its clique.
fn function_fault(
    alloc: Global,
    world: &World,
    heap: &Heap,
    n: u32,
    member: &Member,
    outs: &[Out],
) -> Result<Option<Fault>, AllocError>
    requires { FitsMember heap.now member.now }
    ensures { IfOk result (λ f. option_map seen_fault f ≡ function_fault (seen_world heap.now world.now) n (seen_member heap.now member.now) (seen_outs outs.now)) }
{
    let head = head_fault(alloc, world, heap, n, member)?;
    let scope = formal_scope(
        alloc,
        world,
        heap,
        member.stobjs.as_slice(),
        member.formals.as_slice(),
    )?;
    let guard = &member.guard;
    let one = &[Out::Ordinary];
    let first = form_fault(alloc, world, heap, Mode::Executable, &scope, guard, one)?;
    let first = below(n, 0, first)?;
    let body = &member.body;
    let second = form_fault(alloc, world, heap, Mode::Executable, &scope, body, outs)?;
    let second = below(n, 1, second)?;
    Ok(either(head, either(first, second)))
}

/// The first fault of a function that does not run, number n of its clique.
fn logic_fault(
    alloc: Global,
    world: &World,
    heap: &Heap,
    n: u32,
    member: &Member,
) -> Result<Option<Fault>, AllocError>
    requires { FitsMember heap.now member.now }
    ensures { IfOk result (λ f. option_map seen_fault f ≡ logic_fault (seen_world heap.now world.now) n (seen_member heap.now member.now)) }
{
    let scope = ordinary_scope(alloc, member.formals.as_slice())?;
    let guard = &member.guard;
    let one = &[Out::Ordinary];
    let first = form_fault(alloc, world, heap, Mode::Logic, &scope, guard, one)?;
    let first = below(n, 0, first)?;
    let body = &member.body;
    let second = form_fault(alloc, world, heap, Mode::Logic, &scope, body, one)?;
    let second = below(n, 1, second)?;
    Ok(either(first, second))
}

/// The first fault of a function that stands in the world with its signature, number n of its clique.
#[tactic(auto, using(crate::proofs::FaultLemmas::member_runs, crate::proofs::FaultLemmas::member_not))]
pub fn member_fault(
    alloc: Global,
    world: &World,
    heap: &Heap,
    n: u32,
    member: &Member,
) -> Result<Option<Fault>, AllocError>
    requires { FitsMember heap.now member.now }
    ensures { IfOk result (λ f. option_map seen_fault f ≡ member_fault (seen_world heap.now world.now) n (seen_member heap.now member.now)) }
{
    if runs(world, heap, member.name) {
        let outs = outs_of(alloc, world, heap, member.name)?;
        let fault = function_fault(alloc, world, heap, n, member, outs.as_slice())?;
        Ok(fault)
    } else {
        let fault = logic_fault(alloc, world, heap, n, member)?;
        Ok(fault)
    }
}

/// The first fault of the functions of a clique.
#[tactic(auto, using(crate::proofs::FaultLemmas::clique_step, crate::proofs::FaultLemmas::clique_end))]
pub fn clique_fault(
    alloc: Global,
    world: &World,
    heap: &Heap,
    members: &[Member],
) -> Result<Option<Fault>, AllocError>
    requires few { length members.now ≤ 2 ^ 32 }
    requires fit { All (FitsMember heap.now) members.now }
    ensures { IfOk result (λ f. option_map seen_fault f ≡ clique_fault (seen_world heap.now world.now) 0 (seen_members heap.now members.now)) }
{
    let mut fault = None;
    for (n, member) in members.iter().enumerate() {
        let next = member_fault(alloc, world, heap, n as u32, member)?;
        fault = either(fault, next);
    }
    Ok(fault)
}
