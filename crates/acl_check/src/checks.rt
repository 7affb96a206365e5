//! The checks: Ok exactly where no rule fails, else the first fault.

ghost use Rattle.std.specs.Prelude.{◌≡◌, ◌≤◌, ◌^◌, [], length, None, IfOk, IfErr, OnOk, option_map};
ghost use Rattle.std.specs.List.{All};
ghost use Rattle.model_terms.specs.Faults.{first_fault, expression_fault, constant_fault, clique_fault, macro_fault};
ghost use Rattle.model_terms.specs.Outputs.{outs};
ghost use Rattle.acl_terms.specs.Definitions.{seen_formals};
ghost use Rattle.acl_terms.specs.Forms.{seen_core};
ghost use Rattle.acl_terms.specs.Signatures.{seen_outs, seen_scope};
ghost use Rattle.acl_worlds.specs.Contents.{seen_world};
ghost use Rattle.acl_thread.specs.Sizes.{Fits};
ghost use Rattle.acl_thread.specs.Walks.{seen_fault};
ghost use Rattle.acl_check.specs.Members.{seen_members, FitsMember};
ghost use Rattle.acl_check.specs.Says.{Says};

use crate::faults::{clique_fault, form_fault};
use crate::macros::macro_fault;
use crate::member::Member;
use acl_heap::Heap;
use acl_nest::outs;
use acl_terms::{Core, MacroFormals, Mode, Out, Scope, ThreadFault};
use acl_thread::{Fault, named};
use acl_worlds::World;
use sqlite_items::Items;
use std::alloc::Global;

/// The answer by the first fault.
#[tactic(auto, using(crate::proofs::FaultLemmas::says_named))]
fn answer(alloc: Global, fault: Option<Fault>) -> Result<(), ThreadFault>
    ensures ok { OnOk result (option_map seen_fault fault ≡ None) }
    ensures err { IfErr result (λ e. Says (option_map seen_fault fault) e) }
{
    match fault {
        None => Ok(()),
        Some(fault) => match named(alloc, fault) {
            Ok(answer) => Err(answer),
            Err(_) => Err(ThreadFault::Memory),
        },
    }
}

/// Checks a form in a scope, of which these outputs are expected.
pub fn check_form(
    alloc: Global,
    world: &World,
    heap: &Heap,
    mode: Mode,
    scope: &Scope,
    core: &Core,
    expected: &[Out],
) -> Result<(), ThreadFault>
    requires { Fits heap.now core.now }
    ensures ok { OnOk result (first_fault (seen_world heap.now world.now) mode (seen_scope scope.now) (seen_core heap.now core.now) (seen_outs expected.now) ≡ None) }
    ensures err { IfErr result (λ e. Says (first_fault (seen_world heap.now world.now) mode (seen_scope scope.now) (seen_core heap.now core.now) (seen_outs expected.now)) e) }
{
    match form_fault(alloc, world, heap, mode, scope, core, expected) {
        Ok(fault) => answer(alloc, fault),
        Err(_) => Err(ThreadFault::Memory),
    }
}

/// Checks a form of which its own outputs are expected, and answers these.
#[tactic(auto, using(acl_thread::proofs::SizeLemmas::fits_deep))]
pub fn check_expression(
    alloc: Global,
    world: &World,
    heap: &Heap,
    scope: &Scope,
    core: &Core,
) -> Result<Items<Out>, ThreadFault>
    requires { Fits heap.now core.now }
    ensures ok { OnOk result (expression_fault (seen_world heap.now world.now) (seen_scope scope.now) (seen_core heap.now core.now) ≡ None) }
    ensures outputs { IfOk result (λ os. seen_outs os ≡ outs (seen_world heap.now world.now) (seen_scope scope.now) (seen_core heap.now core.now)) }
    ensures err { IfErr result (λ e. Says (expression_fault (seen_world heap.now world.now) (seen_scope scope.now) (seen_core heap.now core.now)) e) }
{
    match outs(alloc, world, heap, scope, core) {
        Ok(own) => {
            check_form(
                alloc,
                world,
                heap,
                Mode::Executable,
                scope,
                core,
                own.as_slice(),
            )?;
            Ok(own)
        }
        Err(_) => Err(ThreadFault::Memory),
    }
}

/// Checks the form of a constant.
pub fn check_constant(
    alloc: Global,
    world: &World,
    heap: &Heap,
    core: &Core,
) -> Result<(), ThreadFault>
    requires { Fits heap.now core.now }
    ensures ok { OnOk result (constant_fault (seen_world heap.now world.now) (seen_core heap.now core.now) ≡ None) }
    ensures err { IfErr result (λ e. Says (constant_fault (seen_world heap.now world.now) (seen_core heap.now core.now)) e) }
{
    let scope = Scope::new(alloc);
    check_form(
        alloc,
        world,
        heap,
        Mode::Macro,
        &scope,
        core,
        &[Out::Ordinary],
    )
}

/// Checks the functions of a clique, which stand in the world with their signatures.
pub fn check_clique(
    alloc: Global,
    world: &World,
    heap: &Heap,
    members: &[Member],
) -> Result<(), ThreadFault>
    requires few { length members.now ≤ 2 ^ 32 }
    requires fit { All (FitsMember heap.now) members.now }
    ensures ok { OnOk result (clique_fault (seen_world heap.now world.now) 0 (seen_members heap.now members.now) ≡ None) }
    ensures err { IfErr result (λ e. Says (clique_fault (seen_world heap.now world.now) 0 (seen_members heap.now members.now)) e) }
{
    match clique_fault(alloc, world, heap, members) {
        Ok(fault) => answer(alloc, fault),
        Err(_) => Err(ThreadFault::Memory),
    }
}

/// Checks a macro.
pub fn check_macro(
    alloc: Global,
    world: &World,
    heap: &Heap,
    formals: &MacroFormals,
    body: &Core,
) -> Result<(), ThreadFault>
    requires { Fits heap.now body.now }
    ensures ok { OnOk result (macro_fault (seen_world heap.now world.now) (seen_formals heap.now formals.now) (seen_core heap.now body.now) ≡ None) }
    ensures err { IfErr result (λ e. Says (macro_fault (seen_world heap.now world.now) (seen_formals heap.now formals.now) (seen_core heap.now body.now)) e) }
{
    match macro_fault(alloc, world, heap, formals, body) {
        Ok(fault) => answer(alloc, fault),
        Err(_) => Err(ThreadFault::Memory),
    }
}
