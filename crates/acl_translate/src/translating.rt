//! A form that is accepted, and its term.

ghost use Rattle.std.specs.Prelude.{◌≡◌, ◌<◌, ℕ, length, [], true, Some, None, IfOk, IfErr, OnOk, OnErr};
ghost use Rattle.model_terms.specs.Faults.{first_fault, expression_fault, constant_fault};
ghost use Rattle.model_terms.specs.Outputs.{outs};
ghost use Rattle.acl_terms.specs.Forms.{numbers, seen_core};
ghost use Rattle.acl_terms.specs.Signatures.{seen_outs, seen_scope};
ghost use Rattle.acl_worlds.specs.Contents.{seen_world};
ghost use Rattle.acl_code.specs.Constants.{ConstantsAreKnown, FormIsKnown};
ghost use Rattle.acl_code.specs.Sizes as code;
ghost use Rattle.acl_code.specs.Tables.{Grown, TermsLie, IsBuilt};
ghost use Rattle.acl_thread.specs.Sizes as thread;
ghost use Rattle.acl_check.specs.Says.{Says};
ghost use Rattle.model_slots_laws.specs.Standing.{functions_stand};
ghost use Rattle.acl_translate.specs.Functions.{formal_tree};

use crate::building::build_tree;
use acl_base::{SymId, TermId};
use acl_check::{check_constant, check_expression, check_form};
use acl_code::Terms;
use acl_heap::Heap;
use acl_terms::{Core, Mode, Out, Scope, ThreadFault};
use acl_worlds::World;
use sqlite_items::Items;
use std::alloc::Global;

/// A form that was accepted, as the machine runs it.
#[derive(Drop)]
pub struct Expression {
    pub term: TermId,
    /// What it gives.
    pub outputs: Items<Out>,
}

/// The term of a form under these names, where no rule fails at it in this scope, of which these outputs are expected; else
/// its first fault. At a fault and for want of memory the table is as it was.
#[tactic(auto, using(crate::proofs::FunctionLemmas::form_there))]
pub fn translate(
    alloc: Global,
    terms: &mut Terms,
    world: &World,
    heap: &Heap,
    mode: Mode,
    scope: &Scope,
    names: &[SymId],
    core: &Core,
    expected: &[Out],
) -> Result<TermId, ThreadFault>
    requires words { TermsLie heap.now terms.old }
    requires fits { code.Fits heap.now (length names.now) core.now }
    requires wide { thread.Fits heap.now core.now }
    requires stand { functions_stand (seen_world heap.now world.now) (seen_core heap.now core.now) ≡ true }
    ensures accepted { OnOk result (first_fault (seen_world heap.now world.now) mode (seen_scope scope.now) (seen_core heap.now core.now) (seen_outs expected.now) ≡ None) }
    ensures built { IfOk result (λ r. IsBuilt heap.now terms.new (Some r) (formal_tree (seen_world heap.now world.now) (numbers names.now) (seen_core heap.now core.now))) }
    ensures err { IfErr result (λ e. Says (first_fault (seen_world heap.now world.now) mode (seen_scope scope.now) (seen_core heap.now core.now) (seen_outs expected.now)) e) }
    ensures unchanged { OnErr result (terms.new ≡ terms.old) }
    ensures grows { Grown terms.old terms.new }
    ensures words { TermsLie heap.now terms.new }
    ensures known { (n : ℕ) → 1 < n → FormIsKnown n (seen_core heap.now core.now) → ConstantsAreKnown n heap.now terms.old → ConstantsAreKnown n heap.now terms.new }
{
    match check_form(alloc, world, heap, mode, scope, core, expected) {
        Ok(()) => match build_tree(alloc, terms, world, heap, names, core) {
            Ok(term) => Ok(term),
            Err(_) => Err(ThreadFault::Memory),
        },
        Err(fault) => Err(fault),
    }
}

/// The same of a form of which its own outputs are expected; they are answered with its term.
#[tactic(auto, using(crate::proofs::FunctionLemmas::expression_there))]
pub fn translate_expression(
    alloc: Global,
    terms: &mut Terms,
    world: &World,
    heap: &Heap,
    scope: &Scope,
    names: &[SymId],
    core: &Core,
) -> Result<Expression, ThreadFault>
    requires words { TermsLie heap.now terms.old }
    requires fits { code.Fits heap.now (length names.now) core.now }
    requires wide { thread.Fits heap.now core.now }
    requires stand { functions_stand (seen_world heap.now world.now) (seen_core heap.now core.now) ≡ true }
    ensures accepted { OnOk result (expression_fault (seen_world heap.now world.now) (seen_scope scope.now) (seen_core heap.now core.now) ≡ None) }
    ensures built { IfOk result (λ r. IsBuilt heap.now terms.new (Some r.term) (formal_tree (seen_world heap.now world.now) (numbers names.now) (seen_core heap.now core.now))) }
    ensures outputs { IfOk result (λ r. seen_outs r.outputs ≡ outs (seen_world heap.now world.now) (seen_scope scope.now) (seen_core heap.now core.now)) }
    ensures err { IfErr result (λ e. Says (expression_fault (seen_world heap.now world.now) (seen_scope scope.now) (seen_core heap.now core.now)) e) }
    ensures unchanged { OnErr result (terms.new ≡ terms.old) }
    ensures grows { Grown terms.old terms.new }
    ensures words { TermsLie heap.now terms.new }
    ensures known { (n : ℕ) → 1 < n → FormIsKnown n (seen_core heap.now core.now) → ConstantsAreKnown n heap.now terms.old → ConstantsAreKnown n heap.now terms.new }
{
    match check_expression(alloc, world, heap, scope, core) {
        Ok(outputs) => match build_tree(alloc, terms, world, heap, names, core) {
            Ok(term) => Ok(Expression { term, outputs }),
            Err(_) => Err(ThreadFault::Memory),
        },
        Err(fault) => Err(fault),
    }
}

/// The same of the form of a constant, which has no names.
pub fn translate_constant(
    alloc: Global,
    terms: &mut Terms,
    world: &World,
    heap: &Heap,
    core: &Core,
) -> Result<TermId, ThreadFault>
    requires words { TermsLie heap.now terms.old }
    requires fits { code.Fits heap.now 0 core.now }
    requires wide { thread.Fits heap.now core.now }
    requires stand { functions_stand (seen_world heap.now world.now) (seen_core heap.now core.now) ≡ true }
    ensures accepted { OnOk result (constant_fault (seen_world heap.now world.now) (seen_core heap.now core.now) ≡ None) }
    ensures built { IfOk result (λ r. IsBuilt heap.now terms.new (Some r) (formal_tree (seen_world heap.now world.now) [] (seen_core heap.now core.now))) }
    ensures err { IfErr result (λ e. Says (constant_fault (seen_world heap.now world.now) (seen_core heap.now core.now)) e) }
    ensures unchanged { OnErr result (terms.new ≡ terms.old) }
    ensures grows { Grown terms.old terms.new }
    ensures words { TermsLie heap.now terms.new }
    ensures known { (n : ℕ) → 1 < n → FormIsKnown n (seen_core heap.now core.now) → ConstantsAreKnown n heap.now terms.old → ConstantsAreKnown n heap.now terms.new }
{
    match check_constant(alloc, world, heap, core) {
        Ok(()) => match build_tree(alloc, terms, world, heap, &[], core) {
            Ok(term) => Ok(term),
            Err(_) => Err(ThreadFault::Memory),
        },
        Err(fault) => Err(fault),
    }
}
