//! Core forms that tests are made of.

ghost use Rattle.std.specs.Prelude.{◌≡◌, ◌≤◌, [], ◌∷◌, length, IfOk, option_map};
ghost use Rattle.model_objects.specs.Object.{Integer};
ghost use Rattle.model_terms.specs.Cores as cores;
ghost use Rattle.model_expansion.specs.TypeTerms.{call_core, not_core, not_below, and_core, true_core, false_core, joined_tests};
ghost use Rattle.acl_heap.specs.Objects.{object_of, Lies, Extends};
ghost use Rattle.acl_terms.specs.Forms.{seen_core, CoreLies};
ghost use Rattle.acl_types.specs.Shapes.{IsCore, SeenTest, seen_test, test_reach, join_test};

use crate::shape::Join;
use crate::words;
use acl_base::{SymId, Word};
use acl_heap::{Heap, HeapFault};
use acl_terms::Core;
use sqlite_items::{Boxed, Items};
use std::alloc::{AllocError, Global};

/// A variable.
#[tactic(auto, using(acl_terms::specs::FormLaws::seen_var, crate::proofs::FormLemmas::reach_var))]
pub fn variable(_heap: &Heap, name: SymId) -> Core
    ensures { IsCore _heap.now result (cores.Var name.0) }
{
    Core::Var(name)
}

/// A constant.
#[tactic(auto, using(acl_terms::specs::FormLaws::seen_const, crate::proofs::FormLemmas::reach_const))]
pub fn constant(_heap: &Heap, value: Word) -> Core
    requires { Lies _heap.now value }
    ensures { IsCore _heap.now result (cores.Const (object_of _heap.now value)) }
{
    Core::Const(value)
}

/// A call with one actual.
#[tactic(auto, using(acl_terms::specs::FormLaws::seen_call, crate::proofs::FormLemmas::reach_call))]
pub fn call_one(alloc: Global, _heap: &Heap, function: SymId, a: Core) -> Result<Core, AllocError>
    requires { CoreLies _heap.now a }
    ensures { IfOk result (λ f. IsCore _heap.now f (call_core function.0 (seen_core _heap.now a ∷ []))) }
{
    let mut actuals = Items::new(alloc);
    actuals.push(a)?;
    Ok(Core::Call(function, actuals))
}

/// A call with two actuals.
#[tactic(auto, using(acl_terms::specs::FormLaws::seen_call, crate::proofs::FormLemmas::reach_call))]
pub fn call_two(
    alloc: Global,
    _heap: &Heap,
    function: SymId,
    a: Core,
    b: Core,
) -> Result<Core, AllocError>
    requires first { CoreLies _heap.now a }
    requires second { CoreLies _heap.now b }
    ensures { IfOk result (λ f. IsCore _heap.now f (call_core function.0 (seen_core _heap.now a ∷ (seen_core _heap.now b ∷ [])))) }
{
    let mut actuals = Items::new(alloc);
    actuals.push(a)?;
    actuals.push(b)?;
    Ok(Core::Call(function, actuals))
}

/// A test with its branches.
#[tactic(auto, using(acl_terms::specs::FormLaws::seen_if, crate::proofs::FormLemmas::reach_if))]
pub fn choice(alloc: Global, _heap: &Heap, a: Core, b: Core, c: Core) -> Result<Core, AllocError>
    requires test { CoreLies _heap.now a }
    requires yes { CoreLies _heap.now b }
    requires no { CoreLies _heap.now c }
    ensures { IfOk result (λ f. IsCore _heap.now f (cores.If (seen_core _heap.now a) (seen_core _heap.now b) (seen_core _heap.now c))) }
{
    let a = Boxed::new(alloc, a)?;
    let b = Boxed::new(alloc, b)?;
    let c = Boxed::new(alloc, c)?;
    Ok(Core::If(a, b, c))
}

/// What is met where both are.
pub fn both(alloc: Global, heap: &Heap, a: Core, b: Core) -> Result<Core, AllocError>
    requires first { CoreLies heap.now a }
    requires second { CoreLies heap.now b }
    ensures { IfOk result (λ f. IsCore heap.now f (and_core (seen_core heap.now a) (seen_core heap.now b))) }
{
    let never = constant(heap, Word::Sym(SymId(words::NIL)));
    choice(alloc, heap, a, b, never)
}

fn either(alloc: Global, heap: &Heap, a: Core, b: Core) -> Result<Core, AllocError>
    requires first { CoreLies heap.now a }
    requires second { CoreLies heap.now b }
    ensures { IfOk result (λ f. IsCore heap.now f (cores.If (seen_core heap.now a) true_core (seen_core heap.now b))) }
{
    let always = constant(heap, Word::Sym(SymId(words::T)));
    choice(alloc, heap, a, always, b)
}

pub fn negated(alloc: Global, heap: &Heap, a: Core) -> Result<Core, AllocError>
    requires { CoreLies heap.now a }
    ensures { IfOk result (λ f. IsCore heap.now f (not_core (seen_core heap.now a))) }
{
    call_one(alloc, heap, SymId(words::NOT), a)
}

/// That the first is not below the second.
pub fn not_below(alloc: Global, heap: &Heap, a: Core, b: Core) -> Result<Core, AllocError>
    requires first { CoreLies heap.now a }
    requires second { CoreLies heap.now b }
    ensures { IfOk result (λ f. IsCore heap.now f (not_below (seen_core heap.now a) (seen_core heap.now b))) }
{
    let below = call_two(alloc, heap, SymId(words::BELOW), a, b)?;
    negated(alloc, heap, below)
}

fn join_two(alloc: Global, heap: &Heap, join: Join, a: Core, b: Core) -> Result<Core, AllocError>
    requires first { CoreLies heap.now a }
    requires second { CoreLies heap.now b }
    ensures { IfOk result (λ f. IsCore heap.now f (join_test join (seen_core heap.now a) (seen_core heap.now b))) }
{
    match join {
        Join::Either => either(alloc, heap, a, b),
        Join::Both => both(alloc, heap, a, b),
    }
}

/// What a test is not, where there is one.
pub fn other(alloc: Global, heap: &Heap, test: Option<Core>) -> Result<Option<Core>, AllocError>
    requires { test_reach test ≤ length heap.now }
    ensures { IfOk result (λ r. SeenTest heap.now r (option_map not_core (seen_test heap.now test))) }
{
    match test {
        None => Ok(None),
        Some(test) => {
            let test = negated(alloc, heap, test)?;
            Ok(Some(test))
        }
    }
}

/// The join of two tests, where there are both.
pub fn joined(
    alloc: Global,
    heap: &Heap,
    join: Join,
    a: Option<Core>,
    b: Option<Core>,
) -> Result<Option<Core>, AllocError>
    requires first { test_reach a ≤ length heap.now }
    requires second { test_reach b ≤ length heap.now }
    ensures { IfOk result (λ r. SeenTest heap.now r (joined_tests (join_test join) (seen_test heap.now a) (seen_test heap.now b))) }
{
    match a {
        None => Ok(None),
        Some(a) => match b {
            None => Ok(None),
            Some(b) => {
                let test = join_two(alloc, heap, join, a, b)?;
                Ok(Some(test))
            }
        },
    }
}
