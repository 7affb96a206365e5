//! Core forms that tests of declared types are made of.

ghost use Rattle.std.specs.Prelude.{◌≡◌, ◌≤◌, [], ◌∷◌, length, IfOk, option_map};
ghost use Rattle.model_terms.specs.Cores as cores;
ghost use Rattle.model_expansion.specs.TypeTerms.{not_core, joined_tests};
ghost use Rattle.acl_heap.specs.Objects.{object_of};
ghost use Rattle.acl_terms.specs.Forms.{seen_core, CoreLies};
ghost use Rattle.acl_types.specs.Shapes.{IsCore, SeenTest, seen_test, test_reach, join_test};
ghost use Rattle.acl_declare.specs.Tests.{empty_test};

use crate::words;
use acl_base::{SymId, Word};
use acl_heap::Heap;
use acl_terms::Core;
use acl_types::{Join, call_one, choice, constant};
use std::alloc::{AllocError, Global};

/// The test of a list of no types.
pub fn empty_test(heap: &Heap, join: Join) -> Core
    ensures { IsCore heap.now result (empty_test join) }
{
    match join {
        Join::Either => constant(heap, Word::Sym(SymId(words::NIL))),
        Join::Both => constant(heap, Word::Sym(SymId(words::T))),
    }
}

fn join_two(alloc: Global, heap: &Heap, join: Join, a: Core, b: Core) -> Result<Core, AllocError>
    requires first { CoreLies heap.now a }
    requires second { CoreLies heap.now b }
    ensures { IfOk result (λ f. IsCore heap.now f (join_test join (seen_core heap.now a) (seen_core heap.now b))) }
{
    match join {
        Join::Either => {
            let always = empty_test(heap, Join::Both);
            choice(alloc, heap, a, always, b)
        }
        Join::Both => {
            let never = empty_test(heap, Join::Either);
            choice(alloc, heap, a, b, never)
        }
    }
}

fn negated(alloc: Global, heap: &Heap, a: Core) -> Result<Core, AllocError>
    requires { CoreLies heap.now a }
    ensures { IfOk result (λ f. IsCore heap.now f (not_core (seen_core heap.now a))) }
{
    call_one(alloc, heap, SymId(words::NOT), a)
}

/// What a test is not, where there is one.
pub fn other(alloc: Global, heap: &Heap, test: Option<Core>) -> Result<Option<Core>, AllocError>
    requires { test_reach test ≤ length heap.now }
    ensures { IfOk result (λ r. SeenTest heap.now r (option_map not_core (seen_test heap.now test))) }
{
    match test {
        None => Ok(None),
        Some(test) => {
            let test = negated(alloc, heap, test)?;
            Ok(Some(test))
        }
    }
}

/// The join of two tests, where there are both.
pub fn joined(
    alloc: Global,
    heap: &Heap,
    join: Join,
    a: Option<Core>,
    b: Option<Core>,
) -> Result<Option<Core>, AllocError>
    requires first { test_reach a ≤ length heap.now }
    requires second { test_reach b ≤ length heap.now }
    ensures { IfOk result (λ r. SeenTest heap.now r (joined_tests (join_test join) (seen_test heap.now a) (seen_test heap.now b))) }
{
    match a {
        None => Ok(None),
        Some(a) => match b {
            None => Ok(None),
            Some(b) => {
                let test = join_two(alloc, heap, join, a, b)?;
                Ok(Some(test))
            }
        },
    }
}
