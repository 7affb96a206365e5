//! The test of a type of a declaration, as a core form.

ghost use Rattle.std.specs.Prelude.{◌≡◌, ◌≤◌, ◌<◌, length, IfOk, Some};
ghost use Rattle.model_terms.specs.Cores.{Var};
ghost use Rattle.model_expansion.specs.TypeTerms.{declared_test};
ghost use Rattle.acl_heap.specs.Objects.{object_of, Lies, Extends};
ghost use Rattle.acl_types.specs.Shapes.{SeenTest, within};
ghost use Rattle.acl_declare.specs.Tests.{predicate_test, seen_shape, shape_reach};

use crate::forms::{empty_test, joined, other};
use crate::plain::plain_test;
use crate::reading::{list_shape, test_shape};
use crate::shape::TestShape;
use acl_base::{SymId, Word};
use acl_heap::Heap;
use acl_terms::Core;
use acl_types::{DEEPEST_TEST, call_one, variable};
use std::alloc::{AllocError, Global};

/// What meets a predicate, where so many levels are left.
#[tactic(auto, using(crate::proofs::DepthLemmas::predicate_none, crate::proofs::DepthLemmas::predicate_some))]
fn predicate_test(
    alloc: Global,
    heap: &Heap,
    name: SymId,
    predicate: SymId,
    left: u32,
) -> Result<Option<Core>, AllocError>
    ensures { IfOk result (λ t. SeenTest heap.now t (within left (Some (predicate_test name.0 predicate.0)))) }
{
    if left < 2 {
        return Ok(None);
    }
    let test = call_one(alloc, heap, predicate, variable(heap, name))?;
    Ok(Some(test))
}

/// The test of a shape, where it is no deeper.
#[cycle(test_of)]
#[tactic(auto, using(acl_types::proofs::DepthLemmas::within_none, acl_types::proofs::DepthLemmas::within_other, acl_types::proofs::DepthLemmas::within_joined, acl_types::proofs::FormLemmas::test_later, crate::proofs::DepthLemmas::within_empty))]
fn test_of(
    alloc: Global,
    heap: &mut Heap,
    name: SymId,
    shape: TestShape,
    left: u32,
) -> Result<Option<Core>, AllocError>
    requires reach { shape_reach shape ≤ length heap.old }
    requires left { left ≤ 200 }
    ensures grows { Extends heap.old heap.new }
    ensures ok { IfOk result (λ t. SeenTest heap.new t (within left (seen_shape name.0 heap.old shape))) }
{
    if left == 0 {
        return Ok(None);
    }
    match shape {
        TestShape::Bad => Ok(None),
        TestShape::Plain(written) => plain_test(alloc, heap, name, written, left),
        TestShape::Satisfies(predicate) => predicate_test(alloc, heap, name, predicate, left),
        TestShape::Empty(join) => Ok(Some(empty_test(heap, join))),
        TestShape::Other(a) => {
            let shape = test_shape(heap, name, a);
            match test_of(alloc, heap, name, shape, left - 1) {
                Err(refused) => Err(refused),
                Ok(test) => other(alloc, heap, test),
            }
        }
        TestShape::Joined(join, a, rest) => {
            let shape = test_shape(heap, name, a);
            match test_of(alloc, heap, name, shape, left - 1) {
                Err(refused) => Err(refused),
                Ok(first) => {
                    let shape = list_shape(heap, name, join, rest);
                    match test_of(alloc, heap, name, shape, left - 1) {
                        Err(refused) => Err(refused),
                        Ok(second) => match joined(alloc, heap, join, first, second) {
                            Err(refused) => Err(refused),
                            Ok(test) => Ok(test),
                        },
                    }
                }
            }
        }
    }
}

/// The test of a type of a declaration over a variable. None where the object is no such type, or its test is more than 200
/// deep.
pub fn declared_test(
    alloc: Global,
    heap: &mut Heap,
    name: SymId,
    written: Word,
) -> Result<Option<Core>, AllocError>
    requires { Lies heap.old written }
    ensures grows { Extends heap.old heap.new }
    ensures ok { IfOk result (λ t. SeenTest heap.new t (declared_test (Var name.0) (object_of heap.old written))) }
{
    let shape = test_shape(heap, name, written);
    match test_of(alloc, heap, name, shape, DEEPEST_TEST) {
        Err(refused) => Err(refused),
        Ok(test) => Ok(test),
    }
}
