//! The test of a type, as a core form.

ghost use Rattle.std.specs.Prelude.{◌≡◌, ◌≤◌, ℤ, length, IfOk, Some, [], ◌∷◌};
ghost use Rattle.model_objects.specs.Object.{Integer};
ghost use Rattle.model_terms.specs.Cores as cores;
ghost use Rattle.model_expansion.specs.TypeTerms.{integer_test, low_test, high_test, range_test, and_core, type_term};
ghost use Rattle.acl_heap.specs.Objects.{object_of, Lies, Extends};
ghost use Rattle.acl_terms.specs.Forms.{seen_core, CoreLies};
ghost use Rattle.acl_types.specs.Shapes.{IsCore, SeenTest, seen_leaf, leaf_reach, seen_shape, shape_reach, within};

use crate::accepted::{DEEPEST_TEST, leaf_depth};
use crate::forms::{both, call_one, call_two, constant, joined, not_below, other, variable};
use crate::reading::{list_shape, shape_of};
use crate::shape::{Leaf, Shape};
use crate::words;
use acl_base::{SymId, Word};
use acl_heap::{Heap, HeapFault};
use acl_terms::Core;
use std::alloc::{AllocError, Global};

/// An integer as a constant.
fn number(heap: &mut Heap, n: i128) -> Result<Core, AllocError>
    ensures grows { Extends heap.old heap.new }
    ensures ok { IfOk result (λ f. IsCore heap.new f (cores.Const (Integer n))) }
{
    match heap.int(n) {
        Ok(value) => Ok(constant(heap, value)),
        Err(HeapFault::Memory) => Err(AllocError),
        Err(HeapFault::TooLarge { .. }) => unreachable!(),
    }
}

fn is_integer(alloc: Global, heap: &Heap, name: SymId) -> Result<Core, AllocError>
    ensures { IfOk result (λ f. IsCore heap.now f (integer_test (cores.Var name.0))) }
{
    call_one(alloc, heap, SymId(words::INTEGERP), variable(heap, name))
}

fn at_least(alloc: Global, heap: &mut Heap, name: SymId, low: i128) -> Result<Core, AllocError>
    ensures grows { Extends heap.old heap.new }
    ensures ok { IfOk result (λ f. IsCore heap.new f (low_test low (cores.Var name.0))) }
{
    let low = number(heap, low)?;
    not_below(alloc, heap, variable(heap, name), low)
}

fn at_most(alloc: Global, heap: &mut Heap, name: SymId, high: i128) -> Result<Core, AllocError>
    ensures grows { Extends heap.old heap.new }
    ensures ok { IfOk result (λ f. IsCore heap.new f (high_test high (cores.Var name.0))) }
{
    let high = number(heap, high)?;
    not_below(alloc, heap, high, variable(heap, name))
}

#[tactic(auto, using(crate::proofs::FormLemmas::core_later))]
fn within_both(
    alloc: Global,
    heap: &mut Heap,
    name: SymId,
    low: i128,
    high: i128,
) -> Result<Core, AllocError>
    ensures grows { Extends heap.old heap.new }
    ensures ok { IfOk result (λ f. IsCore heap.new f (and_core (low_test low (cores.Var name.0)) (high_test high (cores.Var name.0)))) }
{
    let low = at_least(alloc, heap, name, low)?;
    let high = at_most(alloc, heap, name, high)?;
    both(alloc, heap, low, high)
}

/// An integer, and what else is asked of it.
fn integer_and(alloc: Global, heap: &Heap, name: SymId, more: Core) -> Result<Core, AllocError>
    requires { CoreLies heap.now more }
    ensures { IfOk result (λ f. IsCore heap.now f (and_core (integer_test (cores.Var name.0)) (seen_core heap.now more))) }
{
    let test = is_integer(alloc, heap, name)?;
    both(alloc, heap, test, more)
}

fn range_test(
    alloc: Global,
    heap: &mut Heap,
    name: SymId,
    low: Option<i128>,
    high: Option<i128>,
) -> Result<Core, AllocError>
    ensures grows { Extends heap.old heap.new }
    ensures ok { IfOk result (λ f. IsCore heap.new f (range_test low high (cores.Var name.0))) }
{
    match low {
        None => match high {
            None => is_integer(alloc, heap, name),
            Some(high) => {
                let more = at_most(alloc, heap, name, high)?;
                integer_and(alloc, heap, name, more)
            }
        },
        Some(low) => match high {
            None => {
                let more = at_least(alloc, heap, name, low)?;
                integer_and(alloc, heap, name, more)
            }
            Some(high) => {
                let more = within_both(alloc, heap, name, low, high)?;
                integer_and(alloc, heap, name, more)
            }
        },
    }
}

/// The test of a type with no types in it.
fn leaf_test(alloc: Global, heap: &mut Heap, name: SymId, leaf: Leaf) -> Result<Core, AllocError>
    requires { leaf_reach leaf ≤ length heap.old }
    ensures grows { Extends heap.old heap.new }
    ensures ok { IfOk result (λ f. IsCore heap.new f (seen_leaf name.0 heap.old leaf)) }
{
    match leaf {
        Leaf::Always => Ok(constant(heap, Word::Sym(SymId(words::T)))),
        Leaf::Never => Ok(constant(heap, Word::Sym(SymId(words::NIL)))),
        Leaf::Between(low, high) => range_test(alloc, heap, name, low, high),
        Leaf::Meets(predicate) => call_one(alloc, heap, predicate, variable(heap, name)),
        Leaf::Among(list) => call_two(
            alloc,
            heap,
            SymId(words::MEMBER_EQUAL),
            variable(heap, name),
            constant(heap, list),
        ),
    }
}

fn shallow_leaf(
    alloc: Global,
    heap: &mut Heap,
    name: SymId,
    leaf: Leaf,
    left: u32,
) -> Result<Option<Core>, AllocError>
    requires { leaf_reach leaf ≤ length heap.old }
    ensures grows { Extends heap.old heap.new }
    ensures ok { IfOk result (λ t. SeenTest heap.new t (within left (Some (seen_leaf name.0 heap.old leaf)))) }
{
    if leaf_depth(heap, name, leaf) > left {
        return Ok(None);
    }
    let test = leaf_test(alloc, heap, name, leaf)?;
    Ok(Some(test))
}

/// The test of a shape, where it is no deeper.
#[cycle(test_of)]
#[tactic(auto, using(crate::proofs::DepthLemmas::within_none, crate::proofs::DepthLemmas::within_other, crate::proofs::DepthLemmas::within_joined, crate::proofs::FormLemmas::test_later))]
fn test_of(
    alloc: Global,
    heap: &mut Heap,
    name: SymId,
    shape: Shape,
    left: u32,
) -> Result<Option<Core>, AllocError>
    requires { shape_reach shape ≤ length heap.old }
    ensures grows { Extends heap.old heap.new }
    ensures ok { IfOk result (λ t. SeenTest heap.new t (within left (seen_shape name.0 heap.old shape))) }
{
    if left == 0 {
        return Ok(None);
    }
    match shape {
        Shape::Bad => Ok(None),
        Shape::Leaf(leaf) => shallow_leaf(alloc, heap, name, leaf, left),
        Shape::Other(a) => {
            let shape = shape_of(heap, name, a);
            match test_of(alloc, heap, name, shape, left - 1) {
                Err(refused) => Err(refused),
                Ok(test) => other(alloc, heap, test),
            }
        }
        Shape::Joined(join, a, rest) => {
            let shape = shape_of(heap, name, a);
            match test_of(alloc, heap, name, shape, left - 1) {
                Err(refused) => Err(refused),
                Ok(first) => {
                    let shape = list_shape(heap, name, join, rest);
                    match test_of(alloc, heap, name, shape, left - 1) {
                        Err(refused) => Err(refused),
                        Ok(second) => match joined(alloc, heap, join, first, second) {
                            Err(refused) => Err(refused),
                            Ok(test) => Ok(test),
                        },
                    }
                }
            }
        }
    }
}

/// The test of a type over a variable. None where the object is no type, or its test is more than 200 deep.
pub fn type_test(
    alloc: Global,
    heap: &mut Heap,
    name: SymId,
    written: Word,
) -> Result<Option<Core>, AllocError>
    requires { Lies heap.old written }
    ensures grows { Extends heap.old heap.new }
    ensures ok { IfOk result (λ t. SeenTest heap.new t (type_term (object_of heap.old written) (cores.Var name.0))) }
{
    let shape = shape_of(heap, name, written);
    match test_of(alloc, heap, name, shape, DEEPEST_TEST) {
        Err(refused) => Err(refused),
        Ok(test) => Ok(test),
    }
}
