//! Whether an object meets a type.

ghost use Rattle.std.specs.Prelude.{◌≡◌, ◌≤◌, ℕ, true, length, IfOk, OnErr, is_some};
ghost use Rattle.model_objects.specs.Object.{Object};
ghost use Rattle.model_prims.specs.Kinds.{by_number, is_pair};
ghost use Rattle.model_lists.specs.Types.{meets};
ghost use Rattle.model_eval.specs.StobjLayouts.{field_type};
ghost use Rattle.model_expansion.specs.TypeTerms.{accepted_type};
ghost use Rattle.acl_heap.specs.Objects.{object_of, Lies};
ghost use Rattle.acl_types.specs.Shapes.{seen_shape, shape_reach, within};
ghost use Rattle.acl_meets.specs.Tests.{shown, decides};

use crate::leaves::meets_leaf;
use acl_base::{SymId, Word};
use acl_heap::Heap;
use acl_types::{DEEPEST_TEST, Join, Shape, list_shape, shape_of};
use std::alloc::AllocError;

/// Whether a first test decides what a join of it and others says.
fn decides(join: Join, holds: bool) -> bool
    ensures { result ≡ decides join holds }
{
    match join {
        Join::Either => holds,
        Join::Both => !holds,
    }
}

/// Whether an object meets a type of which the shape is known, and whose test is no deeper.
#[cycle(met)]
#[tactic(auto, using(crate::proofs::PartLemmas::some_left, crate::proofs::PartLemmas::other_fits, crate::proofs::PartLemmas::first_fits, crate::proofs::PartLemmas::rest_fits, crate::proofs::PartLemmas::other_shown, crate::proofs::PartLemmas::first_decides, crate::proofs::PartLemmas::rest_decides))]
fn met(heap: &Heap, shape: Shape, left: u32, x: Word) -> Result<bool, AllocError>
    requires object { Lies heap.now x }
    requires reach { shape_reach shape ≤ length heap.now }
    requires fits { is_some (within left (seen_shape 0 heap.now shape)) ≡ true }
    ensures is { IfOk result (λ b. b ≡ shown (seen_shape 0 heap.now shape) (object_of heap.now x)) }
    ensures err { OnErr result (is_pair (object_of heap.now x) ≡ true) }
{
    match shape {
        Shape::Bad => Ok(true),
        Shape::Leaf(leaf) => {
            let holds = meets_leaf(heap, leaf, x)?;
            Ok(holds)
        }
        Shape::Other(a) => {
            let shape = shape_of(heap, SymId(0), a);
            match met(heap, shape, left - 1, x) {
                Err(refused) => Err(refused),
                Ok(holds) => Ok(!holds),
            }
        }
        Shape::Joined(join, a, rest) => {
            let shape = shape_of(heap, SymId(0), a);
            match met(heap, shape, left - 1, x) {
                Err(refused) => Err(refused),
                Ok(first) => {
                    if decides(join, first) {
                        return Ok(first);
                    }
                    let shape = list_shape(heap, SymId(0), join, rest);
                    match met(heap, shape, left - 1, x) {
                        Err(refused) => Err(refused),
                        Ok(holds) => Ok(holds),
                    }
                }
            }
        }
    }
}

/// Whether an object meets a type that is accepted. Only a pair that is compared with an element of a `MEMBER` takes memory.
#[tactic(auto, using(crate::proofs::PartLemmas::accepted_fits, crate::proofs::TestLemmas::type_shown))]
pub fn meets(heap: &Heap, written: Word, x: Word) -> Result<bool, AllocError>
    requires written { Lies heap.now written }
    requires object { Lies heap.now x }
    requires accepted { is_some (accepted_type (object_of heap.now written)) ≡ true }
    ensures is { IfOk result (λ b. b ≡ meets by_number (field_type (λ (o : Object ℕ). o) (object_of heap.now written)) (object_of heap.now x)) }
    ensures err { OnErr result (is_pair (object_of heap.now x) ≡ true) }
{
    let shape = shape_of(heap, SymId(0), written);
    match met(heap, shape, DEEPEST_TEST, x) {
        Err(refused) => Err(refused),
        Ok(holds) => Ok(holds),
    }
}
