//! The test of a type as fields have it, where it is no deeper than so many.

ghost use Rattle.std.specs.Prelude.{◌≡◌, ◌≤◌, ◌<◌, length, IfOk, Some, is_some};
ghost use Rattle.model_terms.specs.Cores.{Var};
ghost use Rattle.model_expansion.specs.TypeTerms.{depth_of, plain_test};
ghost use Rattle.acl_heap.specs.Objects.{object_of, Lies, Extends};
ghost use Rattle.acl_types.specs.Shapes.{SeenTest, seen_leaf, seen_shape, shape_reach, within, tested, type_in};

use acl_base::{SymId, Word};
use acl_heap::Heap;
use acl_terms::Core;
use acl_types::{Leaf, Shape, list_shape, shape_of, type_test};
use std::alloc::{AllocError, Global};

/// How deep the test of a type is that has no types in it.
fn leaf_depth(_heap: &Heap, _name: SymId, leaf: Leaf) -> u32
    ensures { depth_of (seen_leaf _name.0 _heap.now leaf) ≡ result }
{
    match leaf {
        Leaf::Always => 1,
        Leaf::Never => 1,
        Leaf::Between(None, None) => 2,
        Leaf::Between(None, Some(_)) => 4,
        Leaf::Between(Some(_), None) => 4,
        Leaf::Between(Some(_), Some(_)) => 5,
        Leaf::Meets(_) => 2,
        Leaf::Among(_) => 2,
    }
}

/// Whether there is a test that is no deeper.
#[cycle(fits)]
#[tactic(auto, using(acl_types::proofs::DepthLemmas::within_none, acl_types::proofs::DepthLemmas::within_other, acl_types::proofs::DepthLemmas::within_joined, acl_types::proofs::DepthLemmas::is_other, acl_types::proofs::DepthLemmas::is_joined, acl_types::proofs::DepthLemmas::is_within))]
fn fits(heap: &Heap, name: SymId, shape: Shape, left: u32) -> bool
    requires { shape_reach shape ≤ length heap.now }
    ensures { result ≡ is_some (within left (seen_shape name.0 heap.now shape)) }
{
    if left == 0 {
        return false;
    }
    match shape {
        Shape::Bad => false,
        Shape::Leaf(leaf) => leaf_depth(heap, name, leaf) <= left,
        Shape::Other(a) => fits(heap, name, shape_of(heap, name, a), left - 1),
        Shape::Joined(join, a, rest) => {
            if !fits(heap, name, shape_of(heap, name, a), left - 1) {
                return false;
            }
            fits(heap, name, list_shape(heap, name, join, rest), left - 1)
        }
    }
}

fn plain_fits(heap: &Heap, name: SymId, written: Word, left: u32) -> bool
    requires { Lies heap.now written }
    ensures { result ≡ is_some (within left (tested name.0 (type_in (object_of heap.now written)))) }
{
    fits(heap, name, shape_of(heap, name, written), left)
}

/// The test of a type as fields have it, where it is no deeper.
#[tactic(auto, using(crate::proofs::DepthLemmas::plain_none, crate::proofs::DepthLemmas::plain_some))]
pub fn plain_test(
    alloc: Global,
    heap: &mut Heap,
    name: SymId,
    written: Word,
    left: u32,
) -> Result<Option<Core>, AllocError>
    requires lies { Lies heap.old written }
    requires left { left ≤ 200 }
    ensures grows { Extends heap.old heap.new }
    ensures ok { IfOk result (λ t. SeenTest heap.new t (within left (plain_test (Var name.0) (object_of heap.old written)))) }
{
    if !plain_fits(heap, name, written, left) {
        return Ok(None);
    }
    match type_test(alloc, heap, name, written) {
        Err(refused) => Err(refused),
        Ok(test) => Ok(test),
    }
}
