//! Whether an object is a type whose test is not too deep.

ghost use Rattle.std.specs.Prelude.{◌≡◌, ℕ, ◌≤◌, ◌<◌, length, Some, is_some};
ghost use Rattle.model_expansion.specs.TypeTerms.{depth_of, accepted_type};
ghost use Rattle.acl_heap.specs.Objects.{object_of, Lies};
ghost use Rattle.acl_types.specs.Shapes.{seen_leaf, seen_shape, shape_reach, within};

use crate::reading::{list_shape, shape_of};
use crate::shape::{Leaf, Shape};
use acl_base::{SymId, Word};
use acl_heap::Heap;

/// How deep the test of a type may be.
pub const DEEPEST_TEST: u32 = 200;

/// How deep the test of a type is that has no types in it.
pub fn leaf_depth(_heap: &Heap, _name: SymId, leaf: Leaf) -> u32
    ensures { depth_of (seen_leaf _name.0 _heap.now leaf) ≡ result }
{
    match leaf {
        Leaf::Always => 1,
        Leaf::Never => 1,
        Leaf::Between(None, None) => 2,
        Leaf::Between(None, Some(_)) => 4,
        Leaf::Between(Some(_), None) => 4,
        Leaf::Between(Some(_), Some(_)) => 5,
        Leaf::Meets(_) => 2,
        Leaf::Among(_) => 2,
    }
}

/// Whether there is a test that is no deeper.
#[cycle(fits)]
#[tactic(auto, using(crate::proofs::DepthLemmas::within_none, crate::proofs::DepthLemmas::within_other, crate::proofs::DepthLemmas::within_joined, crate::proofs::DepthLemmas::is_other, crate::proofs::DepthLemmas::is_joined, crate::proofs::DepthLemmas::is_within))]
fn fits(heap: &Heap, name: SymId, shape: Shape, left: u32) -> bool
    requires { shape_reach shape ≤ length heap.now }
    ensures { result ≡ is_some (within left (seen_shape name.0 heap.now shape)) }
{
    if left == 0 {
        return false;
    }
    match shape {
        Shape::Bad => false,
        Shape::Leaf(leaf) => leaf_depth(heap, name, leaf) <= left,
        Shape::Other(a) => fits(heap, name, shape_of(heap, name, a), left - 1),
        Shape::Joined(join, a, rest) => {
            if !fits(heap, name, shape_of(heap, name, a), left - 1) {
                return false;
            }
            fits(heap, name, list_shape(heap, name, join, rest), left - 1)
        }
    }
}

/// Whether it is a type whose test is at most 200 deep.
#[tactic(auto, using(crate::proofs::DepthLemmas::accepted))]
pub fn is_type(heap: &Heap, written: Word) -> bool
    requires { Lies heap.now written }
    ensures { result ≡ is_some (accepted_type (object_of heap.now written)) }
{
    let name = SymId(0);
    fits(heap, name, shape_of(heap, name, written), DEEPEST_TEST)
}
