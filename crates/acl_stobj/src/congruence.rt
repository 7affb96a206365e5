//! Whether a stobj has the fields of the one that it is to be congruent to.

ghost use Rattle.std.specs.Prelude.{◌≡◌, ◌≤◌, ◌&&◌, length, map, option_map, IfOk};
ghost use Rattle.model_stobjs.specs.Descriptors.{same_test, same_flag, same_shape, mismatch_from, mismatch};
ghost use Rattle.model_expansion.specs.Faults.{CongruenceMismatch};
ghost use Rattle.model_prims.specs.Kinds.{by_number, same_object};
ghost use Rattle.acl_heap.specs.Objects.{object_of, Lies};
ghost use Rattle.acl_terms.specs.declared.stobj.Shape.TheVariants.{Scalar, Array, Hash, Child, Children};
ghost use Rattle.acl_terms.specs.Definitions.{seen_shape, shape_reach, seen_field, seen_descriptor, descriptor_reach};
ghost use Rattle.acl_worlds.specs.Contents.{seen_world, WorldLies};
ghost use Rattle.acl_stobj.specs.MadeFields.{made_reach};

use acl_base::{SymId, Test, Word};
use acl_heap::Heap;
use acl_stobj_read::descriptor_of;
use acl_terms::{Descriptor, FieldDescriptor, Shape};
use acl_worlds::World;
use std::alloc::AllocError;

fn same_test(a: Test, b: Test) -> bool
    ensures { result ≡ same_test a b }
{
    match a {
        Test::Eq => match b {
            Test::Eq => true,
            Test::Eql => false,
            Test::Equal => false,
        },
        Test::Eql => match b {
            Test::Eq => false,
            Test::Eql => true,
            Test::Equal => false,
        },
        Test::Equal => match b {
            Test::Eq => false,
            Test::Eql => false,
            Test::Equal => true,
        },
    }
}

fn same_flag(a: bool, b: bool) -> bool
    ensures { result ≡ same_flag a b }
{
    if a { b } else { !b }
}

#[tactic(auto, using(model_prims::proofs::Same::same_objects))]
fn same_object(heap: &Heap, a: Word, b: Word) -> Result<bool, AllocError>
    requires first { Lies heap.now a }
    requires second { Lies heap.now b }
    ensures { IfOk result (λ same. same ≡ same_object by_number (object_of heap.now a) (object_of heap.now b)) }
{
    let same = heap.equal(a, b)?;
    Ok(same)
}

/// Whether two types are equal as they were written, and two initial values.
#[tactic(auto, using(crate::proofs::CongruenceLemmas::other_type, crate::proofs::CongruenceLemmas::same_type))]
fn same_pair(heap: &Heap, spec: (Word, Word), initial: (Word, Word)) -> Result<bool, AllocError>
    requires spec_first { Lies heap.now spec.0 }
    requires spec_second { Lies heap.now spec.1 }
    requires initial_first { Lies heap.now initial.0 }
    requires initial_second { Lies heap.now initial.1 }
    ensures { IfOk result (λ same. same ≡ (same_object by_number (object_of heap.now spec.0) (object_of heap.now spec.1) && same_object by_number (object_of heap.now initial.0) (object_of heap.now initial.1))) }
{
    if !same_object(heap, spec.0, spec.1)? {
        return Ok(false);
    }
    let same = same_object(heap, initial.0, initial.1)?;
    Ok(same)
}

fn same_scalar(heap: &Heap, spec: Word, initial: Word, other: Shape) -> Result<bool, AllocError>
    requires spec { Lies heap.now spec }
    requires initial { Lies heap.now initial }
    requires other { shape_reach other ≤ length heap.now }
    ensures { IfOk result (λ same. same ≡ same_shape (seen_shape heap.now (Scalar spec initial)) (seen_shape heap.now other)) }
{
    match other {
        Shape::Scalar {
            spec: other_spec,
            initial: other_initial,
        } => {
            let same = same_pair(heap, (spec, other_spec), (initial, other_initial))?;
            Ok(same)
        }
        Shape::Array { .. } => Ok(false),
        Shape::Hash(_) => Ok(false),
        Shape::Child(_) => Ok(false),
        Shape::Children { .. } => Ok(false),
    }
}

#[tactic(auto, using(crate::proofs::CongruenceLemmas::other_array, crate::proofs::CongruenceLemmas::other_length, crate::proofs::CongruenceLemmas::same_array))]
fn same_array(
    heap: &Heap,
    spec: Word,
    initial: Word,
    len: u32,
    resizable: bool,
    other: Shape,
) -> Result<bool, AllocError>
    requires spec { Lies heap.now spec }
    requires initial { Lies heap.now initial }
    requires other { shape_reach other ≤ length heap.now }
    ensures { IfOk result (λ same. same ≡ same_shape (seen_shape heap.now (Array spec initial len resizable)) (seen_shape heap.now other)) }
{
    match other {
        Shape::Array {
            spec: other_spec,
            initial: other_initial,
            len: other_len,
            resizable: other_resizable,
        } => {
            if !same_pair(heap, (spec, other_spec), (initial, other_initial))? {
                return Ok(false);
            }
            if len != other_len {
                return Ok(false);
            }
            Ok(same_flag(resizable, other_resizable))
        }
        Shape::Scalar { .. } => Ok(false),
        Shape::Hash(_) => Ok(false),
        Shape::Child(_) => Ok(false),
        Shape::Children { .. } => Ok(false),
    }
}

fn same_hash(_heap: &Heap, test: Test, other: Shape) -> bool
    ensures { result ≡ same_shape (seen_shape _heap.now (Hash test)) (seen_shape _heap.now other) }
{
    match other {
        Shape::Hash(other_test) => same_test(test, other_test),
        Shape::Scalar { .. } => false,
        Shape::Array { .. } => false,
        Shape::Child(_) => false,
        Shape::Children { .. } => false,
    }
}

fn same_child(_heap: &Heap, stobj: SymId, other: Shape) -> bool
    ensures { result ≡ same_shape (seen_shape _heap.now (Child stobj)) (seen_shape _heap.now other) }
{
    match other {
        Shape::Child(other_stobj) => stobj.0 == other_stobj.0,
        Shape::Scalar { .. } => false,
        Shape::Array { .. } => false,
        Shape::Hash(_) => false,
        Shape::Children { .. } => false,
    }
}

fn same_children(_heap: &Heap, stobj: SymId, len: u32, other: Shape) -> bool
    ensures { result ≡ same_shape (seen_shape _heap.now (Children stobj len)) (seen_shape _heap.now other) }
{
    match other {
        Shape::Children {
            stobj: other_stobj,
            len: other_len,
        } => {
            if stobj.0 != other_stobj.0 {
                return false;
            }
            len == other_len
        }
        Shape::Scalar { .. } => false,
        Shape::Array { .. } => false,
        Shape::Hash(_) => false,
        Shape::Child(_) => false,
    }
}

fn same_shape(heap: &Heap, a: Shape, b: Shape) -> Result<bool, AllocError>
    requires first { shape_reach a ≤ length heap.now }
    requires second { shape_reach b ≤ length heap.now }
    ensures { IfOk result (λ same. same ≡ same_shape (seen_shape heap.now a) (seen_shape heap.now b)) }
{
    match a {
        Shape::Scalar { spec, initial } => {
            let same = same_scalar(heap, spec, initial, b)?;
            Ok(same)
        }
        Shape::Array {
            spec,
            initial,
            len,
            resizable,
        } => {
            let same = same_array(heap, spec, initial, len, resizable, b)?;
            Ok(same)
        }
        Shape::Hash(test) => Ok(same_hash(heap, test, b)),
        Shape::Child(stobj) => Ok(same_child(heap, stobj, b)),
        Shape::Children { stobj, len } => Ok(same_children(heap, stobj, len, b)),
    }
}

/// The first place at which fields differ.
#[tactic(auto, using(crate::proofs::CongruenceLemmas::still_same, crate::proofs::CongruenceLemmas::differs, crate::proofs::CongruenceLemmas::fewer, crate::proofs::CongruenceLemmas::as_many, crate::proofs::CongruenceLemmas::more, crate::proofs::CongruenceLemmas::first_lies, crate::proofs::CongruenceLemmas::others_lie, crate::proofs::CongruenceLemmas::one_less))]
fn first_difference(
    heap: &Heap,
    old: &[FieldDescriptor],
    new: &[FieldDescriptor],
) -> Result<Option<usize>, AllocError>
    requires old { made_reach old.now ≤ length heap.now }
    requires new { made_reach new.now ≤ length heap.now }
    ensures { IfOk result (λ r. mismatch_from 0 (map (seen_field heap.now) old.now) (map (seen_field heap.now) new.now) ≡ r) }
{
    let mut at: usize = 0;
    let mut left = old;
    let mut rest = new;
    'fields: while let Some((a, others)) = left.split_first() {
        match rest.split_first() {
            None => return Ok(Some(at)),
            Some((b, more)) => {
                if !same_shape(heap, a.shape, b.shape)? {
                    return Ok(Some(at));
                }
                rest = more;
            }
        }
        at += 1;
        left = others;
    }
    match rest.split_first() {
        None => Ok(None),
        Some(_) => Ok(Some(at)),
    }
}

/// The place of the first field that differs from that of the stobj that this is to be congruent to.
#[tactic(auto, using(crate::proofs::CongruenceLemmas::not_congruent, crate::proofs::CongruenceLemmas::no_old, crate::proofs::CongruenceLemmas::compared))]
pub fn mismatch(
    world: &World,
    heap: &Heap,
    descriptor: &Descriptor,
) -> Result<Option<usize>, AllocError>
    requires descriptor { descriptor_reach descriptor.now ≤ length heap.now }
    requires world { WorldLies heap.now world.now }
    ensures { IfOk result (λ r. mismatch (seen_world heap.now world.now) (seen_descriptor heap.now descriptor.now) ≡ option_map CongruenceMismatch r) }
{
    let Some(old) = descriptor.congruent_to else {
        return Ok(None);
    };
    match descriptor_of(world, heap, old) {
        None => Ok(None),
        Some(other) => {
            let place = first_difference(
                heap,
                other.fields.as_slice(),
                descriptor.fields.as_slice(),
            )?;
            Ok(place)
        }
    }
}
