//! Fields that are read.

ghost use Rattle.std.specs.Prelude.{◌≡◌, IfOk};
ghost use Rattle.model_prims.specs.Kinds.{by_number};
ghost use Rattle.model_prims.specs.Applied.{argument};
ghost use Rattle.model_prims.specs.Numbers.{natural_of};
ghost use Rattle.model_lists.specs.Lists as model;
ghost use Rattle.model_lists.specs.Lists.{scalar_of};
ghost use Rattle.model_lists.specs.Effects.{reads, reads_number, accessed, measured, when, is_index};
ghost use Rattle.model_eval.specs.Variables.{ordinary};
ghost use Rattle.acl_heap.specs.Objects.{object_of, Denotes, Extends};
ghost use Rattle.acl_terms.specs.Definitions.{seen_shape};
ghost use Rattle.acl_keep.specs.Seen.{all_seen};
ghost use Rattle.acl_lists.specs.Pairs.{Within};
ghost use Rattle.acl_list_parts.specs.Parts.{list_given};
ghost use Rattle.acl_list_calls.specs.Results.{Does, ValuesLie};
ghost use Rattle.acl_list_calls.specs.Plain.{plain_layout};

use crate::arguments::{NIL, argument};
use crate::done::{Done, Place};
use acl_base::Word;
use acl_heap::Heap;
use acl_list_parts::{child_in, is_index, item, size};
use acl_lists::{ListId, Lists};
use acl_terms::{Shape, Shown};
use std::alloc::AllocError;

/// Makes a copy of a value in a heap; `NIL` where the list is none.
#[tactic(auto, using(crate::proofs::ReadLemmas::nil_denoted, crate::proofs::ReadLemmas::extends_same))]
pub(crate) fn scalar(
    lists: &Lists,
    heap: &mut Heap,
    list: Option<ListId>,
) -> Result<Word, AllocError>
    requires { Within lists.now list }
    ensures grows { Extends heap.old heap.new }
    ensures is { IfOk result (λ w. Denotes heap.new w (scalar_of by_number (list_given lists.now list))) }
{
    match list {
        Some(n) => {
            let w = lists.copy_out(n, heap)?;
            Ok(w)
        }
        None => Ok(NIL),
    }
}

/// A number.
#[tactic(auto, using(crate::proofs::ReadLemmas::number_read))]
pub(crate) fn number(_lists: &Lists, heap: &mut Heap, n: u64) -> Result<Done, AllocError>
    ensures grows { Extends heap.old heap.new }
    ensures is { IfOk result (Does heap.new _lists.now (reads_number by_number n)) }
{
    match heap.int(n as i128) {
        Ok(w) => Ok(Done::Reads(w)),
        Err(_refused) => Err(AllocError),
    }
}

/// The element of an array.
#[tactic(auto, using(crate::proofs::ReadLemmas::element_read, crate::proofs::ReadLemmas::element_refused, crate::proofs::ReadLemmas::extends_same))]
fn element(
    lists: &Lists,
    heap: &mut Heap,
    field: Option<ListId>,
    values: &[Shown],
) -> Result<Done, AllocError>
    requires field { Within lists.now field }
    requires values { ValuesLie heap.old values.now }
    ensures grows { Extends heap.old heap.new }
    ensures is { IfOk result (Does heap.new lists.now (when by_number (is_index (argument by_number (ordinary (all_seen heap.old values.now)) 0) (model.size (list_given lists.now field))) (reads by_number (scalar_of by_number (model.item (natural_of (argument by_number (ordinary (all_seen heap.old values.now)) 0)) (list_given lists.now field)))))) }
{
    let index = argument(values, heap, 0);
    let count = size(lists, field);
    if !is_index(heap, index, count) {
        return Ok(Done::Refuses);
    }
    let found = child_in(lists, heap, field, Some(index));
    let w = scalar(lists, heap, found)?;
    Ok(Done::Reads(w))
}

/// A scalar field, or an element.
#[tactic(auto, using(crate::proofs::ReadLemmas::scalar_accessed, crate::proofs::ReadLemmas::element_accessed, crate::proofs::ReadLemmas::hash_accessed, crate::proofs::ReadLemmas::child_accessed, crate::proofs::ReadLemmas::children_accessed, crate::proofs::ReadLemmas::extends_same))]
pub fn access(
    lists: &Lists,
    heap: &mut Heap,
    place: Place,
    shape: Shape,
    values: &[Shown],
) -> Result<Done, AllocError>
    requires place { Within lists.now place.list }
    requires values { ValuesLie heap.old values.now }
    ensures grows { Extends heap.old heap.new }
    ensures is { IfOk result (Does heap.new lists.now (accessed by_number (plain_layout (seen_shape heap.old shape)) place.field (ordinary (all_seen heap.old values.now)) (list_given lists.now place.list))) }
{
    match shape {
        Shape::Scalar { .. } => {
            let field = item(lists, place.list, place.field as u64);
            let w = scalar(lists, heap, field)?;
            Ok(Done::Reads(w))
        }
        Shape::Array { .. } => {
            let field = item(lists, place.list, place.field as u64);
            let done = element(lists, heap, field, values)?;
            Ok(done)
        }
        Shape::Hash(_) => Ok(Done::Refuses),
        Shape::Child(_) => Ok(Done::Refuses),
        Shape::Children { .. } => Ok(Done::Refuses),
    }
}

/// How many elements an array has.
pub fn measure(lists: &Lists, heap: &mut Heap, place: Place) -> Result<Done, AllocError>
    requires { Within lists.now place.list }
    ensures grows { Extends heap.old heap.new }
    ensures is { IfOk result (Does heap.new lists.now (measured by_number place.field (list_given lists.now place.list))) }
{
    let field = item(lists, place.list, place.field as u64);
    let count = size(lists, field);
    let done = number(lists, heap, count)?;
    Ok(done)
}
