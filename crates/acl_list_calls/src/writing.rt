//! Fields that are written: a list is made that has another one.

ghost use Rattle.std.specs.Prelude.{◌≡◌, ◌≤◌, ◌&&◌, true, length, is_some, IfOk};
ghost use Rattle.model_prims.specs.Kinds.{by_number};
ghost use Rattle.model_prims.specs.Applied.{argument};
ghost use Rattle.model_prims.specs.Numbers.{natural_of};
ghost use Rattle.model_lists.specs.Lists as model;
ghost use Rattle.model_lists.specs.Types.{meets};
ghost use Rattle.model_lists.specs.Effects.{Writes, changed, lengthened, when, is_index, is_up_to, most_elements};
ghost use Rattle.model_eval.specs.StobjLayouts.{field_type};
ghost use Rattle.model_eval.specs.Variables.{ordinary};
ghost use Rattle.model_expansion.specs.TypeTerms.{accepted_type};
ghost use Rattle.acl_heap.specs.Objects.{object_of, Lies};
ghost use Rattle.acl_terms.specs.Definitions.{seen_shape, shape_reach};
ghost use Rattle.acl_keep.specs.Seen.{all_seen};
ghost use Rattle.acl_lists.specs.Tables.{Grown};
ghost use Rattle.acl_lists.specs.Pairs.{Within};
ghost use Rattle.acl_new_lists.specs.Begun.{itself};
ghost use Rattle.acl_layouts.specs.Typed.{IsTyped};
ghost use Rattle.acl_list_parts.specs.Parts.{list_given};
ghost use Rattle.acl_list_calls.specs.Results.{Does, ValuesLie};
ghost use Rattle.acl_list_calls.specs.Plain.{plain_layout};

use crate::arguments::argument;
use crate::done::{Done, Place};
use acl_base::Word;
use acl_heap::Heap;
use acl_list_parts::{is_index, is_up_to, item, natural, number, put_child, size, with_item};
use acl_lists::Lists;
use acl_meets::meets;
use acl_terms::{Shape, Shown};
use std::alloc::{AllocError, Global};

/// The most elements that an array may be resized to.
const MOST_ELEMENTS: u64 = 16_777_216;

/// Another value of a scalar field.
#[tactic(auto, using(crate::proofs::WriteLemmas::scalar_refused, crate::proofs::WriteLemmas::scalar_put, crate::proofs::WriteLemmas::one_within, acl_list_parts::proofs::ItemLemmas::given_within, acl_lists::proofs::TableLemmas::grown_same, acl_lists::proofs::TableLemmas::grown_then))]
fn put_scalar(
    alloc: Global,
    lists: &mut Lists,
    heap: &Heap,
    place: Place,
    spec: Word,
    values: &[Shown],
) -> Result<Done, AllocError>
    requires place { Within lists.old place.list }
    requires spec { Lies heap.now spec }
    requires accepted { is_some (accepted_type (object_of heap.now spec)) ≡ true }
    requires values { ValuesLie heap.now values.now }
    ensures grows { Grown lists.old lists.new }
    ensures is { IfOk result (Does heap.now lists.new (when by_number (meets by_number (field_type itself (object_of heap.now spec)) (argument by_number (ordinary (all_seen heap.now values.now)) 0)) (Writes (model.with_item place.field (model.Value (argument by_number (ordinary (all_seen heap.now values.now)) 0)) (list_given lists.old place.list))))) }
{
    let new = argument(values, heap, 0);
    if !meets(heap, spec, new)? {
        return Ok(Done::Refuses);
    }
    let value = lists.value(alloc, heap, new)?;
    let list = with_item(alloc, lists, place.list, place.field as u64, Some(value))?;
    Ok(Done::Writes(list))
}

/// Another element of an array.
#[tactic(auto, using(crate::proofs::WriteLemmas::element_refused, crate::proofs::WriteLemmas::element_put, crate::proofs::WriteLemmas::one_within, crate::proofs::WriteLemmas::one_lies, acl_list_parts::proofs::ItemLemmas::given_within, acl_lists::proofs::TableLemmas::grown_same, acl_lists::proofs::TableLemmas::grown_then))]
fn put_element(
    alloc: Global,
    lists: &mut Lists,
    heap: &Heap,
    place: Place,
    spec: Word,
    values: &[Shown],
) -> Result<Done, AllocError>
    requires place { Within lists.old place.list }
    requires spec { Lies heap.now spec }
    requires accepted { is_some (accepted_type (object_of heap.now spec)) ≡ true }
    requires values { ValuesLie heap.now values.now }
    ensures grows { Grown lists.old lists.new }
    ensures is { IfOk result (Does heap.now lists.new (when by_number (is_index (argument by_number (ordinary (all_seen heap.now values.now)) 0) (model.size (model.item place.field (list_given lists.old place.list))) && meets by_number (field_type itself (object_of heap.now spec)) (argument by_number (ordinary (all_seen heap.now values.now)) 1)) (Writes (model.with_item place.field (model.with_item (natural_of (argument by_number (ordinary (all_seen heap.now values.now)) 0)) (model.Value (argument by_number (ordinary (all_seen heap.now values.now)) 1)) (model.item place.field (list_given lists.old place.list))) (list_given lists.old place.list))))) }
{
    let index = argument(values, heap, 0);
    let new = argument(values, heap, 1);
    let field = item(lists, place.list, place.field as u64);
    let count = size(lists, field);
    let reached = is_index(heap, index, count);
    let fits = meets(heap, spec, new)?;
    let passes = reached & fits;
    if !passes {
        return Ok(Done::Refuses);
    }
    let value = lists.value(alloc, heap, new)?;
    let list = put_child(
        alloc,
        lists,
        heap,
        place.list,
        place.field,
        Some(index),
        Some(value),
    )?;
    Ok(Done::Writes(list))
}

/// Another value of a scalar field, or another element.
#[tactic(auto, using(crate::proofs::WriteLemmas::scalar_changed, crate::proofs::WriteLemmas::element_changed, crate::proofs::WriteLemmas::hash_changed, crate::proofs::WriteLemmas::child_changed, crate::proofs::WriteLemmas::children_changed, crate::proofs::WriteLemmas::scalar_reach, crate::proofs::WriteLemmas::array_reach, crate::proofs::WriteLemmas::scalar_typed, crate::proofs::WriteLemmas::array_typed, acl_lists::proofs::TableLemmas::grown_same))]
pub fn update(
    alloc: Global,
    lists: &mut Lists,
    heap: &Heap,
    place: Place,
    shape: Shape,
    values: &[Shown],
) -> Result<Done, AllocError>
    requires place { Within lists.old place.list }
    requires shape { shape_reach shape ≤ length heap.now }
    requires typed { IsTyped (seen_shape heap.now shape) }
    requires values { ValuesLie heap.now values.now }
    ensures grows { Grown lists.old lists.new }
    ensures is { IfOk result (Does heap.now lists.new (changed by_number (plain_layout (seen_shape heap.now shape)) place.field (ordinary (all_seen heap.now values.now)) (list_given lists.old place.list))) }
{
    match shape {
        Shape::Scalar { spec, .. } => {
            let done = put_scalar(alloc, lists, heap, place, spec, values)?;
            Ok(done)
        }
        Shape::Array { spec, .. } => {
            let done = put_element(alloc, lists, heap, place, spec, values)?;
            Ok(done)
        }
        Shape::Hash(_) => Ok(Done::Refuses),
        Shape::Child(_) => Ok(Done::Refuses),
        Shape::Children { .. } => Ok(Done::Refuses),
    }
}

/// An array cut to a length, or lengthened with its initial value.
#[tactic(auto, using(crate::proofs::WriteLemmas::length_refused, crate::proofs::WriteLemmas::length_put, crate::proofs::WriteLemmas::length_fits, crate::proofs::WriteLemmas::one_within, acl_list_parts::proofs::ItemLemmas::given_within, acl_list_parts::proofs::ItemLemmas::still_within, acl_lists::proofs::TableLemmas::grown_same, acl_lists::proofs::TableLemmas::grown_then))]
fn put_length(
    alloc: Global,
    lists: &mut Lists,
    heap: &Heap,
    place: Place,
    initial: Word,
    resizable: bool,
    values: &[Shown],
) -> Result<Done, AllocError>
    requires place { Within lists.old place.list }
    requires initial { Lies heap.now initial }
    requires values { ValuesLie heap.now values.now }
    ensures grows { Grown lists.old lists.new }
    ensures is { IfOk result (Does heap.now lists.new (when by_number (resizable && is_up_to most_elements (argument by_number (ordinary (all_seen heap.now values.now)) 0)) (Writes (model.with_item place.field (model.resized (natural_of (argument by_number (ordinary (all_seen heap.now values.now)) 0)) (model.Value (object_of heap.now initial)) (model.item place.field (list_given lists.old place.list))) (list_given lists.old place.list))))) }
{
    let wanted = argument(values, heap, 0);
    let fits = is_up_to(heap, wanted, MOST_ELEMENTS);
    let passes = resizable & fits;
    if !passes {
        return Ok(Done::Refuses);
    }
    match natural(heap, wanted) {
        None => Ok(Done::Refuses),
        Some(count) => {
            let field = item(lists, place.list, place.field as u64);
            let old = number(lists, field)?;
            let fill = lists.value(alloc, heap, initial)?;
            let new = lists.resized(alloc, old, count, fill)?;
            let list = with_item(alloc, lists, place.list, place.field as u64, Some(new))?;
            Ok(Done::Writes(list))
        }
    }
}

/// An array of another length.
#[tactic(auto, using(crate::proofs::WriteLemmas::array_lengthened, crate::proofs::WriteLemmas::scalar_lengthened, crate::proofs::WriteLemmas::hash_lengthened, crate::proofs::WriteLemmas::child_lengthened, crate::proofs::WriteLemmas::children_lengthened, crate::proofs::WriteLemmas::initial_reach, acl_lists::proofs::TableLemmas::grown_same))]
pub fn resize(
    alloc: Global,
    lists: &mut Lists,
    heap: &Heap,
    place: Place,
    shape: Shape,
    values: &[Shown],
) -> Result<Done, AllocError>
    requires place { Within lists.old place.list }
    requires shape { shape_reach shape ≤ length heap.now }
    requires values { ValuesLie heap.now values.now }
    ensures grows { Grown lists.old lists.new }
    ensures is { IfOk result (Does heap.now lists.new (lengthened by_number (plain_layout (seen_shape heap.now shape)) place.field (ordinary (all_seen heap.now values.now)) (list_given lists.old place.list))) }
{
    match shape {
        Shape::Array {
            initial,
            resizable,
            ..
        } => {
            let done = put_length(alloc, lists, heap, place, initial, resizable, values)?;
            Ok(done)
        }
        Shape::Scalar { .. } => Ok(Done::Refuses),
        Shape::Hash(_) => Ok(Done::Refuses),
        Shape::Child(_) => Ok(Done::Refuses),
        Shape::Children { .. } => Ok(Done::Refuses),
    }
}
