//! Hash fields.

ghost use Rattle.std.specs.Prelude.{◌≡◌, ◌<◌, ◌∷◌, length, IfOk};
ghost use Rattle.model_prims.specs.Kinds.{by_number};
ghost use Rattle.model_prims.specs.Applied.{argument};
ghost use Rattle.model_lists.specs.Lists as model;
ghost use Rattle.model_lists.specs.Lists.{pairs_of, value_at};
ghost use Rattle.model_lists.specs.Effects.{may_be_key, hash_read, hash_bound, hash_looked_up, hash_put, hash_removed, hash_counted, hash_cleared};
ghost use Rattle.model_eval.specs.Variables.{ordinary};
ghost use Rattle.acl_heap.specs.Objects.{object_of, Lies, Denotes, Extends};
ghost use Rattle.acl_terms.specs.Definitions.{seen_shape};
ghost use Rattle.acl_keep.specs.Seen.{all_seen};
ghost use Rattle.acl_lists.specs.Tables.{list_at, Grown};
ghost use Rattle.acl_lists.specs.Pairs.{Within, scalar_found};
ghost use Rattle.acl_list_parts.specs.Parts.{list_given};
ghost use Rattle.acl_list_calls.specs.Results.{Does, ValuesLie};
ghost use Rattle.acl_list_calls.specs.Plain.{plain_layout, Takes};

use crate::arguments::{argument, truth};
use crate::done::{Done, Place};
use crate::reading::{number, scalar};
use acl_base::{Test, Word};
use acl_heap::{Heap, Seen};
use acl_list_parts::{item, with_item};
use acl_lists::{ListId, Lists};
use acl_terms::{Shape, Shown};
use std::alloc::{AllocError, Global};

/// Whether it may be a key under a test.
fn may_be_key(heap: &Heap, test: Test, key: Word) -> bool
    requires { Lies heap.now key }
    ensures { result ≡ may_be_key test (object_of heap.now key) }
{
    match test {
        Test::Eq => match heap.look(key) {
            Seen::Integer(_) => false,
            Seen::Symbol(_) => true,
            Seen::Text(_) => false,
            Seen::Pair(_, _) => false,
        },
        Test::Eql => match heap.look(key) {
            Seen::Integer(_) => true,
            Seen::Symbol(_) => true,
            Seen::Text(_) => false,
            Seen::Pair(_, _) => false,
        },
        Test::Equal => true,
    }
}

/// Whether it may be a key of a field.
#[tactic(auto, using(crate::proofs::HashLemmas::scalar_key, crate::proofs::HashLemmas::array_key, crate::proofs::HashLemmas::hash_key, crate::proofs::HashLemmas::child_key, crate::proofs::HashLemmas::children_key))]
fn takes_key(heap: &Heap, shape: Shape, key: Word) -> bool
    requires { Lies heap.now key }
    ensures { Takes heap.now shape key result }
{
    match shape {
        Shape::Hash(test) => may_be_key(heap, test, key),
        Shape::Scalar { .. } => false,
        Shape::Array { .. } => false,
        Shape::Child(_) => false,
        Shape::Children { .. } => false,
    }
}

/// The value of a key.
#[tactic(auto, using(crate::proofs::HashLemmas::none_found))]
fn find(
    alloc: Global,
    lists: &Lists,
    heap: &Heap,
    place: Place,
    key: Word,
) -> Result<Option<ListId>, AllocError>
    requires place { Within lists.now place.list }
    requires key { Lies heap.now key }
    ensures within { IfOk result (λ o. Within lists.now o) }
    ensures is { IfOk result (λ o. scalar_found lists.now o ≡ value_at by_number (object_of heap.now key) (pairs_of (model.item place.field (list_given lists.now place.list)))) }
{
    match item(lists, place.list, place.field as u64) {
        Some(field) => {
            let found = lists.value_at(alloc, field, heap, key)?;
            Ok(found)
        }
        None => Ok(None),
    }
}

/// The value of a key, `NIL` where it is not bound.
#[tactic(auto, using(crate::proofs::HashLemmas::key_refused, crate::proofs::HashLemmas::key_read, crate::proofs::ReadLemmas::extends_same))]
pub(crate) fn get(
    alloc: Global,
    lists: &Lists,
    heap: &mut Heap,
    place: Place,
    shape: Shape,
    values: &[Shown],
) -> Result<Done, AllocError>
    requires place { Within lists.now place.list }
    requires values { ValuesLie heap.old values.now }
    ensures grows { Extends heap.old heap.new }
    ensures is { IfOk result (Does heap.new lists.now (hash_read by_number (plain_layout (seen_shape heap.old shape)) place.field (ordinary (all_seen heap.old values.now)) (list_given lists.now place.list))) }
{
    let key = argument(values, heap, 0);
    if !takes_key(heap, shape, key) {
        return Ok(Done::Refuses);
    }
    let found = find(alloc, lists, heap, place, key)?;
    let w = scalar(lists, heap, found)?;
    Ok(Done::Reads(w))
}

/// Whether a key is bound.
#[tactic(auto, using(crate::proofs::HashLemmas::bound_refused, crate::proofs::HashLemmas::bound_read))]
pub(crate) fn is_bound(
    alloc: Global,
    lists: &Lists,
    heap: &Heap,
    place: Place,
    shape: Shape,
    values: &[Shown],
) -> Result<Done, AllocError>
    requires place { Within lists.now place.list }
    requires values { ValuesLie heap.now values.now }
    ensures { IfOk result (Does heap.now lists.now (hash_bound by_number (plain_layout (seen_shape heap.now shape)) place.field (ordinary (all_seen heap.now values.now)) (list_given lists.now place.list))) }
{
    let key = argument(values, heap, 0);
    if !takes_key(heap, shape, key) {
        return Ok(Done::Refuses);
    }
    let found = find(alloc, lists, heap, place, key)?;
    let w = truth(heap, found.is_some());
    Ok(Done::Reads(w))
}

/// The value of a key, and whether it is bound.
#[tactic(auto, using(crate::proofs::HashLemmas::both_refused, crate::proofs::HashLemmas::both_read, crate::proofs::ReadLemmas::extends_same))]
pub(crate) fn look_up(
    alloc: Global,
    lists: &Lists,
    heap: &mut Heap,
    place: Place,
    shape: Shape,
    values: &[Shown],
) -> Result<Done, AllocError>
    requires place { Within lists.now place.list }
    requires values { ValuesLie heap.old values.now }
    ensures grows { Extends heap.old heap.new }
    ensures is { IfOk result (Does heap.new lists.now (hash_looked_up by_number (plain_layout (seen_shape heap.old shape)) place.field (ordinary (all_seen heap.old values.now)) (list_given lists.now place.list))) }
{
    let key = argument(values, heap, 0);
    if !takes_key(heap, shape, key) {
        return Ok(Done::Refuses);
    }
    let found = find(alloc, lists, heap, place, key)?;
    let value = scalar(lists, heap, found)?;
    let bound = truth(heap, found.is_some());
    Ok(Done::ReadsBoth(value, bound))
}

/// The list with another field.
#[tactic(auto, using(crate::proofs::HashLemmas::field_put, crate::proofs::WriteLemmas::one_within))]
fn with_field(
    alloc: Global,
    lists: &mut Lists,
    place: Place,
    field: ListId,
) -> Result<Option<ListId>, AllocError>
    requires place { Within lists.old place.list }
    requires field { field.0 < length lists.old }
    ensures within { IfOk result (λ n. Within lists.new n) }
    ensures is { IfOk result (λ n. list_given lists.new n ≡ model.with_item place.field (list_at lists.old field) (list_given lists.old place.list)) }
    ensures grows { Grown lists.old lists.new }
{
    let list = with_item(alloc, lists, place.list, place.field as u64, Some(field))?;
    Ok(list)
}

/// A pair before those of a field.
#[tactic(auto, using(crate::proofs::HashLemmas::pair_put, acl_list_parts::proofs::ItemLemmas::given_within, acl_list_parts::proofs::ItemLemmas::still_within, acl_lists::proofs::TableLemmas::grown_then))]
fn with_pair(
    alloc: Global,
    lists: &mut Lists,
    heap: &Heap,
    place: Place,
    key: Word,
    value: Word,
) -> Result<Option<ListId>, AllocError>
    requires place { Within lists.old place.list }
    requires key { Lies heap.now key }
    requires value { Lies heap.now value }
    ensures within { IfOk result (λ n. Within lists.new n) }
    ensures is { IfOk result (λ n. list_given lists.new n ≡ model.with_item place.field (model.Pairs ((object_of heap.now key, object_of heap.now value) ∷ pairs_of (model.item place.field (list_given lists.old place.list)))) (list_given lists.old place.list)) }
    ensures grows { Grown lists.old lists.new }
{
    let field = item(lists, place.list, place.field as u64);
    let older = acl_list_parts::number(lists, field)?;
    let first = lists.value(alloc, heap, key)?;
    let second = lists.value(alloc, heap, value)?;
    let pairs = lists.put_pair(first, second, older)?;
    let list = with_field(alloc, lists, place, pairs)?;
    Ok(list)
}

/// A key with its value.
#[tactic(auto, using(crate::proofs::HashLemmas::put_refused, crate::proofs::HashLemmas::put_written, acl_lists::proofs::TableLemmas::grown_same))]
pub(crate) fn put(
    alloc: Global,
    lists: &mut Lists,
    heap: &Heap,
    place: Place,
    shape: Shape,
    values: &[Shown],
) -> Result<Done, AllocError>
    requires place { Within lists.old place.list }
    requires values { ValuesLie heap.now values.now }
    ensures grows { Grown lists.old lists.new }
    ensures is { IfOk result (Does heap.now lists.new (hash_put by_number (plain_layout (seen_shape heap.now shape)) place.field (ordinary (all_seen heap.now values.now)) (list_given lists.old place.list))) }
{
    let key = argument(values, heap, 0);
    let value = argument(values, heap, 1);
    if !takes_key(heap, shape, key) {
        return Ok(Done::Refuses);
    }
    let list = with_pair(alloc, lists, heap, place, key, value)?;
    Ok(Done::Writes(list))
}

/// The pairs of a field that have another key.
#[tactic(auto, using(crate::proofs::HashLemmas::pairs_left, acl_list_parts::proofs::ItemLemmas::given_within, acl_list_parts::proofs::ItemLemmas::still_within, acl_lists::proofs::TableLemmas::grown_then))]
fn without_key(
    alloc: Global,
    lists: &mut Lists,
    heap: &Heap,
    place: Place,
    key: Word,
) -> Result<Option<ListId>, AllocError>
    requires place { Within lists.old place.list }
    requires key { Lies heap.now key }
    ensures within { IfOk result (λ n. Within lists.new n) }
    ensures is { IfOk result (λ n. list_given lists.new n ≡ model.with_item place.field (model.Pairs (model.without_key by_number (object_of heap.now key) (pairs_of (model.item place.field (list_given lists.old place.list))))) (list_given lists.old place.list)) }
    ensures grows { Grown lists.old lists.new }
{
    let field = item(lists, place.list, place.field as u64);
    let old = acl_list_parts::number(lists, field)?;
    let pairs = lists.without_key(alloc, old, heap, key)?;
    let list = with_field(alloc, lists, place, pairs)?;
    Ok(list)
}

/// A key is taken out.
#[tactic(auto, using(crate::proofs::HashLemmas::removal_refused, crate::proofs::HashLemmas::removal_written, acl_lists::proofs::TableLemmas::grown_same))]
pub(crate) fn remove(
    alloc: Global,
    lists: &mut Lists,
    heap: &Heap,
    place: Place,
    shape: Shape,
    values: &[Shown],
) -> Result<Done, AllocError>
    requires place { Within lists.old place.list }
    requires values { ValuesLie heap.now values.now }
    ensures grows { Grown lists.old lists.new }
    ensures is { IfOk result (Does heap.now lists.new (hash_removed by_number (plain_layout (seen_shape heap.now shape)) place.field (ordinary (all_seen heap.now values.now)) (list_given lists.old place.list))) }
{
    let key = argument(values, heap, 0);
    if !takes_key(heap, shape, key) {
        return Ok(Done::Refuses);
    }
    let list = without_key(alloc, lists, heap, place, key)?;
    Ok(Done::Writes(list))
}

/// How many different keys there are.
#[tactic(auto, using(crate::proofs::HashLemmas::keys_counted, crate::proofs::HashLemmas::no_keys))]
pub(crate) fn count(
    alloc: Global,
    lists: &Lists,
    heap: &mut Heap,
    place: Place,
) -> Result<Done, AllocError>
    requires { Within lists.now place.list }
    ensures grows { Extends heap.old heap.new }
    ensures is { IfOk result (Does heap.new lists.now (hash_counted by_number place.field (list_given lists.now place.list))) }
{
    match item(lists, place.list, place.field as u64) {
        Some(field) => {
            let keys = lists.key_count(alloc, field)?;
            let done = number(lists, heap, keys)?;
            Ok(done)
        }
        None => {
            let done = number(lists, heap, 0)?;
            Ok(done)
        }
    }
}

/// No pair is left.
#[tactic(auto, using(crate::proofs::HashLemmas::cleared, acl_list_parts::proofs::ItemLemmas::given_within, acl_lists::proofs::TableLemmas::grown_then))]
pub(crate) fn clear(
    alloc: Global,
    lists: &mut Lists,
    _heap: &Heap,
    place: Place,
) -> Result<Done, AllocError>
    requires { Within lists.old place.list }
    ensures grows { Grown lists.old lists.new }
    ensures is { IfOk result (Does _heap.now lists.new (hash_cleared by_number place.field (list_given lists.old place.list))) }
{
    let none = lists.no_pairs()?;
    let list = with_field(alloc, lists, place, none)?;
    Ok(Done::Writes(list))
}
