//! Children: a field of their parent, or an element of one.

ghost use Rattle.std.specs.Prelude.{◌≡◌, IfOk, option_map};
ghost use Rattle.model_eval.specs.Lending.{child_in, with_child_in};
ghost use Rattle.model_lists.specs.Lists as model;
ghost use Rattle.acl_heap.specs.Objects.{object_of};
ghost use Rattle.acl_lists.specs.Tables.{Grown};
ghost use Rattle.acl_lists.specs.Pairs.{Within};
ghost use Rattle.acl_list_parts.specs.Parts.{list_given, IndexLies};

use crate::indices::natural;
use crate::items::{is_short, item, with_item};
use acl_base::Word;
use acl_heap::Heap;
use acl_lists::{ListId, Lists};
use std::alloc::{AllocError, Global};

/// The child of a field: the field itself, or its element of an index, and the empty list where it has none.
#[tactic(auto, using(crate::proofs::ItemLemmas::far_item, crate::proofs::ItemLemmas::item_of_natural))]
pub fn child_in(
    lists: &Lists,
    heap: &Heap,
    field: Option<ListId>,
    index: Option<Word>,
) -> Option<ListId>
    requires field { Within lists.now field }
    requires index { IndexLies heap.now index }
    ensures within { Within lists.now result }
    ensures is { list_given lists.now result ≡ child_in (option_map (object_of heap.now) index) (list_given lists.now field) }
{
    match index {
        None => field,
        Some(w) => match natural(heap, w) {
            Some(at) => item(lists, field, at),
            None => {
                is_short(lists, field);
                None
            }
        },
    }
}

/// The field with another child.
#[tactic(auto, using(crate::proofs::ItemLemmas::far_put, crate::proofs::ItemLemmas::put_at_natural, acl_lists::proofs::TableLemmas::grown_same))]
fn with_child_in(
    alloc: Global,
    lists: &mut Lists,
    heap: &Heap,
    field: Option<ListId>,
    index: Option<Word>,
    child: Option<ListId>,
) -> Result<Option<ListId>, AllocError>
    requires field { Within lists.old field }
    requires index { IndexLies heap.now index }
    requires child { Within lists.old child }
    ensures within { IfOk result (λ n. Within lists.new n) }
    ensures is { IfOk result (λ n. list_given lists.new n ≡ with_child_in (option_map (object_of heap.now) index) (list_given lists.old child) (list_given lists.old field)) }
    ensures grows { Grown lists.old lists.new }
{
    match index {
        None => Ok(child),
        Some(w) => match natural(heap, w) {
            Some(at) => {
                let n = with_item(alloc, lists, field, at, child)?;
                Ok(n)
            }
            None => {
                is_short(lists, field);
                Ok(field)
            }
        },
    }
}

/// The list of a parent with another child.
#[tactic(auto, using(crate::proofs::ItemLemmas::child_put, crate::proofs::ItemLemmas::given_within, acl_lists::proofs::TableLemmas::grown_then))]
pub fn put_child(
    alloc: Global,
    lists: &mut Lists,
    heap: &Heap,
    parent: Option<ListId>,
    field: u32,
    index: Option<Word>,
    child: Option<ListId>,
) -> Result<Option<ListId>, AllocError>
    requires parent { Within lists.old parent }
    requires index { IndexLies heap.now index }
    requires child { Within lists.old child }
    ensures within { IfOk result (λ n. Within lists.new n) }
    ensures is { IfOk result (λ n. list_given lists.new n ≡ model.with_item field (with_child_in (option_map (object_of heap.now) index) (list_given lists.old child) (model.item field (list_given lists.old parent))) (list_given lists.old parent)) }
    ensures grows { Grown lists.old lists.new }
{
    let old = item(lists, parent, field as u64);
    let new = with_child_in(alloc, lists, heap, old, index, child)?;
    let n = with_item(alloc, lists, parent, field as u64, new)?;
    Ok(n)
}
