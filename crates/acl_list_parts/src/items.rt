//! Items. Each call that may be refused leaves a table that has grown.

ghost use Rattle.std.specs.Prelude.{◌≡◌, ◌<◌, ◌^◌, length, IfOk};
ghost use Rattle.model_lists.specs.Lists.{size, item, with_item};
ghost use Rattle.acl_lists.specs.Tables.{list_at, Grown};
ghost use Rattle.acl_lists.specs.Pairs.{Within};
ghost use Rattle.acl_list_parts.specs.Parts.{list_given};

use acl_lists::{ListId, Lists};
use std::alloc::{AllocError, Global};

/// How many items a list has.
pub fn size(lists: &Lists, list: Option<ListId>) -> u64
    requires { Within lists.now list }
    ensures { result ≡ size (list_given lists.now list) }
{
    match list {
        Some(n) => lists.size(n),
        None => 0,
    }
}

/// The item of a number; the empty list where there is none.
#[tactic(auto, using(crate::proofs::ItemLemmas::no_item))]
pub fn item(lists: &Lists, list: Option<ListId>, index: u64) -> Option<ListId>
    requires { Within lists.now list }
    ensures within { Within lists.now result }
    ensures is { list_given lists.now result ≡ item index (list_given lists.now list) }
{
    match list {
        Some(n) => match lists.item(n, index) {
            Some(found) => Some(found),
            None => None,
        },
        None => None,
    }
}

/// A number of a list, also of the empty one.
#[tactic(auto, using(acl_lists::proofs::TableLemmas::grown_same))]
pub fn number(lists: &mut Lists, list: Option<ListId>) -> Result<ListId, AllocError>
    requires { Within lists.old list }
    ensures within { IfOk result (λ n. n.0 < length lists.new) }
    ensures is { IfOk result (λ n. list_at lists.new n ≡ list_given lists.old list) }
    ensures grows { Grown lists.old lists.new }
{
    match list {
        Some(n) => Ok(n),
        None => {
            let n = lists.end()?;
            Ok(n)
        }
    }
}

/// The list with another item of this number, where it has one.
#[tactic(auto, using(crate::proofs::ItemLemmas::item_put, crate::proofs::ItemLemmas::still_within, crate::proofs::ItemLemmas::nothing_put, acl_lists::proofs::TableLemmas::grown_same, acl_lists::proofs::TableLemmas::grown_then))]
pub fn with_item(
    alloc: Global,
    lists: &mut Lists,
    list: Option<ListId>,
    index: u64,
    new: Option<ListId>,
) -> Result<Option<ListId>, AllocError>
    requires list { Within lists.old list }
    requires new { Within lists.old new }
    ensures within { IfOk result (λ n. Within lists.new n) }
    ensures is { IfOk result (λ n. list_given lists.new n ≡ with_item index (list_given lists.old new) (list_given lists.old list)) }
    ensures grows { Grown lists.old lists.new }
{
    match list {
        Some(whole) => {
            let put = number(lists, new)?;
            let n = lists.with_item(alloc, whole, index, put)?;
            Ok(Some(n))
        }
        None => Ok(None),
    }
}

/// A list has no more items than there are numbers. It takes the time of the list.
pub(crate) fn is_short(lists: &Lists, list: Option<ListId>)
    requires { Within lists.now list }
    ensures { size (list_given lists.now list) < 2 ^ 64 }
{
    let _count = size(lists, list);
}
