//! Items, as they are read.

ghost use Rattle.std.specs.Prelude.{◌≡◌, ◌<◌, ◌↔◌, IsSome, IfSome, IfNone, length};
ghost use Rattle.model_lists.specs.Lists.{Item, size, item};
ghost use Rattle.acl_lists.specs.Tables.{list_at};

use crate::cell::{Cell, ListId};
use crate::table::Lists;

/// The first item of a list, and the items behind it.
#[derive(Clone, Copy, Debug)]
pub(crate) struct Split {
    pub first: ListId,
    pub rest: ListId,
}

impl Lists {
    /// The first item, where there is one.
    #[tactic(auto, using(crate::proofs::TableLemmas::item_seen, crate::proofs::TableLemmas::item_below, crate::proofs::WalkLemmas::no_size_value, crate::proofs::WalkLemmas::no_size_pairs, crate::proofs::WalkLemmas::no_size_pair, crate::proofs::WalkLemmas::no_size_end))]
    pub(crate) fn split(&self, list: ListId) -> Option<Split>
        requires { list.0 < length self.now }
        ensures is { IfSome result (λ s. list_at self.now list ≡ Item (list_at self.now s.first) (list_at self.now s.rest)) }
        ensures first { IfSome result (λ s. s.first.0 < list.0) }
        ensures rest { IfSome result (λ s. s.rest.0 < list.0) }
        ensures none { IfNone result (size (list_at self.now list) ≡ 0) }
    {
        self.is_table();
        match self.cell(list) {
            Cell::Value(_) => None,
            Cell::NoPairs => None,
            Cell::Pair { .. } => None,
            Cell::End => None,
            Cell::Item { first, rest } => Some(Split {
                first: *first,
                rest: *rest,
            }),
        }
    }

    /// How many items a list has.
    #[tactic(auto, using(crate::proofs::WalkLemmas::size_step, crate::proofs::WalkLemmas::size_whole))]
    pub fn size(&self, list: ListId) -> u64
        requires { list.0 < length self.now }
        ensures { result ≡ size (list_at self.now list) }
    {
        let mut at = list;
        let mut count = 0;
        while let Some(split) = self.split(at) {
            at = split.rest;
            count += 1;
        }
        count
    }

    /// The item of a number, where the list has one.
    #[tactic(auto, using(crate::proofs::WalkLemmas::walk_start, crate::proofs::WalkLemmas::walk_step, crate::proofs::WalkLemmas::walk_short, crate::proofs::WalkLemmas::walk_item, crate::proofs::WalkLemmas::walk_has))]
    pub fn item(&self, list: ListId, index: u64) -> Option<ListId>
        requires { list.0 < length self.now }
        ensures within { IfSome result (λ n. n.0 < length self.now) }
        ensures is { IfSome result (λ n. list_at self.now n ≡ item index (list_at self.now list)) }
        ensures has { IsSome result ↔ (index < size (list_at self.now list)) }
    {
        let mut at = list;
        for _ in 0..index {
            match self.split(at) {
                Some(split) => at = split.rest,
                None => return None,
            }
        }
        match self.split(at) {
            Some(split) => Some(split.first),
            None => None,
        }
    }
}
