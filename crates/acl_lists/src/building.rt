//! Lists that are made of others. Each that is refused leaves the table as it was.

ghost use Rattle.std.specs.Prelude.{◌≡◌, ◌<◌, ◌≤◌, length, map, IfOk, OnErr};
ghost use Rattle.model_lists.specs.Lists as lists;
ghost use Rattle.model_lists.specs.Lists.{size, with_item, resized};
ghost use Rattle.model_lists.specs.Layouts.{repeated};
ghost use Rattle.acl_lists.specs.Tables.{list_at, onto, AllIn, Grown, Passed};

use crate::cell::{Cell, ListId};
use crate::table::Lists;
use std::alloc::{AllocError, Global};

/// The first items of a list, and the list behind them.
#[derive(Drop)]
struct Walked {
    firsts: Vec<ListId>,
    rest: ListId,
}

impl Lists {
    /// The list of no items.
    pub fn end(&mut self) -> Result<ListId, AllocError>
        ensures within { IfOk result (λ n. n.0 < length self.new) }
        ensures is { IfOk result (λ n. list_at self.new n ≡ lists.End) }
        ensures grows { Grown self.old self.new }
        ensures err { OnErr result (self.new ≡ self.old) }
    {
        let n = self.add(Cell::End)?;
        Ok(n)
    }

    /// A list with one more item before it.
    pub fn add_item(&mut self, first: ListId, rest: ListId) -> Result<ListId, AllocError>
        requires first { first.0 < length self.old }
        requires rest { rest.0 < length self.old }
        ensures within { IfOk result (λ n. n.0 < length self.new) }
        ensures is { IfOk result (λ n. list_at self.new n ≡ lists.Item (list_at self.old first) (list_at self.old rest)) }
        ensures grows { Grown self.old self.new }
        ensures err { OnErr result (self.new ≡ self.old) }
    {
        let n = self.add(Cell::Item { first, rest })?;
        Ok(n)
    }

    /// The first items of a list, at most so many.
    #[tactic(auto, using(crate::proofs::BuildLemmas::passed_none, crate::proofs::BuildLemmas::passed_more))]
    fn walk(&self, alloc: Global, list: ListId, most: u64) -> Result<Walked, AllocError>
        requires { list.0 < length self.now }
        ensures passed { IfOk result (λ w. Passed self.now list w.firsts.items w.rest) }
        ensures few { IfOk result (λ w. length w.firsts.items ≤ most) }
        ensures all { IfOk result (λ w. length w.firsts.items < most → size (list_at self.now w.rest) ≡ 0) }
    {
        let mut firsts = Vec::new(alloc);
        let mut rest = list;
        for _ in 0..most {
            match self.split(rest) {
                Some(split) => {
                    firsts.push(split.first)?;
                    rest = split.rest;
                }
                None => return Ok(Walked { firsts, rest }),
            }
        }
        Ok(Walked { firsts, rest })
    }

    /// Items before a list. What is refused has added some cells.
    #[tactic(auto, using(crate::proofs::BuildLemmas::onto_start, crate::proofs::BuildLemmas::onto_step, crate::proofs::BuildLemmas::onto_whole, crate::proofs::BuildLemmas::onto_first, crate::proofs::BuildLemmas::onto_at, crate::proofs::BuildLemmas::onto_grown))]
    fn put_onto(&mut self, firsts: Vec<ListId>, rest: ListId) -> Result<ListId, AllocError>
        requires firsts { AllIn self.old firsts.items }
        requires rest { rest.0 < length self.old }
        ensures within { IfOk result (λ n. n.0 < length self.new) }
        ensures is { IfOk result (λ n. list_at self.new n ≡ onto (map (list_at self.old) firsts.items) (list_at self.old rest)) }
        ensures grows { Grown self.old self.new }
    {
        let mut left = firsts;
        let mut at = rest;
        while let Some(first) = left.pop() {
            at = self.add_item(first, at)?;
        }
        Ok(at)
    }

    /// The same item so many times. What is refused has added some cells.
    #[tactic(auto, using(crate::proofs::BuildLemmas::repeat_start, crate::proofs::BuildLemmas::repeat_step, crate::proofs::BuildLemmas::repeat_item))]
    fn put_repeated(&mut self, item: ListId, count: u64) -> Result<ListId, AllocError>
        requires { item.0 < length self.old }
        ensures within { IfOk result (λ n. n.0 < length self.new) }
        ensures is { IfOk result (λ n. list_at self.new n ≡ repeated count (list_at self.old item)) }
        ensures grows { Grown self.old self.new }
    {
        let mut at = self.end()?;
        for _ in 0..count {
            at = self.add_item(item, at)?;
        }
        Ok(at)
    }

    /// The same item so many times.
    #[tactic(auto, using(crate::proofs::BuildLemmas::cut_back, crate::proofs::BuildLemmas::cut_grown, crate::proofs::BuildLemmas::cut_within))]
    pub fn repeated(&mut self, item: ListId, count: u64) -> Result<ListId, AllocError>
        requires { item.0 < length self.old }
        ensures within { IfOk result (λ n. n.0 < length self.new) }
        ensures is { IfOk result (λ n. list_at self.new n ≡ repeated count (list_at self.old item)) }
        ensures grows { Grown self.old self.new }
        ensures err { OnErr result (self.new ≡ self.old) }
    {
        let before = self.len();
        match self.put_repeated(item, count) {
            Ok(n) => Ok(n),
            Err(refused) => {
                self.cut_to(before);
                Err(refused)
            }
        }
    }

    /// As `with_item`, but what is refused has added some cells.
    #[tactic(auto, using(crate::proofs::BuildLemmas::item_written, crate::proofs::BuildLemmas::item_missing, crate::proofs::BuildLemmas::passed_rest, crate::proofs::BuildLemmas::passed_later, crate::proofs::TableLemmas::grown_then, crate::proofs::TableLemmas::grown_same))]
    fn put_with_item(
        &mut self,
        alloc: Global,
        list: ListId,
        index: u64,
        new: ListId,
    ) -> Result<ListId, AllocError>
        requires list { list.0 < length self.old }
        requires new { new.0 < length self.old }
        ensures within { IfOk result (λ n. n.0 < length self.new) }
        ensures is { IfOk result (λ n. list_at self.new n ≡ with_item index (list_at self.old new) (list_at self.old list)) }
        ensures grows { Grown self.old self.new }
    {
        let walked = self.walk(alloc, list, index)?;
        match self.split(walked.rest) {
            Some(split) => {
                let rest = self.add_item(new, split.rest)?;
                let n = self.put_onto(walked.firsts, rest)?;
                Ok(n)
            }
            None => Ok(list),
        }
    }

    /// The list with another item of this number, where it has one. The items behind it are shared.
    #[tactic(auto, using(crate::proofs::BuildLemmas::cut_back, crate::proofs::BuildLemmas::cut_grown, crate::proofs::BuildLemmas::cut_within))]
    pub fn with_item(
        &mut self,
        alloc: Global,
        list: ListId,
        index: u64,
        new: ListId,
    ) -> Result<ListId, AllocError>
        requires list { list.0 < length self.old }
        requires new { new.0 < length self.old }
        ensures within { IfOk result (λ n. n.0 < length self.new) }
        ensures is { IfOk result (λ n. list_at self.new n ≡ with_item index (list_at self.old new) (list_at self.old list)) }
        ensures grows { Grown self.old self.new }
        ensures err { OnErr result (self.new ≡ self.old) }
    {
        let before = self.len();
        match self.put_with_item(alloc, list, index, new) {
            Ok(n) => Ok(n),
            Err(refused) => {
                self.cut_to(before);
                Err(refused)
            }
        }
    }

    /// As `resized`, but what is refused has added some cells.
    #[tactic(auto, using(crate::proofs::BuildLemmas::sized, crate::proofs::BuildLemmas::passed_rest, crate::proofs::BuildLemmas::passed_later, crate::proofs::TableLemmas::grown_then))]
    fn put_resized(
        &mut self,
        alloc: Global,
        list: ListId,
        count: u64,
        fill: ListId,
    ) -> Result<ListId, AllocError>
        requires list { list.0 < length self.old }
        requires fill { fill.0 < length self.old }
        ensures within { IfOk result (λ n. n.0 < length self.new) }
        ensures is { IfOk result (λ n. list_at self.new n ≡ resized count (list_at self.old fill) (list_at self.old list)) }
        ensures grows { Grown self.old self.new }
    {
        let walked = self.walk(alloc, list, count)?;
        let end = self.put_repeated(fill, count - walked.firsts.len() as u64)?;
        let n = self.put_onto(walked.firsts, end)?;
        Ok(n)
    }

    /// The list cut to so many items, or lengthened to them.
    #[tactic(auto, using(crate::proofs::BuildLemmas::cut_back, crate::proofs::BuildLemmas::cut_grown, crate::proofs::BuildLemmas::cut_within))]
    pub fn resized(
        &mut self,
        alloc: Global,
        list: ListId,
        count: u64,
        fill: ListId,
    ) -> Result<ListId, AllocError>
        requires list { list.0 < length self.old }
        requires fill { fill.0 < length self.old }
        ensures within { IfOk result (λ n. n.0 < length self.new) }
        ensures is { IfOk result (λ n. list_at self.new n ≡ resized count (list_at self.old fill) (list_at self.old list)) }
        ensures grows { Grown self.old self.new }
        ensures err { OnErr result (self.new ≡ self.old) }
    {
        let before = self.len();
        match self.put_resized(alloc, list, count, fill) {
            Ok(n) => Ok(n),
            Err(refused) => {
                self.cut_to(before);
                Err(refused)
            }
        }
    }
}
