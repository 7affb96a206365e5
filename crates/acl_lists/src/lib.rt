//! Lists of objects outside of every heap, shared and never overwritten, in one table.
#![tactic(auto)]

ghost use Rattle.acl_lists.specs.Laws.{ListsStay};

mod building;
mod cell;
mod compacting;
mod counting;
mod keys;
mod marking;
mod moving;
mod table;
#[cfg(test)]
mod tests;
mod values;
mod walking;

pub use cell::ListId;
pub use table::Lists;

/// As a table grows its numbers go on to stand for their lists.
#[tactic(auto, using(crate::proofs::LawLemmas::lists_stay))]
pub fn growth_keeps_lists()
    ensures { ListsStay }
{}
