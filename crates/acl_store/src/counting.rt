//! How many cells nodes and notes hold.
ghost use Rattle.std.specs.Prelude.{◌+◌};
ghost use Rattle.acl_owned.specs.Owned.{IsSum};
ghost use Rattle.acl_fields.specs.Held.{nodes_cells};
ghost use Rattle.acl_fields.specs.Views.{view};
ghost use Rattle.acl_store.specs.Counts.{notes_cells};

use crate::notes::Old;
use acl_fields::Node;

/// The cells of nodes, beside so many others.
#[tactic(auto, using(crate::proofs::CountLemmas::nodes_step, crate::proofs::CountLemmas::nodes_over, crate::proofs::CountLemmas::nodes_end))]
pub(crate) fn count_nodes(nodes: &[Node], start: u64) -> Option<u64>
    ensures { IsSum result (start + nodes_cells (view nodes.now)) }
{
    let mut total = start;
    for i in 0..nodes.len() {
        match nodes[i].counted(total) {
            Some(sum) => total = sum,
            None => return None,
        }
    }
    Some(total)
}

/// The cells of notes, beside so many others.
#[tactic(auto, using(crate::proofs::CountLemmas::notes_step, crate::proofs::CountLemmas::notes_over, acl_owned::proofs::CountLemmas::count_end))]
pub(crate) fn count_notes(notes: &Vec<Old>, start: u64) -> Option<u64>
    ensures { IsSum result (start + notes_cells notes.now.items) }
{
    let mut total = start;
    for i in 0..notes.len() {
        match notes[i].part.counted(total) {
            Some(sum) => total = sum,
            None => return None,
        }
    }
    Some(total)
}
