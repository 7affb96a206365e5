//! Cells are marked that roots reach, from the last to the first.

ghost use Rattle.std.specs.Prelude.{◌≡◌, ℕ, ◌<◌, ◌⊎◌, length};
ghost use Rattle.acl_lists.specs.Tables.{StandsOver, IsTable, AllBelow};
ghost use Rattle.acl_lists.specs.Compacting.{IsMarked, AllMarked, PartsMarked, IsPart, MoreMarks, IsClosed, IsRoot, IsPartOfMarked};

use crate::cell::{Cell, ListId};

/// Marks a cell.
#[tactic(auto, using(crate::proofs::MarkLemmas::marks_more, crate::proofs::MarkLemmas::marks_one, crate::proofs::MarkLemmas::marks_only))]
fn mark(marks: &mut Vec<u64>, n: ListId)
    requires { n.0 < length marks.old.items }
    ensures more { MoreMarks marks.old.items marks.new.items }
    ensures marked { IsMarked marks.new.items n.0 }
    ensures only { (i : ℕ) → IsMarked marks.new.items i → IsMarked marks.old.items i ⊎ (i ≡ n.0) }
{
    marks[n.0 as usize] = 1;
}

/// Marks the parts of a cell.
fn mark_parts(marks: &mut Vec<u64>, cell: &Cell)
    requires { StandsOver (length marks.old.items) cell.now }
    ensures more { MoreMarks marks.old.items marks.new.items }
    ensures marked { PartsMarked marks.new.items cell.now }
    ensures only { (i : ℕ) → IsMarked marks.new.items i → IsMarked marks.old.items i ⊎ IsPart i cell.now }
{
    match cell {
        Cell::Value(_) => {}
        Cell::NoPairs => {}
        Cell::Pair { key, value, older } => {
            mark(marks, *key);
            mark(marks, *value);
            mark(marks, *older);
        }
        Cell::End => {}
        Cell::Item { first, rest } => {
            mark(marks, *first);
            mark(marks, *rest);
        }
    }
}

/// Marks roots.
#[tactic(auto, using(crate::proofs::MarkLemmas::roots_start, crate::proofs::MarkLemmas::roots_done, crate::proofs::MarkLemmas::root_fits))]
pub(crate) fn mark_roots(marks: &mut Vec<u64>, roots: &[ListId])
    requires { AllBelow (length marks.old.items) roots.now }
    ensures more { MoreMarks marks.old.items marks.new.items }
    ensures marked { AllMarked marks.new.items roots.now }
    ensures only { (i : ℕ) → IsMarked marks.new.items i → IsMarked marks.old.items i ⊎ IsRoot roots.now i }
{
    for root in roots {
        mark(marks, *root);
    }
}

/// Marks what the marked cells are over.
pub(crate) fn mark_below(marks: &mut Vec<u64>, cells: &[Cell])
    requires table { IsTable cells.now }
    requires long { length marks.old.items ≡ length cells.now }
    ensures more { MoreMarks marks.old.items marks.new.items }
    ensures closed { IsClosed cells.now marks.new.items }
    ensures only { (i : ℕ) → IsMarked marks.new.items i → IsMarked marks.old.items i ⊎ IsPartOfMarked cells.now marks.new.items i }
{
    let count = cells.len();
    for done in 0..count {
        let at = count - 1 - done;
        if marks[at] > 0 {
            mark_parts(marks, &cells[at]);
        }
    }
}
