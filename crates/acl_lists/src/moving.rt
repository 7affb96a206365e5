//! Marked cells are moved down, from the first to the last.

ghost use Rattle.std.specs.Prelude.{◌≡◌, ℕ, ◌+◌, ◌<◌, ◌≤◌, [], ◌∷◌, ◌++◌, length, map, take, Some, slice_get, slice_set};
ghost use Rattle.acl_lists.specs.declared.cell.Cell as declared;
ghost use Rattle.acl_lists.specs.Tables.{IsTable};
ghost use Rattle.acl_lists.specs.Compacting.{IsMarked, AllMarked, PartsMarked, IsClosed, IsSwept, new_number, renumbered};

use crate::cell::{Cell, ListId};
use std::mem::replace;

/// The new number of a cell that was moved.
fn moved(marks: &Vec<u64>, n: ListId) -> ListId
    requires { IsMarked marks.now.items n.0 }
    ensures { result ≡ new_number marks.now.items n }
{
    ListId(marks[n.0 as usize] - 1)
}

/// The new numbers of roots.
pub(crate) fn move_roots(roots: &mut [ListId], marks: &Vec<u64>)
    requires { AllMarked marks.now.items roots.old }
    ensures { roots.new ≡ map (new_number marks.now.items) roots.old }
{
    for i in 0..roots.len() {
        roots[i] = moved(marks, roots[i]);
    }
}

/// A cell over the new numbers of its parts.
fn renumber(cell: Cell, marks: &Vec<u64>) -> Cell
    requires { PartsMarked marks.now.items cell }
    ensures { result ≡ renumbered marks.now.items cell }
{
    match cell {
        Cell::Value(o) => Cell::Value(o),
        Cell::NoPairs => Cell::NoPairs,
        Cell::Pair { key, value, older } => Cell::Pair {
            key: moved(marks, key),
            value: moved(marks, value),
            older: moved(marks, older),
        },
        Cell::End => Cell::End,
        Cell::Item { first, rest } => Cell::Item {
            first: moved(marks, first),
            rest: moved(marks, rest),
        },
    }
}

/// Another item in place of one, which is handed out.
fn exchange<T: Drop>(items: &mut Vec<T>, at: usize, item: T) -> T
    requires { at < length items.old.items }
    ensures out { slice_get items.old.items at ≡ Some result }
    ensures new { items.new.items ≡ slice_set items.old.items at item }
{
    replace(&mut items[at], item)
}

/// Moves a cell down.
#[tactic(auto, using(crate::proofs::MoveLemmas::moved_in, crate::proofs::MoveLemmas::moved_long, crate::proofs::MoveLemmas::moved_left))]
fn move_down(cells: &mut Vec<Cell>, marks: &Vec<u64>, from: usize, to: usize)
    requires down { to ≤ from }
    requires there { from < length cells.old.items }
    requires marked { (c : declared.Cell) → slice_get cells.old.items from ≡ Some c → PartsMarked marks.now.items c }
    ensures long { length cells.new.items ≡ length cells.old.items }
    ensures moved { (c : declared.Cell) → slice_get cells.old.items from ≡ Some c → take (to + 1) cells.new.items ≡ take to cells.old.items ++ renumbered marks.now.items c ∷ [] }
    ensures left { (j : ℕ) → from < j → slice_get cells.new.items j ≡ slice_get cells.old.items j }
{
    let cell = exchange(cells, from, Cell::End);
    let new = renumber(cell, marks);
    exchange(cells, to, new);
}

/// Moves the marked cells down, gives each mark the new number and one, and answers how many there are.
pub(crate) fn sweep(cells: &mut Vec<Cell>, marks: &mut Vec<u64>) -> usize
    requires table { IsTable cells.old.items }
    requires long { length marks.old.items ≡ length cells.old.items }
    requires closed { IsClosed cells.old.items marks.old.items }
    ensures few { result ≤ length cells.new.items }
    ensures long { length cells.new.items ≡ length cells.old.items }
    ensures swept { IsSwept cells.old.items marks.old.items (take result cells.new.items) marks.new.items }
{
    let mut kept = 0;
    for i in 0..cells.len() {
        if marks[i] > 0 {
            move_down(cells, marks, i, kept);
            kept += 1;
            marks[i] = kept as u64;
        }
    }
    kept
}
