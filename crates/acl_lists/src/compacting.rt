//! What roots do not reach is given up.

ghost use Rattle.std.specs.Prelude.{◌≡◌, ◌≤◌, length, map, OnOk, OnErr};
ghost use Rattle.acl_lists.specs.Tables.{list_at, AllIn};
ghost use Rattle.acl_lists.specs.Compacting.{AllUsed};

use crate::cell::ListId;
use crate::marking::{mark_below, mark_roots};
use crate::moving::{move_roots, sweep};
use crate::table::Lists;
use std::alloc::{AllocError, Global};

impl Lists {
    /// Keeps the cells that these roots reach, and gives the others up. The roots get their new numbers; no other number stands
    /// for what it stood for. It takes memory for one number a cell, and time linear in the cells; refused, it changes nothing.
    #[tactic(auto, using(crate::proofs::SweepLemmas::roots_in, crate::proofs::SweepLemmas::roots_stand, crate::proofs::SweepLemmas::swept_table, crate::proofs::SweepLemmas::still_marked, crate::proofs::SweepLemmas::taken_short, crate::proofs::SweepLemmas::all_used))]
    pub fn compact(&mut self, alloc: Global, roots: &mut [ListId]) -> Result<(), AllocError>
        requires { AllIn self.old roots.old }
        ensures within { AllIn self.new roots.new }
        ensures are { map (list_at self.new) roots.new ≡ map (list_at self.old) roots.old }
        ensures shorter { length self.new ≤ length self.old }
        ensures used { OnOk result (AllUsed self.new roots.new) }
        ensures err { OnErr result ((self.new ≡ self.old) × (roots.new ≡ roots.old)) }
    {
        let mut marks = vec![in alloc; 0u64; self.cells.len()]?;
        mark_roots(&mut marks, roots);
        mark_below(&mut marks, self.cells.as_slice());
        let kept = sweep(&mut self.cells, &mut marks);
        move_roots(roots, &marks);
        self.cells.truncate(kept);
        Ok(())
    }
}
