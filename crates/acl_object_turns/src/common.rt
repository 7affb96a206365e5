//! What several turns do with a machine alone.

ghost use Rattle.std.specs.Prelude.{◌≡◌, ◌+◌, OnOk};
ghost use Rattle.acl_object_turns.specs.Steps.{WritesGiven, closed_first};

use acl_machine::{Machine, slot_in};
use std::alloc::AllocError;

/// The values that are given are written, in a window, from a slot on.
pub fn write_given(machine: &mut Machine, base: u64, at: u64) -> Result<(), AllocError>
    ensures { OnOk result (WritesGiven (base + at) machine.old machine.new) }
{
    let first = slot_in(base, at)?;
    machine.values.set_all(first, machine.given.as_slice())?;
    Ok(())
}

/// The innermost form is closed.
#[tactic(auto, using(crate::proofs::FrameLemmas::popped))]
pub fn close_first(machine: &mut Machine) -> Result<(), AllocError>
    ensures { OnOk result (machine.new ≡ closed_first machine.old) }
{
    match machine.room.checked_add(1) {
        Some(room) => {
            let _ = machine.frames.pop();
            machine.room = room;
            Ok(())
        }
        None => Err(AllocError),
    }
}
