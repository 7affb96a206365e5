//! A form is closed, and an export left.

ghost use Rattle.std.specs.Prelude.{◌≡◌, OnOk};
ghost use Rattle.acl_call_turns.specs.Calls.{closing, leaving, stopping};

use acl_machine::{Inside, Machine};
use std::alloc::AllocError;

/// The innermost form is closed.
#[tactic(auto, using(crate::proofs::FormLemmas::popped))]
pub fn close_form(machine: &mut Machine) -> Result<(), AllocError>
    ensures { OnOk result (machine.new ≡ closing machine.old) }
{
    match machine.room.checked_add(1) {
        Some(room) => {
            let _ = machine.frames.pop();
            machine.room = room;
            Ok(())
        }
        None => Err(AllocError),
    }
}

/// What an export did is left: the outer calls are those before it.
pub fn leave(machine: &mut Machine, export: Inside)
    ensures { machine.new ≡ leaving export machine.old }
{
    machine.names.drop_last(export.names);
    machine.outer = export.outer;
}

/// A stop came inside an export.
pub fn stop_inside(machine: &mut Machine, export: Inside)
    ensures { machine.new ≡ stopping export machine.old }
{
    leave(machine, export);
    machine.inside = Some(export.name);
    machine.cut = export.number;
}
