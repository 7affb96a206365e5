//! What the turns of an export's call do to a machine alone.

ghost use Rattle.std.specs.Prelude.{◌≡◌, OnOk};
ghost use Rattle.acl_machine.specs.Cells.{below};
ghost use Rattle.acl_machine.specs.Steps.{counted};
ghost use Rattle.acl_export_turns.specs.Steps.{shut, stopped_before, bared, holding_actuals};

use acl_machine::{Control, Frame, Halt, Machine, Step};
use std::alloc::AllocError;

/// A stop closes the innermost form, of whose actuals so many are objects; it is seen as one before the outer call of a number.
#[tactic(auto, using(crate::proofs::StepLemmas::popped))]
pub(crate) fn close(machine: &mut Machine, names: u64, number: u64) -> Result<(), AllocError>
    ensures { OnOk result (machine.new ≡ shut names number machine.old) }
{
    match machine.room.checked_add(1) {
        Some(room) => {
            let _ = machine.frames.pop();
            machine.names.drop_last(names);
            machine.room = room;
            machine.cut = number;
            Ok(())
        }
        None => Err(AllocError),
    }
}

/// The machine stops, seen as before the outer call of a number.
pub(crate) fn stop_before(machine: &mut Machine, number: u64, why: Halt)
    ensures { machine.new ≡ stopped_before number why machine.old }
{
    machine.control = Control::Stopped(why);
    machine.inside = None;
    machine.cut = number;
}

/// The innermost form has no more than its own value, and so many names are taken away.
pub(crate) fn bare(machine: &mut Machine, names: u64, base: u64)
    ensures { machine.new ≡ bared names base machine.old }
{
    machine.names.drop_last(names);
    machine.frames.replace(Frame {
        step: Step::Last { inside: None },
        base,
    });
}

/// The actuals that lie ready are what a stop is seen with.
pub(crate) fn hold_actuals(machine: &mut Machine)
    ensures { machine.new ≡ holding_actuals machine.old }
{
    std::mem::swap(&mut machine.given, &mut machine.actuals);
}
