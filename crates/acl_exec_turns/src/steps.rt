//! What the turns of exec functions do to a machine alone.

ghost use Rattle.std.specs.Prelude.{◌≡◌, ◌≢◌, ◌<◌, ◌+◌, [], ◌∷◌, length, IfOk, OnOk};
ghost use Rattle.acl_numbers.specs.declared.stops.PrimStop.TheVariants as prim_stop;
ghost use Rattle.acl_terms.specs.declared.outcome.Shown.TheVariants as shown;
ghost use Rattle.acl_export_turns.specs.Steps.{guarded, too_many, inside_of, stopped_inside};
ghost use Rattle.acl_exec_turns.specs.Steps.{called, given_inside, halt_of, answered_inside, with_two};

use crate::exports::Export;
use acl_base::{FnId, SymId, TermId, Word};
use acl_keep::Effect;
use acl_machine::{Control, Frame, Halt, Inside, Machine, Step, slot_in};
use acl_prims::PrimStop;
use acl_terms::Shown;
use std::alloc::AllocError;

/// The guard of an export begins, over actuals with so many objects among them.
pub(crate) fn begin_guard(
    machine: &mut Machine,
    function: FnId,
    names: u64,
    guard: TermId,
    base: u64,
)
    ensures { machine.new ≡ guarded function names guard base machine.old }
{
    machine.frames.replace(Frame {
        step: Step::Allowing {
            function,
            names,
            number: machine.outer,
        },
        base,
    });
    machine.begin_term(guard, base);
}

/// No call is left for an exec function: the machine stops, seen as before the outer call of a number.
pub(crate) fn stop_before(machine: &mut Machine, names: u64, number: u64, base: u64)
    ensures { machine.new ≡ too_many names number base machine.old }
{
    machine.names.drop_last(names);
    machine.frames.replace(Frame {
        step: Step::Last { inside: None },
        base,
    });
    machine.control = Control::Stopped(Halt::Steps);
    machine.inside = None;
    machine.cut = number;
}

/// The export whose exec function is called next.
pub(crate) fn inside_export(machine: &Machine, export: Export, names: u64, number: u64) -> Inside
    ensures { result ≡ inside_of export.name export.count names number machine.now }
{
    Inside {
        name: export.name,
        count: export.count,
        names,
        number,
        outer: machine.outer,
    }
}

/// The actuals of an export's call lie ready, and a call more is counted.
pub(crate) fn call(
    machine: &mut Machine,
    base: u64,
    count: u64,
    names: u64,
    limit: u64,
) -> Result<(), AllocError>
    requires { machine.old.calls < limit }
    ensures { OnOk result (machine.new ≡ called base count names machine.old) }
{
    machine.take_actuals(base, count, names)?;
    machine.count(limit)?;
    Ok(())
}

/// The exec function stops inside the export, with the actuals that lie ready.
pub(crate) fn stop_inside(
    machine: &mut Machine,
    inside: Inside,
    why: Halt,
    base: u64,
) -> Result<(), AllocError>
    ensures { OnOk result (machine.new ≡ stopped_inside inside why base machine.old) }
{
    machine.hold_actuals();
    machine.frames.replace(Frame {
        step: Step::Last {
            inside: Some(inside),
        },
        base,
    });
    machine.stop(why)?;
    Ok(())
}

/// It gives a value there.
pub(crate) fn give_inside(
    machine: &mut Machine,
    inside: Inside,
    word: Word,
    base: u64,
) -> Result<(), AllocError>
    ensures { OnOk result (machine.new ≡ given_inside inside (shown.Value word ∷ []) base machine.old) }
{
    machine.frames.replace(Frame {
        step: Step::Last {
            inside: Some(inside),
        },
        base,
    });
    machine.give_one(Shown::Value(word))?;
    Ok(())
}

/// Why a primitive stops, where it does.
pub(crate) fn why_stopped(stop: PrimStop, name: SymId) -> Result<Halt, AllocError>
    ensures why { IfOk result (λ why. why ≡ halt_of stop name) }
    ensures stops { OnOk result (stop ≢ prim_stop.Memory) }
{
    match stop {
        PrimStop::Guard => Ok(Halt::Guard(name)),
        PrimStop::Range => Ok(Halt::Range(name)),
        PrimStop::TooLarge => Ok(Halt::Large(name)),
        PrimStop::SymbolLimit => Ok(Halt::Symbols(name)),
        PrimStop::Memory => Err(AllocError),
    }
}

/// A call is made whose actuals lie ready, and there is room for what it gives; the number where it may stop.
pub(crate) fn call_with_room(
    machine: &mut Machine,
    base: u64,
    count: u64,
    names: u64,
    limit: u64,
) -> Result<u64, AllocError>
    requires { machine.old.calls < limit }
    ensures ok { OnOk result (machine.new ≡ with_two (called base count names machine.old)) }
    ensures cut { IfOk result (λ cut. cut ≡ machine.new.outer + 1) }
{
    call(machine, base, count, names, limit)?;
    machine.given.copy_with_room(&machine.values, base, 0)?;
    let cut = slot_in(machine.outer, 1)?;
    Ok(cut)
}

/// What a call inside an export answers is given, or it stops with the actuals that lie ready. It takes no memory.
pub(crate) fn answer(
    machine: &mut Machine,
    effect: Effect,
    name: SymId,
    inside: Inside,
    base: u64,
    cut: u64,
)
    requires room { 1 < length machine.old.given }
    requires cut { cut ≡ machine.old.outer + 1 }
    ensures { machine.new ≡ answered_inside effect name inside base machine.old }
{
    machine.frames.replace(Frame {
        step: Step::Last {
            inside: Some(inside),
        },
        base,
    });
    match effect {
        Effect::Refuses => {
            machine.hold_actuals();
            machine.control = Control::Stopped(Halt::Guard(name));
            machine.inside = None;
            machine.cut = cut;
        }
        Effect::Gives(value) => {
            machine.given.keep_one(value);
            machine.control = Control::Give;
        }
        Effect::GivesBoth(value, bound) => {
            machine.given.keep_two(value, bound);
            machine.control = Control::Give;
        }
    }
}
