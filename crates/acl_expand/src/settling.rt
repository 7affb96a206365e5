//! What uses of macros make of their place.

ghost use Rattle.std.specs.Prelude.{◌≡◌, ◌≢◌, ◌+◌, ◌<◌, ◌≤◌, ◌^◌, [], length, Some, OnOk, IfOk, IfErr};
ghost use Rattle.model_prims.specs.Kinds.{by_number};
ghost use Rattle.model_eval.specs.Variables.{single};
ghost use Rattle.model_eval.specs.Variables as variables;
ghost use Rattle.model_expansion.specs.Expansion as expansion;
ghost use Rattle.acl_heap.specs.Objects.{object_of, Lies, Denotes};
ghost use Rattle.acl_terms.specs.declared.outcome.Stop.TheVariants as stop;
ghost use Rattle.acl_layers.specs.Rows.{seen_row};
ghost use Rattle.acl_layers.specs.Layers.{IsWhole, seen_made};
ghost use Rattle.acl_engine.specs.Outcomes.{all_shown, all_shown_reach, seen_outcome, ended_reach, outcome_words};
ghost use Rattle.acl_forms.specs.Forms.{AreWhole};
ghost use Rattle.model_expansion_parts.specs.Known.{KnowsMade};
ghost use Rattle.acl_expand.specs.Looks.{setting_at};
ghost use Rattle.acl_terms.specs.declared.fault.ExpandFault.TheVariants as fault;
ghost use Rattle.acl_expand.specs.Refusals.{stop_fault, IsTold};
ghost use Rattle.acl_expand.specs.Progresses.{seen_progress, EndsMade};

use crate::progress::{Origin, Progress, Refused, no_stop};
use acl_base::{Limits, SymId, Word};
use acl_engine::Outcome;
use acl_heap::Heap;
use acl_layers::{Made, Row, elements, made_of};
use acl_syms::Symbols;
use acl_terms::{ExpandFault, Shown, Stop};
use acl_worlds::World;
use std::alloc::Global;

/// `NIL`.
const NIL: Word = Word::Sym(SymId(1));

/// What a use of a built-in macro makes that was counted.
#[tactic(auto, using(crate::proofs::LookLemmas::whole_fits))]
pub fn built(
    alloc: Global,
    heap: &Heap,
    syms: &Symbols,
    _world: &World,
    _limits: Limits,
    _progress: Progress,
    head: SymId,
    row: Row,
    d: Word,
) -> Result<Made, Refused>
    requires whole { IsWhole row }
    requires word { Lies heap.now d }
    ensures told { IfErr result IsTold }
    ensures ends { EndsMade heap.now (seen_progress syms.now.symbols _progress) result (expansion.built (setting_at heap.now _world.now syms.now _limits.steps _limits.depth) head.0 (seen_row row) (object_of heap.now d) (seen_progress syms.now.symbols _progress)) }
{
    match elements(heap, d) {
        None => Err(no_stop(ExpandFault::BadShape { head })),
        Some(left) => match made_of(alloc, heap, syms, row, left)? {
            None => Err(no_stop(ExpandFault::BadShape { head })),
            Some(made) => Ok(made),
        },
    }
}

/// The only value, as a form; `NIL` for an object.
fn only_value(_heap: &Heap, values: &[Shown]) -> Word
    requires { all_shown_reach values.now ≤ length _heap.now }
    ensures { Denotes _heap.now result (variables.object_of by_number (single by_number (all_shown _heap.now values.now))) }
{
    match values.first() {
        None => NIL,
        Some(shown) => match shown {
            Shown::Value(value) => *value,
            Shown::Object(_) => NIL,
        },
    }
}

/// A stop of a macro's body, or want of memory.
fn stopped(stop: Stop, inside: Option<SymId>) -> Refused
    ensures is { result.fault ≡ stop_fault stop }
    ensures inside { result.fault ≢ fault.Memory → result.inside ≡ inside }
    ensures told { IsTold result }
{
    match stop {
        Stop::Memory => no_stop(ExpandFault::Memory),
        Stop::Guard { function, args } => at_stop(Stop::Guard { function, args }, inside),
        Stop::Steps => at_stop(Stop::Steps, inside),
        Stop::Depth => at_stop(Stop::Depth, inside),
        Stop::Range { function } => at_stop(Stop::Range { function }, inside),
        Stop::Large { function } => at_stop(Stop::Large { function }, inside),
        Stop::Symbols { function } => at_stop(Stop::Symbols { function }, inside),
    }
}

/// A stop of a macro's body, inside this export.
pub fn at_stop(stop: Stop, inside: Option<SymId>) -> Refused
    ensures { result ≡ record { fault = fault.MacroStopped stop; inside = inside } }
{
    Refused {
        fault: ExpandFault::MacroStopped(stop),
        inside,
    }
}

/// What an expansion is of the outcome of a macro's body: its value stands at the place. Where memory was refused, that is the
/// fault.
#[tactic(auto, using(crate::proofs::KnownLemmas::value_known))]
pub fn again(
    heap: &Heap,
    _syms: &Symbols,
    outcome: Outcome,
    progress: &mut Progress,
) -> Result<Made, Refused>
    requires lies { ended_reach outcome outcome.stop ≤ length heap.now }
    requires outer { progress.old.outer + outcome.outer < 2 ^ 64 }
    requires next { outcome.outer + 1 < 2 ^ 64 }
    requires whole { AreWhole _syms.now heap.now (outcome_words outcome) }
    requires enough { 2 ≤ length _syms.now.symbols }
    ensures ends { outcome.stop ≢ Some stop.Memory → EndsMade heap.now (seen_progress _syms.now.symbols progress.new) result (expansion.again (seen_progress _syms.now.symbols progress.old) (seen_outcome heap.now _syms.now.symbols [] outcome)) }
    ensures known { IfOk result (λ m. KnowsMade (length _syms.now.symbols) (seen_made heap.now m)) }
    ensures told { IfErr result IsTold }
    ensures value { OnOk result (outcome.stop ≢ Some stop.Memory) }
    ensures fault { IfErr result (λ r. r.fault ≢ fault.Memory → outcome.stop ≢ Some stop.Memory) }
    ensures calls { progress.new.calls ≡ outcome.calls }
    ensures counted { progress.new.outer ≡ progress.old.outer + outcome.outer }
{
    let Outcome {
        stop,
        values,
        calls,
        outer,
        inside,
        cut,
    } = outcome;
    progress.calls = calls;
    progress.outer += outer;
    match stop {
        None => {
            progress.last = Some(Origin {
                inside: None,
                cut: outer + 1,
            });
            Ok(Made::Again(only_value(heap, values.as_slice())))
        }
        Some(stop) => {
            progress.last = Some(Origin { inside, cut });
            Err(stopped(stop, inside))
        }
    }
}
