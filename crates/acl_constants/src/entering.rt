//! A constant whose form was evaluated.

ghost use Rattle.std.specs.Prelude.{◌≡◌, ◌≤◌, None, length, IfOk, IfErr, OnErr};
ghost use Rattle.model_prims.specs.Kinds.{by_number};
ghost use Rattle.model_eval.specs.Variables as variables;
ghost use Rattle.model_eval.specs.Variables.{single};
ghost use Rattle.acl_heap.specs.Objects.{Denotes};
ghost use Rattle.acl_worlds.specs.Contents.{number_of};
ghost use Rattle.acl_engine.specs.Outcomes.{all_shown, all_shown_reach, ended_reach};
ghost use Rattle.acl_constants.specs.Entries.{is_memory, EntersConstant, ToldEntry};

use crate::draft::EntryFault;
use acl_base::{SymId, Word};
use acl_engine::Outcome;
use acl_heap::Heap;
use acl_terms::{Definition, Shown, Stop};
use acl_worlds::World;

/// `NIL`.
const NIL: Word = Word::Sym(SymId(1));

/// The only value; `NIL` for an object.
fn only_value(_heap: &Heap, values: &[Shown]) -> Word
    requires { all_shown_reach values.now ≤ length _heap.now }
    ensures { Denotes _heap.now result (variables.object_of by_number (single by_number (all_shown _heap.now values.now))) }
{
    match values.first() {
        None => NIL,
        Some(shown) => match shown {
            Shown::Value(value) => *value,
            Shown::Object(_) => NIL,
        },
    }
}

/// Whether memory was refused.
fn is_memory(stop: &Stop) -> bool
    ensures { result ≡ is_memory stop.now }
{
    match stop {
        Stop::Memory => true,
        Stop::Guard { .. } => false,
        Stop::Steps => false,
        Stop::Depth => false,
        Stop::Range { .. } => false,
        Stop::Large { .. } => false,
        Stop::Symbols { .. } => false,
    }
}

/// Brings a constant with the value that its form was evaluated to into a world, and answers that value.
#[tactic(auto, using(crate::proofs::EntryLemmas::enters, crate::proofs::EntryLemmas::halts, crate::proofs::EntryLemmas::values_lie))]
pub fn enter_constant(
    world: &mut World,
    heap: &Heap,
    name: SymId,
    outcome: Outcome,
) -> Result<Word, EntryFault>
    requires fresh { number_of world.old name.0 ≡ None }
    requires lies { ended_reach outcome outcome.stop ≤ length heap.now }
    ensures ok { IfOk result (EntersConstant heap.now name outcome world.old world.new) }
    ensures fault { IfErr result (ToldEntry heap.now name outcome) }
    ensures err { OnErr result (world.new ≡ world.old) }
{
    let Outcome {
        stop,
        values,
        calls: _,
        outer: _,
        inside: _,
        cut: _,
    } = outcome;
    match stop {
        None => {
            let value = only_value(heap, values.as_slice());
            match world.add(Definition::Constant { name, value }) {
                Err(_refused) => Err(EntryFault::Memory),
                Ok(_number) => Ok(value),
            }
        }
        Some(stop) => {
            if is_memory(&stop) {
                return Err(EntryFault::Memory);
            }
            Err(EntryFault::Stopped(stop))
        }
    }
}
