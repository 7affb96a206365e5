//! Prints objects: the bytes of the one printed form, as a vector or into a sink.
#![tactic(auto)]

ghost use Rattle.std.specs.Prelude.{◌≡◌, ◌≤◌, ◌<◌, [], ◌∷◌, ◌++◌, length, IfOk, OnOk, OnErr, IsErrOf};
ghost use Rattle.acl_edge.specs.Outside.{Takes, TakesPart, HasRisen};
ghost use Rattle.acl_forms.specs.Forms.{IsWhole};
ghost use Rattle.acl_print.specs.Views.{printed};
ghost use Rattle.acl_print.specs.Tasks.{AreReady, Steps, task_word};

mod atoms;
mod names;
mod writing;

use acl_base::{PkgId, Word};
use acl_edge::{Failed, Sink};
use acl_heap::{Heap, Seen};
use acl_syms::Symbols;
use atoms::{put_atom, put_end};
use std::alloc::{AllocError, AllocFailed, Global};
use thiserror::Error;
use writing::{flush, flush_full};

/// Why a text was not written whole.
#[derive(Clone, Copy, Debug, PartialEq, Eq, Error)]
pub enum PrintFault {
    #[error("the sink refused a write")]
    Write,
    #[error("memory was refused")]
    Memory,
}

impl From<AllocError> for PrintFault {
    ghost use Rattle.acl_print.specs.declared.PrintFault.TheVariants.{Memory};

    ghost from_gives = { λ _ e. e ≡ Memory };

    fn from(_: AllocError) -> Self {
        PrintFault::Memory
    }
}

impl<T: Drop> From<AllocFailed<T>> for PrintFault {
    ghost use Rattle.acl_print.specs.declared.PrintFault.TheVariants.{Memory};

    ghost from_gives = { λ _ e. e ≡ Memory };

    fn from(_: AllocFailed<T>) -> Self {
        PrintFault::Memory
    }
}

impl From<Failed> for PrintFault {
    ghost use Rattle.acl_print.specs.declared.PrintFault.TheVariants.{Write};

    ghost from_gives = { λ _ e. e ≡ Write };

    fn from(_: Failed) -> Self {
        PrintFault::Write
    }
}

/// What is left to print of an object.
#[derive(Clone, Copy)]
enum Task {
    Form(Word),
    /// The rest of a list, with its bracket.
    Tail(Word),
}

/// Puts the parts of a pair before the other tasks.
fn push_parts(tasks: &mut Vec<Task>, first: Word, rest: Word) -> Result<(), AllocError>
    ensures { OnOk result (tasks.new.items ≡ (tasks.old.items ++ Task.Tail rest ∷ []) ++ Task.Form first ∷ []) }
{
    tasks.push(Task::Tail(rest))?;
    tasks.push(Task::Form(first))?;
    Ok(())
}

/// Does one task, the next of all.
fn step(
    alloc: Global,
    heap: &Heap,
    syms: &Symbols,
    current: PkgId,
    out: &mut Vec<u8>,
    tasks: &mut Vec<Task>,
    task: Task,
) -> Result<(), AllocError>
    requires whole { IsWhole syms.now heap.now (task_word task) }
    requires current { current.0 < length syms.now.packages }
    requires ready { AreReady syms.now heap.now tasks.old.items }
    ensures { OnOk result (Steps syms.now current.0 heap.now out.old.items out.new.items task tasks.old.items tasks.new.items) }
{
    match task {
        Task::Form(word) => {
            let seen = heap.look(word);
            if let Seen::Pair(first, rest) = seen {
                out.push(b'(')?;
                push_parts(tasks, first, rest)?;
                Ok(())
            } else {
                put_atom(alloc, syms, current, out, &seen)?;
                Ok(())
            }
        }
        Task::Tail(word) => {
            let seen = heap.look(word);
            if let Seen::Pair(first, rest) = seen {
                out.push(b' ')?;
                push_parts(tasks, first, rest)?;
                Ok(())
            } else {
                put_end(alloc, syms, current, out, &seen)?;
                Ok(())
            }
        }
    }
}

/// The printed form of the object that the word stands for, in the current package.
pub fn text_of(
    alloc: Global,
    w: Word,
    heap: &Heap,
    syms: &Symbols,
    current: PkgId,
) -> Result<Vec<u8>, AllocError>
    requires whole { IsWhole syms.now heap.now w }
    requires current { current.0 < length syms.now.packages }
    ensures { IfOk result (λ out. out.items ≡ printed syms.now current.0 heap.now w) }
{
    let mut out = Vec::new(alloc);
    let mut tasks = Vec::new(alloc);
    tasks.push(Task::Form(w))?;
    while let Some(task) = tasks.pop() {
        step(alloc, heap, syms, current, &mut out, &mut tasks, task)?;
    }
    Ok(out)
}

/// Writes the printed form of the object that the word stands for, in the current package. Bytes are gathered and offered
/// to the sink in pieces, so that the whole text is never in memory at once.
pub fn print_to<K: Sink>(
    alloc: Global,
    w: Word,
    heap: &Heap,
    syms: &Symbols,
    current: PkgId,
    sink: &mut K,
) -> Result<(), PrintFault>
    requires whole { IsWhole syms.now heap.now w }
    requires current { current.0 < length syms.now.packages }
    ensures ok { OnOk result (Takes (K.written sink.old) (K.written sink.new) (printed syms.now current.0 heap.now w)) }
    ensures part { OnErr result (TakesPart (K.written sink.old) (K.written sink.new) (printed syms.now current.0 heap.now w)) }
    ensures fault { IsErrOf result PrintFault.Write → HasRisen (K.faults sink.old) (K.faults sink.new) }
    ensures quiet { OnOk result (K.faults sink.new ≡ K.faults sink.old) }
    ensures counts { K.faults sink.old ≤ K.faults sink.new }
{
    let mut out = Vec::new(alloc);
    let mut tasks = Vec::new(alloc);
    tasks.push(Task::Form(w))?;
    while let Some(task) = tasks.pop() {
        step(alloc, heap, syms, current, &mut out, &mut tasks, task)?;
        flush_full(sink, &mut out)?;
    }
    flush(sink, &mut out)?;
    Ok(())
}

#[cfg(test)]
mod tests;
