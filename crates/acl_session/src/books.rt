//! The commands of a book, one after another.

ghost use Rattle.std.specs.Prelude.{◌≡◌, ◌≤◌, ◌<◌, ◌+◌, ◌^◌, length, IfOk, OnOk, OnErr, IsErrOf, None, true};
ghost use Rattle.model_symbols.specs.Growth.{Extends};
ghost use Rattle.model_symbols.specs.Opening.{opening};
ghost use Rattle.model_output_so_far.specs.Commands as commands;
ghost use Rattle.model_output_so_far.specs.Running as running;
ghost use Rattle.model_output_so_far.specs.Sessions as sessions;
ghost use Rattle.model_output_so_far.specs.Output as output;
ghost use Rattle.acl_edge.specs.Outside.{TakesPart, HasRisen};
ghost use Rattle.acl_forms.specs.Forms.{IsWhole, form_at};
ghost use Rattle.acl_read.specs.Reading as reading;
ghost use Rattle.acl_answers.specs.Views.{session_view};
ghost use Rattle.acl_answers.specs.Whole.{IsSession};
ghost use Rattle.acl_answers.specs.Answers.{Answers};
ghost use Rattle.acl_session.specs.Runs.{Writing, totals_view, end_output};

use crate::answering::{Unwritten, write_line};
use crate::totals::Totals;
use acl_answers::{Answer, Session, run_command};
use acl_base::{PkgId, Word};
use acl_commands::command_of;
use acl_edge::Sink;
use acl_heap::Heap;
use acl_read::{Reader, TextCause, TextFault};
use acl_syms::Symbols;
use std::alloc::{AllocError, Global};

/// A reader of a whole input.
fn reader_of(alloc: Global, input: &[u8]) -> Result<Reader, Unwritten>
    ensures unread { IfOk result (λ r. reading.unread r ≡ input.now) }
    ensures offset { IfOk result (λ r. reading.offset_of r ≡ 0) }
    ensures ended { IfOk result (λ r. reading.has_ended r ≡ true) }
    ensures fault { IfOk result (λ r. reading.fault_of r ≡ None) }
    ensures fits { IfOk result reading.HasBuiltNothing }
    ensures err { OnErr result (IsErrOf result Unwritten.Memory) }
{
    let mut reader = Reader::new(alloc);
    match reader.feed(input) {
        Ok(()) => {
            reader.finish();
            Ok(reader)
        }
        Err(_) => Err(Unwritten::Memory),
    }
}

/// What the command of a form gives.
fn run_form(
    alloc: Global,
    form: Word,
    heap: &mut Heap,
    syms: &mut Symbols,
    session: &mut Session,
) -> Result<Answer, AllocError>
    requires opening { Extends opening syms.old }
    requires form { IsWhole syms.old heap.old form }
    requires session { IsSession syms.old session.old }
    ensures answers { IfOk result (Answers (running.run (session_view syms.old session.old) (commands.command_of (form_at syms.old heap.old form))) (session_view syms.new session.new)) }
    ensures session { IfOk result (λ _. IsSession syms.new session.new) }
    ensures opening { Extends opening syms.new }
{
    let command = command_of(alloc, form, heap, syms)?;
    let answer = run_command(alloc, &command, heap, syms, session)?;
    Ok(answer)
}

/// Runs the commands of an input in turn, and writes the line of each before the next. What ends the book is answered: its
/// end, or a text fault.
pub fn run_forms<K: Sink>(
    alloc: Global,
    input: &[u8],
    totals: &mut Totals,
    sink: &mut K,
) -> Result<Option<TextFault>, Unwritten>
    requires none { totals_view totals.old ≡ output.no_totals }
    requires short { length input.now < 2 ^ 32 }
    ensures ok { IfOk result (λ end. Writing (K.written sink.old) (K.written sink.new) (end_output (totals_view totals.new) end) (output.answers (length input.now + 1) sessions.first_session output.no_totals 0 input.now)) }
    ensures part { OnErr result (TakesPart (K.written sink.old) (K.written sink.new) (output.answers (length input.now + 1) sessions.first_session output.no_totals 0 input.now).bytes) }
    ensures fault { IsErrOf result Unwritten.Fault → HasRisen (K.faults sink.old) (K.faults sink.new) }
    ensures quiet { IfOk result (λ _. K.faults sink.new ≡ K.faults sink.old) }
    ensures counts { K.faults sink.old ≤ K.faults sink.new }
{
    let mut syms = Symbols::new(alloc)?;
    let mut heap = Heap::new(alloc);
    let mut reader = reader_of(alloc, input)?;
    let mut session = Session {
        current: PkgId(2),
        object: None,
    };
    let start = heap.mark();
    for turn in 0..input.len() + 1 {
        match reader.take(&mut heap, &mut syms, session.current) {
            Ok(found) => match found {
                Some(form) => {
                    let answer = run_form(alloc, form, &mut heap, &mut syms, &mut session)?;
                    totals.count(&answer);
                    write_line(sink, answer.line)?;
                    heap.reset(start);
                }
                None => return Ok(None),
            },
            Err(fault) => match fault.cause {
                TextCause::Memory => return Err(Unwritten::Memory),
                _ => return Ok(Some(fault)),
            },
        }
    }
    Ok(None)
}
