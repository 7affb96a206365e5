//! Running a whole book: its commands, and their lines.

ghost use Rattle.std.specs.Prelude.{◌≡◌, ◌≤◌, IfOk, OnOk, OnErr, IsErrOf, codes};
ghost use Rattle.acl_edge.specs.Outside.{Takes, TakesPart, HasRisen};
ghost use Rattle.model_output_so_far.specs.Output as output;
ghost use Rattle.acl_session.specs.Runs.{Finishes, IsPlain, totals_view, end_output};

use crate::books::run_forms;
use crate::reading::MOST_BYTES;
use crate::totals::Totals;
use acl_base::Status;
use acl_edge::{Failed, Sink, write_all};
use acl_read::{TextCause, TextFault};
use std::alloc::{AllocError, AllocFailed, Global};

/// Why an output was not written whole.
#[derive(Clone, Copy, Debug, PartialEq, Eq)]
pub enum Unwritten {
    Fault,
    Memory,
}

impl From<AllocError> for Unwritten {
    ghost use Rattle.acl_session.specs.declared.answering.Unwritten.TheVariants.{Memory};

    ghost from_gives = { λ _ e. e ≡ Memory };

    fn from(_: AllocError) -> Self {
        Unwritten::Memory
    }
}

impl<T: Drop> From<AllocFailed<T>> for Unwritten {
    ghost use Rattle.acl_session.specs.declared.answering.Unwritten.TheVariants.{Memory};

    ghost from_gives = { λ _ e. e ≡ Memory };

    fn from(_: AllocFailed<T>) -> Self {
        Unwritten::Memory
    }
}

impl From<Failed> for Unwritten {
    ghost use Rattle.acl_session.specs.declared.answering.Unwritten.TheVariants.{Fault};

    ghost from_gives = { λ _ e. e ≡ Fault };

    fn from(_: Failed) -> Self {
        Unwritten::Fault
    }
}

/// Writes a line, and the byte that ends it.
pub fn write_line<K: Sink>(sink: &mut K, mut line: Vec<u8>) -> Result<(), Unwritten>
    ensures ok { OnOk result (Takes (K.written sink.old) (K.written sink.new) (output.line line.items)) }
    ensures part { OnErr result (TakesPart (K.written sink.old) (K.written sink.new) (output.line line.items)) }
    ensures fault { IsErrOf result Unwritten.Fault → HasRisen (K.faults sink.old) (K.faults sink.new) }
    ensures quiet { OnOk result (K.faults sink.new ≡ K.faults sink.old) }
    ensures counts { K.faults sink.old ≤ K.faults sink.new }
{
    line.push(b'\n')?;
    write_all(sink, line.as_slice())?;
    Ok(())
}

/// The name of the cause of a text fault.
fn cause_name(cause: TextCause) -> &'static [u8]
    ensures { result.now ≡ output.cause_name cause }
{
    match cause {
        TextCause::StrayClose => b"StrayClose",
        TextCause::Unfinished => b"Unfinished",
        TextCause::BadToken => b"BadToken",
        TextCause::BadByte => b"BadByte",
        TextCause::IntegerTooWide => b"IntegerTooWide",
        TextCause::TooDeep => b"TooDeep",
        TextCause::FormTooLong => b"FormTooLong",
        TextCause::InputTooLong => b"InputTooLong",
        TextCause::BadDot => b"BadDot",
        TextCause::CommaOutside => b"CommaOutside",
        TextCause::UnknownPackage => b"UnknownPackage",
        TextCause::TooManySymbols => b"TooManySymbols",
        TextCause::TooLarge => b"TooLarge",
        TextCause::Memory => b"Memory",
    }
}

/// The line of a text fault, without the byte that ends it.
fn fault_line(alloc: Global, name: &[u8], offset: u64) -> Result<Vec<u8>, AllocError>
    ensures { IfOk result (λ line. line.items ≡ output.fault_text name.now offset) }
{
    let digits = offset.to_string(alloc)?;
    let mut line = Vec::from_slice(alloc, b"Text fault: ")?;
    line.extend_from_slice(name)?;
    line.extend_from_slice(b" at ")?;
    line.extend_from_slice(digits.as_bytes())?;
    Ok(line)
}

/// Writes the summary of a book that has ended.
fn end_book<K: Sink>(alloc: Global, totals: &Totals, sink: &mut K) -> Result<Status, Unwritten>
    ensures ok { IfOk result (Finishes (K.written sink.old) (K.written sink.new) (output.ended (totals_view totals.now))) }
    ensures part { OnErr result (TakesPart (K.written sink.old) (K.written sink.new) (output.ended (totals_view totals.now)).bytes) }
    ensures fault { IsErrOf result Unwritten.Fault → HasRisen (K.faults sink.old) (K.faults sink.new) }
    ensures quiet { IfOk result (λ _. K.faults sink.new ≡ K.faults sink.old) }
    ensures counts { K.faults sink.old ≤ K.faults sink.new }
    ensures plain { IfOk result IsPlain }
{
    let summary = totals.summary(alloc)?;
    write_line(sink, summary)?;
    if totals.errors == 0 {
        Ok(Status::Done)
    } else {
        Ok(Status::Errors)
    }
}

/// Writes the line of a text fault, and the summary.
fn end_at_fault<K: Sink>(
    alloc: Global,
    name: &[u8],
    offset: u64,
    totals: &Totals,
    sink: &mut K,
) -> Result<Status, Unwritten>
    ensures ok { IfOk result (Finishes (K.written sink.old) (K.written sink.new) (output.faulty (totals_view totals.now) name.now offset)) }
    ensures part { OnErr result (TakesPart (K.written sink.old) (K.written sink.new) (output.faulty (totals_view totals.now) name.now offset).bytes) }
    ensures fault { IsErrOf result Unwritten.Fault → HasRisen (K.faults sink.old) (K.faults sink.new) }
    ensures quiet { IfOk result (λ _. K.faults sink.new ≡ K.faults sink.old) }
    ensures counts { K.faults sink.old ≤ K.faults sink.new }
    ensures plain { IfOk result IsPlain }
{
    let line = fault_line(alloc, name, offset)?;
    write_line(sink, line)?;
    let summary = totals.summary(alloc)?;
    write_line(sink, summary)?;
    Ok(Status::Text)
}

/// Writes what ends a book.
fn end<K: Sink>(
    alloc: Global,
    end: Option<TextFault>,
    totals: &Totals,
    sink: &mut K,
) -> Result<Status, Unwritten>
    ensures ok { IfOk result (Finishes (K.written sink.old) (K.written sink.new) (end_output (totals_view totals.now) end)) }
    ensures part { OnErr result (TakesPart (K.written sink.old) (K.written sink.new) (end_output (totals_view totals.now) end).bytes) }
    ensures fault { IsErrOf result Unwritten.Fault → HasRisen (K.faults sink.old) (K.faults sink.new) }
    ensures quiet { IfOk result (λ _. K.faults sink.new ≡ K.faults sink.old) }
    ensures counts { K.faults sink.old ≤ K.faults sink.new }
    ensures plain { IfOk result IsPlain }
{
    match end {
        None => end_book(alloc, totals, sink),
        Some(fault) => end_at_fault(alloc, cause_name(fault.cause), fault.offset, totals, sink),
    }
}

/// Runs an input, and writes its output.
#[tactic(auto, using(crate::proofs::OutputLemmas::output_short, crate::proofs::OutputLemmas::output_long))]
pub fn answer<K: Sink>(alloc: Global, input: &[u8], sink: &mut K) -> Result<Status, Unwritten>
    ensures ok { IfOk result (Finishes (K.written sink.old) (K.written sink.new) (output.output input.now)) }
    ensures part { OnErr result (TakesPart (K.written sink.old) (K.written sink.new) (output.output input.now).bytes) }
    ensures fault { IsErrOf result Unwritten.Fault → HasRisen (K.faults sink.old) (K.faults sink.new) }
    ensures quiet { IfOk result (λ _. K.faults sink.new ≡ K.faults sink.old) }
    ensures counts { K.faults sink.old ≤ K.faults sink.new }
    ensures plain { IfOk result IsPlain }
{
    let mut totals = Totals::new();
    if input.len() > MOST_BYTES {
        return end_at_fault(alloc, b"NotYet", MOST_BYTES as u64, &totals, sink);
    }
    let ended = run_forms(alloc, input, &mut totals, sink)?;
    let status = end(alloc, ended, &totals, sink)?;
    Ok(status)
}
