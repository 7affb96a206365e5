//! The top call.

ghost use Rattle.std.specs.Prelude.{◌≡◌, ◌<◌, ◌↔◌, length};
ghost use Rattle.acl_edge.specs.Outside.{HasRisen};
ghost use Rattle.acl_session.specs.Runs.{IsRun, IsPlain};

use crate::answering::{Unwritten, answer};
use crate::reading::{Unread, read_input};
use acl_base::Status;
use acl_edge::{Sink, Source};
use std::alloc::Global;

/// Reads a book from the source, runs it, and writes its lines to the sink. The words are those after the program's name; none
/// is known yet.
#[tactic(auto, using(crate::proofs::OutputLemmas::plain_no_fault))]
pub fn run<S: Source, K: Sink>(
    alloc: Global,
    words: &[String],
    source: &mut S,
    sink: &mut K,
) -> Status
    // What is written, and how the run ends: as the definition of the output says for the bytes that the source tells.
    ensures exact { IsRun (S.left source.old) (K.written sink.old) (K.written sink.new) result }

    // When an end answers other than the output alone.
    ensures words { (result ≡ Status.Words) ↔ (0 < length words.now) }
    ensures untouched { result ≡ Status.Words → (source.new ≡ source.old) × (sink.new ≡ sink.old) }
    ensures read_fault { result ≡ Status.ReadFault → HasRisen (S.faults source.old) (S.faults source.new) }
    ensures write_fault { result ≡ Status.WriteFault → HasRisen (K.faults sink.old) (K.faults sink.new) }
    // No failed read or write is passed over: where a book ends by itself, none was.
    ensures heard { IsPlain result → (S.faults source.new ≡ S.faults source.old) × (K.faults sink.new ≡ K.faults sink.old) }
{
    if !words.is_empty() {
        return Status::Words;
    }
    match read_input(alloc, source) {
        Ok(input) => match answer(alloc, input.as_slice(), sink) {
            Ok(status) => status,
            Err(Unwritten::Fault) => Status::WriteFault,
            Err(Unwritten::Memory) => Status::Memory,
        },
        Err(Unread::Fault) => Status::ReadFault,
        Err(Unread::Memory) => Status::Memory,
    }
}
