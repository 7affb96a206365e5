//! A sink in memory, which fails where it is told to.

ghost use Rattle.std.specs.Prelude.{◌≡◌, [], ◌≤◌, ◌<◌, min, take, length, IfOk, OnErr, Some, is_err, vec_len, vec_capacity};
ghost use Rattle.acl_edge.specs.Outside.{Takes, HasRisen};

use crate::outside::{Failed, Sink};
use std::alloc::{AllocError, Global};

/// Memory that takes what is written, as far as there is room.
#[derive(Debug, Drop)]
pub struct MemSink {
    bytes: Vec<u8>,
    room: usize,
    fail: Vec<u64>,
    calls: u64,
    faults: u64,
    ghost within: { vec_len bytes ≤ room },
    ghost enough: { room ≤ vec_capacity bytes },
}

impl MemSink {
    ghost use Rattle.acl_edge.specs.Memory.{written_to, sink_calls, sink_faults, sink_room, sink_fail};

    /// Takes at most `room` bytes in all, for which it takes the memory now, and fails at the calls whose numbers, from 1, are
    /// in `fail`.
    pub fn new(alloc: Global, room: usize, fail: Vec<u64>) -> Result<MemSink, AllocError>
        ensures written { IfOk result (λ sink. written_to sink ≡ []) }
        ensures room { IfOk result (λ sink. sink_room sink ≡ room) }
        ensures fail { IfOk result (λ sink. sink_fail sink ≡ fail.items) }
        ensures calls { IfOk result (λ sink. sink_calls sink ≡ 0) }
        ensures faults { IfOk result (λ sink. sink_faults sink ≡ 0) }
    {
        let bytes = Vec::with_capacity(alloc, room)?;
        Ok(MemSink {
            bytes,
            room,
            fail,
            calls: 0,
            faults: 0,
        })
    }

    /// What was written.
    pub fn bytes(&self) -> &[u8]
        ensures { result.now ≡ written_to self.now }
    {
        self.bytes.as_slice()
    }
}

impl Sink for MemSink {
    ghost use Rattle.acl_edge.specs.Memory.{written_to, sink_calls, sink_faults, sink_room, sink_fail, room_left, next_call, refuses};

    ghost written = { λ s. Some (written_to s) };

    ghost faults = { λ s. sink_faults s };

    fn write(&mut self, piece: &[u8]) -> Result<usize, Failed>
        ensures count { IfOk result (λ n. n ≤ length piece.now) }
        ensures some { IfOk result (λ n. 0 < length piece.now → 0 < n) }
        ensures takes { IfOk result (λ n. Takes (Some (written_to self.old)) (Some (written_to self.new)) (take n piece.now)) }
        ensures fault { OnErr result (HasRisen (sink_faults self.old) (sink_faults self.new)) }
        ensures quiet { IfOk result (λ _. sink_faults self.new ≡ sink_faults self.old) }
        ensures err { OnErr result (Some (written_to self.new) ≡ Some (written_to self.old)) }
        ensures counts { sink_faults self.old ≤ sink_faults self.new }

        ensures fails { is_err result ≡ refuses self.old (length piece.now) }
        ensures most { IfOk result (λ n. n ≡ min (room_left self.old) (length piece.now)) }
        ensures failed { OnErr result (sink_faults self.new ≡ next_call (sink_faults self.old)) }
        ensures call { sink_calls self.new ≡ next_call (sink_calls self.old) }
        ensures settings { (sink_room self.new ≡ sink_room self.old) × (sink_fail self.new ≡ sink_fail self.old) }
    {
        self.calls = self.calls.saturating_add(1);
        let left = self.room - self.bytes.len();
        if self.fail.contains(&self.calls) || (!piece.is_empty() && left == 0) {
            self.faults = self.faults.saturating_add(1);
            return Err(Failed);
        }
        let taken = left.min(piece.len());
        self.bytes.extend_from_slice(&piece[..taken]).unwrap();
        Ok(taken)
    }
}
