//! A source in memory, which fails where it is told to.

ghost use Rattle.std.specs.Prelude.{◌≡◌, ◌≤◌, ◌<◌, min, take, length, IfOk, OnErr, Some, is_err, vec_len};
ghost use Rattle.acl_edge.specs.Outside.{Gives, IsSpent, HasRisen};

use crate::outside::{Failed, Source};

/// Bytes in memory, which come in pieces.
#[derive(Debug, Drop)]
pub struct MemSource {
    bytes: Vec<u8>,
    at: usize,
    piece: usize,
    fail: Vec<u64>,
    calls: u64,
    faults: u64,
    ghost within: { at ≤ vec_len bytes },
    ghost some: { 0 < piece },
}

impl MemSource {
    ghost use Rattle.acl_edge.specs.Memory.{rest_of, source_calls, source_faults, source_piece, source_fail};

    /// Gives these bytes, at most `piece` in a read, and fails at the calls whose numbers, from 1, are in `fail`.
    pub fn new(bytes: Vec<u8>, piece: usize, fail: Vec<u64>) -> MemSource
        requires { 0 < piece }
        ensures rest { rest_of result ≡ bytes.items }
        ensures piece { source_piece result ≡ piece }
        ensures fail { source_fail result ≡ fail.items }
        ensures calls { source_calls result ≡ 0 }
        ensures faults { source_faults result ≡ 0 }
    {
        MemSource {
            bytes,
            at: 0,
            piece,
            fail,
            calls: 0,
            faults: 0,
        }
    }
}

impl Source for MemSource {
    ghost use Rattle.acl_edge.specs.Memory.{rest_of, source_calls, source_faults, source_piece, source_fail, next_call, is_among};

    ghost left = { λ s. Some (rest_of s) };

    ghost faults = { λ s. source_faults s };

    fn read(&mut self, buf: &mut [u8]) -> Result<usize, Failed>
        ensures count { IfOk result (λ n. n ≤ length buf.new) }
        ensures gives { IfOk result (λ n. Gives (Some (rest_of self.old)) (Some (rest_of self.new)) (take n buf.new)) }
        ensures end { IfOk result (λ n. n ≡ 0 → 0 < length buf.new → IsSpent (Some (rest_of self.old))) }
        ensures fault { OnErr result (HasRisen (source_faults self.old) (source_faults self.new)) }
        ensures quiet { IfOk result (λ _. source_faults self.new ≡ source_faults self.old) }
        ensures err { OnErr result (Some (rest_of self.new) ≡ Some (rest_of self.old)) }
        ensures counts { source_faults self.old ≤ source_faults self.new }

        ensures fails { is_err result ≡ is_among (source_fail self.old) (next_call (source_calls self.old)) }
        ensures most { IfOk result (λ n. n ≡ min (source_piece self.old) (min (length buf.old) (length (rest_of self.old)))) }
        ensures failed { OnErr result (source_faults self.new ≡ next_call (source_faults self.old)) }
        ensures call { source_calls self.new ≡ next_call (source_calls self.old) }
        ensures settings { (source_piece self.new ≡ source_piece self.old) × (source_fail self.new ≡ source_fail self.old) }
    {
        self.calls = self.calls.saturating_add(1);
        if self.fail.contains(&self.calls) {
            self.faults = self.faults.saturating_add(1);
            return Err(Failed);
        }
        let rest = &self.bytes.as_slice()[self.at..];
        let count = self.piece.min(buf.len().min(rest.len()));
        buf[..count].copy_from_slice(&rest[..count]);
        self.at += count;
        Ok(count)
    }
}
