//! The real ends: std's readers and writers. No clause says which bytes pass here, so this is the trusted edge.

ghost use Rattle.std.specs.Prelude.{◌≡◌, None};

use crate::outside::{Failed, Sink, Source};
use std::io::{Read, Write};

/// Reads from a reader of std, and counts its errors. It tells no bytes.
#[derive(Drop)]
pub struct StdSource<R> {
    reader: R,
    faults: u64,
}

impl<R: Read> StdSource<R> {
    ghost use Rattle.acl_edge.specs.Real.{source_faults};

    pub fn new(r: R) -> StdSource<R>
        ensures { source_faults result ≡ 0 }
    {
        StdSource {
            reader: r,
            faults: 0,
        }
    }
}

impl<R: Read> Source for StdSource<R> {
    ghost use Rattle.acl_edge.specs.Real.{source_faults};

    ghost left = { λ _. None };

    ghost faults = { λ s. source_faults s };

    fn read(&mut self, buf: &mut [u8]) -> Result<usize, Failed> {
        match self.reader.read(buf) {
            Ok(count) => Ok(count),
            Err(_) => {
                self.faults = self.faults.saturating_add(1);
                Err(Failed)
            }
        }
    }
}

/// Writes to a writer of std, and counts its errors, a write of no bytes among them. It tells no bytes.
#[derive(Drop)]
pub struct StdSink<W> {
    writer: W,
    faults: u64,
}

impl<W: Write> StdSink<W> {
    ghost use Rattle.acl_edge.specs.Real.{sink_faults};

    pub fn new(w: W) -> StdSink<W>
        ensures { sink_faults result ≡ 0 }
    {
        StdSink {
            writer: w,
            faults: 0,
        }
    }
}

impl<W: Write> Sink for StdSink<W> {
    ghost use Rattle.acl_edge.specs.Real.{sink_faults};

    ghost written = { λ _. None };

    ghost faults = { λ s. sink_faults s };

    fn write(&mut self, piece: &[u8]) -> Result<usize, Failed> {
        match self.writer.write(piece) {
            Ok(0) if !piece.is_empty() => {}
            Ok(count) => return Ok(count),
            Err(_) => {}
        }
        self.faults = self.faults.saturating_add(1);
        Err(Failed)
    }
}
