//! Writing bytes whole.

ghost use Rattle.std.specs.Prelude.{◌≡◌, ◌≤◌, ◌<◌, take, length, OnOk, OnErr};
ghost use Rattle.acl_edge.specs.Outside.{Takes, TakesPart, HasRisen};

use crate::outside::{Failed, Sink};

/// How many bytes are offered at once.
const PIECE: usize = 65_536;

/// Offers the bytes to the sink in pieces, and the rest of a piece that was taken in part again.
pub fn write_all<K: Sink>(sink: &mut K, bytes: &[u8]) -> Result<(), Failed>
    ensures ok { OnOk result (Takes (K.written sink.old) (K.written sink.new) bytes.now) }
    ensures part { OnErr result (TakesPart (K.written sink.old) (K.written sink.new) bytes.now) }
    ensures fault { OnErr result (HasRisen (K.faults sink.old) (K.faults sink.new)) }
    ensures quiet { OnOk result (K.faults sink.new ≡ K.faults sink.old) }
    ensures counts { K.faults sink.old ≤ K.faults sink.new }
{
    let mut at = 0;
    while at < bytes.len() {
        let rest = bytes.len() - at;
        let room = PIECE - at % PIECE;
        let count = rest.min(room);
        at += sink.write(&bytes[at..at + count])?;
    }
    Ok(())
}
