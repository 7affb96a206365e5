//! Writing what was gathered.

ghost use Rattle.std.specs.Prelude.{◌≡◌, ◌<◌, ◌≤◌, [], length, OnOk, OnErr};
ghost use Rattle.acl_edge.specs.Outside.{Takes, TakesPart, HasRisen};
ghost use Rattle.acl_print.specs.Writing.{Follows};

use acl_edge::{Failed, Sink, write_all};

/// How many bytes are gathered before they are written.
const PIECE: usize = 65_536;

/// Writes what was gathered, and forgets it.
pub fn flush<K: Sink>(sink: &mut K, out: &mut Vec<u8>) -> Result<(), Failed>
    ensures ok { OnOk result (Takes (K.written sink.old) (K.written sink.new) out.old.items) }
    ensures none { OnOk result (out.new.items ≡ []) }
    ensures part { OnErr result (TakesPart (K.written sink.old) (K.written sink.new) out.old.items) }
    ensures fault { OnErr result (HasRisen (K.faults sink.old) (K.faults sink.new)) }
    ensures quiet { OnOk result (K.faults sink.new ≡ K.faults sink.old) }
    ensures counts { K.faults sink.old ≤ K.faults sink.new }
{
    write_all(sink, out.as_slice())?;
    out.clear();
    Ok(())
}

/// Writes what was gathered where it fills a piece; what stays is less than a piece, so that no more than a piece and what one
/// step adds is ever held.
pub fn flush_full<K: Sink>(sink: &mut K, out: &mut Vec<u8>) -> Result<(), Failed>
    ensures short { OnOk result (length out.new.items < 65536) }
    ensures ok { OnOk result (Follows (K.written sink.old) (K.written sink.new) out.old.items out.new.items) }
    ensures part { OnErr result (TakesPart (K.written sink.old) (K.written sink.new) out.old.items) }
    ensures fault { OnErr result (HasRisen (K.faults sink.old) (K.faults sink.new)) }
    ensures quiet { OnOk result (K.faults sink.new ≡ K.faults sink.old) }
    ensures counts { K.faults sink.old ≤ K.faults sink.new }
{
    if out.len() >= PIECE {
        flush(sink, out)?;
        Ok(())
    } else {
        Ok(())
    }
}
