//! Pieces of a recording, put into a sink.

ghost use Rattle.std.specs.Prelude.{◌≡◌, ◌≤◌, ◌++◌, [], OnOk};
ghost use Rattle.byte_io.specs.Pieces.{PutsAll, WriteCause};
ghost use Rattle.recording_writer.specs.Parts.{WritesPart};

use byte_io::{PutFault, Sink};
use thread_pieces::GATHERED_LINES;

/// Puts the lines that were gathered, and begins to gather anew.
#[tactic(auto, using(byte_io::proofs::Puts::piece_stops, byte_io::proofs::Puts::puts_piece, byte_io::proofs::Puts::piece_cause))]
pub(crate) fn flush<K: Sink>(out: &mut K, lines: &mut Vec<u8>) -> Result<(), PutFault>
    ensures bytes { PutsAll (K.held out.old) (K.held out.new) lines.old.items result }
    ensures empty { OnOk result (lines.new.items ≡ []) }
    ensures grows { K.faults out.old ≤ K.faults out.new }
    ensures cause { WriteCause (K.faults out.old) (K.faults out.new) result }
{
    if let Err(fault) = out.put(lines.as_slice()) {
        return Err(fault);
    }
    lines.clear();
    Ok(())
}

/// Puts the lines that were gathered if they are many.
pub(crate) fn flush_many<K: Sink>(out: &mut K, lines: &mut Vec<u8>) -> Result<(), PutFault>
    ensures bytes { WritesPart (K.held out.old) (K.held out.new) lines.old.items lines.new.items result }
    ensures grows { K.faults out.old ≤ K.faults out.new }
    ensures cause { WriteCause (K.faults out.old) (K.faults out.new) result }
{
    if lines.len() >= GATHERED_LINES {
        flush(out, lines)
    } else {
        Ok(())
    }
}

/// Puts the lines that were gathered, and some bytes after them.
#[tactic(auto, using(byte_io::proofs::Puts::piece_cause, thread_pieces::proofs::Gains::blames_from))]
pub(crate) fn put_behind<K: Sink>(
    out: &mut K,
    lines: &mut Vec<u8>,
    bytes: &[u8],
) -> Result<(), PutFault>
    ensures bytes { WritesPart (K.held out.old) (K.held out.new) (lines.old.items ++ bytes.now) lines.new.items result }
    ensures grows { K.faults out.old ≤ K.faults out.new }
    ensures cause { WriteCause (K.faults out.old) (K.faults out.new) result }
{
    if let Err(fault) = flush(out, lines) {
        return Err(fault);
    }
    out.put(bytes)
}
