//! A whole file, written.

ghost use Rattle.std.specs.Prelude.{◌≡◌, ◌≤◌};
ghost use Rattle.player_uses.specs.Faults.{Causes};
ghost use Rattle.player_uses.specs.Outputs.{WritesSome};

use crate::outcome::Outcome;
use byte_io::Sink;

/// Writes a file: `Done`, `WriteFault` if the sink failed, `Memory` if there was none.
pub fn put_file<K: Sink>(file: &[u8], out: &mut K) -> Outcome
    ensures file { WritesSome (λ whole. whole ≡ file.now) (K.held out.old) (K.held out.new) result }
    ensures grows { K.faults out.old ≤ K.faults out.new }
    ensures cause { Causes 0 0 (K.faults out.old) (K.faults out.new) result }
{
    match out.put(file) {
        Ok(()) => Outcome::Done,
        Err(fault) => Outcome::from(fault),
    }
}
