//! Lines made of texts and numbers, put without taking memory.

ghost use Rattle.std.specs.Prelude.{◌≤◌, flat_map};
ghost use Rattle.byte_io.specs.Pieces.{PutCause, PutsAll};
ghost use Rattle.player_uses.specs.inner.Fragments.{fragment_text};

use byte_io::{PutFault, Sink};
use itoa::Buffer;

/// A fragment of a line.
#[derive(Clone, Copy, Drop)]
pub enum Fragment {
    /// These bytes.
    Text(&'static [u8]),
    /// A number in plain decimal, with `-` in front if it is below 0.
    Number(i64),
    /// A count in plain decimal.
    Count(u64),
}

// Puts one fragment of a line.
fn put_fragment<K: Sink>(out: &mut K, fragment: &Fragment) -> Result<(), PutFault>
    ensures bytes { PutsAll (K.held out.old) (K.held out.new) (fragment_text fragment.now) result }
    ensures grows { K.faults out.old ≤ K.faults out.new }
    ensures refused { K.refusals out.old ≤ K.refusals out.new }
    ensures cause { PutCause (K.faults out.old) (K.faults out.new) (K.refusals out.old) (K.refusals out.new) result }
{
    match fragment {
        Fragment::Text(text) => out.put(text),
        Fragment::Number(number) => {
            let mut buffer = Buffer::new();
            out.put(buffer.format(*number).as_bytes())
        }
        Fragment::Count(number) => {
            let mut buffer = Buffer::new();
            out.put(buffer.format(*number).as_bytes())
        }
    }
}

/// Puts the fragments of a line, one after another, until one is refused.
pub fn put_fragments<K: Sink>(out: &mut K, fragments: &[Fragment]) -> Result<(), PutFault>
    ensures bytes { PutsAll (K.held out.old) (K.held out.new) (flat_map fragment_text fragments.now) result }
    ensures grows { K.faults out.old ≤ K.faults out.new }
    ensures refused { K.refusals out.old ≤ K.refusals out.new }
    ensures cause { PutCause (K.faults out.old) (K.faults out.new) (K.refusals out.old) (K.refusals out.new) result }
{
    let mut rest = fragments;
    while let Some((fragment, after)) = rest.split_first() {
        if let Err(fault) = put_fragment(out, fragment) {
            return Err(fault);
        }
        rest = after;
    }
    Ok(())
}
