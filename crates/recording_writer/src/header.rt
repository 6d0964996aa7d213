//! The lines before the events.

ghost use Rattle.std.specs.Prelude.{◌≡◌, IfOk};
ghost use Rattle.model_history.specs.Recordings.{header};

use std::alloc::{AllocError, Global};

/// The two lines before the events: the name of the format, and this text of a script. An error means out of
/// memory.
#[tactic(auto, unfolding(model_history::specs::Recordings::header))]
pub fn header_of(alloc: Global, script: &[u8]) -> Result<Vec<u8>, AllocError>
    ensures { IfOk result (λ lines. lines.items ≡ header script.now) }
{
    let mut lines = Vec::from_slice(alloc, b"cc1\n")?;
    lines.extend_from_slice(script)?;
    lines.push(b'\n')?;
    Ok(lines)
}
