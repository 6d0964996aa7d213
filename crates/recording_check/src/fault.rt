//! Why bytes are no recording.

ghost use Rattle.std.specs.Prelude.{◌≡◌};
ghost use Rattle.recording_check.specs.declared.fault.RecordingFault.TheVariants.{Memory};

use std::alloc::AllocError;
use thiserror::Error;

/// Why bytes are no recording.
#[derive(Clone, Copy, PartialEq, Eq, Debug, Error)]
pub enum RecordingFault {
    /// A part is not of its form.
    #[error("the part at {place} is not of its form")]
    Bad {
        /// The offset at which the first such part begins.
        place: u64,
    },
    /// There was no memory.
    #[error("memory ran out")]
    Memory(AllocError),
}

impl From<AllocError> for RecordingFault {
    ghost from_gives = { λ refused fault. fault ≡ Memory refused };

    fn from(refused: AllocError) -> RecordingFault {
        RecordingFault::Memory(refused)
    }
}
