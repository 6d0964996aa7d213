//! How a run ended.

ghost use Rattle.std.specs.Prelude.{◌≡◌};
ghost use Rattle.player_uses.specs.Outcomes as outcomes;
ghost use Rattle.player_uses.specs.Outcomes.{status_of};

use byte_io::PutFault;
use page_layers::EditFault;
use script_json::ShapeFault;

/// How a run of the program ended. Each answer but `Done` has a line for the notes and a status of
/// its own.
#[derive(Clone, Copy, Debug, Drop, PartialEq)]
pub enum Outcome {
    /// All was done; the words say what was written.
    Done,
    /// The words fit none of the program's uses.
    Usage {
        /// The index of the first word that, with those before it, begins no use; if there is no
        /// such word, more words are needed, and this is their count.
        word: u32,
    },
    /// The bytes are no JSON text, by `serde_json`'s definition.
    Json,
    /// The JSON value is no script: the place of its first fault.
    Shape(ShapeFault),
    /// A command of the script is refused: the first one.
    Script {
        /// The main frame, from 0.
        frame: u32,
        /// The command's place in that frame, from 0.
        command: u32,
        /// Why.
        fault: EditFault,
    },
    /// The source failed.
    ReadFault,
    /// The sink failed. What it gained is a prefix of what was to be written.
    WriteFault,
    /// The source gave more than `limit` bytes.
    TooLong {
        /// The greatest number of bytes that are read.
        limit: u64,
    },
    /// The bytes are no recording.
    BadRecording {
        /// The offset at which the first part begins that is not of its form.
        place: u64,
    },
    /// The recording is not that of its script and of a legal history.
    No {
        /// The index of the first event that may not come, or whose image is not the painting.
        event: u64,
    },
    /// There was no memory.
    Memory,
    /// No draw of the script gave a picture.
    NoPicture,
}

impl From<PutFault> for Outcome {
    ghost use Rattle.player_uses.specs.Outcomes.{fault_outcome};

    ghost from_gives = { λ fault outcome. outcome ≡ fault_outcome fault };

    fn from(fault: PutFault) -> Outcome {
        match fault {
            PutFault::Failed => Outcome::WriteFault,
            PutFault::Memory(_) => Outcome::Memory,
        }
    }
}

impl Outcome {
    /// The status with which the program exits.
    pub fn status(self) -> u8
        ensures { result ≡ status_of self }
    {
        match self {
            Outcome::Done => 0,
            Outcome::Usage { .. } => 2,
            Outcome::Json => 3,
            Outcome::Shape(_) => 4,
            Outcome::Script { .. } => 5,
            Outcome::ReadFault => 6,
            Outcome::WriteFault => 7,
            Outcome::TooLong { .. } => 8,
            Outcome::BadRecording { .. } => 9,
            Outcome::No { .. } => 10,
            Outcome::Memory => 11,
            Outcome::NoPicture => 12,
        }
    }

    /// Whether the sink failed.
    pub fn is_write_fault(self) -> bool
        ensures { result ≡ outcomes.is_write_fault self }
    {
        matches!(self, Outcome::WriteFault)
    }
}
