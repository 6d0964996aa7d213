//! Why the reading of a script one value at a time stopped.

ghost use Rattle.std.specs.Prelude.{◌≡◌, ◌≢◌};
ghost use Rattle.script_fields.specs.declared.unread.Unread.TheVariants as unread;
ghost use Rattle.script_json.specs.declared.halt.Halt.TheVariants as halt;

use crate::fault::Stop;
use json::Invalid;
use script_fields::Unread;
use std::alloc::{AllocError, AllocFailed};

/// Why the reading of a script one value at a time stopped.
#[derive(Clone, Copy)]
pub(crate) enum Halt {
    /// The text is no JSON.
    Json,
    /// The value of the text is no script, or its lists were not read as they count: the text is to be
    /// read as one value, which tells the first fault.
    Fault,
    /// There was no memory.
    Memory(AllocError),
}

impl From<Invalid> for Halt {
    fn from(_invalid: Invalid) -> Halt {
        Halt::Json
    }
}

impl From<Unread> for Halt {
    ghost from_gives = { λ u h. h ≡ halt.Json → u ≡ unread.NoValue };

    fn from(unread: Unread) -> Halt {
        match unread {
            Unread::NoValue => Halt::Json,
            Unread::Memory => Halt::Memory(AllocError),
        }
    }
}

impl From<Stop> for Halt {
    ghost from_gives = { λ x h. h ≢ halt.Json };

    fn from(stop: Stop) -> Halt {
        match stop {
            Stop::Fault(_) => Halt::Fault,
            Stop::Memory(refused) => Halt::Memory(refused),
        }
    }
}

impl From<AllocError> for Halt {
    ghost from_gives = { λ x h. h ≢ halt.Json };

    fn from(refused: AllocError) -> Halt {
        Halt::Memory(refused)
    }
}

impl<T: Drop> From<AllocFailed<T>> for Halt {
    ghost from_gives = { λ x h. h ≢ halt.Json };

    fn from(_refused: AllocFailed<T>) -> Halt {
        Halt::Memory(AllocError)
    }
}
