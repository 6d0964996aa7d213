//! Why a value was not read.

ghost use Rattle.std.specs.Prelude.{◌≡◌};
ghost use Rattle.script_fields.specs.declared.unread.Unread.TheVariants as unread;

use json::Invalid;
use std::alloc::{AllocError, AllocFailed};

/// Why a value was not read.
#[derive(Clone, Copy, PartialEq, Eq, Debug)]
pub enum Unread {
    /// The tokens do not begin with a value that nests no deeper than it may and has no number that is
    /// out of range.
    NoValue,
    /// There was no memory.
    Memory,
}

impl From<Invalid> for Unread {
    ghost from_gives = { λ x e. e ≡ unread.NoValue };

    fn from(_invalid: Invalid) -> Unread {
        Unread::NoValue
    }
}

impl From<AllocError> for Unread {
    ghost from_gives = { λ x e. e ≡ unread.Memory };

    fn from(_refused: AllocError) -> Unread {
        Unread::Memory
    }
}

impl<T: Drop> From<AllocFailed<T>> for Unread {
    ghost from_gives = { λ x e. e ≡ unread.Memory };

    fn from(_refused: AllocFailed<T>) -> Unread {
        Unread::Memory
    }
}
