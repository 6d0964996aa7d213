//! Why a line of the table can't be read.

use std::alloc::{AllocError, AllocFailed};
use std::fmt;

/// Why a line of the table can't be read.
#[derive(Clone, Copy)]
pub enum HistoryLineFault {
    /// There was no memory.
    Memory(AllocError),
    /// The line is none of the forms of a line.
    NoForm,
    /// The text is no script.
    NoScript,
    /// The number of workers is not 1 to 16.
    NoWorkers,
    /// No script, or no history, stands above.
    NothingAbove,
    /// A line of a history is none.
    NoEvent,
    /// What is to be changed does not stand in the history exactly once.
    NotOnce,
    /// An entry before the question may not come.
    Stopped,
}

impl From<AllocError> for HistoryLineFault {
    fn from(error: AllocError) -> HistoryLineFault {
        HistoryLineFault::Memory(error)
    }
}

impl<T: Drop> From<AllocFailed<T>> for HistoryLineFault {
    fn from(_refused: AllocFailed<T>) -> HistoryLineFault {
        HistoryLineFault::Memory(AllocError)
    }
}

// Written out, since a derived one has a call for each cause.
impl fmt::Display for HistoryLineFault {
    fn fmt<W: fmt::Write>(&self, f: &mut fmt::Formatter<W>) -> fmt::Result {
        f.write_str(match self {
            HistoryLineFault::Memory(_) => "memory ran out",
            HistoryLineFault::NoForm => "this line has none of the forms of a line",
            HistoryLineFault::NoScript => "this is no script",
            HistoryLineFault::NoWorkers => "the number of workers is not 1 to 16",
            HistoryLineFault::NothingAbove => "no script or no history stands above this line",
            HistoryLineFault::NoEvent => "a line of this history is none",
            HistoryLineFault::NotOnce => "what is changed does not stand in the history once",
            HistoryLineFault::Stopped => "an entry before this question may not come",
        })
    }
}
