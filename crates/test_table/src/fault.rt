//! Why a line of a table can't be taken.

use std::alloc::{AllocError, AllocFailed};
use std::fmt;

/// Why a line can't be read, or what it asks for can't be done. It is one list for all tables, with no text in it,
/// since each `?` proves once more how a fault with text is passed on.
#[derive(Clone, Copy)]
pub enum LineFault {
    /// There was no memory.
    Memory(AllocError),
    /// The line has none of the forms of a line.
    NoForm,
    /// A number is none, or out of its range.
    NoNumber,
    /// No table has this name.
    NoTable,
    /// The script or the page is none.
    NoScript,
    /// No script stands above.
    NothingAbove,
    /// A wheel asks for more than 1048576 along an axis.
    TooFar,
    /// The page refuses a command, or lacks what is asked for.
    PageRefuses,
    /// No script stands above, or it has no main frame left.
    NoFrame,
    /// The main frame ends otherwise.
    OtherEnd,
    /// A tree is pending already, or none is, or none was taken back.
    OtherTrees,
    /// The commit may not follow the active tree.
    NotNext,
    /// The parts of a scene make none.
    NoScene,
    /// The script is none, or its page has no such tile.
    NoPage,
    /// The two scenes are of different sizes.
    OtherSize,
    /// The clock could not be read.
    NoClock,
    /// A key stands twice in what a queue is to represent.
    KeyTwice,
    /// A key that is to start is not wanted.
    NotWanted,
    /// A tile that was made is wanted or ready already, or none was in flight.
    NotNew,
    /// More tiles are in flight than a queue counts.
    TooMany,
    /// What a call asks for does not hold, or a value that is there was refused.
    CaseRefused,
    /// A call refused what it has to take, or took what it has to refuse.
    CallRefused,
}

impl fmt::Display for LineFault {
    fn fmt<W: fmt::Write>(&self, f: &mut fmt::Formatter<W>) -> fmt::Result {
        f.write_str(match self {
            LineFault::Memory(_) => "memory ran out",
            LineFault::NoForm => "this line has none of the forms of a line",
            LineFault::NoNumber => "a number is none, or out of its range",
            LineFault::NoTable => "no table has this name",
            LineFault::NoScript => "the script or the page is none",
            LineFault::NothingAbove => "no script stands above this line",
            LineFault::TooFar => "a wheel asks for too much",
            LineFault::PageRefuses => "the page refuses a command, or lacks what is asked for",
            LineFault::NoFrame => "no main frame is left for this line",
            LineFault::OtherEnd => "the main frame ends otherwise",
            LineFault::OtherTrees => "the trees are not such that this can be done",
            LineFault::NotNext => "the commit may not follow the active tree",
            LineFault::NoScene => "the parts of a scene above this line make none",
            LineFault::NoPage => "the script is none, or its page lacks a tile",
            LineFault::OtherSize => "the scenes above this line are of different sizes",
            LineFault::NoClock => "the clock could not be read",
            LineFault::KeyTwice => "a key stands twice",
            LineFault::NotWanted => "the key is not wanted",
            LineFault::NotNew => "no tile is in flight, or this one is wanted or ready already",
            LineFault::TooMany => "too many tiles are in flight",
            LineFault::CaseRefused => "what a call asks for does not hold",
            LineFault::CallRefused => {
                "a call refused what it has to take, or took what it has to refuse"
            }
        })
    }
}

impl From<AllocError> for LineFault {
    fn from(refused: AllocError) -> LineFault {
        LineFault::Memory(refused)
    }
}

impl<T: Drop> From<AllocFailed<T>> for LineFault {
    fn from(_refused: AllocFailed<T>) -> LineFault {
        LineFault::Memory(AllocError)
    }
}
