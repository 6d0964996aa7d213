//! Why a line of the table can't be read.

use std::alloc::{AllocError, AllocFailed};
use std::fmt;

/// Why a line of the table can't be read.
#[derive(Clone, Copy)]
pub enum ProgramRowFault {
    /// There was no memory.
    Memory(AllocError),
    /// The line is none of the forms of a line.
    NoKey,
    /// The key is none of those that are known.
    UnknownKey,
    /// The line belongs to a case, and none was begun.
    NoCase,
    /// The case is played, and has no input.
    NoInput,
    /// The case ends in status 0, and says nothing of its output.
    NoOutput,
    /// What is said of `run_alone` is none of its answers.
    NoCall,
    /// The line tells what a sink has to hold, and no line above it what that sink waits for.
    NoWait,
    /// A number is none, or too large.
    NoNumber,
    /// The value names a text that was not given above.
    UnknownText,
    /// The value names a file that was not given above.
    UnknownFile,
    /// A line or a picture belongs to a file, and none was begun.
    NoFile,
    /// The change is not `OLD => NEW`, or of a table not `OLD => NEW | END`.
    NoChange,
    /// What is to be changed does not stand in the input exactly once.
    NotOnce,
    /// The bytes are not written as pairs of hexadecimal digits.
    NoHex,
    /// The picture has not one colour for each pixel.
    NoImage,
}

impl From<AllocError> for ProgramRowFault {
    fn from(error: AllocError) -> ProgramRowFault {
        ProgramRowFault::Memory(error)
    }
}

impl<T: Drop> From<AllocFailed<T>> for ProgramRowFault {
    fn from(_refused: AllocFailed<T>) -> ProgramRowFault {
        ProgramRowFault::Memory(AllocError)
    }
}

// Written out, since a derived one has a call for each cause.
impl fmt::Display for ProgramRowFault {
    fn fmt<W: fmt::Write>(&self, f: &mut fmt::Formatter<W>) -> fmt::Result {
        f.write_str(match self {
            ProgramRowFault::Memory(_) => "memory ran out",
            ProgramRowFault::NoKey => "a line is `key: value`",
            ProgramRowFault::UnknownKey => "there is no such key",
            ProgramRowFault::NoCase => "no case stands above this line",
            ProgramRowFault::NoInput => "the case has no input",
            ProgramRowFault::NoOutput => "the case has status 0 and says nothing of its output",
            ProgramRowFault::NoCall => "`run_alone` either `ends` or answers `none`",
            ProgramRowFault::NoWait => "`until` belongs to a sink that waits",
            ProgramRowFault::NoNumber => "this is no number, or it is too large",
            ProgramRowFault::UnknownText => "there is no text of this name",
            ProgramRowFault::UnknownFile => "there is no file of this name",
            ProgramRowFault::NoFile => "no file was begun above this line",
            ProgramRowFault::NoChange =>
                "a change is `OLD => NEW`, and `| END` behind it in a table of changes",
            ProgramRowFault::NotOnce => "what is changed does not stand in the input once",
            ProgramRowFault::NoHex => "these are no bytes in hexadecimal digits",
            ProgramRowFault::NoImage =>
                "a picture is its width, its height and a colour for each pixel",
        })
    }
}
