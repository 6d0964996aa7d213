//! What a run of a case is given, and whether it leaves behind what the case says.

use crate::case::{Call, Case, InjectedFault};
use crate::fault::ProgramRowFault;
use crate::output::Short;
use byte_io::{MemSink, MemSource};
use std::alloc::{AllocError, Global};
use std::fmt;

/// What a run left behind.
pub struct RunOutput {
    /// The status that it ended with; None if `run_alone` answers so.
    pub status: Option<u8>,
    /// The output, or its pictures if the case asks for a legal recording.
    pub out: MemSink,
    /// The notes.
    pub notes: MemSink,
    /// Whether the output is what the case asks for: a legal recording, or anything.
    pub accepted: bool,
    /// How many waits for another thread were given up.
    pub given_up: u64,
}

// Written out, since a derived drop is proved anew, field by field, in each function that lets one go.
impl Drop for RunOutput {
    fn drop(self) {
        let RunOutput {
            status: _,
            out: _,
            notes: _,
            accepted: _,
            given_up: _,
        } = self;
    }
}

/// What of a run is not as its case says.
#[derive(Clone, Copy, Debug)]
pub enum Difference {
    Status,
    Notes,
    /// The output is no legal recording, and was to be one.
    Legality,
    Output,
    /// A sink or a worker waited for what did not come.
    Wait,
}

/// The numbers of the calls that fail: this one, if there is one.
fn failing(alloc: Global, call: Option<u64>) -> Result<Vec<u64>, AllocError> {
    let mut calls = Vec::new(alloc);
    if let Some(call) = call {
        calls.push(call)?;
    }
    Ok(calls)
}

/// The bytes that the source of the run of this number holds.
fn given<'a>(case: &Case, input: &'a [u8], number: u64) -> &'a [u8] {
    match case.trouble {
        InjectedFault::Cut => &input[..input.len().min(number as usize)],
        _ => input,
    }
}

/// Whether the notes hold a line, as far as it has room; nothing if there is no line.
fn holds_line(held: &[u8], line: Option<&str>, room: Option<u64>) -> bool {
    let Some(line) = line else {
        return held.is_empty();
    };
    let front = held.strip_suffix(b"\n").unwrap_or(held);
    match room {
        None => held.ends_with(b"\n") && front == line.as_bytes(),
        Some(room) => line.as_bytes().starts_with(front) && held.len() as u64 == room,
    }
}

impl Case {
    /// The source of the run of this number. An error is a case that lacks its input, or what its output is.
    pub fn source(&self, alloc: Global, number: u64) -> Result<MemSource, ProgramRowFault> {
        let Some(input) = &self.input else {
            return Err(ProgramRowFault::NoInput);
        };
        if self.call != Call::Declined && self.status == 0 && !self.output.is_said() {
            return Err(ProgramRowFault::NoOutput);
        }
        let fails = match self.trouble {
            InjectedFault::ReadFails => Some(number),
            _ => None,
        };
        let bytes = Vec::from_slice(alloc, given(self, input.as_slice(), number))?;
        Ok(MemSource::new(bytes, self.step.max(1), failing(alloc, fails)?))
    }

    /// The sink of the run of this number.
    pub fn sink(&self, alloc: Global, number: u64) -> Result<MemSink, AllocError> {
        Ok(match self.trouble {
            InjectedFault::Room => MemSink::new(alloc, number, Vec::new(alloc)),
            InjectedFault::PutFails => MemSink::new(alloc, u64::MAX, failing(alloc, Some(number))?),
            _ => MemSink::endless(alloc),
        })
    }

    /// The sink of the notes.
    pub fn notes(&self, alloc: Global) -> MemSink {
        match self.notes_room {
            Some(room) => MemSink::new(alloc, room, Vec::new(alloc)),
            None => MemSink::endless(alloc),
        }
    }

    /// Whether the words ask for a session, and the call holds one.
    pub fn is_served(&self) -> bool {
        self.call != Call::Declined
            && self
                .words
                .first()
                .is_some_and(|word| word.as_str() == "serve")
    }

    /// What cuts the output of the run of this number.
    fn short(&self, number: u64) -> Short {
        match self.trouble {
            InjectedFault::Room => Short::Room(number),
            InjectedFault::PutFails => Short::Put,
            _ => Short::Never,
        }
    }

    /// Whether a run may end with this status.
    fn may_end(&self, status: Option<u8>) -> bool {
        match status {
            Some(status) => self.call != Call::Declined && status == self.status,
            None => self.call == Call::Declined,
        }
    }

    /// What of the run of this number is not as the case says.
    fn difference(&self, number: u64, left: &RunOutput) -> Option<Difference> {
        if !self.may_end(left.status) {
            return Some(Difference::Status);
        }
        let line = self.note.as_ref().map(|line| line.as_str());
        if !holds_line(left.notes.bytes(), line, self.notes_room) {
            return Some(Difference::Notes);
        }
        if left.given_up > 0 {
            return Some(Difference::Wait);
        }
        if !left.accepted {
            return Some(Difference::Legality);
        }
        if !self.output.fits(left.out.bytes(), self.short(number)) {
            return Some(Difference::Output);
        }
        None
    }

    /// Tells what of the run of this number is not as the case says; None if all is.
    pub fn complaint(
        &self,
        alloc: Global,
        number: u64,
        left: &RunOutput,
    ) -> Result<Option<String>, AllocError> {
        let Some(difference) = self.difference(number, left) else {
            return Ok(None);
        };
        let line = self.line;
        let title = self.title.as_str();
        let text = format!(in alloc; "line {line}: {title}: run {number}: {difference:?}: {left}")?;
        Ok(Some(text))
    }
}

impl fmt::Display for RunOutput {
    fn fmt<W: fmt::Write>(&self, f: &mut fmt::Formatter<W>) -> fmt::Result {
        match self.status {
            Some(status) => write!(f, "status {status}, ")?,
            None => write!(f, "no answer, ")?,
        }
        let notes = str::from_utf8(self.notes.bytes()).unwrap_or("not text");
        let length = self.out.bytes().len();
        write!(f, "notes {notes:?}, output of {length} bytes")
    }
}
