//! Cases.

use crate::bytes::{bytes_of, changed, three_parts};
use crate::fault::ProgramRowFault;
use crate::names::Names;
use crate::numbers::{Numbers, number};
use crate::output::Output;
use crate::{Gathering, SinkWait};
use std::alloc::{AllocError, Global};

/// What goes wrong around the runs of a case. There is one run for each number.
#[derive(Clone, Copy)]
pub enum InjectedFault {
    /// Nothing.
    Nothing,
    /// The read of this number fails, counted from 0.
    ReadFails,
    /// The put of this number fails, counted from 0.
    PutFails,
    /// The sink takes the given number of bytes.
    Room,
    /// The source holds only the given number of bytes of the input.
    Cut,
}

/// The call that makes the runs of a case.
#[derive(Clone, Copy, PartialEq)]
pub enum Call {
    /// `run`.
    Run,
    /// `run_alone`, which answers how the run ended.
    Alone,
    /// `run_alone`, which answers None.
    Declined,
}

/// A case.
pub struct Case {
    alloc: Global,
    /// The line where it begins.
    pub line: usize,
    /// Its title.
    pub title: String,
    /// The words of its runs.
    pub words: Vec<String>,
    /// The call that makes them.
    pub call: Call,
    /// What the source holds; none if the case does not say it.
    pub input: Option<Vec<u8>>,
    /// The most bytes of one read.
    pub step: u32,
    /// What goes wrong around its runs.
    pub trouble: InjectedFault,
    /// The numbers of its runs.
    pub numbers: Numbers,
    /// Which workers come to the gate of its runs.
    pub gathering: Gathering,
    /// What the sink of its runs waits for.
    pub sink_wait: Option<SinkWait>,
    /// The most bytes of the notes, if there is a limit.
    pub notes_room: Option<u64>,
    /// The status that its runs end with.
    pub status: u8,
    /// The line in the notes.
    pub note: Option<String>,
    /// Whether the output is a legal recording, whose pictures are what is told of the output.
    pub recording: bool,
    /// What is said of the output.
    pub output: Output,
}

// Written out, since a derived drop is proved anew, field by field, in each function that lets one go.
impl Drop for Case {
    fn drop(self) {
        let Case {
            alloc: _,
            line: _,
            title: _,
            words: _,
            call: _,
            input: _,
            step: _,
            trouble: _,
            numbers: _,
            gathering: _,
            sink_wait: _,
            notes_room: _,
            status: _,
            note: _,
            recording: _,
            output: _,
        } = self;
    }
}

/// Adds a word, `""` for an empty one.
fn add_word(alloc: Global, words: &mut Vec<String>, word: &str) -> Result<(), ProgramRowFault> {
    let word = if word == "\"\"" { "" } else { word };
    Ok(words.push(word.to_string(alloc)?)?)
}

/// The words of a text, `""` for an empty one.
fn words_of(alloc: Global, text: &str) -> Result<Vec<String>, ProgramRowFault> {
    let mut words = Vec::new(alloc);
    for word in text.split_whitespace() {
        add_word(alloc, &mut words, word)?;
    }
    Ok(words)
}

/// A text and a newline.
fn line_of(alloc: Global, text: &str) -> Result<String, AllocError> {
    [text, "\n"].concat(alloc)
}

/// The old part and the new one of a change `OLD => NEW`.
fn old_and_new(change: &str) -> Result<(&str, &str), ProgramRowFault> {
    match change.split_once(" => ") {
        Some(parts) => Ok(parts),
        None => Err(ProgramRowFault::NoChange),
    }
}

/// Which workers come to the gate: the first `pair`, or those of the tile `LAYER COLUMN ROW`.
fn gathering_of(value: &str) -> Option<Gathering> {
    if value == "pair" {
        return Some(Gathering::Pair);
    }
    let Some((layer, column, row)) = three_parts(value) else {
        return None;
    };
    match (layer.parse(), column.parse(), row.parse()) {
        (Ok(layer), Ok(column), Ok(row)) => Some(Gathering::Tile { layer, column, row }),
        _ => None,
    }
}

impl Case {
    /// A case that says nothing yet.
    pub fn new(alloc: Global, line: usize, title: &str) -> Result<Case, ProgramRowFault> {
        let title = title.to_string(alloc)?;
        let words = words_of(alloc, "step 1")?;
        Ok(Case {
            alloc,
            line,
            title,
            words,
            call: Call::Run,
            input: None,
            step: 4096,
            trouble: InjectedFault::Nothing,
            numbers: Numbers::ZERO,
            gathering: Gathering::Nobody,
            sink_wait: None,
            notes_room: None,
            status: 0,
            note: None,
            recording: false,
            output: Output::new(alloc),
        })
    }

    /// Sets the trouble and its numbers.
    fn set_trouble(&mut self, trouble: InjectedFault, value: &str) -> Result<(), ProgramRowFault> {
        self.numbers = Numbers::of_text(value)?;
        self.trouble = trouble;
        Ok(())
    }

    /// Changes a part of the input, which stands in it once.
    fn change_bytes(&mut self, old: &[u8], new: &[u8]) -> Result<(), ProgramRowFault> {
        let Some(input) = &self.input else {
            return Err(ProgramRowFault::NoInput);
        };
        self.input = Some(changed(self.alloc, input.as_slice(), old, new)?);
        Ok(())
    }

    /// Changes the input as `OLD => NEW` says.
    fn change(&mut self, names: &Names, value: &str) -> Result<(), ProgramRowFault> {
        let (old, new) = old_and_new(value)?;
        let old = names.built(old)?;
        let new = names.built(new)?;
        self.change_bytes(old.as_bytes(), new.as_bytes())
    }

    /// Changes the input as `OLD => NEW` says, both in hexadecimal digits.
    fn change_hex(&mut self, value: &str) -> Result<(), ProgramRowFault> {
        let (old, new) = old_and_new(value)?;
        let old = bytes_of(self.alloc, old)?;
        let new = bytes_of(self.alloc, new)?;
        self.change_bytes(old.as_slice(), new.as_slice())
    }

    /// Sets that `run_alone` makes the runs: `ends`, or `none` if it answers so.
    fn set_alone(&mut self, value: &str) -> Result<(), ProgramRowFault> {
        self.call = match value {
            "ends" => Call::Alone,
            "none" => Call::Declined,
            _ => return Err(ProgramRowFault::NoCall),
        };
        Ok(())
    }

    /// Sets which workers come to the gate.
    fn set_gathering(&mut self, value: &str) -> Result<(), ProgramRowFault> {
        match gathering_of(value) {
            Some(gathering) => self.gathering = gathering,
            None => return Err(ProgramRowFault::NoNumber),
        }
        Ok(())
    }

    /// Sets what the sink waits for: `COUNT LINE`.
    fn set_sink_wait(&mut self, value: &str) -> Result<(), ProgramRowFault> {
        let Some((workers, line)) = value.split_once(' ') else {
            return Err(ProgramRowFault::NoNumber);
        };
        let workers = number(workers)?;
        self.sink_wait = Some(SinkWait {
            mark: line_of(self.alloc, line)?,
            workers,
            texts: Vec::new(self.alloc),
        });
        Ok(())
    }

    /// Adds the end of a line which the sink has to hold before the workers go on that wait for it.
    fn add_awaited(&mut self, value: &str) -> Result<(), ProgramRowFault> {
        let text = line_of(self.alloc, value)?;
        match &mut self.sink_wait {
            Some(wait) => Ok(wait.texts.push(text)?),
            None => Err(ProgramRowFault::NoWait),
        }
    }

    /// Sets how the run ends: `0 LENGTH SUM` of its output, or `STATUS NOTE` with the line in the notes.
    fn set_end(&mut self, text: &str) -> Result<(), ProgramRowFault> {
        let Some((status, rest)) = text.split_once(' ') else {
            return Err(ProgramRowFault::NoChange);
        };
        self.status = number(status)?;
        if self.status == 0 {
            return self.output.set_sum(rest);
        }
        self.note = Some(rest.to_string(self.alloc)?);
        Ok(())
    }

    /// Takes a line of a table of changes: an input, a change of it, and how the run ends.
    pub fn take_row(
        &mut self,
        names: &Names,
        input: &str,
        change: &str,
        end: &str,
    ) -> Result<(), ProgramRowFault> {
        self.input = Some(Vec::from_slice(self.alloc, input.as_bytes())?);
        self.change(names, change)?;
        self.set_end(end)
    }

    /// Takes a line of the table that says what the source holds.
    fn take_input(&mut self, names: &Names, key: &str, value: &str) -> Result<(), ProgramRowFault> {
        self.input = Some(match key {
            "input" => names.built(value)?.into_bytes(),
            "input hex" => bytes_of(self.alloc, value)?,
            _ => names.file(value)?,
        });
        Ok(())
    }

    /// Takes a line of the table that says one value.
    fn take_value(&mut self, key: &str, value: &str) -> Result<(), ProgramRowFault> {
        match key {
            "words" => self.words = words_of(self.alloc, value)?,
            "step" => self.step = number(value)?,
            "notes room" => self.notes_room = Some(number(value)?),
            "status" => self.status = number(value)?,
            "note" => self.note = Some(value.to_string(self.alloc)?),
            "legal recording" => self.recording = true,
            _ => return Err(ProgramRowFault::UnknownKey),
        }
        Ok(())
    }

    /// Takes a line of the table that says how the run is made.
    fn take_setting(
        &mut self,
        names: &Names,
        key: &str,
        value: &str,
    ) -> Result<(), ProgramRowFault> {
        match key {
            "alone" => self.set_alone(value),
            "input" | "input hex" | "input file" => self.take_input(names, key, value),
            "change" => self.change(names, value),
            "change hex" => self.change_hex(value),
            "cut" => self.set_trouble(InjectedFault::Cut, value),
            "room" => self.set_trouble(InjectedFault::Room, value),
            "reads fail" => self.set_trouble(InjectedFault::ReadFails, value),
            "puts fail" => self.set_trouble(InjectedFault::PutFails, value),
            "gate" => self.set_gathering(value),
            "sink waits" => self.set_sink_wait(value),
            "until" => self.add_awaited(value),
            _ => self.take_value(key, value),
        }
    }

    /// Takes a line of the table.
    pub fn take(&mut self, names: &Names, key: &str, value: &str) -> Result<(), ProgramRowFault> {
        match key {
            "out" => self.output.add_line(names.built(value)?.as_str()),
            "image" => self.output.add_image(self.alloc, value),
            "out hex" => self.output.add_hex(self.alloc, value),
            "out sum" => self.output.set_sum(value),
            _ => self.take_setting(names, key, value),
        }
    }
}
