//! The texts and files that a table names, and values that are built of the texts.

use crate::bytes::image_of;
use crate::fault::ProgramRowFault;
use crate::numbers::{Numbers, number};
use std::alloc::{AllocError, Global};

/// A text with its name.
#[derive(Drop)]
struct NamedText {
    name: String,
    text: String,
}

/// A file with its name.
#[derive(Drop)]
struct NamedFile {
    name: String,
    bytes: Vec<u8>,
}

/// What the table has named so far.
pub struct Names {
    alloc: Global,
    texts: Vec<NamedText>,
    files: Vec<NamedFile>,
}

// Written out, since a derived drop is proved anew, field by field, in each function that lets one go.
impl Drop for Names {
    fn drop(self) {
        let Names {
            alloc: _,
            texts: _,
            files: _,
        } = self;
    }
}

/// The numbers of the copies and the text to be repeated, if a value is `N of TEXT` or `A..B of TEXT`.
fn counted(value: &str) -> Option<(Numbers, &str)> {
    let Some((count, text)) = value.split_once(" of ") else {
        return None;
    };
    let Ok(numbers) = Numbers::of_text(count) else {
        return None;
    };
    if count.contains("..") {
        return Some((numbers, text));
    }
    let copies = Numbers {
        start: 1,
        end: numbers.end,
    };
    Some((copies, text))
}

/// A text with this number for `{i}`, and the number before it for `{i-1}`.
fn copy_of(alloc: Global, i: u64, text: &str) -> Result<String, AllocError> {
    let before = format!(in alloc; "{}", i.saturating_sub(1))?;
    let text = text.replace(alloc, "{i-1}", before.as_str())?;
    let own = format!(in alloc; "{i}")?;
    text.as_str().replace(alloc, "{i}", own.as_str())
}

/// A text for each of the numbers, with commas between.
fn repeated(alloc: Global, numbers: Numbers, text: &str) -> Result<String, AllocError> {
    let mut whole = String::new(alloc);
    let mut between = "";
    for i in numbers.start..numbers.end {
        let copy = copy_of(alloc, i, text)?;
        whole.push_str(between)?;
        whole.push_str(copy.as_str())?;
        between = ",";
    }
    Ok(whole)
}

impl Names {
    /// Nothing is named.
    pub fn new(alloc: Global) -> Names {
        Names {
            alloc,
            texts: Vec::new(alloc),
            files: Vec::new(alloc),
        }
    }

    /// Adds the text that a value says.
    pub fn add_text(&mut self, name: &str, value: &str) -> Result<(), ProgramRowFault> {
        let name = name.to_string(self.alloc)?;
        let text = self.built(value)?;
        Ok(self.texts.push(NamedText { name, text })?)
    }

    /// The text of this name that was added last.
    fn named(&self, name: &str) -> Option<&str> {
        let mut found = None;
        for one in self.texts.iter() {
            if one.name.as_str() == name {
                found = Some(one.text.as_str());
            }
        }
        found
    }

    /// The text that a piece `NAME>REST` names, and the rest.
    fn named_and_rest<'a>(&'a self, piece: &'a str) -> Option<(&'a str, &'a str)> {
        let Some((name, rest)) = piece.split_once('>') else {
            return None;
        };
        match self.named(name) {
            Some(text) => Some((text, rest)),
            None => None,
        }
    }

    /// Adds a piece `NAME>REST` of a value, with the text of this name in its place.
    fn push_piece(&self, whole: &mut String, piece: &str) -> Result<(), ProgramRowFault> {
        let Some((text, rest)) = self.named_and_rest(piece) else {
            return Err(ProgramRowFault::UnknownText);
        };
        whole.push_str(text)?;
        Ok(whole.push_str(rest)?)
    }

    /// The value with the text of each `<NAME>` in its place.
    fn filled(&self, value: &str) -> Result<String, ProgramRowFault> {
        let mut pieces = value.split('<');
        let mut whole = pieces.next().unwrap_or("").to_string(self.alloc)?;
        for piece in pieces {
            self.push_piece(&mut whole, piece)?;
        }
        Ok(whole)
    }

    /// The text that a value says.
    pub fn built(&self, value: &str) -> Result<String, ProgramRowFault> {
        if let Some(count) = value.strip_suffix(" blanks") {
            let count = number(count)?;
            return Ok(" ".repeat(self.alloc, count)?);
        }
        let Some((numbers, text)) = counted(value) else {
            return self.filled(value);
        };
        let text = self.filled(text)?;
        Ok(repeated(self.alloc, numbers, text.as_str())?)
    }

    /// Begins a file of this name.
    pub fn begin_file(&mut self, name: &str) -> Result<(), ProgramRowFault> {
        let name = name.to_string(self.alloc)?;
        let bytes = Vec::new(self.alloc);
        Ok(self.files.push(NamedFile { name, bytes })?)
    }

    /// These bytes come next in the file that was begun last.
    fn add_bytes(&mut self, bytes: &[u8]) -> Result<(), ProgramRowFault> {
        match self.files.last_mut() {
            Some(file) => Ok(file.bytes.extend_from_slice(bytes)?),
            None => Err(ProgramRowFault::NoFile),
        }
    }

    /// A line comes next in the file that was begun last.
    pub fn add_line(&mut self, value: &str) -> Result<(), ProgramRowFault> {
        let mut line = self.built(value)?;
        line.push('\n')?;
        self.add_bytes(line.as_bytes())
    }

    /// A picture comes next in it.
    pub fn add_image(&mut self, value: &str) -> Result<(), ProgramRowFault> {
        let image = image_of(self.alloc, value)?;
        self.add_bytes(image.as_slice())
    }

    /// The bytes of the file of this name that was begun last.
    pub fn file(&self, name: &str) -> Result<Vec<u8>, ProgramRowFault> {
        let mut found = None;
        for one in self.files.iter() {
            if one.name.as_str() == name {
                found = Some(one.bytes.as_slice());
            }
        }
        match found {
            Some(bytes) => Ok(Vec::from_slice(self.alloc, bytes)?),
            None => Err(ProgramRowFault::UnknownFile),
        }
    }
}
