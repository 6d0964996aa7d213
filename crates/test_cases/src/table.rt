//! The lines of the table, one after another.

use crate::case::Case;
use crate::fault::ProgramRowFault;
use crate::names::Names;
use std::alloc::Global;
use test_table::{Titles, key_and_value};

/// What was read of the table so far.
pub struct CaseTable {
    alloc: Global,
    /// Which cases are played.
    titles: Titles,
    names: Names,
    /// The input of a table of changes.
    base: Option<String>,
    /// The case whose lines are being read.
    case: Option<Case>,
}

// Written out, since a derived drop is proved anew, field by field, in each function that lets one go.
impl Drop for CaseTable {
    fn drop(self) {
        let CaseTable {
            alloc: _,
            titles: _,
            names: _,
            base: _,
            case: _,
        } = self;
    }
}

impl CaseTable {
    /// Nothing was read; the cases of these titles are to be played.
    pub fn new(alloc: Global, titles: Titles) -> CaseTable {
        CaseTable {
            alloc,
            titles,
            names: Names::new(alloc),
            base: None,
            case: None,
        }
    }

    /// Ends the case whose lines were read. Answers it, if it is to be played.
    pub fn end(&mut self) -> Option<Case> {
        let case = self.case.take()?;
        if !self.titles.has(case.title.as_str()) {
            return None;
        }
        Some(case)
    }

    /// Begins a case. Answers the one whose lines were read, if it is to be played.
    fn begin(&mut self, case: Case) -> Option<Case> {
        let ended = self.end();
        self.case = Some(case);
        ended
    }

    /// The case of a line of a table of changes: `OLD => NEW | END`.
    fn changed(&self, line: usize, row: &str) -> Result<Case, ProgramRowFault> {
        let Some((change, end)) = row.rsplit_once(" | ") else {
            return Err(ProgramRowFault::NoChange);
        };
        let change = change.trim_end();
        let Some(base) = &self.base else {
            return Err(ProgramRowFault::NoCase);
        };
        let mut case = Case::new(self.alloc, line, change)?;
        case.take_row(&self.names, base.as_str(), change, end)?;
        Ok(case)
    }

    /// Takes a line that says something of a file or of a case that was begun.
    fn take_more(&mut self, key: &str, value: &str) -> Result<(), ProgramRowFault> {
        match key {
            "line" => self.names.add_line(value),
            "picture" => self.names.add_image(value),
            _ => match &mut self.case {
                Some(case) => case.take(&self.names, key, value),
                None => Err(ProgramRowFault::NoCase),
            },
        }
    }

    /// Takes a line with a key.
    fn take_key(
        &mut self,
        line: usize,
        key: &str,
        value: &str,
    ) -> Result<Option<Case>, ProgramRowFault> {
        if let Some(name) = key.strip_prefix("text ") {
            self.names.add_text(name, value)?;
            return Ok(None);
        }
        if let Some(name) = key.strip_prefix("file ") {
            self.names.begin_file(name)?;
            return Ok(self.end());
        }
        match key {
            "case" => {
                let case = Case::new(self.alloc, line, value)?;
                Ok(self.begin(case))
            }
            "changes of" => {
                self.base = Some(self.names.built(value)?);
                Ok(self.end())
            }
            _ => {
                self.take_more(key, value)?;
                Ok(None)
            }
        }
    }

    /// Takes a line that says something. Answers the case that it ends, if that is to be played.
    pub fn take(&mut self, line: usize, text: &str) -> Result<Option<Case>, ProgramRowFault> {
        if let Some(row) = text.strip_prefix("    ") {
            let case = self.changed(line, row)?;
            return Ok(self.begin(case));
        }
        match key_and_value(text) {
            Some((key, value)) => self.take_key(line, key, value),
            None => Err(ProgramRowFault::NoKey),
        }
    }
}
