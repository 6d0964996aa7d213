//! The tables, one after another.

use crate::fault::TableFault;
use crate::play::play_all;
use std::alloc::Global;
use std::io;
use std::sync::Wait;
use std::thread::Threads;
use test_cases::{Case, CaseTable};
use test_histories::Walks;
use test_table::{Table, Tally, Titles, says_something};

/// A table.
#[derive(Clone, Copy)]
enum Part {
    Program,
    Histories,
}

/// What was read of each table so far, and what was played.
pub struct Tables {
    alloc: Global,
    /// The one whose lines are read.
    part: Part,
    program: CaseTable,
    histories: Walks,
    cases: usize,
    runs: u64,
    tally: Tally,
}

// Written out, since a derived drop is proved anew, field by field, in each function that lets one go.
impl Drop for Tables {
    fn drop(self) {
        let Tables {
            alloc: _,
            part: _,
            program: _,
            histories: _,
            cases: _,
            runs: _,
            tally: _,
        } = self;
    }
}

/// The table of a name.
fn part_of(name: &str) -> Result<Part, TableFault> {
    match name {
        "program" => Ok(Part::Program),
        "histories" => Ok(Part::Histories),
        _ => Err(TableFault::NoTable),
    }
}

impl Tables {
    /// Nothing was read. The cases and histories of these titles are to be tried.
    pub fn new(alloc: Global, cases: Titles, histories: Titles) -> Tables {
        Tables {
            alloc,
            part: Part::Program,
            program: CaseTable::new(alloc, cases),
            histories: Walks::new(alloc, histories),
            cases: 0,
            runs: 0,
            tally: Tally::NONE,
        }
    }

    /// Plays a case, if there is one.
    fn play<R: Threads + Wait + Sync + Print>(
        &mut self,
        rt: &R,
        case: Option<Case>,
    ) -> Result<(), TableFault> {
        if let Some(case) = case {
            self.cases = self.cases.saturating_add(1);
            if !play_all(rt, self.alloc, &case, &mut self.runs)? {
                self.tally.count_wrong(case.line);
            }
        }
        Ok(())
    }

    /// Takes a line that says something.
    fn take<R: Threads + Wait + Sync + Print>(
        &mut self,
        rt: &R,
        line: usize,
        text: &str,
    ) -> Result<(), TableFault> {
        if let Some(name) = text.strip_prefix("table: ") {
            self.part = part_of(name)?;
            let ended = self.program.end();
            return self.play(rt, ended);
        }
        match self.part {
            Part::Program => {
                let ended = self.program.take(line, text)?;
                self.play(rt, ended)
            }
            Part::Histories => Ok(self.histories.take(rt, line, text)?),
        }
    }

    /// Takes all lines of the tables. An error tells the line that can't be read.
    pub fn take_all<R: Threads + Wait + Sync + Print>(
        &mut self,
        rt: &R,
        text: &str,
    ) -> Result<(), (usize, TableFault)> {
        let mut last = 0usize;
        for (index, line) in text.lines().enumerate() {
            last = index.saturating_add(1);
            if !says_something(line) {
                continue;
            }
            if let Err(fault) = self.take(rt, last, line) {
                return Err((last, fault));
            }
        }
        let ended = self.program.end();
        match self.play(rt, ended) {
            Ok(()) => Ok(()),
            Err(fault) => Err((last, fault)),
        }
    }

    /// How many cases of all tables are wrong.
    pub fn tally<R: Print>(&self, _rt: &R) -> Tally {
        self.tally.and(Table::<R>::tally(&self.histories))
    }

    /// Tells how many cases there were.
    pub fn tell<R: Print>(&self, rt: &R) -> io::Result<()> {
        println!(rt; "{} cases, {} runs", self.cases, self.runs)?;
        self.histories.tell(rt)
    }
}
