//! The lines of the table.

use crate::commits::keys::{told_keys, told_sum};
use crate::commits::pushing::Pushing;
use crate::scripts::script_of;
use std::alloc::Global;
use std::io;
use test_table::{LineFault, Table, Tally};

/// What was read of the table so far.
pub struct Pushes {
    alloc: Global,
    /// The trees of the script that stands above.
    pushing: Option<Pushing>,
    /// How many scripts there were.
    scripts: usize,
    tally: Tally,
}

// Written out, since a derived drop is proved anew, field by field, in each function that lets one go.
impl Drop for Pushes {
    fn drop(self) {
        let Pushes {
            alloc: _,
            pushing: _,
            scripts: _,
            tally: _,
        } = self;
    }
}

// The answer to a question about the trees.
fn told(alloc: Global, pushing: &Pushing, question: &str) -> Result<String, LineFault> {
    match question {
        "pending" => told_keys(alloc, pushing.pending()),
        "active" => told_keys(alloc, pushing.active()),
        "pending sum" => told_sum(alloc, pushing.pending()),
        "active sum" => told_sum(alloc, pushing.active()),
        _ => Err(LineFault::NoForm),
    }
}

// Does what a line without an answer says.
fn step(pushing: &mut Pushing, word: &str) -> Result<(), LineFault> {
    match word {
        "abort" => pushing.abort(),
        "push" => pushing.push(),
        "activate" => pushing.activate(),
        "back" => pushing.take_back(),
        "again" => pushing.push_again(),
        _ => Err(LineFault::NoForm),
    }
}

impl Pushes {
    /// Nothing was read.
    pub fn new(alloc: Global) -> Pushes {
        Pushes {
            alloc,
            pushing: None,
            scripts: 0,
            tally: Tally::NONE,
        }
    }

    /// Takes a line with a script.
    fn take_script(&mut self, text: &str) -> Result<(), LineFault> {
        let script = script_of(self.alloc, text)?;
        self.pushing = Some(Pushing::new(self.alloc, script)?);
        self.scripts = self.scripts.saturating_add(1);
        Ok(())
    }

    /// Takes a line with a question about the trees and its answer.
    fn take_question<R: Print>(
        &mut self,
        rt: &R,
        line: usize,
        question: &str,
        wanted: &str,
    ) -> Result<(), LineFault> {
        let Some(pushing) = &self.pushing else {
            return Err(LineFault::NoFrame);
        };
        let told = told(self.alloc, pushing, question)?;
        self.tally.compare(rt, line, told.as_str(), wanted);
        Ok(())
    }

    /// Takes a line that says what is done.
    fn take_step(&mut self, word: &str) -> Result<(), LineFault> {
        match &mut self.pushing {
            Some(pushing) => step(pushing, word),
            None => Err(LineFault::NoFrame),
        }
    }
}

impl<R: Print> Table<R> for Pushes {
    type Fault = LineFault;

    fn take(&mut self, rt: &R, line: usize, text: &str) -> Result<(), LineFault> {
        match text.split_once(": ") {
            Some(("script", script)) => self.take_script(script),
            Some((question, wanted)) => self.take_question(rt, line, question, wanted),
            None => self.take_step(text),
        }
    }

    fn tally(&self) -> Tally {
        self.tally
    }

    fn tell(&self, rt: &R) -> io::Result<()> {
        let scripts = self.scripts;
        let answers = self.tally.answers();
        println!(rt; "{scripts} scripts, {answers} answers")
    }
}
