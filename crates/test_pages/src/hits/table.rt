//! The lines of the table, one after another.

use crate::hits::asks::answer;
use crate::scripts::page_of;
use page_layers::LayerTree;
use std::alloc::Global;
use std::io;
use test_table::{LineFault, Table, Tally};

/// What was read of the table so far.
pub struct HitQuestions {
    alloc: Global,
    /// The page of the script above.
    page: Option<LayerTree>,
    /// How many pages the table has.
    pages: usize,
    /// The questions about them, and those that got another answer.
    tally: Tally,
}

// Written out, since a derived drop is proved anew, field by field, in each function that lets one go.
impl Drop for HitQuestions {
    fn drop(self) {
        let HitQuestions {
            alloc: _,
            page: _,
            pages: _,
            tally: _,
        } = self;
    }
}

impl HitQuestions {
    /// Nothing was read.
    pub fn new(alloc: Global) -> HitQuestions {
        HitQuestions {
            alloc,
            page: None,
            pages: 0,
            tally: Tally::NONE,
        }
    }

    /// Takes a line with a script, whose page after all its main frames is asked about.
    fn take_script(&mut self, text: &str) -> Result<(), LineFault> {
        self.page = Some(page_of(self.alloc, text)?);
        self.pages = self.pages.saturating_add(1);
        Ok(())
    }

    /// The answer to a question about the page of the script above.
    fn told(&self, question: &str) -> Result<String, LineFault> {
        match &self.page {
            Some(page) => answer(self.alloc, page, question),
            None => Err(LineFault::NothingAbove),
        }
    }

    /// Takes a line with a question and its answer.
    fn take_question<R: Print>(
        &mut self,
        rt: &R,
        line: usize,
        text: &str,
    ) -> Result<(), LineFault> {
        let Some((question, wanted)) = text.split_once(" => ") else {
            return Err(LineFault::NoForm);
        };
        let told = self.told(question)?;
        self.tally.compare(rt, line, told.as_str(), wanted);
        Ok(())
    }
}

impl<R: Print> Table<R> for HitQuestions {
    type Fault = LineFault;

    fn take(&mut self, rt: &R, line: usize, text: &str) -> Result<(), LineFault> {
        match text.strip_prefix("script: ") {
            Some(script) => self.take_script(script),
            None => self.take_question(rt, line, text),
        }
    }

    fn tally(&self) -> Tally {
        self.tally
    }

    fn tell(&self, rt: &R) -> io::Result<()> {
        println!(rt; "{} pages, {} questions", self.pages, self.tally.answers())
    }
}
