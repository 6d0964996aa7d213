//! The lines of the table, and what they ask.

use crate::calls::frames::frames;
use crate::calls::missing::missing;
use crate::calls::texts::script_text;
use crate::calls::{lists, pages, texts};
use crate::scripts::page_of;
use page_layers::LayerTree;
use std::alloc::Global;
use test_table::{Answer, LineFault, Subject};

/// What is asked about: the text of the script that stands above.
#[derive(Drop)]
pub struct Calls {
    alloc: Global,
    script: String,
}

/// Answers a question about a page.
fn ask_of(
    alloc: Global,
    page: &mut LayerTree,
    kind: &str,
    question: &str,
    answer: &mut Answer,
) -> Result<(), LineFault> {
    match kind {
        "changes" => pages::changes(alloc, page, question, answer),
        "pulls" => pages::pulls(page, question, answer),
        "copy" => pages::copy(alloc, page, question, answer),
        "scrollers" => pages::scrollers(page, answer),
        "missing" => missing(alloc, page, question, answer),
        "view" => {
            pages::view(page, answer);
            Ok(())
        }
        _ => Err(LineFault::NoForm),
    }
}

impl Calls {
    /// No script was read.
    pub fn new(alloc: Global) -> Calls {
        Calls {
            alloc,
            script: String::new(alloc),
        }
    }

    /// Answers a question about the page of the script above.
    fn ask_page(&self, kind: &str, question: &str, answer: &mut Answer) -> Result<(), LineFault> {
        let mut page = page_of(self.alloc, self.script.as_str())?;
        ask_of(self.alloc, &mut page, kind, question, answer)
    }
}

impl Subject for Calls {
    fn take(&mut self, key: &str, value: &str) -> Result<bool, LineFault> {
        match key {
            "script" => self.script = value.to_string(self.alloc)?,
            "page" => self.script = script_text(self.alloc, value)?,
            _ => return Ok(false),
        }
        Ok(true)
    }

    fn ask(&self, kind: &str, question: &str, answer: &mut Answer) -> Result<(), LineFault> {
        let script = self.script.as_str();
        match kind {
            "frames" => frames(self.alloc, script, question, answer),
            "reads" => texts::reads(self.alloc, script, answer),
            "prints" => texts::prints(self.alloc, script, answer),
            "moves" => lists::moves(self.alloc, question, answer),
            "entries" => lists::entries(self.alloc, question, answer),
            _ => self.ask_page(kind, question, answer),
        }
    }
}
