//! The lines of the table, one after another.

use crate::fault::HistoryLineFault;
use crate::judged::judged_at;
use crate::lines::{changed, entries};
use crate::walk::{asked_after, stops_at};
use model_history::{Entry, Script};
use script_json::read_script;
use std::alloc::Global;
use std::io;
use std::sync::Arc;
use test_table::{Table, Tally, Titles};

/// What was read of the table so far.
pub struct Walks {
    alloc: Global,
    /// Which histories are tried.
    titles: Titles,
    script: Option<Arc<Script>>,
    workers: u32,
    /// The lines of the history that stands above.
    history: Option<String>,
    /// Whether the history that stands above is not tried.
    is_left_out: bool,
    /// How many legal histories there were, how many changed ones, how many entries they have, and how many
    /// questions were asked.
    legal: usize,
    changed: usize,
    entries: usize,
    asked: usize,
    tally: Tally,
}

// Written out, since a derived drop is proved anew, field by field, in each function that lets one go.
impl Drop for Walks {
    fn drop(self) {
        let Walks {
            alloc: _,
            titles: _,
            script: _,
            workers: _,
            history: _,
            is_left_out: _,
            legal: _,
            changed: _,
            entries: _,
            asked: _,
            tally: _,
        } = self;
    }
}

/// The number before the first blank of a text, and what stands after that blank.
fn number_and_rest(text: &str) -> Option<(usize, &str)> {
    let Some((number, rest)) = text.split_once(' ') else {
        return None;
    };
    match number.parse() {
        Ok(number) => Some((number, rest)),
        Err(_) => None,
    }
}

/// The lines that are changed, those that they become, and the entry where both stop, of `OLD => NEW | N WHAT`.
fn change_of(row: &str) -> Option<(&str, &str, usize)> {
    let Some((change, end)) = row.rsplit_once(" | ") else {
        return None;
    };
    match (change.split_once(" => "), number_and_rest(end)) {
        (Some((old, new)), Some((place, _))) => Some((old, new, place)),
        _ => None,
    }
}

/// The number of entries, the question after them and the answer that is wanted, of `N QUESTION: ANSWER`.
fn question_of(row: &str) -> Option<(usize, &str, &str)> {
    let Some((asked, wanted)) = row.split_once(':') else {
        return None;
    };
    match number_and_rest(asked) {
        Some((count, question)) => Some((count, question, wanted)),
        None => None,
    }
}

impl Walks {
    /// Nothing was read.
    pub fn new(alloc: Global, titles: Titles) -> Walks {
        Walks {
            alloc,
            titles,
            script: None,
            workers: 1,
            history: None,
            is_left_out: false,
            legal: 0,
            changed: 0,
            entries: 0,
            asked: 0,
            tally: Tally::NONE,
        }
    }

    /// Tells where who goes through a history stops at another entry than the one that is wanted.
    fn compare<R: Print>(
        &mut self,
        rt: &R,
        line: usize,
        who: &str,
        told: Option<usize>,
        wanted: Option<usize>,
    ) {
        if told != wanted {
            let _ = rt.println(format_args!("line {line}, {who}: {told:?} for {wanted:?}"));
            self.tally.count_wrong(line);
        }
    }

    /// The script of the histories.
    fn script(&self) -> Result<Arc<Script>, HistoryLineFault> {
        match &self.script {
            Some(script) => Ok(Arc::try_clone(script)?),
            None => Err(HistoryLineFault::NothingAbove),
        }
    }

    /// Where the compositor stops in a history.
    fn stops(&self, entries: &[Entry]) -> Result<Option<usize>, HistoryLineFault> {
        stops_at(self.alloc, self.script()?, self.workers, entries)
    }

    /// Where the judge stops in a history.
    fn judged(&self, entries: &[Entry]) -> Result<Option<usize>, HistoryLineFault> {
        judged_at(self.alloc, self.script()?, self.workers, entries)
    }

    /// Walks through a history, asks the judge about it, and tells where one of them stops at another entry
    /// than the one that is wanted.
    fn walk<R: Print>(
        &mut self,
        rt: &R,
        line: usize,
        lines: &str,
        wanted: Option<usize>,
    ) -> Result<(), HistoryLineFault> {
        if self.script.is_none() {
            return Err(HistoryLineFault::NothingAbove);
        }
        let entries = entries(self.alloc, lines)?;
        let stops = self.stops(entries.as_slice())?;
        let refused = self.judged(entries.as_slice())?;
        self.compare(rt, line, "the compositor", stops, wanted);
        self.compare(rt, line, "the judge", refused, wanted);
        self.entries = self.entries.saturating_add(entries.len());
        Ok(())
    }

    /// Takes a line with a script.
    fn take_script(&mut self, text: &str) -> Result<(), HistoryLineFault> {
        match read_script(self.alloc, text.as_bytes()) {
            Ok(script) => match Arc::new(self.alloc, script) {
                Ok(script) => {
                    self.script = Some(script);
                    self.history = None;
                    self.workers = 1;
                    Ok(())
                }
                Err(full) => Err(HistoryLineFault::Memory(full.into())),
            },
            Err(_) => Err(HistoryLineFault::NoScript),
        }
    }

    /// Takes a line with a number of workers.
    fn take_workers(&mut self, text: &str) -> Result<(), HistoryLineFault> {
        let Ok(workers) = text.parse::<u32>() else {
            return Err(HistoryLineFault::NoForm);
        };
        if workers < 1 || workers > 16 {
            return Err(HistoryLineFault::NoWorkers);
        }
        self.workers = workers;
        self.history = None;
        Ok(())
    }

    /// Takes a line with a legal history of this title.
    fn take_history<R: Print>(
        &mut self,
        rt: &R,
        line: usize,
        title: &str,
        lines: &str,
    ) -> Result<(), HistoryLineFault> {
        self.is_left_out = !self.titles.has(title);
        if self.is_left_out {
            return Ok(());
        }
        self.legal = self.legal.saturating_add(1);
        self.history = Some(lines.to_string(self.alloc)?);
        self.walk(rt, line, lines, None)
    }

    /// Takes a line with a change of the history above: `OLD => NEW | N WHAT`.
    fn take_change<R: Print>(
        &mut self,
        rt: &R,
        line: usize,
        row: &str,
    ) -> Result<(), HistoryLineFault> {
        let Some((old, new, place)) = change_of(row) else {
            return Err(HistoryLineFault::NoForm);
        };
        let Some(history) = &self.history else {
            return Err(HistoryLineFault::NothingAbove);
        };
        let lines = changed(self.alloc, history.as_str(), old, new)?;
        self.changed = self.changed.saturating_add(1);
        self.walk(rt, line, lines.as_str(), Some(place))
    }

    /// The answer to a question that is asked after the given number of entries of the history above.
    fn told(&self, count: usize, question: &str) -> Result<String, HistoryLineFault> {
        let Some(history) = &self.history else {
            return Err(HistoryLineFault::NothingAbove);
        };
        let entries = entries(self.alloc, history.as_str())?;
        let Some(before) = entries.as_slice().get(..count) else {
            return Err(HistoryLineFault::NoForm);
        };
        asked_after(self.alloc, self.script()?, self.workers, before, question)
    }

    /// Takes a line with a question that is asked inside of the history above: `N QUESTION: ANSWER`.
    fn take_question<R: Print>(
        &mut self,
        rt: &R,
        line: usize,
        row: &str,
    ) -> Result<(), HistoryLineFault> {
        let Some((count, question, wanted)) = question_of(row) else {
            return Err(HistoryLineFault::NoForm);
        };
        let told = self.told(count, question)?;
        if told.as_str() != wanted {
            let _ = rt.println(format_args!("line {line}:{told} for{wanted}"));
            self.tally.count_wrong(line);
        }
        self.asked = self.asked.saturating_add(1);
        Ok(())
    }
}

impl<R: Print> Table<R> for Walks {
    type Fault = HistoryLineFault;

    fn take(&mut self, rt: &R, line: usize, text: &str) -> Result<(), HistoryLineFault> {
        if self.is_left_out && text.starts_with("    ") {
            return Ok(());
        }
        if let Some(row) = text.strip_prefix("    after ") {
            return self.take_question(rt, line, row);
        }
        if let Some(row) = text.strip_prefix("    ") {
            return self.take_change(rt, line, row);
        }
        let Some((key, value)) = text.split_once(": ") else {
            return Err(HistoryLineFault::NoForm);
        };
        if let Some(title) = key.strip_prefix("history ") {
            return self.take_history(rt, line, title, value);
        }
        match key {
            "script" => self.take_script(value),
            "workers" => self.take_workers(value),
            _ => Err(HistoryLineFault::NoForm),
        }
    }

    fn end(&mut self, rt: &R) -> Result<(), HistoryLineFault> {
        let _ = rt;
        Ok(())
    }

    fn tally(&self) -> Tally {
        self.tally
    }

    fn tell(&self, rt: &R) -> io::Result<()> {
        let (legal, changed) = (self.legal, self.changed);
        let (entries, asked) = (self.entries, self.asked);
        println!(rt;
            "{legal} legal histories, {changed} changed ones, {entries} entries, {asked} questions"
        )
    }
}
