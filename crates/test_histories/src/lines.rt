//! The entries of a history's lines, and lines that are changed.

use crate::fault::HistoryLineFault;
use model_history::Entry;
use recording_text::{entry_of, read_event};
use std::alloc::{AllocError, Global};

/// Adds the entry of a line, by the actor whose event it is.
fn push_entry(alloc: Global, entries: &mut Vec<Entry>, line: &str) -> Result<(), HistoryLineFault> {
    let line = [line, "\n"].concat(alloc)?;
    let Some(event) = read_event(alloc, line.as_bytes())? else {
        return Err(HistoryLineFault::NoEvent);
    };
    Ok(entries.push(entry_of(event))?)
}

/// The entries of lines, each by the actor whose event it is.
pub fn entries(alloc: Global, lines: &str) -> Result<Vec<Entry>, HistoryLineFault> {
    let mut entries = Vec::new(alloc);
    for line in lines.split("; ") {
        push_entry(alloc, &mut entries, line)?;
    }
    Ok(entries)
}

/// What stands before and after a part, which stands in a text once.
fn around<'a>(text: &'a str, part: &str) -> Option<(&'a str, &'a str)> {
    let Some((before, after)) = text.split_once(part) else {
        return None;
    };
    if after.contains(part) {
        return None;
    }
    Some((before, after))
}

/// Lines between those before and after them, which have `; ` at the other end.
fn joined(alloc: Global, before: &str, lines: &str, after: &str) -> Result<String, AllocError> {
    let text = [before, "; ", lines, "; ", after].concat(alloc)?;
    let text = text.as_str();
    let text = text.strip_prefix("; ").unwrap_or(text);
    text.strip_suffix("; ").unwrap_or(text).to_string(alloc)
}

/// The lines with some of them, which stand there once, changed into others.
pub fn changed(
    alloc: Global,
    lines: &str,
    old: &str,
    new: &str,
) -> Result<String, HistoryLineFault> {
    let whole = ["; ", lines, "; "].concat(alloc)?;
    let old = ["; ", old, "; "].concat(alloc)?;
    let Some((before, after)) = around(whole.as_str(), old.as_str()) else {
        return Err(HistoryLineFault::NotOnce);
    };
    Ok(joined(alloc, before, new, after)?)
}
