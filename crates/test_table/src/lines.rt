//! A table, line by line.

use crate::tally::Tally;
use std::process::ExitCode;
use std::{fmt, io};

/// A table of cases, which takes its lines one after another.
pub trait Table<R: Print> {
    /// Why a line can't be read.
    type Fault: fmt::Display + Copy;

    /// Takes a line that says something. Lines count from 1; a wrong case is told on standard output.
    fn take(&mut self, rt: &R, line: usize, text: &str) -> Result<(), Self::Fault>;

    /// Takes the end of the table.
    fn end(&mut self, rt: &R) -> Result<(), Self::Fault> {
        let _ = rt;
        Ok(())
    }

    /// How many cases are wrong.
    fn tally(&self) -> Tally;

    /// Tells how many cases there were.
    fn tell(&self, rt: &R) -> io::Result<()>;
}

/// Whether a line says something: it is not empty and does not begin with `#`.
pub fn says_something(line: &str) -> bool {
    !line.is_empty() && !line.starts_with('#')
}

/// Takes all lines that say something. An error tells its line.
fn take_all<R: Print, T: Table<R>>(
    rt: &R,
    table: &mut T,
    text: &str,
) -> Result<(), (usize, T::Fault)> {
    let mut last = 0usize;
    for (index, line) in text.lines().enumerate() {
        last = index.saturating_add(1);
        if !says_something(line) {
            continue;
        }
        if let Err(fault) = table.take(rt, last, line) {
            return Err((last, fault));
        }
    }
    match table.end(rt) {
        Ok(()) => Ok(()),
        Err(fault) => Err((last, fault)),
    }
}

/// Ends a program that went through its table, and told on standard output what it counted. Wrong cases are told
/// on standard error; the status is 0 if there are none and all was told, otherwise 1.
pub fn end_counted<R: Eprint>(rt: &R, told: io::Result<()>, tally: Tally) -> ExitCode {
    match tally.first() {
        None => ExitCode::from(if told.is_ok() { 0 } else { 1 }),
        Some(line) => {
            let wrong = tally.wrong();
            let _ = rt.eprintln(format_args!("{wrong} cases are wrong, the first at line {line}"));
            ExitCode::from(1)
        }
    }
}

/// Ends a program that can't read a line of its table, which is told on standard error, in status 1.
pub fn end_unread<R: Eprint, F: fmt::Display + Copy>(rt: &R, line: usize, fault: F) -> ExitCode {
    let _ = rt.eprintln(format_args!("line {line}: {fault}"));
    ExitCode::from(1)
}

/// Takes the lines of the table on standard input that say something, and tells how many cases there were. The
/// status is 0 if all cases are right; it is 1, with one line on standard error, if one is wrong or a line
/// can't be read.
pub fn check_table<R: Print + Eprint + Input + Alloc, T: Table<R>>(
    rt: &R,
    table: &mut T,
) -> ExitCode {
    let Ok(text) = io::read_to_string(rt.alloc(), rt.reader()) else {
        let _ = rt.eprintln("the table could not be read");
        return ExitCode::from(1);
    };
    match take_all(rt, table, text.as_str()) {
        Ok(()) => end_counted(rt, table.tell(rt), table.tally()),
        Err((line, fault)) => end_unread(rt, line, fault),
    }
}
