//! Plays a table of cases through the program, walks through a table of histories, and compares what comes out with
//! what the tables say.
//!
//! The tables are read from standard input; a line that begins with `#` and an empty one say nothing. The first has
//! lines `key: value`; a line `table: histories` begins the other one, whose lines the head of `lib.rt` of
//! `test_histories` tells. Standard output tells how many cases and runs, and how many histories there were, so that
//! none gets lost, and each wrong case with its line. A wrong case, or a line that can't be read, ends in status 1
//! and one line on standard error. With words after its name the program tries only the cases and histories whose
//! titles have one of them.
//!
//! | Key | What it says |
//! |---|---|
//! | `text NAME` | a text that later values name as `<NAME>` |
//! | `file NAME` | begins a file that later cases name as their input; its lines and pictures come next |
//! | `line`, `picture` | the next line of the file; its next picture: width, height, and the colour of each pixel, `N*COLOUR` for that many of it |
//! | `case` | begins a case of this title |
//! | `words` | the words, `""` for an empty one; `step 1` if it is left out |
//! | `alone` | `run_alone` makes the runs, where `run` does else: `ends` if it answers how a run ended, `none` if it answers None |
//! | `input`, `input hex`, `input file` | what the source holds: a text, bytes in hexadecimal digits, a file that was named |
//! | `change`, `change hex` | `OLD => NEW`: a part of the input, which stands there once, becomes another |
//! | `cut` | only the given number of bytes of the input are given; `0..515` is one run for each number below 515 |
//! | `step` | how many bytes one read gives at most; 4096 if it is left out |
//! | `room`, `reads fail`, `puts fail` | how many bytes the sink takes; which read or put fails, counted from 0. `0..515` is one run for each number below 515 |
//! | `notes room` | how many bytes the notes take |
//! | `gate` | which workers come to the gate, between a tile's start and its end: `pair` if the first two wait there for each other and then for the sink, or `LAYER COLUMN ROW`, those of this tile, which go on at once |
//! | `sink waits` | `COUNT LINE`: once it holds the line, the sink waits until the given number of workers have come to the gate; a case whose wait is given up is wrong |
//! | `until` | the end of a line that the sink has to hold before the workers go on that wait for it; there may be several |
//! | `status`, `note` | how the run ends, and the line in the notes; 0 and none if they are left out |
//! | `out` | a line of the output; `...` as the first says that anything may stand before the next, and as the last that anything may follow, until the sink is full if it has a room |
//! | `image` | a picture in the output, as `picture` |
//! | `out hex` | bytes of the output |
//! | `legal recording` | the output is a recording that `check` finds legal, and what is told of the output is told of what `frames` makes of it |
//! | `out sum` | the output's length in bytes and its 64-bit FNV-1a sum |
//! | `changes of` | an input. Below it each line that is indented is a case of its own, with the change as its title: `OLD => NEW \| STATUS NOTE`, or `OLD => NEW \| 0 LENGTH SUM` as in `out sum` |
//!
//! A value `N of TEXT` or `A..B of TEXT` repeats the text with commas between, with `{i}` as the number of
//! the copy and `{i-1}` as the number before it; `N blanks` is the given number of blanks. A case of status 0
//! says what its output is; another that says nothing of it wants none.
#![tactic(auto)]

mod fault;
mod play;
mod tables;

use crate::tables::Tables;
use std::io;
use std::process::ExitCode;
use test_table::{Titles, end_counted, end_unread};

/// The tables, of which nothing was read.
fn tables_of(rt: &HostRuntime) -> io::Result<Tables> {
    Ok(Tables::new(rt.alloc(), Titles::of_words(rt)?, Titles::of_words(rt)?))
}

fn main(rt: HostRuntime) -> ExitCode {
    let (Ok(mut tables), Ok(text)) = (tables_of(&rt), io::read_to_string(rt.alloc(), rt.reader()))
    else {
        let _ = rt.eprintln("the words or the table could not be read");
        return ExitCode::from(1);
    };
    match tables.take_all(&rt, text.as_str()) {
        Ok(()) => end_counted(&rt, tables.tell(&rt), tables.tally(&rt)),
        Err((line, fault)) => end_unread(&rt, line, fault),
    }
}
