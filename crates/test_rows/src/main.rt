//! Goes through the tables of calls that no script reaches through the program, or times what its words name.
//!
//! The tables are read from standard input, one after another; a line that begins with `#` and an empty one say
//! nothing. A line `table: NAME` begins the lines of a table; `hits` needs none if it comes first.
//!
//! | Name | Where its lines are told |
//! |---|---|
//! | `hits` | `hits.rt` of `test_pages`: what the hit test says of a page |
//! | `calls` | `calls.rt` of `test_pages`: what pages, main frames and scripts answer |
//! | `commits` | `commits.rt` of `test_pages`: the keys of the trees of commits |
//! | `units` | `units.rt` of `test_units`: cases worked by hand for the calls of the lowest crates, which stand in code |
//! | `channels` | `channels.rt` of `test_channels`: cases worked by hand for what threads share, and for stops |
//! | `queue` | `lib.rt` of `test_queue`: what the raster queue answers |
//! | `damage` | `lib.rt` of `test_damage`: what is hidden, where two scenes differ, and what is drawn |
//! | `drawn` | `asked.rt` of `test_draw`: what the benches draw, and pairs of random scenes |
//!
//! Standard output tells how many cases each table had, so that none gets lost, and each that differs, with its line.
//! One of these, or a line that can't be read, ends in status 1 and one line on standard error.
//!
//! With words it does one job of `test_draw` or `test_queue`, whose `lib.rt` list them, and prints what came out. The
//! scripts `bench/rows`, `bench/redraws` and `bench/queue` time it.
#![tactic(auto)]

mod tables;

use crate::tables::Tables;
use std::process::ExitCode;
use std::{env, io};
use test_channels::Channels;
use test_table::{check_table, end_unread};

/// Does the job that the words name, and answers whether there is one; None if there are no words.
fn job(rt: &HostRuntime) -> io::Result<Option<bool>> {
    let words: Vec<String> = env::args(rt)?.skip(1).collect(rt.alloc())?;
    if words.is_empty() {
        return Ok(None);
    }
    let words = words.as_slice();
    let is_done = test_draw::run_job(rt, words)? || test_queue::run_job(rt, words)?;
    Ok(Some(is_done))
}

fn main(rt: HostRuntime) -> ExitCode {
    match job(&rt) {
        Ok(None) => match Channels::new(&rt, rt.alloc()) {
            Ok(channels) => check_table(&rt, &mut Tables::new(channels, rt.alloc())),
            Err(fault) => end_unread(&rt, 0, fault),
        },
        Ok(Some(true)) => ExitCode::from(0),
        Ok(Some(false)) | Err(_) => ExitCode::from(1),
    }
}
