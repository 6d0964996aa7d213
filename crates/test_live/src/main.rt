//! Plays a live compositor beside the compositor of `cc`, and compares their pictures byte by byte.
//!
//! Both get the same commands and the same scrolls, made from a number. The live one is called as a host's threads
//! would call it: a tick, the main thread's edits, the workers' jobs in some order, a draw. A scroll may come between
//! any two of these calls. Once all tiles are there, its picture must be that of the other, which makes every tile
//! in its draw.
#![tactic(auto)]

mod pair;
mod play;
mod steps;

use crate::play::play;
use std::process::ExitCode;

// How many pages are played, each from its number.
const PAGES: u64 = 6;

fn main(rt: HostRuntime) -> ExitCode {
    match play(&rt, PAGES) {
        Ok(true) => ExitCode::from(0),
        Ok(false) | Err(_) => ExitCode::from(1),
    }
}
