//! Walks the compositor through histories of scripts, right ones and changed ones, entry by entry, asks a judge
//! about the same entries, and compares where each stops with a table.
//!
//! The compositor and its main side run on this thread, and so do the workers: each entry of a history is
//! asked for by its kind and its actor. If the event that was entered is another one, or none is possible,
//! the walk stops. The judge stops at the first entry that it does not enter.
//!
//! | Line | What it says |
//! |---|---|
//! | `script: JSON` | the script of the histories below it, for one worker |
//! | `workers: N` | the number of workers of the histories below it, 1 to 16 |
//! | `history TITLE: LINE; LINE; ..` | the lines of a history, which is legal: both go through |
//! | `    after N upcoming MOST: KEY ..` | after the first N entries of the history above, these are the keys of the first MOST tiles that are made next |
//! | `    after N values ID: X Y` | after the first N entries, these are the scroll values of scroller ID along both axes, each as `A,D,B,M,P`: active base and delta, pending base, and what of the delta the main frame in flight and the pending base contain |
//! | `    after N used: COUNT` | after the first N entries, the given number of tiles are ready or in flight |
//! | `    LINE; .. => LINE; .. \| N WHAT` | lines of the history above, which stand in it once, become others, and both stop at entry N, counted from 0; WHAT says what is wrong with it |
#![tactic(auto)]

mod asked;
mod fault;
mod judged;
mod lines;
mod walk;
mod walks;

pub use fault::HistoryLineFault;
pub use walks::Walks;
