//! Tries the raster queue beside the definitions of its choice, and times it.
//!
//! A line of the table is one of these. A KEY is `LAYER/X/Y/STAMP`, a RANK `KEY:BIN` with the bin `now`, `soon` or `eventually`, and a
//! TILE is a RANK or a KEY without rank, with `!` after it if it is pinned.
//!
//! | Line | What it says |
//! |---|---|
//! | `queue BUDGET IN_FLIGHT wanted RANK .. ready TILE ..` | the queue represents these |
//! | `start KEY` | the key starts, and what is evicted for it is evicted |
//! | `finish TILE`, `finish -` | a tile in flight is made; it is ready, or needed no more |
//! | `first => KEY` | the key that starts first; `-` if none may |
//! | `evicted KEY => KEY ..` | what is evicted for it, the worst first; `-` if nothing is |
//! | `steps SEED COUNT` | the given number of random steps of another queue |
//!
//! After each step the queue's answers are compared with the definitions' too.
//!
//! Two jobs have words:
//!
//! - `steps SEED COUNT` takes the given number of random steps of a queue, and compares its answers with the
//!   definitions' after each.
//! - `queue ORDER TILES PAIRS` times a queue of the given number of wanted and as many ready tiles, over the
//!   given number of pairs of a start and its end; in the order `mixed` or `middle` the first key starts, in
//!   `last` the worst. The script `bench/queue` calls it.
#![tactic(auto)]

mod choice;
mod jobs;
mod queues;
mod table;

pub use jobs::run_job;
pub use table::QueueTable;
