//! What the program does with its words: `step N` plays a script into its recording, `play N` does it by actors
//! on threads, `film N` writes the images alone, `shot N` the last of them as a PNG file, `serve N` answers each line
//! of a client, `frames` takes the images out of a recording, `check` judges one, `gen NUMBER` makes a script, and
//! `demo NUMBER` plays one and sums it up.
//!
//! `program` joins all; each use that plays has a module. What the words ask for, how a run ends,
//! what reads its script, and the words that play nothing are in `player_uses`.
#![tactic(auto)]

mod beside;
mod crew;
mod demo;
mod filmed;
pub mod laws;
mod line_player;
mod play;
mod program;
mod serving;
mod shot;
mod std_run;
mod step;
mod streams;
mod threads;

pub use player_uses::Outcome;
pub use program::{run, run_alone, run_played};
pub use serving::serve;
pub use std_run::run_std;
pub use streams::Streams;
