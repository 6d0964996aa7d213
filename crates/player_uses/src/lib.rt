//! What the program's words ask for, what they read and end with, and those of them that play nothing.
//!
//! [`use_of`] tells which use of the program the words of the command line ask for. An [`Outcome`] says how a run
//! ended, with its status, and has a line for the notes ([`tell`]) and one for a session ([`put_verdict`]). A script is
//! read from a source to its end ([`read_script_from`]), or asked for its picture as well ([`read_shot_from`]).
//! [`run_gen`], [`run_check`] and [`run_frames`] do what `gen`, `check` and `frames` ask for. Of a run that somebody
//! else played, [`summary_of`] counts what it holds, and [`put_file`] and [`put_summary`] write a file or the line of
//! the counts.
#![tactic(auto)]

mod draw_counts;
mod file;
mod fragments;
mod generated;
mod images;
mod input;
mod judged;
mod notes;
mod outcome;
mod script_input;
mod shot_input;
mod summary;
mod verdicts;
mod words;

pub use file::put_file;
pub use generated::run_gen;
pub use images::run_frames;
pub use judged::run_check;
pub use notes::tell;
pub use outcome::Outcome;
pub use script_input::{SCRIPT_LIMIT, read_script_from, script_in};
pub use shot_input::read_shot_from;
pub use summary::{Summary, put_summary, summary_of};
pub use verdicts::put_verdict;
pub use words::{Use, players, use_of};
