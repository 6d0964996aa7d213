//! The history of a run as it grows: each entry is the one that may come, and what its past tells is
//! known without looking through it.
//!
//! The model tells by scans of the whole past which inputs are used, which main frame was sent last,
//! which commit is active, and so on. A [`Log`] keeps these answers as its [`Progress`], which each entry
//! steps at once. What a worker holds, which tiles are ready and where the scrollers stand is kept
//! elsewhere: an event that needs these comes with the fact that it may come.
//!
//! A log always has room for the end of each tile in flight and for a stop, so that these take no memory. It may
//! forget its oldest entries ([`KeptHistory`]): clauses still see them.
//!
//! A script may be told while it is played: a log takes an input, a main frame and the commands of a main frame that
//! waits for its answer, and the history is legal for the script that this makes. It keeps a plan of the script, which
//! takes the same memory however much is told, and of the inputs those that it may still ask for.
#![tactic(auto)]

mod growth;
mod kept_history;
mod kinds;
mod known_inputs;
mod laws;
mod log;
mod milestones;
mod progress;

pub use kept_history::KeptHistory;
pub use kinds::kind_of;
pub use laws::runs_are_short;
pub use log::Log;
pub use progress::Progress;
