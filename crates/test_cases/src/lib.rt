//! Cases of the program, as the lines of a table say them: what a run is given, what goes wrong around it, and what it
//! has to answer; and whether a run answered so.
//!
//! A table of scripts and recordings alone cannot say that a slow sink holds nobody up, that workers make their tiles
//! side by side, or that nobody holds the turn meanwhile. So a sink and a gate wait for each other, for what only
//! another thread can do, and give up if it does not come.
//!
//! What `serve` promises is said of a client that tells its past. [`Talk`] is one: it gives the bytes of an input and
//! takes answers, both in memory, and so a session of lines has its exact result as one clause.
#![tactic(auto)]

mod bytes;
mod case;
mod fault;
mod gate;
mod meeting;
mod names;
mod numbers;
mod output;
mod run;
mod sink;
mod table;
mod talk;

pub use case::{Call, Case, InjectedFault};
pub use fault::ProgramRowFault;
pub use gate::{Gathering, MeetingGate};
pub use meeting::Meeting;
pub use names::Names;
pub use numbers::Numbers;
pub use output::{Output, Short};
pub use run::{Difference, RunOutput};
pub use sink::{SinkWait, WaitingSink};
pub use table::CaseTable;
pub use talk::Talk;
