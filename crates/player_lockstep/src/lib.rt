//! Plays a script in lockstep and writes its recording as it is made.
//!
//! A compositor on one thread plays a part of the run: an input, or one round of an await or of the end. Then what it
//! entered is written by `recording_writer`. Entries that came before the last two milestones of the run (`impl_log`)
//! are forgotten once there are 4,096 of them, or once those that are kept list 65,536 tiles. So what is held grows with
//! what a part brings, not with how many there are, unless all entries are to be kept ([`Retention`]). With several
//! workers it plays a batch of parts while the batch before is painted and put.
//!
//! In: an accepted script and a sink. Out: the sink gained the script's recording, or if it failed or memory
//! was refused, a prefix of it.
//!
//! [`film_lockstep`] writes the images of a run alone, and [`shoot`] makes a PNG file of the last of them.
#![tactic(auto)]

mod batches;
mod film;
mod lockstep;
mod shot;

pub use film::film_lockstep;
pub use lockstep::{Recorded, record_lockstep};
pub use proxy_single_thread::Retention;
pub use shot::shoot;
