//! The states of the scheduler with the kinds of events that may come in them, and the scroll values of one scroller.
//!
//! The compositor goes through impl frames: each begins, may send a main frame, draws or does not, and
//! finishes. The main thread has one main frame in flight at most, which ends ready to commit or as an
//! abort. There is one pending tree at most. Which kind of event may come is told by these states alone;
//! what else an event needs (the next input, the ready tiles) is not the scheduler's business.
//!
//! The names of the states are those of Chromium's `cc/scheduler/scheduler_state_machine.h`, narrowed to
//! the states that this project has. The table of kinds is this project's own.
//!
//! [`Synced`] is where a scroller stands along one axis, of which the two sides hear at different times.
#![tactic(auto)]

mod kind;
mod laws;
mod sched;
mod states;
mod synced;

pub use kind::Kind;
pub use laws::{activation_takes_pending_value, move_adds_to_both, starts_at_zero, values_survive};
pub use sched::Sched;
pub use states::{Begun, ImplState, MainState};
pub use synced::Synced;
