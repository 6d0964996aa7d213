//! The actors that take turns with one core: the compositor, the main side, and the raster workers.
//!
//! Each actor has a pass of the lock around the core. At a turn it takes the lock, enters one event of its
//! own if one may come, and gives the lock up. What takes long stands outside: the compositor writes after it
//! has given the lock up, the main side runs a main frame between two holdings, and
//! a worker makes its tile between two holdings.
//!
//! In: a lock around a core, and its passes. Out: what each turn answers ([`Turned`]), and the recording of
//! the one history, which the compositor writes after the two header lines. An actor that is refused memory,
//! or whose sink fails, enters its stop, and all others then end at their next turn.
#![tactic(auto)]

mod compositor;
mod driving;
mod holding;
mod lines;
mod main_actor;
mod playing;
mod raster_actor;
mod turned;
mod wakes;
mod writing;

pub use compositor::CompActor;
pub use driving::{drive_compositor, drive_main, drive_worker};
pub use main_actor::MainActor;
pub use raster_actor::RasterActor;
pub use turned::Turned;
