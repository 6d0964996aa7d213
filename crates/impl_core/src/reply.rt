//! What a call of `play` answers.

use model_states::{Kind, Sched};
use std::alloc::AllocError;
use viz_scene::Scene;

/// What a call of `play` answers if its event was entered.
#[derive(Drop)]
pub enum Reply {
    /// An event of any other kind was entered.
    Plain,
    /// A draw was entered, and this is what it shows.
    Scene(Scene),
}

/// Why no event was entered.
#[derive(Debug, Drop)]
pub enum CoreFault {
    /// No event of this kind may come now.
    NotNow {
        /// The state of the scheduler.
        sched: Sched,
        /// The kind that was asked for.
        kind: Kind,
    },
    /// Memory was refused.
    Memory(AllocError),
}
