//! How a main frame ends.

use model_history::Commit;

/// How a main frame ends.
#[derive(Drop)]
pub enum MainEnd {
    /// It changed something, and is ready to be committed.
    Ready(Commit),
    /// It changed nothing.
    Abort {
        /// The frame's number.
        frame: u32,
    },
}
