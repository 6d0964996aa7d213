//! Where an image stands.

/// Where the image of a draw stands in a recording.
#[derive(Clone, Copy, PartialEq, Eq, Debug)]
pub struct ImagePlace {
    /// The index of the draw among the events.
    pub event: u64,
    /// The offset at which the image begins.
    pub at: u64,
}
