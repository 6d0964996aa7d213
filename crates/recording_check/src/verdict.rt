//! What is said of a recording.

/// What is said of a recording.
#[derive(Clone, Copy, Drop, PartialEq, Eq, Debug)]
pub enum Verdict {
    /// It is that of its script and of a history that is legal for the script and 16 workers.
    Good,
    /// It is not.
    No {
        /// The index of the first event that may not come, or whose image is not the painting.
        event: u64,
    },
}
