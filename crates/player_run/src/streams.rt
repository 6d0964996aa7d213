//! Where a run reads and writes.

use player_lines::Session;

/// Where a run reads and writes. Each use has its own of these, and leaves the others as they are.
#[derive(Drop)]
pub struct Streams<S, K, E, C> {
    /// What scripts and recordings are read from.
    pub source: S,
    /// What the output goes to.
    pub out: K,
    /// What the line that tells how the run ended goes to.
    pub notes: E,
    /// Whom `serve N` talks with.
    pub session: Session<C>,
}
