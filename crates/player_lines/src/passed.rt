//! What passed between a session and its client.

use ghost_list::GhostList;

/// What passed between a session and its client, for clauses alone.
#[derive(Drop)]
pub enum Passed {
    /// These bytes came.
    Got(GhostList<u8>),
    /// Bytes were asked for, but the read failed.
    NotGot,
    /// This piece of data went, in its frame.
    Data(GhostList<u8>),
    /// This text of the last line of an answer went.
    Text(GhostList<u8>),
    /// Only the first bytes of a frame went.
    TornData(GhostList<u8>, usize),
    /// Only the first bytes of a text went.
    TornText(GhostList<u8>, usize),
}
