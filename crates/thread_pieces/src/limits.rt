//! How much is gathered, painted and held at a time.

/// How many bytes of lines are gathered before they become a piece of their own, or are put.
pub const GATHERED_LINES: usize = 64 * 1024;

/// How many pieces a painter is dealt at a time, at most.
pub const DEALT_PIECES: usize = 4;

/// How many bytes ([`Shot::bytes`](crate::Shot::bytes)) the pieces have that are held at a time, unless a single piece
/// has more.
pub const HELD_BYTES: u64 = 48 * 1024 * 1024;
