//! Rows that went to other rows.

/// Rows of a screen that went to other rows of it: `count` rows from row `from` on to row `to` and those below.
#[derive(Clone, Copy, Debug, PartialEq, Eq)]
pub struct Shift {
    /// The uppermost row before.
    pub from: u32,
    /// The uppermost row now.
    pub to: u32,
    /// How many rows.
    pub count: u32,
}
