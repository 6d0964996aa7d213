//! What an actor's turn answers.

/// What an actor's turn answers.
#[derive(Clone, Copy, Debug, Drop, PartialEq)]
pub enum Turned {
    /// The actor entered an event.
    Went,
    /// The run goes on, and the actor might enter no event.
    Blocked,
    /// The run had ended; or for the main side, all main frames had.
    Ended,
    /// Memory was refused, and the run has ended.
    Memory,
    /// The sink failed, and the run has ended.
    WriteFault,
}
