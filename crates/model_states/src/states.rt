//! The states that the scheduler is made of.

/// Where the impl frame stands.
#[derive(Clone, Copy, PartialEq, Eq, Debug)]
pub enum ImplState {
    /// No impl frame is open.
    Idle,
    /// An impl frame was begun and is not drawn yet.
    InsideBeginFrame,
    /// The impl frame was drawn, or needs no draw, and is not finished yet.
    InsideDeadline,
}

/// Where the main frame stands.
#[derive(Clone, Copy, PartialEq, Eq, Debug)]
pub enum MainState {
    /// No main frame is in flight.
    Idle,
    /// The main frame was sent and has not ended.
    Sent,
    /// The main frame has a commit that the compositor has not taken yet.
    ReadyToCommit,
}

/// What the impl frame was begun for.
#[derive(Clone, Copy, PartialEq, Eq, Debug)]
pub enum Begun {
    /// No impl frame is open.
    Nothing,
    /// For a draw.
    ForDraw,
    /// For a main frame alone.
    Plain,
}
