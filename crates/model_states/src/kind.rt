//! The kinds of events.

/// The kind of an event of the compositor's history.
#[derive(Clone, Copy, PartialEq, Eq, Debug)]
pub enum Kind {
    /// An impl frame begins for a draw.
    BeginDraw,
    /// An impl frame begins for a main frame alone.
    BeginPlain,
    /// A main frame is sent, with the scrolls since the last one.
    Send,
    /// The main thread has a commit ready.
    Ready,
    /// The main frame ends with no commit.
    Abort,
    /// The commit becomes the pending tree.
    Commit,
    /// The pending tree becomes the active one.
    Activate,
    /// A scroll of one scroller.
    Scroll,
    /// A wheel over a point.
    Wheel,
    /// A worker starts a tile.
    Start,
    /// A worker is done with a tile.
    Done,
    /// The active tree is drawn.
    Draw,
    /// There is no active tree to draw.
    Skip,
    /// An impl frame ends that was begun for a main frame alone.
    NoDraw,
    /// The impl frame is over.
    Finish,
    /// A main frame that was waited for has ended.
    Await,
    /// No tile is left to make.
    Settle,
    /// All inputs are used and all main frames have ended.
    End,
    /// The run is given up.
    Stop,
}
