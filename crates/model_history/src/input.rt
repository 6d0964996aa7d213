//! What a script asks of the compositor side.

/// One input of a script. The compositor takes its inputs in order.
#[derive(Clone, Copy, PartialEq, Eq, Debug)]
pub enum Input {
    /// Scrolls one scroller by `dx` and `dy` pixels, as far as its range allows.
    Scroll {
        /// The scroller's number, from 1; it may be one that no page has.
        scroller: u32,
        /// To the right, at most 1,048,576 pixels either way.
        dx: i32,
        /// Downwards, at most 1,048,576 pixels either way.
        dy: i32,
    },
    /// Turns the wheel at a point of the screen: it scrolls what lies there, and what that leaves goes
    /// to the scrollers around it.
    Wheel {
        /// The point's column, 0 to 2047.
        x: u32,
        /// The point's row, 0 to 2047.
        y: u32,
        /// To the right, at most 1,048,576 pixels either way.
        dx: i32,
        /// Downwards, at most 1,048,576 pixels either way.
        dy: i32,
    },
    /// Draws one picture.
    Draw,
    /// Waits until this main frame has ended, and its commit, if it made one, is active.
    Await {
        /// The main frame's number, from 0.
        frame: u32,
    },
    /// Waits until there is no tile left to make.
    Settle,
}
