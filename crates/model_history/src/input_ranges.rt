//! Whether an input's numbers are in the ranges that the format of scripts gives them.

ghost use Rattle.std.specs.Prelude.{◌≡◌, ◌&&◌, nat_lt};
ghost use Rattle.model_history.specs.Ranges as ranges;

use crate::input::Input;
use crate::limits::{MOST_ID, MOST_PLACE, MOST_SCROLL};

// Whether a scroll or a wheel may ask for this much along an axis.
fn is_amount(n: i32) -> bool
    ensures { result ≡ ranges.is_amount n }
{
    -MOST_SCROLL <= n && n <= MOST_SCROLL
}

// Whether an id may name a scroller.
fn is_scroller(id: u32) -> bool
    ensures { result ≡ ranges.in_range 1 65535 id }
{
    1 <= id && id <= MOST_ID
}

// Whether a wheel may be turned at this place along an axis.
fn is_place(n: u32) -> bool
    ensures { result ≡ ranges.in_range 0 2047 n }
{
    n <= MOST_PLACE
}

// Whether a frame is one of the given number.
fn is_frame(frames: usize, frame: u32) -> bool
    ensures { result ≡ (ranges.is_u32 frame && nat_lt frame frames) }
{
    (frame as usize) < frames
}

// Whether a scroll's numbers are in their ranges.
fn is_scroll(id: u32, dx: i32, dy: i32) -> bool
    ensures { result ≡ (ranges.in_range 1 65535 id && ranges.is_amount dx && ranges.is_amount dy) }
{
    let scroller = is_scroller(id);
    let across = is_amount(dx);
    let down = is_amount(dy);
    scroller && across && down
}

// Whether a wheel's numbers are in their ranges.
fn is_wheel(x: u32, y: u32, dx: i32, dy: i32) -> bool
    ensures { result ≡ (ranges.in_range 0 2047 x && ranges.in_range 0 2047 y && ranges.is_amount dx && ranges.is_amount dy) }
{
    let column = is_place(x);
    let row = is_place(y);
    let place = column && row;
    let across = is_amount(dx);
    let down = is_amount(dy);
    place && across && down
}

impl Input {
    /// Whether the input's numbers are in their ranges, in a script of the given number of main frames: a scroller is
    /// 1 to 65535, a place of a wheel 0 to 2047 along each axis, an amount at most 1,048,576 pixels either way, and a
    /// frame that is awaited is one of the script's.
    pub fn is_in_range(self, frames: usize) -> bool
        ensures { result ≡ ranges.input_in_range frames self }
    {
        match self {
            Input::Scroll { scroller, dx, dy } => is_scroll(scroller, dx, dy),
            Input::Wheel { x, y, dx, dy } => is_wheel(x, y, dx, dy),
            Input::Draw => true,
            Input::Await { frame } => is_frame(frames, frame),
            Input::Settle => true,
        }
    }
}
