//! A move of a scroller.

ghost use Rattle.std.specs.Prelude.{◌≡◌};

use geom::Point;

/// How far one scroller moved or is to move.
///
/// The sum that is sent to the main side can grow by one scroll range with each frame, so each part
/// stays below 2^54 in absolute value, which is more than an `i32` holds.
#[derive(Clone, Copy, PartialEq, Eq, Debug)]
pub struct Move {
    /// The scroller's number.
    pub scroller: u32,
    /// To the right, in pixels.
    pub dx: i64,
    /// Downwards, in pixels.
    pub dy: i64,
}

// A number of pixels as moves have it.
fn wide(pixels: i32) -> i64
    ensures { result ≡ pixels }
{
    pixels as i64
}

impl Move {
    /// The move of a scroller by these pixels, to the right and downwards.
    pub fn by(scroller: u32, pixels: Point) -> Move
        ensures { result ≡ record { scroller = scroller; dx = pixels.x; dy = pixels.y } }
    {
        Move {
            scroller,
            dx: wide(pixels.x),
            dy: wide(pixels.y),
        }
    }
}
