//! Bytes, rects and colours as the table writes them.

ghost use Rattle.std.specs.Prelude.{IfOk, IsTrue};
ghost use Rattle.geom.specs.Covers.{IsSound, IsSpan};

use geom::{Point, Rect};
use pixel::Colour;
use test_table::{LineFault, signed};

/// A number up to 255.
pub fn byte(number: i64) -> Result<u8, LineFault> {
    u8::try_from(number).map_err(|_| LineFault::NoNumber)
}

/// A colour of its red, green, blue and alpha.
pub fn colour([r, g, b, a]: [i64; 4]) -> Result<Colour, LineFault> {
    let (r, g) = (byte(r)?, byte(g)?);
    let (b, a) = (byte(b)?, byte(a)?);
    Colour::new(r, g, b, a).ok_or(LineFault::NoNumber)
}

// Whether a number is at most 2048 in absolute value.
fn is_near(n: i32) -> bool {
    -2048 <= n && n <= 2048
}

// Whether a length of at most 2048 starts near the screen.
fn is_span(at: i32, len: i32) -> bool
    ensures { IsTrue result → IsSpan at len }
{
    let starts = -2048 <= at && at <= 2048;
    let ends = 0 <= len && len <= 2048;
    starts && ends
}

// A rect near the screen, with sides from 0 to 2048 pixels.
fn rect_near(x: i32, y: i32, w: i32, h: i32) -> Result<Rect, LineFault>
    ensures { IfOk result IsSound }
{
    let across = is_span(x, w);
    let down = is_span(y, h);
    if across && down {
        return Ok(Rect { x, y, w, h });
    }
    Err(LineFault::NoNumber)
}

/// A rect near the screen, with sides from 0 to 2048 pixels.
pub fn rect(numbers: [i64; 4]) -> Result<Rect, LineFault>
    ensures { IfOk result IsSound }
{
    let [x, y, w, h] = numbers;
    rect_near(signed(x)?, signed(y)?, signed(w)?, signed(h)?)
}

/// A point near the screen.
pub fn point([x, y]: [i64; 2]) -> Result<Point, LineFault> {
    let (x, y) = (signed(x)?, signed(y)?);
    if is_near(x) && is_near(y) {
        return Ok(Point { x, y });
    }
    Err(LineFault::NoNumber)
}
