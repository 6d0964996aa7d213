//! Numbers of C as the fields of commands.

ghost use Rattle.std.specs.Prelude.{◌≡◌, ◌<◌, slice_get};
ghost use Rattle.cc_c.specs.Commands as spec;

use geom::Rect;
use pixel::Colour;

// A number that is not below 0; None exactly if it is.
fn natural(number: i32) -> Option<u32>
    ensures { result ≡ spec.natural number }
{
    if number < 0 {
        return None;
    }
    Some(number as u32)
}

/// The premultiplied colour 0xRRGGBBAA; None exactly if red, green or blue exceeds alpha.
pub fn colour_of(rgba: u32) -> Option<Colour>
    ensures { result ≡ spec.colour_of rgba }
{
    let r = (rgba / 16777216) as u8;
    let g = (rgba / 65536 % 256) as u8;
    let b = (rgba / 256 % 256) as u8;
    let a = (rgba % 256) as u8;
    Colour::new(r, g, b, a)
}

/// The number at this place, counted from 0; None exactly if there is none.
pub(crate) fn signed(numbers: &[i32], at: usize) -> Option<i32>
    ensures { result ≡ slice_get numbers.now at }
{
    numbers.get(at).copied()
}

/// The same, if it is not below 0.
#[tactic(auto, unfolding(crate::specs::Commands::whole_at))]
pub(crate) fn whole(numbers: &[i32], at: usize) -> Option<u32>
    ensures { result ≡ spec.whole_at at numbers.now }
{
    natural(signed(numbers, at)?)
}

/// X, y, w, h from this place on; None if there are not four.
#[tactic(auto, unfolding(crate::specs::Commands::rect_at))]
pub(crate) fn rect(numbers: &[i32], at: usize) -> Option<Rect>
    requires { at < 4294967296 }
    ensures { result ≡ spec.rect_at at numbers.now }
{
    let x = signed(numbers, at)?;
    let y = signed(numbers, at + 1)?;
    let w = signed(numbers, at + 2)?;
    let h = signed(numbers, at + 3)?;
    Some(Rect { x, y, w, h })
}

/// Nothing, if there are just as many numbers; else None.
#[tactic(auto, unfolding(crate::specs::Commands::no_more))]
pub(crate) fn no_more(numbers: &[i32], count: usize) -> Option<()>
    ensures { result ≡ spec.no_more count numbers.now }
{
    if numbers.len() == count {
        Some(())
    } else {
        None
    }
}
