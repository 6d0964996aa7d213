//! Filling a surface with one colour.

ghost use Rattle.std.specs.Prelude.{◌≡◌, ℕ, ◌*◌, ◌<◌, ◌≤◌, ◌/◌, ◌%◌, length, IsTrue};
ghost use Rattle.pixel.specs.Rows.{pixel, ArePremultiplied};
ghost use Rattle.viz_render.specs.inner.Masks.{EachOpen};

use crate::mask::{Mask, QuadMask};
use crate::open::paint_open;
use crate::paint::Paint;
use page_display_list::CoveredArea;
use pixel::{Area, Colour, Size, fill_row};

// Gives each pixel one colour; byte by byte if its four bytes are equal, as those of transparent pixels and of white
// are.
fn fill(surface: &mut [u8], colour: Colour)
    requires { length surface.old % 4 ≡ 0 }
    ensures size { length surface.new ≡ length surface.old }
    ensures pixels { (k : ℕ) → k < length surface.old / 4 → pixel surface.new k ≡ colour }
    ensures premultiplied { ArePremultiplied surface.new }
{
    let byte = colour.a();
    if are_equal(colour.r(), colour.g(), colour.b(), byte) {
        surface.fill(byte);
    } else {
        fill_row(surface, colour);
    }
}

/// Gives each pixel of a surface that has to be drawn one colour.
pub(crate) fn fill_open(surface: &mut [u8], size: Size, colour: Colour, mask: &Mask)
    requires size { length surface.old ≡ 4 * (size.width * size.height) }
    requires wide { size.width ≤ 2048 }
    requires low { size.height ≤ 64 }
    ensures size { length surface.new ≡ length surface.old }
    ensures pixels { EachOpen size.width size.height mask.now.tops 0 (λ x y below. colour) surface.old surface.new }
    ensures premultiplied { ArePremultiplied surface.old → ArePremultiplied surface.new }
{
    if mask.highest() == 0 {
        fill(surface, colour);
    } else {
        let at = Area {
            x: 0,
            y: 0,
            w: size.width,
            h: size.height,
        };
        let whole = CoveredArea {
            at,
            left: 0,
            above: 0,
        };
        let background = QuadMask { mask, number: 0 };
        paint_open(surface, size, whole, &Paint::Fill(colour), background);
    }
}

// Whether four bytes are equal.
fn are_equal(r: u8, g: u8, b: u8, a: u8) -> bool
    ensures r { IsTrue result → r ≡ a }
    ensures g { IsTrue result → g ≡ a }
    ensures b { IsTrue result → b ≡ a }
{
    let first = r == a && g == a;
    first && b == a
}
