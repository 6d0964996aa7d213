//! A premultiplied colour and its arithmetic.

ghost use Rattle.std.specs.Prelude.{◌≡◌, ◌≤◌, MatchOption, false, true, ◌&&◌};
ghost use Rattle.pixel.specs.Colours.{Parts, times_255, blend, scaled, is_colour};

use std::marker::Model;

/// A colour of a pixel: red, green, blue and alpha, each from 0 to 255. Red, green and blue are
/// already multiplied by alpha, so none of them exceeds it.
#[derive(Clone, Copy, Debug, PartialEq, Eq)]
pub struct Colour {
    r: u8,
    g: u8,
    b: u8,
    a: u8,
}

impl Model for Colour {
    ghost Value = { Parts };

    ghost view = { λ c. record { r = c.r; g = c.g; b = c.b; a = c.a } };

    ghost invariant = { λ c. (c.r ≤ c.a) × (c.g ≤ c.a) × (c.b ≤ c.a) };

    ghost inverse = { λ p. record { r = p.r; g = p.g; b = p.b; a = p.a } };
}

/// The product of two parts of 255 as a part of 255, rounded to the nearest.
pub fn mul255(x: u8, y: u8) -> u8
    ensures { result ≡ times_255 x y }
{
    ((x as u32 * y as u32 + 127) / 255) as u8
}

impl Colour {
    /// The transparent colour: all four components are 0.
    pub const CLEAR: Colour = Colour {
        r: 0,
        g: 0,
        b: 0,
        a: 0,
    };

    /// The colour of these components; `None` exactly if red, green or blue exceeds alpha.
    pub fn new(r: u8, g: u8, b: u8, a: u8) -> Option<Colour>
        ensures { let parts : Parts = record { r = r; g = g; b = b; a = a } in
            MatchOption result (is_colour parts ≡ false) (λ c. (is_colour parts ≡ true) × (c ≡ parts)) }
    {
        if r <= a && g <= a && b <= a {
            Some(Colour { r, g, b, a })
        } else {
            None
        }
    }

    /// The colour of components that are known to be premultiplied.
    pub(crate) fn of_parts(r: u8, g: u8, b: u8, a: u8) -> Colour
        requires red { r ≤ a }
        requires green { g ≤ a }
        requires blue { b ≤ a }
        ensures { result ≡ record { r = r; g = g; b = b; a = a } }
    {
        Colour { r, g, b, a }
    }

    /// Red, multiplied by alpha.
    pub fn r(self) -> u8
        ensures value { result ≡ self.r }
        ensures premultiplied { result ≤ self.a }
    {
        self.r
    }

    /// Green, multiplied by alpha.
    pub fn g(self) -> u8
        ensures value { result ≡ self.g }
        ensures premultiplied { result ≤ self.a }
    {
        self.g
    }

    /// Blue, multiplied by alpha.
    pub fn b(self) -> u8
        ensures value { result ≡ self.b }
        ensures premultiplied { result ≤ self.a }
    {
        self.b
    }

    /// Alpha: 0 is transparent, 255 is opaque.
    pub fn a(self) -> u8
        ensures { result ≡ self.a }
    {
        self.a
    }

    /// `src` laid over this colour: source-over on premultiplied colours.
    pub fn over(self, src: Colour) -> Colour
        ensures value { result ≡ blend self src }
        ensures premultiplied { is_colour result ≡ true }
    {
        let kept = 255 - src.a;
        Colour {
            r: src.r + mul255(self.r, kept),
            g: src.g + mul255(self.g, kept),
            b: src.b + mul255(self.b, kept),
            a: src.a + mul255(self.a, kept),
        }
    }

    /// This colour faded to an opacity of 0 (transparent) to 255 (unchanged).
    pub fn scale(self, opacity: u8) -> Colour
        ensures value { result ≡ scaled self opacity }
        ensures premultiplied { is_colour result ≡ true }
    {
        Colour {
            r: mul255(self.r, opacity),
            g: mul255(self.g, opacity),
            b: mul255(self.b, opacity),
            a: mul255(self.a, opacity),
        }
    }
}
