//! The values of an object's members.

use geom::Rect;
use pixel::Colour;

/// The value of a member.
#[derive(Clone, Copy)]
pub(crate) enum Field<'a> {
    /// A number that is not below 0.
    Number(u32),
    /// A number that may be below 0.
    Signed(&'a i32),
    /// A text that needs no escape.
    Name(&'a str),
    /// An opaque colour: six digits.
    Opaque(Colour),
    /// A colour: eight digits.
    Colour(Colour),
    /// A rect: the list of x, y, width and height.
    Rect(Rect),
    /// The list of a width and a height.
    Sides(u32, u32),
    /// Bytes: digits, two a byte.
    Bytes(&'a [u8]),
}
