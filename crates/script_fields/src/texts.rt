//! The JSON texts of numbers, colours, rects and bytes.

ghost use Rattle.std.specs.Prelude.{◌≡◌, ◌∷◌, ◌++◌, OnOk};
ghost use Rattle.serde_json.specs.Written.{compact_text};
ghost use Rattle.script_fields.specs.Values.{number_data, int_data, opaque_data, colour_data, bytes_data, rect_data, sides_data};

use crate::digits;
use geom::Rect;
use itoa::Buffer;
use pixel::Colour;
use std::alloc::AllocError;

/// Adds a number that is not below 0.
#[tactic(auto, unfolding(crate::specs::Values::number_data))]
pub fn push_number(text: &mut Vec<u8>, n: u32) -> Result<(), AllocError>
    ensures { OnOk result (text.new.items ≡ text.old.items ++ compact_text (number_data n)) }
{
    let mut buffer = Buffer::new();
    text.extend_from_slice(buffer.format(n).as_bytes())
}

/// Adds a number that may be below 0.
#[tactic(auto, using(crate::proofs::Quoted::int_text))]
pub fn push_int(text: &mut Vec<u8>, z: &i32) -> Result<(), AllocError>
    ensures { OnOk result (text.new.items ≡ text.old.items ++ compact_text (int_data z.now)) }
{
    let mut buffer = Buffer::new();
    text.extend_from_slice(buffer.format(*z).as_bytes())
}

/// Adds an opaque colour: six digits between quotes.
#[tactic(auto, unfolding(crate::specs::Values::opaque_data))]
pub fn push_opaque(text: &mut Vec<u8>, colour: Colour) -> Result<(), AllocError>
    ensures { OnOk result (text.new.items ≡ text.old.items ++ compact_text (opaque_data colour)) }
{
    text.push(b'"')?;
    digits::push_six(text, colour)?;
    text.push(b'"')?;
    Ok(())
}

/// Adds a colour: eight digits between quotes.
#[tactic(auto, unfolding(crate::specs::Values::colour_data))]
pub fn push_colour(text: &mut Vec<u8>, colour: Colour) -> Result<(), AllocError>
    ensures { OnOk result (text.new.items ≡ text.old.items ++ compact_text (colour_data colour)) }
{
    text.push(b'"')?;
    digits::push_eight(text, colour)?;
    text.push(b'"')?;
    Ok(())
}

/// Adds bytes: digits, two a byte, between quotes.
#[tactic(auto, unfolding(crate::specs::Values::bytes_data))]
pub fn push_bytes(text: &mut Vec<u8>, bytes: &[u8]) -> Result<(), AllocError>
    ensures { OnOk result (text.new.items ≡ text.old.items ++ compact_text (bytes_data bytes.now)) }
{
    text.push(b'"')?;
    digits::push_bytes(text, bytes)?;
    text.push(b'"')?;
    Ok(())
}

// Adds a byte and two numbers after it, a comma between them.
fn push_pair(text: &mut Vec<u8>, before: u8, x: &i32, y: &i32) -> Result<(), AllocError>
    ensures { OnOk result (text.new.items ≡ text.old.items ++ before ∷ (compact_text (int_data x.now) ++ 44 ∷ compact_text (int_data y.now))) }
{
    text.push(before)?;
    push_int(text, x)?;
    text.push(b',')?;
    push_int(text, y)
}

/// Adds a rect as a list: x, y, width and height.
#[tactic(auto, unfolding(crate::specs::Values::rect_data))]
pub fn push_rect(text: &mut Vec<u8>, rect: &Rect) -> Result<(), AllocError>
    ensures { OnOk result (text.new.items ≡ text.old.items ++ compact_text (rect_data rect.now)) }
{
    push_pair(text, b'[', &rect.x, &rect.y)?;
    push_pair(text, b',', &rect.w, &rect.h)?;
    text.push(b']')?;
    Ok(())
}

/// Adds a width and a height as a list.
#[tactic(auto, unfolding(crate::specs::Values::sides_data))]
pub fn push_sides(text: &mut Vec<u8>, w: u32, h: u32) -> Result<(), AllocError>
    ensures { OnOk result (text.new.items ≡ text.old.items ++ compact_text (sides_data w h)) }
{
    text.push(b'[')?;
    push_number(text, w)?;
    text.push(b',')?;
    push_number(text, h)?;
    text.push(b']')?;
    Ok(())
}
