//! The forms of values.

ghost use Rattle.std.specs.Prelude.{◌≡◌, ◌≤◌, ◌&&◌, nat_le, int_le, Some, None, if◌then◌else◌, option_map, IfSome, length};
ghost use Rattle.serde_json.specs.View.{view, items_view};
ghost use Rattle.script_fields.specs.Forms.{number_form, int_form, opaque_form, colour_form, corner_at, corners_of, rect_form, side_at, first_sides, sides_form, list_form};

use crate::hex;
use geom::Rect;
use pixel::Colour;
use serde_json::Value;

fn number_within(n: u64, low: u32, high: u32) -> Option<u32>
    ensures { result ≡ if nat_le low n && nat_le n high then Some n else None }
{
    if low as u64 <= n && n <= high as u64 {
        Some(n as u32)
    } else {
        None
    }
}

/// A whole number from `low` to `high`.
#[tactic(auto, unfolding(crate::specs::Forms::number_form))]
pub fn number_form(value: &Value, low: u32, high: u32) -> Option<u32>
    ensures { result ≡ number_form low high (view value.now) }
{
    number_within(value.as_u64()?, low, high)
}

fn signed_within(z: i64, low: i32, high: i32) -> Option<i32>
    ensures { result ≡ if int_le low z && int_le z high then Some z else None }
{
    if low as i64 <= z && z <= high as i64 {
        Some(z as i32)
    } else {
        None
    }
}

/// A whole number from `low` to `high`, which may be below 0.
#[tactic(auto, unfolding(crate::specs::Forms::int_form))]
pub fn int_form(value: &Value, low: i32, high: i32) -> Option<i32>
    ensures { result ≡ int_form low high (view value.now) }
{
    signed_within(value.as_i64()?, low, high)
}

/// An opaque colour as six digits.
#[tactic(auto, unfolding(crate::specs::Forms::opaque_form))]
pub fn opaque_form(value: &Value) -> Option<Colour>
    ensures { result ≡ opaque_form (view value.now) }
{
    hex::six(value.as_str()?.as_bytes())
}

/// A premultiplied colour as eight digits.
#[tactic(auto, unfolding(crate::specs::Forms::colour_form))]
pub fn colour_form(value: &Value) -> Option<Colour>
    ensures { result ≡ colour_form (view value.now) }
{
    hex::eight(value.as_str()?.as_bytes())
}

/// A width and a height.
#[derive(Clone, Copy, PartialEq, Eq, Debug)]
pub struct Sides {
    /// Across, from 1.
    pub w: u32,
    /// Down, from 1.
    pub h: u32,
}

#[tactic(auto, unfolding(crate::specs::Forms::corner_at))]
fn corner(list: &Value, at: usize) -> Option<i32>
    ensures { result ≡ corner_at at (view list.now) }
{
    int_form(list.get(at)?, i32::MIN, i32::MAX)
}

#[tactic(auto, unfolding(crate::specs::Forms::corners_of))]
fn corners(list: &Value) -> Option<Rect>
    ensures { result ≡ corners_of (view list.now) }
{
    let x = corner(list, 0)?;
    let y = corner(list, 1)?;
    let w = corner(list, 2)?;
    let h = corner(list, 3)?;
    Some(Rect { x, y, w, h })
}

/// A list of exactly four whole numbers of 32 bits with a sign: x, y, width and height.
#[tactic(auto, using(crate::proofs::Counts::counts), unfolding(crate::specs::Forms::rect_form))]
pub fn rect_form(value: &Value) -> Option<Rect>
    ensures { result ≡ rect_form (view value.now) }
{
    if value.as_array()?.len() == 4 {
        corners(value)
    } else {
        None
    }
}

#[tactic(auto, unfolding(crate::specs::Forms::side_at))]
fn side(list: &Value, at: usize, most: u32) -> Option<u32>
    ensures { result ≡ side_at at most (view list.now) }
{
    number_form(list.get(at)?, 1, most)
}

#[tactic(auto, unfolding(crate::specs::Forms::first_sides))]
fn first_sides(list: &Value, most: u32) -> Option<Sides>
    ensures { result ≡ first_sides most (view list.now) }
{
    let w = side(list, 0, most)?;
    let h = side(list, 1, most)?;
    Some(Sides { w, h })
}

/// A list of exactly two whole numbers, each from 1 to `most`: width and height.
#[tactic(auto, using(crate::proofs::Counts::counts), unfolding(crate::specs::Forms::sides_form))]
pub fn sides_form(value: &Value, most: u32) -> Option<Sides>
    ensures { result ≡ sides_form most (view value.now) }
{
    if value.as_array()?.len() == 2 {
        first_sides(value, most)
    } else {
        None
    }
}

/// The elements of a list of at most `most`.
#[tactic(auto, using(crate::proofs::Counts::counts), unfolding(crate::specs::Forms::list_form))]
pub fn list_form(value: &Value, most: usize) -> Option<&[Value]>
    ensures value { option_map (λ s. items_view s.now) result ≡ list_form most (view value.now) }
    ensures few { IfSome result (λ s. length s.now ≤ most) }
{
    let list = value.as_array()?;
    if list.len() <= most {
        Some(list.as_slice())
    } else {
        None
    }
}
