//! The fields of an object: each is of its form, or is the field at fault.

ghost use Rattle.std.specs.Prelude.{◌≡◌, ◌≤◌, Result, IfOk, length};
ghost use Rattle.serde_json.specs.Find.{as_object};
ghost use Rattle.serde_json.specs.View.{view, items_view};
ghost use Rattle.script_fields.specs.Faults.{viewed_or_fault};
ghost use Rattle.script_fields.specs.Fields.{number_at, whole_at, int_at, signed_at, opaque_at, colour_at, rect_at, sides_at, list_at, object_at, member_count, no_more_members};

use crate::fault::FieldFault;
use crate::forms::{self, Sides};
use geom::Rect;
use pixel::Colour;
use serde_json::Value;

/// The number at `key`: a whole number from `low` to `high`.
#[tactic(auto, unfolding(crate::specs::Fields::number_at))]
pub fn number(object: &Value, key: &str, low: u32, high: u32, field: u32) -> Result<u32, FieldFault>
    ensures { result ≡ number_at key.now low high field (view object.now) }
{
    match object.get(key) {
        Some(value) => forms::number_form(value, low, high).ok_or(FieldFault { field }),
        None => Err(FieldFault { field }),
    }
}

/// The number at `key`: a whole number of 32 bits.
#[tactic(auto, unfolding(crate::specs::Fields::whole_at))]
pub fn whole(object: &Value, key: &str, field: u32) -> Result<u32, FieldFault>
    ensures { result ≡ whole_at key.now field (view object.now) }
{
    number(object, key, 0, u32::MAX, field)
}

/// The number at `key`: a whole number from `low` to `high`, which may be below 0.
#[tactic(auto, unfolding(crate::specs::Fields::int_at))]
pub fn int(object: &Value, key: &str, low: i32, high: i32, field: u32) -> Result<i32, FieldFault>
    ensures { result ≡ int_at key.now low high field (view object.now) }
{
    match object.get(key) {
        Some(value) => forms::int_form(value, low, high).ok_or(FieldFault { field }),
        None => Err(FieldFault { field }),
    }
}

/// The number at `key`: a whole number of 32 bits with a sign.
#[tactic(auto, unfolding(crate::specs::Fields::signed_at))]
pub fn signed(object: &Value, key: &str, field: u32) -> Result<i32, FieldFault>
    ensures { result ≡ signed_at key.now field (view object.now) }
{
    int(object, key, i32::MIN, i32::MAX, field)
}

/// The colour at `key`: an opaque one of six digits.
#[tactic(auto, unfolding(crate::specs::Fields::opaque_at))]
pub fn opaque(object: &Value, key: &str, field: u32) -> Result<Colour, FieldFault>
    ensures { result ≡ opaque_at key.now field (view object.now) }
{
    match object.get(key) {
        Some(value) => forms::opaque_form(value).ok_or(FieldFault { field }),
        None => Err(FieldFault { field }),
    }
}

/// The colour at `key`: a premultiplied one of eight digits.
#[tactic(auto, unfolding(crate::specs::Fields::colour_at))]
pub fn colour(object: &Value, key: &str, field: u32) -> Result<Colour, FieldFault>
    ensures { result ≡ colour_at key.now field (view object.now) }
{
    match object.get(key) {
        Some(value) => forms::colour_form(value).ok_or(FieldFault { field }),
        None => Err(FieldFault { field }),
    }
}

/// The rect at `key`: a list of four whole numbers of 32 bits with a sign.
#[tactic(auto, unfolding(crate::specs::Fields::rect_at))]
pub fn rect(object: &Value, key: &str, field: u32) -> Result<Rect, FieldFault>
    ensures { result ≡ rect_at key.now field (view object.now) }
{
    match object.get(key) {
        Some(value) => forms::rect_form(value).ok_or(FieldFault { field }),
        None => Err(FieldFault { field }),
    }
}

/// The width and height at `key`: a list of two whole numbers from 1 to `most`.
#[tactic(auto, unfolding(crate::specs::Fields::sides_at))]
pub fn sides(object: &Value, key: &str, most: u32, field: u32) -> Result<Sides, FieldFault>
    ensures { result ≡ sides_at key.now most field (view object.now) }
{
    match object.get(key) {
        Some(value) => forms::sides_form(value, most).ok_or(FieldFault { field }),
        None => Err(FieldFault { field }),
    }
}

/// The elements of the list at `key`, which has at most `most`.
#[tactic(auto, unfolding(crate::specs::Fields::list_at))]
pub fn list<'a>(
    object: &'a Value,
    key: &str,
    most: usize,
    field: u32,
) -> Result<&'a [Value], FieldFault>
    ensures value { viewed_or_fault (λ s. items_view s.now) result ≡ list_at key.now most field (view object.now) }
    ensures few { IfOk result (λ s. length s.now ≤ most) }
{
    match object.get(key) {
        Some(value) => forms::list_form(value, most).ok_or(FieldFault { field }),
        None => Err(FieldFault { field }),
    }
}

/// A fault of field 0 if the value is no object.
#[tactic(auto, unfolding(crate::specs::Fields::object_at))]
pub fn object(value: &Value) -> Result<(), FieldFault>
    ensures { result ≡ object_at (view value.now) }
{
    if value.is_object() {
        Ok(())
    } else {
        Err(FieldFault { field: 0 })
    }
}

// How many members an object has; none for any other value.
#[tactic(auto, using(crate::proofs::Counts::counts))]
fn member_count(value: &Value) -> usize
    ensures { result ≡ member_count (as_object (view value.now)) }
{
    match value.as_object() {
        Some(members) => members.len(),
        None => 0,
    }
}

/// A fault of field 99 if an object in which this many fields were found has a further one: it has
/// each name once, so more members than fields.
#[tactic(auto, unfolding(crate::specs::Fields::no_more_members))]
pub fn no_more(object: &Value, fields: usize) -> Result<(), FieldFault>
    ensures { result ≡ no_more_members fields (view object.now) }
{
    if member_count(object) <= fields {
        Ok(())
    } else {
        Err(FieldFault { field: 99 })
    }
}
