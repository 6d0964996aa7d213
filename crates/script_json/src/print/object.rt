//! Objects of numbers, names, colours, rects and bytes, as JSON texts.

ghost use Rattle.std.specs.Prelude.{◌≡◌, [], ◌∷◌, ◌++◌, OnOk};
ghost use Rattle.serde_json.specs.Written.{comma_if};
ghost use Rattle.script_json.specs.inner.Objects.{field_text, member_text, members_text, object_text};

use super::field::Field;
use script_fields::texts;
use std::alloc::AllocError;

/// Adds a comma, if something stands before.
pub(crate) fn push_comma(text: &mut Vec<u8>, later: bool) -> Result<(), AllocError>
    ensures { OnOk result (text.new.items ≡ text.old.items ++ comma_if later) }
{
    if later {
        text.push(b',')?;
    }
    Ok(())
}

// Adds a name between quotes.
fn push_name(text: &mut Vec<u8>, name: &str) -> Result<(), AllocError>
    ensures { OnOk result (text.new.items ≡ text.old.items ++ 34 ∷ (name.now ++ 34 ∷ [])) }
{
    text.push(b'"')?;
    text.extend_from_slice(name.as_bytes())?;
    text.push(b'"')?;
    Ok(())
}

// Adds the value of a member.
fn push_field(text: &mut Vec<u8>, field: &Field<'_>) -> Result<(), AllocError>
    ensures { OnOk result (text.new.items ≡ text.old.items ++ field_text field.now) }
{
    match field {
        Field::Number(n) => texts::push_number(text, *n),
        Field::Signed(z) => texts::push_int(text, z),
        Field::Name(name) => push_name(text, name),
        Field::Opaque(colour) => texts::push_opaque(text, *colour),
        Field::Colour(colour) => texts::push_colour(text, *colour),
        Field::Rect(rect) => texts::push_rect(text, rect),
        Field::Sides(w, h) => texts::push_sides(text, *w, *h),
        Field::Bytes(bytes) => texts::push_bytes(text, bytes),
    }
}

// Adds a byte and a member after it.
fn push_member(
    text: &mut Vec<u8>,
    before: u8,
    name: &str,
    field: &Field<'_>,
) -> Result<(), AllocError>
    ensures { OnOk result (text.new.items ≡ text.old.items ++ member_text before name.now field.now) }
{
    text.push(before)?;
    push_name(text, name)?;
    text.push(b':')?;
    push_field(text, field)
}

/// Adds members: this byte before the first one, a comma before each other. Their names need no escape.
pub(crate) fn push_members(
    text: &mut Vec<u8>,
    first: u8,
    members: &[(&str, Field<'_>)],
) -> Result<(), AllocError>
    ensures { OnOk result (text.new.items ≡ text.old.items ++ members_text first members.now) }
{
    let mut before = first;
    for member in members {
        push_member(text, before, member.0, &member.1)?;
        before = b',';
    }
    Ok(())
}

/// Adds members as `push_members` does, and the bracket that closes their object.
pub(crate) fn push_last_members(
    text: &mut Vec<u8>,
    first: u8,
    members: &[(&str, Field<'_>)],
) -> Result<(), AllocError>
    ensures { OnOk result (text.new.items ≡ text.old.items ++ object_text first members.now) }
{
    push_members(text, first, members)?;
    text.push(b'}')?;
    Ok(())
}

/// Adds the object of these members.
pub(crate) fn push_object(
    text: &mut Vec<u8>,
    members: &[(&str, Field<'_>)],
) -> Result<(), AllocError>
    ensures { OnOk result (text.new.items ≡ text.old.items ++ object_text 123 members.now) }
{
    push_last_members(text, b'{', members)
}
