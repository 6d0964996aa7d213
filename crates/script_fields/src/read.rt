//! A value, out of the tokens of a text.

ghost use Rattle.std.specs.Prelude.{◌≡◌, ◌<◌, length, Some, None, Err, IfOk, OnOk};
ghost use Rattle.serde_json.specs.View.{view, items_view, members_view};
ghost use Rattle.script_fields.specs.Tokens.{first_value, first_items, first_members};

use crate::number::number_of;
use crate::unread::Unread;
use json::{Reader, Token};
use serde_json::{Map, Value};
use std::alloc::Global;

/// The value that the reader's tokens begin with, in which arrays and objects nest `depth` deep at
/// most. The reader stands after it. After an error the reader's place is unknown.
#[cycle(read)]
#[inline(always)]
pub fn read_value(alloc: Global, reader: &mut Reader<'_>, depth: usize) -> Result<Value, Unread>
    ensures ok { IfOk result (λ v. first_value depth reader.old ≡ Some (view v, reader.new)) }
    ensures shorter { OnOk result (length reader.new < length reader.old) }
    ensures refused { result ≡ Err Unread.NoValue → first_value depth reader.old ≡ None }
{
    let token = reader.next().ok_or(Unread::NoValue)?;
    match token {
        Token::String(text) => Ok(Value::String(String::from_str(alloc, text)?)),
        Token::Number(text) => match number_of(text) {
            Some(number) => Ok(Value::Number(number)),
            None => Err(Unread::NoValue),
        },
        Token::Bool(b) => Ok(Value::Bool(b)),
        Token::Null => Ok(Value::Null),
        Token::EndObject | Token::EndArray | Token::Key(_) | Token::Bad => Err(Unread::NoValue),
        Token::BeginArray => {
            if depth == 0 {
                return Err(Unread::NoValue);
            }
            Ok(Value::Array(read_items(alloc, reader, depth - 1)?))
        }
        Token::BeginObject => {
            if depth == 0 {
                return Err(Unread::NoValue);
            }
            Ok(Value::Object(read_members(alloc, reader, depth - 1)?))
        }
    }
}

// The values of an array, whose opening bracket was taken.
#[cycle(read)]
#[inline(never)]
fn read_items(alloc: Global, reader: &mut Reader<'_>, depth: usize) -> Result<Vec<Value>, Unread>
    ensures ok { IfOk result (λ v. first_items depth reader.old ≡ Some (items_view v.items, reader.new)) }
    ensures shorter { OnOk result (length reader.new < length reader.old) }
    ensures refused { result ≡ Err Unread.NoValue → first_items depth reader.old ≡ None }
{
    let mut found = Vec::new(alloc);
    'items: while !reader.take_end_array() {
        let item = read_value(alloc, reader, depth)?;
        found.push(item)?;
    }
    Ok(found)
}

// The members of an object, whose opening brace was taken.
#[cycle(read)]
#[inline(never)]
fn read_members(
    alloc: Global,
    reader: &mut Reader<'_>,
    depth: usize,
) -> Result<Map<String, Value>, Unread>
    ensures ok { IfOk result (λ m. first_members depth reader.old ≡ Some (members_view m.entries, reader.new)) }
    ensures shorter { OnOk result (length reader.new < length reader.old) }
    ensures refused { result ≡ Err Unread.NoValue → first_members depth reader.old ≡ None }
{
    let mut found = Map::new(alloc);
    'members: while let Some(name) = reader.next_key()? {
        let key = String::from_str(alloc, name)?;
        let member = read_value(alloc, reader, depth)?;
        drop(found.insert(key, member)?);
    }
    Ok(found)
}
