//! The top object, one member at a time.

ghost use Rattle.std.specs.Prelude.{◌≡◌, ◌<◌, length, codes, true, false, Some, None, Ok, Err, IfOk, IfSome, OnOk};
ghost use Rattle.std.specs.Str.{bytes_eq, IsUtf8};
ghost use Rattle.serde_json.specs.Data.{Data, Members, object, put};
ghost use Rattle.serde_json.specs.Read.{read as read_text};
ghost use Rattle.serde_json.specs.View.{members_view};
ghost use Rattle.model_history.specs.Ranges.{are_short};
ghost use Rattle.model_history.specs.Scripts.{script_of};
ghost use Rattle.script_fields.specs.Tokens.{first_value, first_members};
ghost use Rattle.script_fields.specs.Fields.{no_more_members};
ghost use Rattle.script_json.specs.Causes.{IsScriptText};
ghost use Rattle.script_json.specs.Reading.{head_at, parts_at};
ghost use Rattle.script_json.specs.inner.Streamed.{kept, Takes, Holds, AreParts};

use super::fits::fit;
use super::frames::next_frames;
use super::inputs::next_inputs;
use crate::halt::Halt;
use crate::head::Head;
use crate::read::parts::head_of;
use json::{Reader, Scratch, Token};
use model_history::{Input, ScriptParts};
use page_layers::Command;
use script_fields::{fields, read_value};
use serde_json::{Map, Value};
use std::alloc::Global;

/// What was found of the top object.
#[derive(Drop)]
pub(crate) struct Found {
    /// Its members; `null` stands for each of the two lists.
    members: Map<String, Value>,
    main: Option<Vec<Vec<Command>>>,
    inputs: Option<Vec<Input>>,
}

// Takes the main frames.
fn take_main(found: &mut Found, alloc: Global, reader: &mut Reader<'_>) -> Result<(), Halt>
    ensures taken { OnOk result (Takes (codes "main") found.old reader.old found.new reader.new) }
    ensures shorter { OnOk result (length reader.new < length reader.old) }
    ensures refused { result ≡ Err Halt.Json → first_value 126 reader.old ≡ None }
{
    let frames = next_frames(alloc, reader)?;
    serde_json::put(&mut found.members, alloc, "main", Value::Null)?;
    found.main = Some(frames);
    Ok(())
}

// Takes the inputs.
fn take_inputs(found: &mut Found, alloc: Global, reader: &mut Reader<'_>) -> Result<(), Halt>
    ensures taken { OnOk result (Takes (codes "inputs") found.old reader.old found.new reader.new) }
    ensures shorter { OnOk result (length reader.new < length reader.old) }
    ensures refused { result ≡ Err Halt.Json → first_value 126 reader.old ≡ None }
{
    let inputs = next_inputs(alloc, reader)?;
    serde_json::put(&mut found.members, alloc, "inputs", Value::Null)?;
    found.inputs = Some(inputs);
    Ok(())
}

// Takes the value of a member that is neither list.
fn take_other(
    found: &mut Found,
    alloc: Global,
    reader: &mut Reader<'_>,
    name: &str,
) -> Result<(), Halt>
    requires { (bytes_eq name.now (codes "main") ≡ false) × (bytes_eq name.now (codes "inputs") ≡ false) }
    ensures taken { OnOk result (Takes name.now found.old reader.old found.new reader.new) }
    ensures shorter { OnOk result (length reader.new < length reader.old) }
    ensures refused { result ≡ Err Halt.Json → first_value 126 reader.old ≡ None }
{
    let value = read_value(alloc, reader, 126)?;
    serde_json::put(&mut found.members, alloc, name, value)?;
    Ok(())
}

// Takes the value of a member.
fn take_member(
    found: &mut Found,
    alloc: Global,
    reader: &mut Reader<'_>,
    name: &str,
) -> Result<(), Halt>
    ensures taken { OnOk result (Takes name.now found.old reader.old found.new reader.new) }
    ensures shorter { OnOk result (length reader.new < length reader.old) }
    ensures refused { result ≡ Err Halt.Json → first_value 126 reader.old ≡ None }
{
    if name == "main" {
        take_main(found, alloc, reader)
    } else if name == "inputs" {
        take_inputs(found, alloc, reader)
    } else {
        take_other(found, alloc, reader, name)
    }
}

// The top object.
fn next_top(alloc: Global, reader: &mut Reader<'_>) -> Result<Found, Halt>
    ensures read { IfOk result (λ f. (ms : Members) × (first_value 127 reader.old ≡ Some (object ms, reader.new)) × Holds f ms) }
    ensures refused { result ≡ Err Halt.Json → first_value 127 reader.old ≡ None }
{
    match reader.next() {
        Some(Token::BeginObject) => take_members(alloc, reader),
        _ => Err(Halt::Fault),
    }
}

// The members of the top object, whose opening brace was taken.
fn take_members(alloc: Global, reader: &mut Reader<'_>) -> Result<Found, Halt>
    ensures read { IfOk result (λ f. (ms : Members) × (first_members 126 reader.old ≡ Some (ms, reader.new)) × Holds f ms) }
    ensures refused { result ≡ Err Halt.Json → first_members 126 reader.old ≡ None }
{
    let mut found = Found {
        members: Map::new(alloc),
        main: None,
        inputs: None,
    };
    'members: while let Some(name) = reader.next_key()? {
        take_member(&mut found, alloc, reader, name)?;
    }
    Ok(found)
}

// The head of an object with these members and no further one.
fn head_in(members: Map<String, Value>) -> Option<Head>
    ensures { IfSome result (λ head. (ms : Members) → members_view members.entries ≡ kept ms → (head_at (object ms) ≡ Ok head) × (no_more_members 11 (object ms) ≡ Ok tt)) }
{
    let top = Value::Object(members);
    match (head_of(&top), fields::no_more(&top, 11)) {
        (Ok(head), Ok(())) => Some(head),
        _ => None,
    }
}

// The parts of a script, if its lists hold for its version and for each other.
fn parts_with(head: Head, main: Vec<Vec<Command>>, inputs: Vec<Input>) -> Option<ScriptParts>
    ensures { IfSome result (λ p. AreParts head main.items inputs.items (script_of p)) }
{
    if fit(head.version, main.as_slice(), inputs.as_slice()) {
        Some(head.with_lists(main, inputs))
    } else {
        None
    }
}

// The parts of the script that was found.
fn parts_of(found: Found) -> Option<ScriptParts>
    ensures { IfSome result (λ p. (ms : Members) → Holds found ms → (parts_at (object ms) ≡ Ok (script_of p)) × (are_short (script_of p).main ≡ true)) }
{
    let Found {
        members,
        main,
        inputs,
    } = found;
    match (head_in(members), main, inputs) {
        (Some(head), Some(main), Some(inputs)) => parts_with(head, main, inputs),
        _ => None,
    }
}

// The parts of the script that a text is.
fn parts_in(alloc: Global, text: &str) -> Result<ScriptParts, Halt>
    ensures refused { result ≡ Err Halt.Json → read_text text.now ≡ None }
    ensures read { IfOk result (λ p. (d : Data) × (read_text text.now ≡ Some d) × (parts_at d ≡ Ok (script_of p)) × (are_short (script_of p).main ≡ true)) }
{
    let mut scratch = Scratch::new(alloc);
    let mut reader = Reader::new(text, &mut scratch)?;
    let found = next_top(alloc, &mut reader)?;
    if reader.next().is_some() {
        return Err(Halt::Json);
    }
    match parts_of(found) {
        Some(parts) => Ok(parts),
        None => Err(Halt::Fault),
    }
}

/// The parts of the script that these bytes are, if they are one and its lists count as they stand.
pub(crate) fn streamed_parts(alloc: Global, bytes: &[u8]) -> Result<ScriptParts, Halt>
    ensures text { IfOk result (λ p. IsScriptText bytes.now (script_of p)) }
    ensures refused { result ≡ Err Halt.Json → IsUtf8 bytes.now → read_text bytes.now ≡ None }
    ensures short { IfOk result (λ p. are_short (script_of p).main ≡ true) }
{
    match str::from_utf8(bytes) {
        Ok(text) => parts_in(alloc, text),
        Err(_) => Err(Halt::Json),
    }
}
