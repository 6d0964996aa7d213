//! A whole script, out of its JSON value.

ghost use Rattle.std.specs.Prelude.{◌≡◌, ◌≤◌, length, option_and_then, codes, true, IfOk};
ghost use Rattle.serde_json.specs.Find.{get, as_str};
ghost use Rattle.serde_json.specs.View.{view, items_view};
ghost use Rattle.script_fields.specs.Faults.{viewed_or_fault};
ghost use Rattle.model_history.specs.Ranges.{longest_side, is_in_ranges, are_short};
ghost use Rattle.model_history.specs.Scripts.{script_of};
ghost use Rattle.script_json.specs.Faults.{GivesPart, placed};
ghost use Rattle.script_json.specs.Reading.{priority_named, priority_at, head_at, lists_at, parts_at};
ghost use Rattle.script_json.specs.Causes.{PartsCause};

use super::stream::streamed_parts;
use super::{commands, inputs};
use crate::fault::{PartsFault, ShapeFault, Stop};
use crate::halt::Halt;
use crate::head::Head;
use crate::limits::{MOST_FRAMES, MOST_INPUTS};
use model_history::ScriptParts;
use script_fields::{FieldFault, fields};
use serde_json::Value;
use std::alloc::{AllocError, Global};
use tile_priority::TreePriority;

// The longest side of a viewport in a version.
fn longest_side(version: u32) -> u32
    ensures { result ≡ longest_side version }
{
    if version == 1 { 1024 } else { 2048 }
}

#[tactic(auto, unfolding(crate::specs::Reading::priority_named))]
fn priority_named(name: &str) -> Option<TreePriority>
    ensures { result ≡ priority_named name.now }
{
    match name {
        "same" => Some(TreePriority::Same),
        "smooth" => Some(TreePriority::Smooth),
        "new" => Some(TreePriority::New),
        _ => None,
    }
}

fn find_priority(value: &Value) -> Option<TreePriority>
    ensures { result ≡ option_and_then priority_named (option_and_then as_str (get (codes "priority") (view value.now))) }
{
    priority_named(value.get("priority")?.as_str()?)
}

// The name of a priority.
#[tactic(auto, unfolding(crate::specs::Reading::priority_at))]
fn priority(value: &Value, field: u32) -> Result<TreePriority, FieldFault>
    ensures { result ≡ priority_at field (view value.now) }
{
    find_priority(value).ok_or(FieldFault { field })
}

/// The first nine fields of the top object.
#[tactic(auto, unfolding(crate::specs::Reading::head_at))]
pub(super) fn head_of(value: &Value) -> Result<Head, FieldFault>
    ensures { result ≡ head_at (view value.now) }
{
    fields::object(value)?;
    let version = fields::number(value, "version", 1, 2, 1)?;
    let viewport = fields::sides(value, "viewport", longest_side(version), 2)?;
    let tile = fields::number(value, "tile", 16, 256, 3)?;
    let background = fields::opaque(value, "background", 4)?;
    let budget = fields::number(value, "budget", 0, 4096, 5)?;
    let raster_per_frame = fields::number(value, "raster_per_frame", 0, 4096, 6)?;
    let soon = fields::number(value, "soon", 0, 512, 7)?;
    let eventually = fields::number(value, "eventually", soon, 512, 8)?;
    let priority = priority(value, 9)?;
    Ok(Head {
        version,
        viewport,
        tile,
        background,
        budget,
        raster_per_frame,
        soon,
        eventually,
        priority,
    })
}

/// The main frames and the inputs, as lists of values.
#[derive(Clone, Copy)]
struct Lists<'a> {
    main: &'a [Value],
    inputs: &'a [Value],
}

// The last two fields of the top object, then further fields.
#[tactic(auto, unfolding(crate::specs::Reading::lists_at))]
fn lists_of(value: &Value) -> Result<Lists<'_>, FieldFault>
    ensures value { viewed_or_fault (λ l. record { main = items_view l.main.now; inputs = items_view l.inputs.now }) result ≡ lists_at (view value.now) }
    ensures few { IfOk result (λ l. (length l.main.now ≤ 4096) × (length l.inputs.now ≤ 65536)) }
{
    let main = fields::list(value, "main", MOST_FRAMES as usize, 10)?;
    let inputs = fields::list(value, "inputs", MOST_INPUTS as usize, 11)?;
    fields::no_more(value, 11)?;
    Ok(Lists { main, inputs })
}

// The first nine fields, or the fault's place.
fn placed_head(value: &Value) -> Result<Head, ShapeFault>
    ensures { result ≡ placed 0 0 (head_at (view value.now)) }
{
    match head_of(value) {
        Ok(head) => Ok(head),
        Err(fault) => Err(ShapeFault {
            list: 0,
            index: 0,
            field: fault.field,
        }),
    }
}

// The lists, or the fault's place.
fn placed_lists(value: &Value) -> Result<Lists<'_>, ShapeFault>
    ensures value { viewed_or_fault (λ l. record { main = items_view l.main.now; inputs = items_view l.inputs.now }) result ≡ placed 0 0 (lists_at (view value.now)) }
    ensures few { IfOk result (λ l. (length l.main.now ≤ 4096) × (length l.inputs.now ≤ 65536)) }
{
    match lists_of(value) {
        Ok(lists) => Ok(lists),
        Err(fault) => Err(ShapeFault {
            list: 0,
            index: 0,
            field: fault.field,
        }),
    }
}

// The parts of a script.
#[tactic(auto, unfolding(crate::specs::Reading::parts_at))]
fn parts(alloc: Global, value: &Value) -> Result<ScriptParts, Stop>
    ensures value { GivesPart script_of result (parts_at (view value.now)) }
    ensures short { IfOk result (λ p. are_short (script_of p).main ≡ true) }
{
    let head = placed_head(value)?;
    let lists = placed_lists(value)?;
    let main = commands::frames(alloc, head.version, lists.main)?;
    let inputs = inputs::inputs(alloc, main.len() as u32, lists.inputs)?;
    Ok(head.with_lists(main, inputs))
}

// The parts of the script that these bytes are, read as one value.
fn whole_parts(alloc: Global, bytes: &[u8]) -> Result<ScriptParts, PartsFault>
    ensures cause { PartsCause bytes.now result }
    ensures ranges { IfOk result (λ p. is_in_ranges (script_of p) ≡ true) }
    ensures short { IfOk result (λ p. are_short (script_of p).main ≡ true) }
{
    match Value::from_slice(alloc, bytes) {
        Ok(value) => match parts(alloc, &value) {
            Ok(parts) => Ok(parts),
            Err(Stop::Fault(fault)) => Err(PartsFault::Shape(fault)),
            Err(Stop::Memory(refused)) => Err(PartsFault::Memory(refused)),
        },
        Err(error) if error.is_memory() => Err(PartsFault::Memory(AllocError)),
        Err(_) => Err(PartsFault::Json),
    }
}

/// The parts of the script that these bytes are.
///
/// `Json` comes exactly if the bytes are no JSON text. `Shape` comes exactly if they are the
/// text of a value with this first fault: in the top object, else in a main frame, else in an input.
/// `Memory` may come at any text; it also represents a main frame of 2^32 commands or more, whose
/// places no number of 32 bits tells (a text of fewer than 2^32 bytes has none).
pub fn read_parts(alloc: Global, bytes: &[u8]) -> Result<ScriptParts, PartsFault>
    ensures cause { PartsCause bytes.now result }
    ensures ranges { IfOk result (λ p. is_in_ranges (script_of p) ≡ true) }
    ensures short { IfOk result (λ p. are_short (script_of p).main ≡ true) }
{
    match streamed_parts(alloc, bytes) {
        Ok(parts) => Ok(parts),
        Err(Halt::Json) => Err(PartsFault::Json),
        Err(Halt::Memory(refused)) => Err(PartsFault::Memory(refused)),
        Err(Halt::Fault) => whole_parts(alloc, bytes),
    }
}
