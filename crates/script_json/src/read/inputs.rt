//! Inputs, out of their JSON values.

ghost use Rattle.std.specs.Prelude.{◌≡◌, ℕ, ◌<◌, ◌+◌, ◌-◌, ◌^◌, ◌≤◌, length};
ghost use Rattle.serde_json.specs.View.{view, items_view};
ghost use Rattle.script_json.specs.Faults.{GivesPart, placed};
ghost use Rattle.script_json.specs.declared.op.InputOp.TheVariants.{Scroll, Wheel, Draw, Await, Settle};
ghost use Rattle.script_json.specs.InputReading.{amount_at, input_fields_at, input_at, draws_after, inputs_at};

use crate::fault::{ShapeFault, Stop};
use crate::op::{self, InputOp};
use model_history::Input;
use script_fields::{FieldFault, fields};
use serde_json::Value;
use std::alloc::{AllocError, Global};

/// How far one scroll or wheel goes at most, along each axis and either way.
const MOST: i32 = 1_048_576;

/// How many draws a script has at most.
const MOST_DRAWS: u32 = 4096;

// One axis of a scroll or a wheel.
#[tactic(auto, unfolding(crate::specs::InputReading::amount_at))]
fn amount(value: &Value, key: &str, field: u32) -> Result<i32, FieldFault>
    ensures { result ≡ amount_at key.now field (view value.now) }
{
    fields::int(value, key, -MOST, MOST, field)
}

#[tactic(auto, unfolding(crate::specs::InputReading::input_fields_at))]
fn scroll(value: &Value) -> Result<Input, FieldFault>
    ensures { (frames draws : ℕ) → result ≡ input_fields_at frames draws Scroll (view value.now) }
{
    let scroller = fields::number(value, "scroller", 1, 65535, 1)?;
    let dx = amount(value, "dx", 2)?;
    let dy = amount(value, "dy", 3)?;
    fields::no_more(value, 4)?;
    Ok(Input::Scroll { scroller, dx, dy })
}

#[tactic(auto, unfolding(crate::specs::InputReading::input_fields_at))]
fn wheel(value: &Value) -> Result<Input, FieldFault>
    ensures { (frames draws : ℕ) → result ≡ input_fields_at frames draws Wheel (view value.now) }
{
    let x = fields::number(value, "x", 0, 2047, 1)?;
    let y = fields::number(value, "y", 0, 2047, 2)?;
    let dx = amount(value, "dx", 3)?;
    let dy = amount(value, "dy", 4)?;
    fields::no_more(value, 5)?;
    Ok(Input::Wheel { x, y, dx, dy })
}

// A draw after the given number of others.
#[tactic(auto, unfolding(crate::specs::InputReading::input_fields_at))]
fn draw(draws: u32, value: &Value) -> Result<Input, FieldFault>
    ensures { (frames : ℕ) → result ≡ input_fields_at frames draws Draw (view value.now) }
{
    if draws >= MOST_DRAWS {
        return Err(FieldFault { field: 0 });
    }
    fields::no_more(value, 1)?;
    Ok(Input::Draw)
}

#[tactic(auto, unfolding(crate::specs::InputReading::input_fields_at))]
fn await_of(frames: u32, value: &Value) -> Result<Input, FieldFault>
    ensures { (draws : ℕ) → result ≡ input_fields_at frames draws Await (view value.now) }
{
    let frame = fields::number(value, "frame", 0, u32::MAX, 1)?;
    if frame >= frames {
        return Err(FieldFault { field: 1 });
    }
    fields::no_more(value, 2)?;
    Ok(Input::Await { frame })
}

#[tactic(auto, unfolding(crate::specs::InputReading::input_fields_at))]
fn settle(value: &Value) -> Result<Input, FieldFault>
    ensures { (frames draws : ℕ) → result ≡ input_fields_at frames draws Settle (view value.now) }
{
    fields::no_more(value, 1)?;
    Ok(Input::Settle)
}

// The fields of an input with this name.
fn fields_of(frames: u32, draws: u32, op: InputOp, value: &Value) -> Result<Input, FieldFault>
    ensures { result ≡ input_fields_at frames draws op (view value.now) }
{
    match op {
        InputOp::Scroll => scroll(value),
        InputOp::Wheel => wheel(value),
        InputOp::Draw => draw(draws, value),
        InputOp::Await => await_of(frames, value),
        InputOp::Settle => settle(value),
    }
}

// An input after the given number of draws, in a script of the given number of main frames.
#[tactic(auto, unfolding(crate::specs::InputReading::input_at))]
fn input(frames: u32, draws: u32, value: &Value) -> Result<Input, FieldFault>
    ensures { result ≡ input_at frames draws (view value.now) }
{
    fields::object(value)?;
    let op = op::input_op(value)?;
    fields_of(frames, draws, op, value)
}

/// How many draws there are after this input.
pub(super) fn draws_after(draws: u32, input: Input) -> u32
    requires { draws < 2 ^ 32 - 1 }
    ensures value { result ≡ draws_after draws input }
    ensures bound { result ≤ draws + 1 }
{
    match input {
        Input::Draw => draws + 1,
        _ => draws,
    }
}

/// The input at a place of the list.
pub(super) fn placed_input(
    frames: u32,
    draws: u32,
    index: u32,
    value: &Value,
) -> Result<Input, ShapeFault>
    ensures { result ≡ placed 1 index (input_at frames draws (view value.now)) }
{
    match input(frames, draws, value) {
        Ok(input) => Ok(input),
        Err(fault) => Err(ShapeFault {
            list: 1,
            index,
            field: fault.field,
        }),
    }
}

/// The inputs, of which there are at most 65536, in a script of the given number of main frames.
pub(crate) fn inputs(alloc: Global, frames: u32, values: &[Value]) -> Result<Vec<Input>, Stop>
    requires { length values.now ≤ 65536 }
    ensures { GivesPart (λ v. v.items) result (inputs_at frames 0 0 (items_view values.now)) }
{
    let mut inputs = Vec::with_capacity(alloc, values.len())?;
    let mut draws = 0;
    for (index, value) in values.iter().enumerate() {
        let input = placed_input(frames, draws, index as u32, value)?;
        draws = draws_after(draws, input);
        inputs.push(input).map_err(AllocError::from)?;
    }
    Ok(inputs)
}
