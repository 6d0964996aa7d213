//! Inputs, as JSON texts.

ghost use Rattle.std.specs.Prelude.{◌≡◌, ◌++◌, OnOk};
ghost use Rattle.serde_json.specs.Written.{compact_text};
ghost use Rattle.script_json.specs.InputValues.{scroll_data, wheel_data, draw_data, await_data, settle_data, input_data};
ghost use Rattle.script_json.specs.ScriptValue.{inputs_data};

use super::field::Field;
use super::object::{push_comma, push_object};
use model_history::Input;
use std::alloc::AllocError;

#[tactic(auto, unfolding(crate::specs::InputValues::scroll_data, json::specs::Print::escape_byte))]
fn push_scroll<'a>(
    text: &mut Vec<u8>,
    scroller: u32,
    dx: &'a i32,
    dy: &'a i32,
) -> Result<(), AllocError>
    ensures { OnOk result (text.new.items ≡ text.old.items ++ compact_text (scroll_data scroller dx.now dy.now)) }
{
    push_object(
        text,
        &[
            ("dx", Field::Signed(dx)),
            ("dy", Field::Signed(dy)),
            ("op", Field::Name("scroll")),
            ("scroller", Field::Number(scroller)),
        ],
    )
}

#[tactic(auto, unfolding(crate::specs::InputValues::wheel_data, json::specs::Print::escape_byte))]
fn push_wheel<'a>(
    text: &mut Vec<u8>,
    x: u32,
    y: u32,
    dx: &'a i32,
    dy: &'a i32,
) -> Result<(), AllocError>
    ensures { OnOk result (text.new.items ≡ text.old.items ++ compact_text (wheel_data x y dx.now dy.now)) }
{
    push_object(
        text,
        &[
            ("dx", Field::Signed(dx)),
            ("dy", Field::Signed(dy)),
            ("op", Field::Name("wheel")),
            ("x", Field::Number(x)),
            ("y", Field::Number(y)),
        ],
    )
}

#[tactic(auto, unfolding(crate::specs::InputValues::draw_data, json::specs::Print::escape_byte))]
fn push_draw(text: &mut Vec<u8>) -> Result<(), AllocError>
    ensures { OnOk result (text.new.items ≡ text.old.items ++ compact_text draw_data) }
{
    push_object(text, &[("op", Field::Name("draw"))])
}

#[tactic(auto, unfolding(crate::specs::InputValues::await_data, json::specs::Print::escape_byte))]
fn push_await(text: &mut Vec<u8>, frame: u32) -> Result<(), AllocError>
    ensures { OnOk result (text.new.items ≡ text.old.items ++ compact_text (await_data frame)) }
{
    push_object(
        text,
        &[
            ("frame", Field::Number(frame)),
            ("op", Field::Name("await")),
        ],
    )
}

#[tactic(auto, unfolding(crate::specs::InputValues::settle_data, json::specs::Print::escape_byte))]
fn push_settle(text: &mut Vec<u8>) -> Result<(), AllocError>
    ensures { OnOk result (text.new.items ≡ text.old.items ++ compact_text settle_data) }
{
    push_object(text, &[("op", Field::Name("settle"))])
}

// Adds an input.
fn push_input(text: &mut Vec<u8>, input: &Input) -> Result<(), AllocError>
    ensures { OnOk result (text.new.items ≡ text.old.items ++ compact_text (input_data input.now)) }
{
    match input {
        Input::Scroll { scroller, dx, dy } => push_scroll(text, *scroller, dx, dy),
        Input::Wheel { x, y, dx, dy } => push_wheel(text, *x, *y, dx, dy),
        Input::Draw => push_draw(text),
        Input::Await { frame } => push_await(text, *frame),
        Input::Settle => push_settle(text),
    }
}

/// Adds the list of inputs.
#[tactic(auto, unfolding(crate::specs::ScriptValue::inputs_data))]
pub(crate) fn push_inputs(text: &mut Vec<u8>, inputs: &[Input]) -> Result<(), AllocError>
    ensures { OnOk result (text.new.items ≡ text.old.items ++ compact_text (inputs_data inputs.now)) }
{
    text.push(b'[')?;
    let mut later = false;
    for input in inputs {
        push_comma(text, later)?;
        push_input(text, input)?;
        later = true;
    }
    text.push(b']')?;
    Ok(())
}
