//! The names of commands and inputs.

ghost use Rattle.std.specs.Prelude.{◌≡◌, Some, None, if◌then◌else◌, codes, option_and_then};
ghost use Rattle.serde_json.specs.Find.{get, as_str};
ghost use Rattle.serde_json.specs.View.{view};
ghost use Rattle.script_json.specs.Ops.{op_at};
ghost use Rattle.script_json.specs.InputReading.{input_named, input_op_at};
ghost use Rattle.page_layers.specs.CommandFields.{op_named};
ghost use Rattle.model_history.specs.Ranges.{is_of_version};

use page_layers::command::Op;
use script_fields::FieldFault;
use serde_json::Value;

/// An input by its name.
#[derive(Clone, Copy)]
pub(crate) enum InputOp {
    Scroll,
    Wheel,
    Draw,
    Await,
    Settle,
}

// Whether a version has this command.
fn is_of_version(version: u32, op: Op) -> bool
    ensures { result ≡ is_of_version version op }
{
    match op {
        Op::SetView => version == 2,
        _ => true,
    }
}

// The command that a member `op` names, in this version.
fn find_op(version: u32, value: &Value) -> Option<Op>
    ensures { result ≡ option_and_then (λ o. if is_of_version version o then Some o else None) (option_and_then op_named (option_and_then as_str (get (codes "op") (view value.now)))) }
{
    let op = Op::named(value.get("op")?.as_str()?)?;
    if is_of_version(version, op) {
        Some(op)
    } else {
        None
    }
}

/// The command that a member `op` names; a fault of field 0 if the version has no such.
#[tactic(auto, unfolding(crate::specs::Ops::op_at))]
pub(crate) fn command_op(version: u32, value: &Value) -> Result<Op, FieldFault>
    ensures { result ≡ op_at version (view value.now) }
{
    find_op(version, value).ok_or(FieldFault { field: 0 })
}

#[tactic(auto, unfolding(crate::specs::InputReading::input_named))]
fn input_named(name: &str) -> Option<InputOp>
    ensures { result ≡ input_named name.now }
{
    match name {
        "scroll" => Some(InputOp::Scroll),
        "wheel" => Some(InputOp::Wheel),
        "draw" => Some(InputOp::Draw),
        "await" => Some(InputOp::Await),
        "settle" => Some(InputOp::Settle),
        _ => None,
    }
}

// The input that a member `op` names.
fn find_input_op(value: &Value) -> Option<InputOp>
    ensures { result ≡ option_and_then input_named (option_and_then as_str (get (codes "op") (view value.now))) }
{
    input_named(value.get("op")?.as_str()?)
}

/// The input that a member `op` names; a fault of field 0 if there is none.
#[tactic(auto, unfolding(crate::specs::InputReading::input_op_at))]
pub(crate) fn input_op(value: &Value) -> Result<InputOp, FieldFault>
    ensures { result ≡ input_op_at (view value.now) }
{
    find_input_op(value).ok_or(FieldFault { field: 0 })
}
