//! The script of a number.

ghost use Rattle.std.specs.Prelude.{◌≡◌, IfOk};
ghost use Rattle.model_history.specs.Scripts.{script_of};
ghost use Rattle.script_generator.specs.Draws.{after_draws, drawn};
ghost use Rattle.script_generator.specs.Generated as spec;

use crate::draws::Draws;
use crate::frames::{frames, opaque};
use crate::inputs::inputs;
use model_history::{Script, ScriptError, ScriptParts};
use std::alloc::{AllocError, Global};
use tile_priority::TreePriority;

// Whose tiles come first.
#[tactic(auto, unfolding(crate::specs::Draws::after_draws, crate::specs::Generated::priority_given))]
fn priority(draws: &mut Draws) -> TreePriority
    ensures kept { draws.new.kept ≡ after_draws draws.old.kept 1 }
    ensures value { result ≡ spec.priority_given (drawn draws.old.kept 0 3) }
{
    match draws.next(3) {
        0 => TreePriority::Same,
        1 => TreePriority::Smooth,
        _ => TreePriority::New,
    }
}

// The parts of the script of a number.
fn parts_of_number(alloc: Global, number: u64) -> Result<ScriptParts, AllocError>
    ensures { IfOk result (λ parts. script_of parts ≡ spec.script_of_number number) }
{
    let mut draws = Draws { kept: number };
    let priority = priority(&mut draws);
    let main = frames(alloc, &mut draws)?;
    let inputs = inputs(alloc, &mut draws)?;
    Ok(ScriptParts {
        version: 1,
        viewport_w: 256,
        viewport_h: 192,
        tile: 32,
        background: opaque(255, 255, 255),
        budget: 64,
        raster_per_frame: 6,
        soon: 64,
        eventually: 128,
        priority,
        main,
        inputs,
    })
}

/// The script of a number. Each number gives one, and the same one everywhere. An error means out of memory.
pub fn script_of_number(alloc: Global, number: u64) -> Result<Script, AllocError>
    ensures { IfOk result (λ script. script ≡ spec.script_of_number number) }
{
    let parts = parts_of_number(alloc, number)?;
    match Script::new(alloc, parts) {
        Ok(script) => Ok(script),
        Err(ScriptError::Memory(full)) => Err(full),
        Err(ScriptError::Command { .. }) => unreachable!(),
    }
}
