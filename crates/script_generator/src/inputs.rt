//! The inputs of a made script.

ghost use Rattle.std.specs.Prelude.{◌≡◌, ◌++◌, IfOk, OnOk};
ghost use Rattle.script_generator.specs.Draws.{after_draws};
ghost use Rattle.script_generator.specs.Generated as spec;

use crate::draws::Draws;
use model_history::Input;
use std::alloc::{AllocError, Global};

// A drawn input: a scroll or a draw.
#[tactic(auto, unfolding(crate::specs::Draws::after_draws, crate::specs::Generated::drawn_input))]
fn drawn_input(draws: &mut Draws) -> Input
    ensures kept { draws.new.kept ≡ after_draws draws.old.kept (spec.input_draws draws.old.kept) }
    ensures value { result ≡ spec.drawn_input draws.old.kept }
{
    if draws.next(4) == 0 {
        let dy = draws.next(401) as i32 - 200;
        Input::Scroll {
            scroller: 1,
            dx: 0,
            dy,
        }
    } else {
        Input::Draw
    }
}

// Adds 200 drawn inputs.
fn push_drawn(inputs: &mut Vec<Input>, draws: &mut Draws) -> Result<(), AllocError>
    ensures { OnOk result (inputs.new.items ≡ inputs.old.items ++ spec.drawn_inputs draws.old.kept 200) }
{
    let mut left = 200u32;
    while left > 0 {
        inputs.push(drawn_input(draws))?;
        left -= 1;
    }
    Ok(())
}

/// The inputs: the first frame is awaited, then come scrolls and draws, and at last all tiles are made and
/// drawn.
pub(crate) fn inputs(alloc: Global, draws: &mut Draws) -> Result<Vec<Input>, AllocError>
    ensures { IfOk result (λ inputs. inputs.items ≡ spec.inputs draws.old.kept) }
{
    let mut inputs = Vec::new(alloc);
    inputs.push(Input::Await { frame: 0 })?;
    push_drawn(&mut inputs, draws)?;
    inputs.push(Input::Settle)?;
    inputs.push(Input::Draw)?;
    Ok(inputs)
}
