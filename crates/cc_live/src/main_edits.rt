//! The steps of editing a main frame.

ghost use Rattle.std.specs.Prelude.{◌≡◌, IfOk};
ghost use Rattle.page_layers.specs.Effects.{page_after_pulls};
ghost use Rattle.model_history.specs.Accepted.{TakesAll};
ghost use Rattle.model_history.specs.Ended.{AreBounded};
ghost use Rattle.cc_live.specs.MainSide.{EditsFrame, MadeOf};

use crate::main_fault::MainFault;
use crate::open_frame::OpenFrame;
use impl_core::Handed;
use model_history::{Moves, apply_frame};
use page_layers::{Command, EditError, LayerTree, Move};
use std::alloc::{AllocError, Global};
use std::sync::Arc;

// How many commands a main frame has at most.
const MOST_COMMANDS: usize = 4_294_967_295;

// A copy of a page with these pulls.
fn pulled(alloc: Global, page: &LayerTree, pulls: &[Move]) -> Result<LayerTree, AllocError>
    requires { AreBounded pulls.now }
    ensures { IfOk result (λ after. after ≡ page_after_pulls pulls.now page.now) }
{
    let mut after = page.copy()?;
    match apply_frame(alloc, &mut after, pulls, &[]) {
        Ok(_) => Ok(after),
        Err(EditError::Memory(refused)) => Err(refused),
        Err(EditError::Refused(_)) => unreachable!(),
    }
}

/// A copy of a page with these pulls, and a copy of the pulls.
pub(crate) fn opened_with(
    alloc: Global,
    page: &LayerTree,
    pulls: &Moves,
) -> Result<(LayerTree, Moves), AllocError>
    requires { AreBounded pulls.now }
    ensures page { IfOk result (λ opened. opened.0 ≡ page_after_pulls pulls.now page.now) }
    ensures pulls { IfOk result (λ opened. opened.1 ≡ pulls.now) }
{
    let after = pulled(alloc, page, pulls.as_slice())?;
    let told = pulls.copy()?;
    Ok((after, told))
}

/// The page after these pulls and commands, which it takes, and what the commands changed.
pub(crate) fn made_of(
    alloc: Global,
    page: &LayerTree,
    pulls: &[Move],
    commands: &[Command],
) -> Result<Handed, AllocError>
    requires bounded { AreBounded pulls.now }
    requires takes { TakesAll (page_after_pulls pulls.now page.now) commands.now }
    ensures { IfOk result (λ handed. MadeOf page.now pulls.now commands.now handed) }
{
    let mut after = page.copy()?;
    match apply_frame(alloc, &mut after, pulls, commands) {
        Ok(changes) => {
            let tree = Arc::new(alloc, after)?;
            Handed::new(alloc, tree, changes, commands)
        }
        Err(EditError::Memory(refused)) => Err(refused),
        Err(EditError::Refused(_)) => unreachable!(),
    }
}

/// Applies a command to an open main frame.
pub(crate) fn edit_frame(frame: &mut OpenFrame, command: Command) -> Result<(), MainFault>
    ensures { EditsFrame frame.old command frame.new result }
{
    if frame.commands.len() >= MOST_COMMANDS {
        return Err(MainFault::Worn);
    }
    if let Err(refused) = frame.commands.reserve(1) {
        return Err(MainFault::Memory(refused));
    }
    match frame.page.apply(&command) {
        Ok(_) => {
            frame.commands.push_reserved(command);
            Ok(())
        }
        Err(EditError::Refused(fault)) => Err(MainFault::Refused(fault)),
        Err(EditError::Memory(refused)) => Err(MainFault::Memory(refused)),
    }
}
