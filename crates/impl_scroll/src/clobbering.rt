//! The scrollers that a main frame sets outright.

ghost use Rattle.std.specs.Prelude.{◌≡◌, ℕ, Some, IfOk};
ghost use Rattle.std.specs.List.{list_any};
ghost use Rattle.model_history.specs.Scrolls.{scrolls_to, clobbers};
ghost use Rattle.impl_scroll.specs.Rows as spec;

use crate::offsets::is_among;
use model_history::Commit;
use page_layers::Command;
use std::alloc::{AllocError, Global};

/// The scrollers that some commands set outright, each once. An error means out of memory.
pub fn clobbered_by(alloc: Global, commands: &[Command]) -> Result<Vec<u32>, AllocError>
    ensures { IfOk result (λ ids. (sc : ℕ) → spec.has_number ids.items sc ≡ list_any (scrolls_to sc) commands.now) }
{
    let mut ids = Vec::new(alloc);
    for command in commands {
        if let Command::ScrollTo(fields) = command {
            if !is_among(ids.as_slice(), fields.id) {
                ids.push(fields.id)?;
            }
        }
    }
    Ok(ids)
}

/// The scrollers that the main frame of a commit sets outright, each once. An error means out of memory.
pub fn clobbered_in(alloc: Global, commit: &Commit) -> Result<Vec<u32>, AllocError>
    ensures { IfOk result (λ ids. (sc : ℕ) → spec.has_number ids.items sc ≡ clobbers commit.now.script (Some commit.now.frame) sc) }
{
    clobbered_by(alloc, commit.script().commands(commit.frame()))
}
