//! What the main side hands over for a main frame.

ghost use Rattle.std.specs.Prelude.{◌≡◌, ℕ, IfOk};
ghost use Rattle.std.specs.List.{list_any};
ghost use Rattle.model_history.specs.Scrolls.{scrolls_to};
ghost use Rattle.impl_scroll.specs.Rows.{has_number};

use impl_scroll::clobbered_by;
use page_layers::{Command, LayerTree};
use region::Changes;
use std::alloc::{AllocError, Global};
use std::sync::Arc;

/// The page after a main frame, and what the frame changed.
#[derive(Drop)]
pub struct Handed {
    /// The page after the frame, which the main side may share.
    pub tree: Arc<LayerTree>,
    /// What the frame's commands changed together. A layer is listed if a command added or resized it, or changed its
    /// items; one that a command removed is not listed for what came before.
    pub changes: Changes,
    /// The scrollers that the frame's commands set outright.
    pub outright: Vec<u32>,
}

impl Handed {
    /// The page after these commands of a main frame, and what they changed. An error means out of memory.
    pub fn new(
        alloc: Global,
        tree: Arc<LayerTree>,
        changes: Changes,
        commands: &[Command],
    ) -> Result<Handed, AllocError>
        ensures tree { IfOk result (λ handed. handed.tree.value ≡ tree.value) }
        ensures changes { IfOk result (λ handed. handed.changes ≡ changes) }
        ensures outright { IfOk result (λ handed. (sc : ℕ) → has_number handed.outright.items sc ≡ list_any (scrolls_to sc) commands.now) }
    {
        let outright = clobbered_by(alloc, commands)?;
        Ok(Handed {
            tree,
            changes,
            outright,
        })
    }
}
