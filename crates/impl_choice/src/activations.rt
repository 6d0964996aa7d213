//! What an activation brings to the tiles.

ghost use Rattle.std.specs.Prelude.{◌≡◌, List, IfOk};
ghost use Rattle.model_history.specs.declared.history.Entry.{Entry};
ghost use Rattle.model_history.specs.Scripts.{ScriptModel};
ghost use Rattle.model_history.specs.Tiles.{pending_tree};
ghost use Rattle.model_history.specs.Tiles as model;
ghost use Rattle.impl_ranks.specs.SeenTrees.{IsSeenTree};
ghost use Rattle.impl_tiles.specs.Managers.{Manages};
ghost use Rattle.impl_choice.specs.Rebuilds.{AreForActivation};

use crate::dead::dead_keys;
use geom::Keys;
use impl_ranks::SeenTree;
use impl_tiles::{Pins, TileManager};
use std::alloc::{AllocError, Global};

/// What `TileManager::activate` takes.
#[derive(Drop)]
pub struct Activation {
    /// The keys that are not to be evicted then.
    pub pins: Pins,
    /// The ready keys that go.
    pub dead: Keys,
}

/// What the activation of a pending tree brings to the tiles: the keys that it needs, which are `required`,
/// are pinned, and of the ready keys those go that the tree lacks. An error means out of memory.
pub fn activation_of(
    alloc: Global,
    pending: &SeenTree<'_>,
    required: &Keys,
    manager: &TileManager,
) -> Result<Activation, AllocError>
    ensures { IfOk result (λ all. (s : ScriptModel) (h : List Entry) → Manages s h manager.now → IsSeenTree (pending_tree s h) pending.now → required.now ≡ model.required s h → AreForActivation s h all.pins all.dead) }
{
    let dead = dead_keys(alloc, manager, pending)?;
    let pins = Pins::of(alloc, required)?;
    Ok(Activation { pins, dead })
}
