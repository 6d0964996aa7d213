//! What there is to choose from, looked for when somebody asks.
//!
//! # What
//!
//! The next tile is chosen among the ranks of all tiles near the viewports of both trees. A start and its end change
//! one rank each, which the raster queue does in place. A scroll, a wheel, an abort, a commit and an activation move or
//! exchange a tree: then every rank may be another. So these events leave the tile manager without ranks, and the two
//! calls here give it an outlook again, from the trees of the host, when a question comes:
//!
//! - [`look`] gives the ranks of all tiles. Whatever may be asked of the manager may be asked then.
//! - [`look_for_next`] gives as much as tells which tile starts next, and no more.
//!
//! Neither enters an event or changes which tiles are ready, in flight or pinned: after an error, which means out of
//! memory, the manager stands for the past that it stood for.
//!
//! # How
//!
//! ```text
//!             over the budget                         a visible tile is missing, or
//!   unseen -------------------> visible tiles alone   none else may start
//!      |                             |         +------------------------------------> told
//!      | within the budget           | else
//!      v                             v
//!   ranks of all tiles near the viewports ------------------------------------------> told
//! ```
//!
//! A visible tile may always start, and starts before all others. So while one is missing, the visible tiles alone tell
//! what comes next, and the ready tiles that are not visible what is evicted for it: no other tile need be looked at.
//! That is tried first only if more tiles are there than the budget has room for. Then all were evicted that could be,
//! few ready tiles are not visible, and it is likely that no other tile may start.
//!
//! # Cost
//!
//! Most scrolls are followed by another before anybody asks, and cost nothing here. `look` walks the layers of both
//! trees and makes a rank for each tile that lies within the eventually border of the viewport; the size of the layers
//! does not count. `look_for_next`, over the budget, walks the visible tiles and the ready ones. Either is paid once:
//! until a tree moves again, the queue steps with each start and each end.
//!
//! # Limits
//!
//! No clause says how much is looked at: the contracts say that the manager still stands for the past, and that it then
//! tells what was asked for. Both calls need the host as it stands for the same past (`LooksNow`), so they come after
//! an event was entered and the host was stepped by it, never between the two.

ghost use Rattle.std.specs.Prelude.{◌≡◌, ℕ, true, List, OnOk, OnErr};
ghost use Rattle.model_history.specs.declared.history.Entry.{Entry};
ghost use Rattle.model_history.specs.Scripts.{ScriptModel};
ghost use Rattle.model_history.specs.Legal.{Legal};
ghost use Rattle.impl_tiles.specs.Managers.{Manages, is_seen, TellsNext};
ghost use Rattle.impl_host.specs.Hosts.{Hosts};
ghost use Rattle.impl_core.specs.inner.Outlooks.{LooksNow};

use impl_choice::{foreseen_of, reranked};
use impl_host::ImplHost;
use impl_tiles::TileManager;
use model_history::Plan;
use std::alloc::{AllocError, Global};

/// Looks where the trees of the host stand, if that was not done since they were moved, and gives all tiles
/// their ranks. An error means out of memory, and the tiles are as they were.
pub(crate) fn look(
    alloc: Global,
    plan: &Plan,
    host: &ImplHost,
    tiles: &mut TileManager,
) -> Result<(), AllocError>
    requires { LooksNow plan.now host.now }
    ensures seen { OnOk result (is_seen tiles.new.outlook ≡ true) }
    ensures refused { OnErr result (tiles.new ≡ tiles.old) }
    ensures same { (s : ScriptModel) (h : List Entry) → plan.now ≡ s → Hosts s h host.now → Manages s h tiles.old → Manages s h tiles.new }
{
    if tiles.is_seen() {
        return Ok(());
    }
    let seen = host.seen(alloc, host.standing())?;
    let ranks = reranked(alloc, plan, seen.active.as_ref(), seen.pending.as_ref())?;
    tiles.rerank(ranks);
    Ok(())
}

// Looks where the visible tiles of the trees stand. An error means out of memory, and the tiles are as they were.
fn look_visible(
    alloc: Global,
    plan: &Plan,
    host: &ImplHost,
    tiles: &mut TileManager,
) -> Result<(), AllocError>
    requires { LooksNow plan.now host.now }
    ensures same { (s : ScriptModel) (workers : ℕ) (h : List Entry) → plan.now ≡ s → Legal s workers h → Hosts s h host.now → Manages s h tiles.old → Manages s h tiles.new }
    ensures refused { OnErr result (tiles.new ≡ tiles.old) }
{
    let seen = host.seen(alloc, host.standing())?;
    let all = foreseen_of(
        alloc,
        plan,
        seen.active.as_ref(),
        seen.pending.as_ref(),
        tiles,
    )?;
    tiles.foresee(
        alloc,
        all.wanted.as_slice(),
        all.hidden.as_slice(),
        plan.budget(),
    )
}

// The same, if it was not looked since the trees were moved and more tiles are there than the budget has room for.
// Then all were evicted that could be, so that few ready tiles are not visible, and it is likely that no other starts.
fn look_visible_first(
    alloc: Global,
    plan: &Plan,
    host: &ImplHost,
    tiles: &mut TileManager,
) -> Result<(), AllocError>
    requires { LooksNow plan.now host.now }
    ensures { (s : ScriptModel) (workers : ℕ) (h : List Entry) → plan.now ≡ s → Legal s workers h → Hosts s h host.now → Manages s h tiles.old → Manages s h tiles.new }
{
    if tiles.is_unseen() && tiles.used() > plan.budget() {
        look_visible(alloc, plan, host, tiles)
    } else {
        Ok(())
    }
}

/// Looks where the trees of the host stand, as far as that tells which tile starts next: over the budget at the visible
/// tiles, and at all only if no visible tile is missing and another may start. An error means out of memory, and the
/// tiles represent what they did.
pub(crate) fn look_for_next(
    alloc: Global,
    plan: &Plan,
    host: &ImplHost,
    tiles: &mut TileManager,
) -> Result<(), AllocError>
    requires { LooksNow plan.now host.now }
    ensures told { OnOk result (TellsNext tiles.new.outlook) }
    ensures same { (s : ScriptModel) (workers : ℕ) (h : List Entry) → plan.now ≡ s → Legal s workers h → Hosts s h host.now → Manages s h tiles.old → Manages s h tiles.new }
{
    look_visible_first(alloc, plan, host, tiles)?;
    if tiles.tells_next() {
        Ok(())
    } else {
        look(alloc, plan, host, tiles)
    }
}
