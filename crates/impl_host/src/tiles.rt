//! What the trees tell of single tiles.

ghost use Rattle.std.specs.Prelude.{◌≡◌, ℕ, List, Option, Some, None, cond, is_some, IfOk, IfSome, option_copied};
ghost use Rattle.geom.specs.declared.rect.Point.{Point};
ghost use Rattle.geom.specs.KeyLists.{has_key};
ghost use Rattle.geom.specs.Covers.{IsSound};
ghost use Rattle.page_properties.specs.OffsetMap.{offset_at, AreOffsets};
ghost use Rattle.page_layers.specs.declared.moves.Move.{Move};
ghost use Rattle.model_history.specs.declared.history.Entry.{Entry};
ghost use Rattle.model_history.specs.Scripts.{ScriptModel};
ghost use Rattle.model_history.specs.Accepted.{IsPlayable};
ghost use Rattle.model_history.specs.Frames.{up_to};
ghost use Rattle.model_history.specs.Tiles as tiles;
ghost use Rattle.model_history.specs.Tiles.{live_keys};
ghost use Rattle.model_history.specs.Ranking as ranking;
ghost use Rattle.model_steps.specs.ShownKeys.{KeyShows};
ghost use Rattle.impl_host.specs.Hosts.{Hosts, IsTreeAt};
ghost use Rattle.impl_host.specs.inner.LivePages.{HasPageKey, HasLivePage};

use crate::TreeState;
use crate::host::ImplHost;
use crate::jobs::job_of;
use crate::seen::placed_tree;
use geom::TileKey;
use model_history::Plan;
use page_layers::LayerTree;
use page_properties::Offsets;
use std::alloc::AllocError;
use tile_priority::ReadyTile;
use tile_raster::Job;

// The page of a tree that may be missing, if the tree has a key.
fn page_with<'a>(
    tree: Option<&'a TreeState>,
    offsets: &Offsets,
    key: TileKey,
) -> Option<&'a LayerTree>
    requires { AreOffsets (offset_at offsets.now) }
    ensures { (s : ScriptModel) (ps : ℕ → List Move) (o : Option ℕ) (at : ℕ → Point) → IsTreeAt s ps o (option_copied tree.entry) → ((sc : ℕ) → offset_at offsets.now sc ≡ at sc) → HasPageKey s ps (up_to o) key (option_copied result) }
{
    let Some(state) = tree else {
        return None;
    };
    let Some(placed) = placed_tree(tree, offsets) else {
        return None;
    };
    if placed.has(key) {
        Some(state.tree())
    } else {
        None
    }
}

impl ImplHost {
    // The page that has a key: the active one, or else the pending one; None exactly if neither has it.
    fn live_page(&self, key: TileKey) -> Option<&LayerTree>
        ensures { (s : ScriptModel) (h : List Entry) → Hosts s h self.now → HasLivePage s h key (option_copied result) }
    {
        let in_active = page_with(self.trees.active(), self.standing.active(), key);
        let in_pending = page_with(self.trees.pending(), self.standing.pending(), key);
        match in_active {
            Some(page) => Some(page),
            None => in_pending,
        }
    }

    /// The tile of a key that a worker has made: its rank, the better of its ranks in both trees, and whether
    /// it is pinned. None exactly if the key is no longer live. Takes no memory.
    pub fn tile(&self, plan: &Plan, key: TileKey, pinned: bool) -> Option<ReadyTile>
        ensures { (s : ScriptModel) (h : List Entry) → Hosts s h self.now → plan.now ≡ s → pinned ≡ has_key (tiles.pinned s h) key → result ≡ cond (has_key (live_keys s h) key) (Some (ranking.ready_tile s h key)) None }
    {
        let trees = self.placed();
        if trees.is_live(key) {
            Some(trees.tile(plan, key, pinned))
        } else {
            None
        }
    }

    /// The job that makes the tile of a key, whose list is shared; None exactly if the key is not live.
    /// What it makes shows the key in every page of the script that has it. An error means out of memory.
    pub fn job(&self, key: TileKey) -> Result<Option<Job>, AllocError>
        ensures live { IfOk result (λ job. (s : ScriptModel) (h : List Entry) → IsPlayable s → Hosts s h self.now → is_some job ≡ has_key (live_keys s h) key) }
        ensures shows { IfOk result (λ job. IfSome job (λ j. (s : ScriptModel) (h : List Entry) → IsPlayable s → Hosts s h self.now → (j.key ≡ key) × KeyShows s key j.rect j.list.value)) }
        ensures sound { IfOk result (λ job. IfSome job (λ j. IsSound j.rect)) }
    {
        match self.live_page(key) {
            None => Ok(None),
            Some(page) => job_of(page, key),
        }
    }
}
