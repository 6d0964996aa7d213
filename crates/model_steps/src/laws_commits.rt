//! What a commit lists, and the stamps after it. The laws speak of pasts, which list the newest entry
//! first.

ghost use Rattle.std.specs.Prelude.{◌≡◌, ℕ, suc, true, false, List, ◌∷◌, None, Some, find};
ghost use Rattle.geom.specs.declared.rect.Rect.{Rect};
ghost use Rattle.geom.specs.declared.tile.Place.{Place};
ghost use Rattle.geom.specs.Grids.{has};
ghost use Rattle.region.specs.Lists.{Changed, IsRising, is_listed, is_listed_whole};
ghost use Rattle.tile_tiling.specs.Tiles.{Tiled, stamp_at};
ghost use Rattle.tile_tiling.specs.Stamps.{stamp_of, IsStamped};
ghost use Rattle.page_layers.specs.declared.moves.Move.{Move};
ghost use Rattle.page_layers.specs.Layers.{PageLayer, has_id};
ghost use Rattle.page_layers.specs.Refusals.{has_layer};
ghost use Rattle.page_layers.specs.Contents.{size_of};
ghost use Rattle.tile_visible.specs.Visible.{grid_of};
ghost use Rattle.model_history.specs.declared.event.Event.TheVariants as event;
ghost use Rattle.model_history.specs.declared.history.Entry.{Entry};
ghost use Rattle.model_history.specs.Scripts.{ScriptModel};
ghost use Rattle.model_history.specs.Accepted.{IsPlayable};
ghost use Rattle.model_history.specs.Frames.{page, pulls_of, active, up_to};
ghost use Rattle.model_history.specs.Stamps.{frame_changes, commits_to, stamp_in};
ghost use Rattle.model_history.specs.SameChanges.{SameChanges};
ghost use Rattle.model_history.specs.Legal.{Legal};
ghost use Rattle.model_steps.specs.Pages.{items_of};

/// A commit lists what it changed since the active page: a layer that it does not list as changed whole
/// has its size there, one that it does not list has its display list there too, and if it does not
/// retile, the tile size is the one there. So the first commit lists all its layers as changed whole.
pub fn commits_list_what_changed()
    ensures sizes { (s : ScriptModel) (workers : ℕ) (h : List Entry) (actor k id : ℕ) → IsPlayable s → Legal s workers (record { actor = actor; event = event.Commit k } ∷ h) → has_layer id (page s (pulls_of h) (suc k)).layers ≡ true → is_listed_whole (frame_changes s (pulls_of h) k).list id ≡ false → size_of (page s (pulls_of h) (up_to (active h))) id ≡ size_of (page s (pulls_of h) (suc k)) id }
    ensures items { (s : ScriptModel) (workers : ℕ) (h : List Entry) (actor k id : ℕ) → IsPlayable s → Legal s workers (record { actor = actor; event = event.Commit k } ∷ h) → has_layer id (page s (pulls_of h) (suc k)).layers ≡ true → is_listed (frame_changes s (pulls_of h) k).list id ≡ false → items_of (page s (pulls_of h) (up_to (active h))) id ≡ items_of (page s (pulls_of h) (suc k)) id }
    ensures tile { (s : ScriptModel) (workers : ℕ) (h : List Entry) (actor k : ℕ) → Legal s workers (record { actor = actor; event = event.Commit k } ∷ h) → (frame_changes s (pulls_of h) k).retiled ≡ false → (page s (pulls_of h) (up_to (active h))).view.tile ≡ (page s (pulls_of h) (suc k)).view.tile }
    ensures first { (s : ScriptModel) (workers : ℕ) (h : List Entry) (actor k id : ℕ) → IsPlayable s → Legal s workers (record { actor = actor; event = event.Commit k } ∷ h) → active h ≡ None → has_layer id (page s (pulls_of h) (suc k)).layers ≡ true → is_listed_whole (frame_changes s (pulls_of h) k).list id ≡ true }
{}

/// The stamps of a commit's page are those of the active page, stepped by what the commit says that it
/// changed: the frames between the two were aborted and changed nothing. And a tiling that has the stamps
/// of all frames up to a page has those of the page.
pub fn commits_step_the_stamps()
    ensures stepped { (s : ScriptModel) (workers : ℕ) (h : List Entry) (actor k layer : ℕ) (r : Rect) (d : Changed) → Legal s workers (record { actor = actor; event = event.Commit k } ∷ h) → SameChanges d (frame_changes s (pulls_of h) k) → IsRising d.list → stamp_of layer r (record { frame = k; changed = d } ∷ commits_to s (pulls_of h) (up_to (active h))) ≡ stamp_of layer r (commits_to s (pulls_of h) (suc k)) }
    ensures page { (s : ScriptModel) (ps : ℕ → List Move) (n : ℕ) (l : PageLayer) (t : Tiled) (q : Place) → find (has_id l.id) (page s ps n).layers ≡ Some l → IsStamped t (grid_of (page s ps n) l) l.id (commits_to s ps n) → has (grid_of (page s ps n) l) q ≡ true → stamp_in s ps n l.id q ≡ stamp_at t q }
{}
