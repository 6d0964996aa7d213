//! What a start and its end do to the choice of tiles. The laws speak of pasts, which list the newest
//! entry first.

ghost use Rattle.std.specs.Prelude.{◌≡◌, ℕ, true, false, List, ◌∷◌, None, Some};
ghost use Rattle.geom.specs.declared.tile.TileKey.{TileKey};
ghost use Rattle.geom.specs.KeyLists.{has_key};
ghost use Rattle.tile_priority.specs.Alike.{Alike, choice_after_start, finished};
ghost use Rattle.model_history.specs.declared.history.Entry.{Entry};
ghost use Rattle.model_history.specs.Scripts.{ScriptModel};
ghost use Rattle.model_history.specs.Legal.{Legal};
ghost use Rattle.model_history.specs.Tiles.{live_keys};
ghost use Rattle.model_history.specs.Ranking.{choice, ready_tile};
ghost use Rattle.model_steps.specs.Events.{start, done};

/// A start changes the choice as a queue does: its key is wanted no more, the evicted keys are ready no
/// more and wanted again if they have a rank, and one tile more is in flight.
pub fn starts_change_the_choice()
    ensures { (s : ScriptModel) (workers : ℕ) (h : List Entry) (actor w : ℕ) (q : TileKey) (evicted : List TileKey) → Legal s workers (start actor w q evicted ∷ h) → Alike (choice_after_start (choice s h) q evicted) (choice s (start actor w q evicted ∷ h)) }
{}

/// The end of a start changes the choice as a queue does: one tile fewer is in flight, and the tile is
/// ready if its key is live.
pub fn dones_change_the_choice()
    ensures live { (s : ScriptModel) (workers : ℕ) (h : List Entry) (actor w : ℕ) (q : TileKey) → Legal s workers (done actor w q ∷ h) → has_key (live_keys s h) q ≡ true → Alike (finished (choice s h) (Some (ready_tile s h q))) (choice s (done actor w q ∷ h)) }
    ensures dead { (s : ScriptModel) (workers : ℕ) (h : List Entry) (actor w : ℕ) (q : TileKey) → Legal s workers (done actor w q ∷ h) → has_key (live_keys s h) q ≡ false → Alike (finished (choice s h) None) (choice s (done actor w q ∷ h)) }
{}
