//! What sends, aborts, commits and activations do to the two trees and to the choice of tiles. They are
//! contracts of functions that do nothing, over pasts, which list the newest entry first.

ghost use Rattle.std.specs.Prelude.{◌≡◌, ℕ, false, List, ◌∷◌, ◌++◌, map, filter, filter_map, length, Some, None};
ghost use Rattle.geom.specs.declared.tile.TileKey.{TileKey as Key};
ghost use Rattle.geom.specs.KeyLists.{has_key, AreDistinctKeys};
ghost use Rattle.tile_priority.specs.declared.rank.Rank.{Rank};
ghost use Rattle.tile_priority.specs.Ordered.{SameMembers};
ghost use Rattle.tile_priority.specs.Alike.{Alike};
ghost use Rattle.page_layers.specs.declared.moves.Move.{Move};
ghost use Rattle.model_history.specs.declared.history.Entry.{Entry};
ghost use Rattle.model_history.specs.Scripts.{ScriptModel};
ghost use Rattle.model_history.specs.Frames.{pending};
ghost use Rattle.model_history.specs.Scrolls.{clobbers};
ghost use Rattle.model_history.specs.Accepted.{IsPlayable};
ghost use Rattle.model_history.specs.Legal.{Legal};
ghost use Rattle.model_history.specs.Tiles.{Tree, active_tree, pending_tree, keys_of, live_keys, in_flight, ready, pinned};
ghost use Rattle.model_history.specs.Ranking.{choice};
ghost use Rattle.model_steps.specs.Events.{send, abort, commit, activate};
ghost use Rattle.model_steps.specs.Choices.{rank_in_both, lacks_key, tile_in_both, choice_of};

/// The choice of tiles is made from the two trees and the ready, the pinned and the keys in flight.
pub fn trees_and_keys_make_the_choice()
    ensures { (s : ScriptModel) (h : List Entry) → choice s h ≡ choice_of s (active_tree s h) (pending_tree s h) (ready s h) (in_flight h) (pinned s h) }
{}

/// A send leaves both trees and the choice as they are.
pub fn sends_leave_the_choice()
    ensures active { (s : ScriptModel) (workers : ℕ) (h : List Entry) (actor k : ℕ) (pulls : List Move) → Legal s workers (send actor k pulls ∷ h) → active_tree s (send actor k pulls ∷ h) ≡ active_tree s h }
    ensures pending { (s : ScriptModel) (workers : ℕ) (h : List Entry) (actor k : ℕ) (pulls : List Move) → Legal s workers (send actor k pulls ∷ h) → pending_tree s (send actor k pulls ∷ h) ≡ pending_tree s h }
    ensures choice { (s : ScriptModel) (workers : ℕ) (h : List Entry) (actor k : ℕ) (pulls : List Move) → Legal s workers (send actor k pulls ∷ h) → choice s (send actor k pulls ∷ h) ≡ choice s h }
{}

/// An abort leaves the active tree as it is, and, if the pending commit clobbers no scroller, the
/// pending tree and the choice.
pub fn aborts_leave_the_choice()
    ensures active { (s : ScriptModel) (workers : ℕ) (h : List Entry) (actor k : ℕ) → Legal s workers (abort actor k ∷ h) → active_tree s (abort actor k ∷ h) ≡ active_tree s h }
    ensures pending { (s : ScriptModel) (workers : ℕ) (h : List Entry) (actor k : ℕ) → Legal s workers (abort actor k ∷ h) → ((sc : ℕ) → clobbers s (pending h) sc ≡ false) → pending_tree s (abort actor k ∷ h) ≡ pending_tree s h }
    ensures choice { (s : ScriptModel) (workers : ℕ) (h : List Entry) (actor k : ℕ) → Legal s workers (abort actor k ∷ h) → ((sc : ℕ) → clobbers s (pending h) sc ≡ false) → choice s (abort actor k ∷ h) ≡ choice s h }
{}

/// A commit is pending then. It leaves the active tree and the ready keys as they are: a tile that was
/// made for a commit before, and was dropped, is not wanted again.
pub fn commits_leave_the_ready_keys()
    ensures pending { (s : ScriptModel) (workers : ℕ) (h : List Entry) (actor k : ℕ) → Legal s workers (commit actor k ∷ h) → pending (commit actor k ∷ h) ≡ Some k }
    ensures active { (s : ScriptModel) (workers : ℕ) (h : List Entry) (actor k : ℕ) → Legal s workers (commit actor k ∷ h) → active_tree s (commit actor k ∷ h) ≡ active_tree s h }
    ensures ready { (s : ScriptModel) (workers : ℕ) (h : List Entry) (actor k : ℕ) → IsPlayable s → Legal s workers (commit actor k ∷ h) → ready s (commit actor k ∷ h) ≡ ready s h }
{}

/// An activation makes the pending tree the active one, at the same offsets and with the same stamps, and
/// nothing is pending then. The live keys are those of this tree, and of the ready keys these stay ready.
pub fn activations_keep_the_pending_tree()
    ensures pending { (s : ScriptModel) (workers : ℕ) (h : List Entry) (actor k : ℕ) (clamps : List Move) → Legal s workers (activate actor k clamps ∷ h) → pending (activate actor k clamps ∷ h) ≡ None }
    ensures active { (s : ScriptModel) (workers : ℕ) (h : List Entry) (actor k : ℕ) (clamps : List Move) → Legal s workers (activate actor k clamps ∷ h) → active_tree s (activate actor k clamps ∷ h) ≡ pending_tree s h }
    ensures live { (s : ScriptModel) (workers : ℕ) (h : List Entry) (actor k : ℕ) (clamps : List Move) → Legal s workers (activate actor k clamps ∷ h) → live_keys s (activate actor k clamps ∷ h) ≡ keys_of (pending_tree s h) }
    ensures ready { (s : ScriptModel) (workers : ℕ) (h : List Entry) (actor k : ℕ) (clamps : List Move) → IsPlayable s → Legal s workers (activate actor k clamps ∷ h) → ready s (activate actor k clamps ∷ h) ≡ filter (has_key (keys_of (pending_tree s h))) (ready s h) }
{}

/// A choice is that of two trees, but for the order of its lists, if its ranks are those of the keys
/// that are neither ready nor in flight, and its tiles those of the ready keys, each once.
pub fn rebuilt_choices_are_alike()
    ensures { (s : ScriptModel) (a p : Tree) (ready in_flight pinned kept : List Key) (ranks : List Rank) → SameMembers ranks (filter_map (rank_in_both s a p) (filter (lacks_key ready in_flight) (keys_of a ++ keys_of p))) → AreDistinctKeys kept → AreDistinctKeys ready → ((q : Key) → has_key kept q ≡ has_key ready q) → Alike (record { wanted = ranks; ready = map (tile_in_both s a p pinned) kept; in_flight = length in_flight; budget = s.budget }) (choice_of s a p ready in_flight pinned) }
{}
