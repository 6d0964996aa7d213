//! Laws of lockstep, as contracts of functions that do nothing. They speak of pasts, which list the
//! newest entry first.

ghost use Rattle.std.specs.Prelude.{◌≡◌, ◌⊎◌, ℕ, ◌<◌, true, false, List, [], Some};
ghost use Rattle.geom.specs.declared.tile.TileKey.{TileKey};
ghost use Rattle.model_states.specs.declared.kind.Kind.TheVariants as kind;
ghost use Rattle.tile_priority.specs.declared.rank.Bin.TheVariants as bin;
ghost use Rattle.tile_priority.specs.declared.rank.Rank.{Rank};
ghost use Rattle.tile_priority.specs.Ordered.{In};
ghost use Rattle.model_history.specs.Scripts.{ScriptModel};
ghost use Rattle.model_history.specs.declared.history.Entry.{Entry};
ghost use Rattle.model_history.specs.Accepted.{IsPlayable};
ghost use Rattle.model_history.specs.EventFields.{sends};
ghost use Rattle.model_history.specs.Scans.{counted};
ghost use Rattle.geom.specs.KeyLists.{has_key};
ghost use Rattle.model_history.specs.Tiles.{in_flight, ready, required};
ghost use Rattle.model_history.specs.Ranking.{rank, wanted, rank_to_start};
ghost use Rattle.model_history.specs.Legal.{is_open, Legal};
ghost use Rattle.model_history.specs.Lockstep.{waits, is_possible, Pair, Round, IsLockstep};
ghost use Rattle.model_lockstep.specs.Measures.{tiles_left, rounds_left};

/// Every playable script has a lockstep history, and no other history of the script is one.
pub fn lockstep_exists()
    ensures { (s : ScriptModel) → IsPlayable s → (history : List Entry) × IsLockstep s history × ((other : List Entry) → IsLockstep s other → other ≡ history) }
{}

/// While no tile is in flight, a key that an activation needs and that is not ready is wanted, and is
/// visible now. So if the pending commit can't be activated though the state allows it, a visible
/// tile starts first.
pub fn required_tiles_start()
    ensures wanted { (s : ScriptModel) (h : List Entry) (q : TileKey) → IsPlayable s → in_flight h ≡ [] → has_key (required s h) q ≡ true → has_key (ready s h) q ≡ false → (r : Rank) × (rank s h q ≡ Some r) × (r.bin ≡ bin.Now) × In r (wanted s h) }
    ensures first { (s : ScriptModel) (workers : ℕ) (h : List Entry) → IsPlayable s → Legal s workers h → in_flight h ≡ [] → is_open h kind.Activate ≡ true → is_possible s kind.Activate 0 h ≡ false → (r : Rank) × (rank_to_start s h ≡ Some r) × (r.bin ≡ bin.Now) }
{}

/// A pair leaves fewer tiles to make.
pub fn pairs_make_fewer()
    ensures { (s : ScriptModel) (h g : List Entry) → Pair s h g → tiles_left s g < tiles_left s h }
{}

/// A round leaves no commit pending, and activates the one that was, or sends a main frame; so it
/// leaves fewer rounds.
pub fn rounds_are_few()
    ensures does { (s : ScriptModel) (h g : List Entry) → Round s h g → (waits g ≡ false) × ((waits h ≡ true) ⊎ (counted sends h < counted sends g)) }
    ensures fewer { (s : ScriptModel) (h g : List Entry) → Round s h g → rounds_left s g < rounds_left s h }
{}
