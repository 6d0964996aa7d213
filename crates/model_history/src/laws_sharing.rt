//! Laws of tiles that commits share, as contracts of functions that do nothing.
//!
//! A past is a list of entries with the newest first; `later ++ h` is a past that came after `h`.

ghost use Rattle.std.specs.Prelude.{◌≡◌, ℕ, suc, ◌≤◌, true, false, List, ◌∷◌, ◌++◌};
ghost use Rattle.geom.specs.declared.tile.TileKey.{TileKey as Key};
ghost use Rattle.page_layers.specs.declared.moves.Move.{Move as Pull};
ghost use Rattle.model_history.specs.declared.history.Entry.{Entry as Entered};
ghost use Rattle.model_history.specs.Scripts.{ScriptModel};
ghost use Rattle.model_history.specs.EventFields.{commits};
ghost use Rattle.model_history.specs.Scans.{was_named};
ghost use Rattle.model_history.specs.Frames.{page, pulls_of};
ghost use Rattle.model_history.specs.Accepted.{IsPlayable};
ghost use Rattle.geom.specs.KeyLists.{has_key};
ghost use Rattle.model_history.specs.Tiles.{live_keys};
ghost use Rattle.model_history.specs.Legal.{Legal};
ghost use Rattle.model_history.specs.Sharing.{has_page_key, HaveSameContent, was_live};

/// If a key is the key of its place in two commits of a legal history, the layer's contents in both
/// are equal on the whole place. The same holds of any two pages of a playable script, whatever was
/// pulled; and a key of two pages is a key of each page between them.
pub fn equal_keys_show_the_same()
    ensures commits { (s : ScriptModel) (workers : ℕ) (h : List Entered) (j k : ℕ) (q : Key) → IsPlayable s → Legal s workers h → was_named commits h j ≡ true → was_named commits h k ≡ true → has_page_key s (pulls_of h) (suc j) q ≡ true → has_page_key s (pulls_of h) (suc k) q ≡ true → HaveSameContent q (page s (pulls_of h) (suc j)) (page s (pulls_of h) (suc k)) }
    ensures pages { (s : ScriptModel) (ps qs : ℕ → List Pull) (m n : ℕ) (q : Key) → IsPlayable s → has_page_key s ps m q ≡ true → has_page_key s qs n q ≡ true → HaveSameContent q (page s ps m) (page s qs n) }
    ensures between { (s : ScriptModel) (ps : ℕ → List Pull) (q : Key) (m k n : ℕ) → IsPlayable s → m ≤ k → k ≤ n → has_page_key s ps m q ≡ true → has_page_key s ps n q ≡ true → has_page_key s ps k q ≡ true }
{}

/// A key that was live and is no longer live is never live again: what was live at some time and is
/// live after an entry was live just before that entry.
pub fn dead_keys_stay_dead()
    ensures dead { (s : ScriptModel) (workers : ℕ) (later between h : List Entered) (q : Key) → IsPlayable s → Legal s workers (later ++ (between ++ h)) → has_key (live_keys s h) q ≡ true → has_key (live_keys s (between ++ h)) q ≡ false → has_key (live_keys s (later ++ (between ++ h))) q ≡ false }
    ensures step { (s : ScriptModel) (workers : ℕ) (h : List Entered) (e : Entered) (q : Key) → IsPlayable s → Legal s workers (e ∷ h) → was_live s h q ≡ true → has_key (live_keys s (e ∷ h)) q ≡ true → has_key (live_keys s h) q ≡ true }
{}
