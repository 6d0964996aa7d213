//! Which tiles stay, and what shows them. They are contracts of functions that do nothing, over pasts,
//! which list the newest entry first.

ghost use Rattle.std.specs.Prelude.{◌≡◌, ℕ, true, List, ◌∷◌, filter, find, Some};
ghost use Rattle.geom.specs.declared.rect.Rect.{Rect};
ghost use Rattle.geom.specs.declared.tile.TileKey.{TileKey as Key};
ghost use Rattle.geom.specs.KeyLists.{has_key};
ghost use Rattle.page_display_list.specs.declared.item.Item.{Item};
ghost use Rattle.page_layers.specs.declared.moves.Move.{Move};
ghost use Rattle.page_layers.specs.Layers.{PageLayer, has_id};
ghost use Rattle.model_history.specs.declared.history.Entry.{Entry};
ghost use Rattle.model_history.specs.Scripts.{ScriptModel};
ghost use Rattle.model_history.specs.Frames.{page};
ghost use Rattle.model_history.specs.Stamps.{stamp_in};
ghost use Rattle.model_history.specs.Accepted.{IsPlayable};
ghost use Rattle.model_history.specs.Legal.{Legal};
ghost use Rattle.model_history.specs.Sharing.{was_live, has_page_key, key_rect};
ghost use Rattle.model_history.specs.Tiles.{live_keys, made_so_far, in_flight, ready};
ghost use Rattle.model_steps.specs.ShownKeys.{KeyShows};

/// What was made, and what is in flight, was live at some time. So an event that makes no tile and gives
/// none up leaves of the ready keys those that are still live, and makes no other ready.
pub fn ready_keys_were_ready()
    ensures made { (s : ScriptModel) (workers : ℕ) (h : List Entry) (q : Key) → Legal s workers h → has_key (made_so_far h) q ≡ true → was_live s h q ≡ true }
    ensures in_flight { (s : ScriptModel) (workers : ℕ) (h : List Entry) (q : Key) → Legal s workers h → has_key (in_flight h) q ≡ true → was_live s h q ≡ true }
    ensures ready { (s : ScriptModel) (workers : ℕ) (h : List Entry) (e : Entry) → IsPlayable s → Legal s workers (e ∷ h) → made_so_far (e ∷ h) ≡ made_so_far h → ready s (e ∷ h) ≡ filter (has_key (live_keys s (e ∷ h))) (ready s h) }
{}

/// A layer's own list, on the rect of the key's place, shows the key in every page of the script that has
/// it, whatever was pulled.
pub fn layers_show_their_keys()
    ensures { (s : ScriptModel) (pulls : ℕ → List Move) (n : ℕ) (q : Key) (layer : PageLayer) → IsPlayable s → has_page_key s pulls n q ≡ true → find (has_id q.layer) (page s pulls n).layers ≡ Some layer → KeyShows s q (key_rect (page s pulls n) q) layer.items }
{}

/// What shows a key of a script shows it of every playable script that has a page with the key in
/// common with it. So an image stays right while the rest of its script is told.
pub fn keys_stay_shown()
    ensures { (s t : ScriptModel) (pulls : ℕ → List Move) (n : ℕ) (q : Key) (rect : Rect) (list : List Item) → IsPlayable t → page t pulls n ≡ page s pulls n → stamp_in t pulls n ≡ stamp_in s pulls n → has_page_key s pulls n q ≡ true → KeyShows s q rect list → KeyShows t q rect list }
{}
