//! Laws of the tiles of legal histories, as contracts of functions that do nothing. They speak of
//! pasts, which list the newest entry first.

ghost use Rattle.std.specs.Prelude.{◌≡◌, ℕ, ◌<◌, true, List, [], Some};
ghost use Rattle.geom.specs.declared.tile.TileKey.{TileKey};
ghost use Rattle.model_history.specs.Scripts.{ScriptModel};
ghost use Rattle.model_history.specs.declared.history.Entry.{Entry};
ghost use Rattle.model_history.specs.Scans.{held};
ghost use Rattle.geom.specs.KeyLists.{has_key, AreDistinctKeys};
ghost use Rattle.model_history.specs.Tiles.{made_so_far, in_flight, ready, required, pinned};
ghost use Rattle.model_history.specs.Legal.{Legal};
ghost use Rattle.model_history.specs.FrameLaws.{AtEach};
ghost use Rattle.model_history.specs.TileLaws.{Within, AreApart, is_activate, lacking, is_at_rest};

/// At each activation all that it needs is ready. After every legal past what the last activation needed
/// is ready still, so no missing key of a draw is one of these; and a draw after an activation, with no
/// scroll and no wheel between them, has no missing key.
pub fn required_stays_ready()
    ensures at_activation { (s : ScriptModel) (workers : ℕ) (h : List Entry) → Legal s workers h → AtEach (λ g e. is_activate e.event ≡ true → Within (required s g) (ready s g)) h }
    ensures until_next { (s : ScriptModel) (workers : ℕ) (h : List Entry) → Legal s workers h → Within (pinned s h) (ready s h) }
    ensures missing { (s : ScriptModel) (workers : ℕ) (h : List Entry) → Legal s workers h → AtEach (λ g e. AreApart (lacking e.event) (pinned s g)) h }
    ensures at_rest { (s : ScriptModel) (workers : ℕ) (h : List Entry) → Legal s workers h → AtEach (λ g e. is_at_rest g ≡ true → lacking e.event ≡ []) h }
{}

/// After every legal past no key is made or in flight twice, or both. What a worker holds is in flight,
/// what is in flight is held by a worker, and by one alone.
pub fn no_key_twice()
    ensures made { (s : ScriptModel) (workers : ℕ) (h : List Entry) → Legal s workers h → AreDistinctKeys (made_so_far h) }
    ensures in_flight { (s : ScriptModel) (workers : ℕ) (h : List Entry) → Legal s workers h → AreDistinctKeys (in_flight h) }
    ensures apart { (s : ScriptModel) (workers : ℕ) (h : List Entry) → Legal s workers h → AreApart (in_flight h) (made_so_far h) }
    ensures held { (s : ScriptModel) (workers : ℕ) (h : List Entry) → Legal s workers h → (w : ℕ) (q : TileKey) → held w h ≡ Some q → has_key (in_flight h) q ≡ true }
    ensures holder { (s : ScriptModel) (workers : ℕ) (h : List Entry) → Legal s workers h → (q : TileKey) → has_key (in_flight h) q ≡ true → (w : ℕ) × (w < workers) × (held w h ≡ Some q) }
    ensures one_holder { (s : ScriptModel) (workers : ℕ) (h : List Entry) → Legal s workers h → (v w : ℕ) (q : TileKey) → held v h ≡ Some q → held w h ≡ Some q → v ≡ w }
{}
