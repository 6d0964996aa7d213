//! What a job shows, as a contract of a function that does nothing.

ghost use Rattle.std.specs.Prelude.{◌≡◌, ℕ, true, List, Some};
ghost use Rattle.geom.specs.declared.tile.TileKey.{TileKey as Key};
ghost use Rattle.tile_raster.specs.Images.{Image};
ghost use Rattle.page_layers.specs.declared.moves.Move.{Move};
ghost use Rattle.model_history.specs.Scripts.{ScriptModel};
ghost use Rattle.model_history.specs.Frames.{page};
ghost use Rattle.model_history.specs.Accepted.{IsPlayable};
ghost use Rattle.model_history.specs.Sharing.{has_page_key};
ghost use Rattle.model_steps.specs.ShownKeys.{KeyShows};
ghost use Rattle.impl_host.specs.Jobs.{job_in};

/// Every key of a page of a playable script has its job there, and what the job makes shows the key in
/// every page of the script that has it, whatever was pulled: commits that share the key share the tile.
pub fn jobs_show_their_keys()
    ensures { (s : ScriptModel) (pulls : ℕ → List Move) (n : ℕ) (q : Key) → IsPlayable s → has_page_key s pulls n q ≡ true → (made : Image) × (job_in (page s pulls n) q ≡ Some made) × (made.key ≡ q) × KeyShows s q made.rect made.list }
{}
