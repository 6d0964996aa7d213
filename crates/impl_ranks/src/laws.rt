//! Which tiles have a rank, as contracts of functions that do nothing.

ghost use Rattle.std.specs.Prelude.{◌≡◌, true, false, None, Some};
ghost use Rattle.std.specs.List.{find};
ghost use Rattle.geom.specs.declared.tile.TileKey.{TileKey};
ghost use Rattle.geom.specs.Common.{meets};
ghost use Rattle.tile_priority.specs.declared.rank.Rank.{Rank};
ghost use Rattle.tile_priority.specs.declared.rank.Side.{Side};
ghost use Rattle.tile_priority.specs.declared.tile.Borders.{Borders};
ghost use Rattle.tile_priority.specs.declared.tile.Seen.{Seen};
ghost use Rattle.tile_priority.specs.Bins.{bin_of};
ghost use Rattle.page_layers.specs.Layers.{PageLayer, has_id};
ghost use Rattle.tile_visible.specs.Visible.{screen_rect};
ghost use Rattle.model_history.specs.Scripts.{ScriptModel};
ghost use Rattle.model_history.specs.Tiles.{Tree};
ghost use Rattle.model_history.specs.Ranking.{borders, place_named, rank_in};
ghost use Rattle.model_history.specs.Accepted.{IsPlayable};
ghost use Rattle.page_layers.specs.Sound.{IsPage};
ghost use Rattle.impl_ranks.specs.Areas.{area_near, IsSeenNear};

/// A tile that does not meet the area near the viewport has no bin: it is not visible, and it is further
/// away than the eventually border.
pub fn tiles_far_away_have_no_bin()
    ensures { (b : Borders) (seen : Seen) → IsSeenNear b seen → meets seen.screen (area_near b) ≡ false → bin_of b seen ≡ None }
{}

/// A key that has a rank in a tree names a place of one of its layers that meets the area near the
/// viewport.
pub fn ranked_tiles_are_near()
    ensures { (s : ScriptModel) (side : Side) (t : Tree) (q : TileKey) (r : Rank) → IsPlayable s → IsPage t.page → rank_in s side t q ≡ Some r → (l : PageLayer) × (find (has_id q.layer) t.page.layers ≡ Some l) × (meets (screen_rect t.page t.offset l (place_named q)) (area_near (borders s t.page)) ≡ true) }
{}
