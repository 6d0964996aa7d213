//! What a layer that was looked for says of a key.

ghost use Rattle.std.specs.Prelude.{◌≡◌, option_copied};
ghost use Rattle.geom.specs.Covers.{IsSound};
ghost use Rattle.model_history.specs.Ranking as ranking;
ghost use Rattle.impl_ranks.specs.inner.Lists as spec;

use crate::layer::SeenLayer;
use geom::{Place, TileKey};
use model_history::Plan;
use page_layers::LayerTree;
use tile_priority::{Borders, Rank, Side, rank_in};
use tile_visible::viewport;

/// By what the tiles of a page are ranked.
pub(crate) fn borders(plan: &Plan, page: &LayerTree) -> Borders
    ensures value { result ≡ ranking.borders plan.now page.now }
    ensures sound { IsSound result.viewport }
{
    let viewport = viewport(page);
    Borders {
        viewport,
        soon: plan.soon(),
        eventually: plan.eventually(),
        priority: plan.priority(),
    }
}

// The rank of a key, if the layer has it.
fn layer_rank(borders: &Borders, side: Side, layer: &SeenLayer<'_>, key: TileKey) -> Option<Rank>
    requires { IsSound borders.now.viewport }
    ensures { result ≡ spec.layer_rank borders.now side layer.now key }
{
    if layer.has(key) {
        let seen = layer.seen(Place { x: key.x, y: key.y });
        rank_in(borders, side, &seen, key)
    } else {
        None
    }
}

/// Whether a layer that may be missing has a key.
pub(crate) fn has_on(layer: Option<&SeenLayer<'_>>, key: TileKey) -> bool
    ensures { result ≡ spec.has_on (option_copied layer.entry) key }
{
    match layer {
        None => false,
        Some(layer) => layer.has(key),
    }
}

/// The rank that a layer, which may be missing, gives a key.
pub(crate) fn rank_on(
    borders: &Borders,
    side: Side,
    layer: Option<&SeenLayer<'_>>,
    key: TileKey,
) -> Option<Rank>
    requires { IsSound borders.now.viewport }
    ensures { result ≡ spec.rank_on_layer borders.now side (option_copied layer.entry) key }
{
    match layer {
        None => None,
        Some(layer) => layer_rank(borders, side, layer, key),
    }
}
