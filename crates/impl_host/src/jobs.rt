//! The job of a key.

ghost use Rattle.std.specs.Prelude.{◌≡◌, IfOk, IfSome, option_map};
ghost use Rattle.std.specs.List.{find};
ghost use Rattle.geom.specs.Covers.{IsSound};
ghost use Rattle.geom.specs.Sides.{IsLayerSide};
ghost use Rattle.page_layers.specs.Layers.{parts_of, has_id};
ghost use Rattle.impl_host.specs.Jobs as spec;

use geom::{Place, Rect, TileKey};
use page_layers::{Layer, LayerTree};
use std::alloc::AllocError;
use std::sync::Arc;
use tile_raster::Job;
use tile_visible::grid_of;

// The layer of a page with this id.
fn layer_of(page: &LayerTree, id: u32) -> Option<&Layer>
    ensures value { option_map (λ l. parts_of l.now) result ≡ find (has_id id) page.now.layers }
    ensures sized { IfSome result (λ l. IsLayerSide l.now.w × IsLayerSide l.now.h) }
{
    let layers = page.layers();
    page.are_sized(layers);
    for layer in layers {
        if layer.id == id {
            return Some(layer);
        }
    }
    None
}

// The rect of the place that a key names in its layer; None exactly if the layer has no such place.
fn rect_in(page: &LayerTree, layer: &Layer, key: TileKey) -> Option<Rect>
    requires { IsLayerSide layer.now.w × IsLayerSide layer.now.h }
    ensures value { result ≡ spec.key_rect_in page.now key (parts_of layer.now) }
    ensures sound { IfSome result (λ r. IsSound r) }
{
    let grid = grid_of(page, layer);
    let place = Place { x: key.x, y: key.y };
    if grid.has(place) {
        Some(grid.rect_of(place))
    } else {
        None
    }
}

/// The job that makes the tile of a key: what its layer shows, on the rect of its place. None exactly if
/// the page has no such place. The list is shared. An error means out of memory.
pub(crate) fn job_of(page: &LayerTree, key: TileKey) -> Result<Option<Job>, AllocError>
    ensures value { IfOk result (λ job. option_map spec.made_by job ≡ spec.job_in page.now key) }
    ensures sound { IfOk result (λ job. IfSome job (λ j. IsSound j.rect)) }
{
    let Some(layer) = layer_of(page, key.layer) else {
        return Ok(None);
    };
    let Some(rect) = rect_in(page, layer, key) else {
        return Ok(None);
    };
    let list = Arc::try_clone(&layer.list)?;
    Ok(Some(Job { key, list, rect }))
}
