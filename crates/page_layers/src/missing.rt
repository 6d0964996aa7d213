//! The missing tiles of a layer.

ghost use Rattle.std.specs.Prelude.{◌≡◌, ◌≤◌, ◌==◌, filter, IfOk};
ghost use Rattle.std.specs.List.Sorted.{IsNonDecreasingBy};
ghost use Rattle.geom.specs.declared.tile.Place.{Place as TilePlace};
ghost use Rattle.page_layers.specs.TreePainting as painting;
ghost use Rattle.page_layers.specs.Paintings.{has_place};

use geom::{Place, Point, TileKey};
use std::alloc::{AllocError, Global};

/// The place of the tile that a point of a layer lies in, where tiles have this side.
pub fn place_at(tile: u32, point: Point) -> Place
    requires { 1 ≤ tile }
    ensures { result ≡ painting.place_at tile point }
{
    Place {
        x: point.x.unsigned_abs() / tile,
        y: point.y.unsigned_abs() / tile,
    }
}

/// Whether one of the keys names this place.
pub(crate) fn is_among(keys: &[TileKey], place: Place) -> bool
    ensures { result ≡ has_place keys.now place }
{
    keys.iter().any(|key| key.x == place.x && key.y == place.y)
}

// The keys of a layer.
fn keys_of(alloc: Global, keys: &[TileKey], layer: u32) -> Result<Vec<TileKey>, AllocError>
    ensures { IfOk result (λ own. own.items ≡ filter (λ k. k.layer == layer) keys.now) }
{
    keys.iter()
        .filter(|key| key.layer == layer)
        .copied()
        .collect(alloc)
}

/// The keys of a layer, by rising row. An error means out of memory.
pub(crate) fn rows_of(
    alloc: Global,
    keys: &[TileKey],
    layer: u32,
) -> Result<Vec<TileKey>, AllocError>
    ensures same { IfOk result (λ own. (place : TilePlace) → has_place own.items place ≡ has_place (filter (λ k. k.layer == layer) keys.now) place) }
    ensures rising { IfOk result (λ own. IsNonDecreasingBy (λ k. k.y) own.items) }
{
    let mut own = keys_of(alloc, keys, layer)?;
    own.sort_unstable_by_key(|key| key.y);
    Ok(own)
}

/// The keys of one row, of keys by rising row.
pub(crate) fn in_row(keys: &[TileKey], row: u32) -> &[TileKey]
    requires { IsNonDecreasingBy (λ k. k.y) keys.now }
    ensures { result.now ≡ filter (λ k. k.y == row) keys.now }
{
    let (_, rest) = keys.split_at(keys.partition_point(|key| key.y < row));
    let (own, _) = rest.split_at(rest.partition_point(|key| key.y <= row));
    own
}
