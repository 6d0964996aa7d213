//! Which layers stand in the last pushed tree as they are.

ghost use Rattle.std.specs.Prelude.{◌≡◌, option_map, find, map};
ghost use Rattle.std.specs.Option.{option_copied};
ghost use Rattle.page_layers.specs.Layers.{parts_of, has_id};
ghost use Rattle.impl_host.specs.Trees as trees;
ghost use Rattle.impl_host.specs.inner.Tests as spec;

use crate::TreeState;
use crate::listed_whole::is_listed_whole;
use page_layers::Layer;
use region::Changes;

// The width and the height of the layer with this id, if there is one.
fn size_of(layers: &[Layer], id: u32) -> Option<(u32, u32)>
    ensures { result ≡ option_map (λ l. (l.w, l.h)) (find (has_id id) (map parts_of layers.now)) }
{
    for layer in layers {
        if layer.id == id {
            return Some((layer.w, layer.h));
        }
    }
    None
}

// The size of a layer in the last pushed tree.
fn last_size(last: Option<&TreeState>, id: u32) -> Option<(u32, u32)>
    ensures { result ≡ trees.last_size (option_copied last.entry) id }
{
    match last {
        Some(last) => size_of(last.tree().layers(), id),
        None => None,
    }
}

// Whether a size is that of the layer.
fn has_size(layer: &Layer, size: Option<(u32, u32)>) -> bool
    ensures { result ≡ spec.has_size (parts_of layer.now) size }
{
    match size {
        Some((w, h)) => layer.w == w && layer.h == h,
        None => false,
    }
}

// Whether a layer is listed as changed whole, or stands in the last pushed tree with its size.
fn is_kept(last: Option<&TreeState>, layer: &Layer, changes: &Changes) -> bool
    ensures { result ≡ spec.is_kept (option_copied last.entry) changes.now (parts_of layer.now) }
{
    if is_listed_whole(changes, layer.id) {
        return true;
    }
    has_size(layer, last_size(last, layer.id))
}

/// Whether each layer is listed as changed whole, or stands in the last pushed tree with its size.
pub(crate) fn are_kept(last: Option<&TreeState>, layers: &[Layer], changes: &Changes) -> bool
    ensures { result ≡ spec.are_kept (option_copied last.entry) changes.now (map parts_of layers.now) }
{
    for layer in layers {
        if !is_kept(last, layer, changes) {
            return false;
        }
    }
    true
}
