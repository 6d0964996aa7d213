//! What a commit changed in a layer.

ghost use Rattle.std.specs.Prelude.{◌≡◌, true, false, not, ◌&&◌, is_none};
ghost use Rattle.std.specs.Option.{option_copied};
ghost use Rattle.region.specs.Lists.{change_of};
ghost use Rattle.impl_host.specs.inner.Steps as spec;

use region::{Changes, LayerChange};
use tile_tiling::Tiling;

/// The change of a layer, if it is listed.
pub(crate) fn change_in(changes: &Changes, layer: u32) -> Option<&LayerChange>
    ensures { option_copied result ≡ change_of changes.now.list layer }
{
    for i in 0..changes.len() {
        if let Some(change) = changes.at(i) {
            if change.layer == layer {
                return Some(change);
            }
        }
    }
    None
}

/// Whether each place of a layer changed: the tree was retiled, or the layer was added or resized.
pub(crate) fn changes_all(changes: &Changes, layer: u32) -> bool
    ensures { result ≡ spec.changes_all changes.now layer }
{
    if changes.retiled() {
        return true;
    }
    match change_in(changes, layer) {
        Some(change) => change.whole,
        None => false,
    }
}

/// Whether no place of a layer changed.
pub(crate) fn changes_nothing(changes: &Changes, layer: u32) -> bool
    ensures { result ≡ (not changes.now.retiled && is_none (change_of changes.now.list layer)) }
{
    if changes.retiled() {
        return false;
    }
    match change_in(changes, layer) {
        Some(_) => false,
        None => true,
    }
}

/// Steps a layer's tiling by a commit, which does not retile.
pub(crate) fn step(tiling: &mut Tiling, layer: u32, changes: &Changes, frame: u32)
    requires { changes.now.retiled ≡ false }
    ensures grid { tiling.new.grid ≡ tiling.old.grid }
    ensures stepped { spec.IsStepped (record { frame = frame; changed = changes.now }) layer tiling.old tiling.new }
{
    if let Some(change) = change_in(changes, layer) {
        tiling.carry(change, frame);
    }
}
