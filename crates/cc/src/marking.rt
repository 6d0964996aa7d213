//! Which kept tiles the main page may show otherwise.

ghost use Rattle.std.specs.Prelude.{◌≡◌, map, filter, not};
ghost use Rattle.geom.specs.Covers.{IsSound};
ghost use Rattle.page_layers.specs.declared.command.Command.{Command as Edit};
ghost use Rattle.page_layers.specs.Layers.{parts_of};
ghost use Rattle.page_layers.specs.Pages.{Page};
ghost use Rattle.page_layers.specs.Sound.{IsPage};
ghost use Rattle.page_layers.specs.Refusals as refusals;
ghost use Rattle.page_layers.specs.Effects.{page_after_command, layer_change_of, retiles};
ghost use Rattle.page_layers.specs.Outcomes.{Accepts, ListsChange};
ghost use Rattle.cc.specs.KeptTiles.{AreKeptFor, AreCurrent};
ghost use Rattle.cc.specs.inner.Marks as spec;

use crate::kept_tile::KeptTile;
use geom::Rect;
use page_layers::{Layer, LayerTree};
use region::{Changes, LayerChange};

// Whether a layer has this id.
fn has_layer(layers: &[Layer], id: u32) -> bool
    ensures { result ≡ refusals.has_layer id (map parts_of layers.now) }
{
    for layer in layers {
        if layer.id == id {
            return true;
        }
    }
    false
}

// Whether the change of a layer shows in a rect of a layer.
fn shows_in(change: &LayerChange, layer: u32, rect: Rect) -> bool
    requires { IsSound rect }
    ensures { result ≡ spec.shows_in layer rect change.now }
{
    if change.layer != layer {
        return false;
    }
    change.whole || change.region.touches(rect)
}

// Whether the change of a command shows in a rect of a layer: a command lists one at most.
fn shows(changes: &Changes, layer: u32, rect: Rect) -> bool
    requires { IsSound rect }
    ensures { result ≡ spec.shows layer rect changes.now.list }
{
    match changes.at(0) {
        Some(change) => shows_in(change, layer, rect),
        None => false,
    }
}

// Whether the page after these changes may show something else in the place of a kept tile.
fn is_touched(one: &KeptTile, tree: &LayerTree, changes: &Changes) -> bool
    ensures { result ≡ spec.is_touched tree.now changes.now one.now }
{
    if changes.retiled() || !has_layer(tree.layers(), one.key.layer) {
        return true;
    }
    shows(changes, one.key.layer, one.image.rect())
}

// Marks a tile, if it is touched.
fn mark_one(one: &mut KeptTile, tree: &LayerTree, changes: &Changes)
    ensures { one.new ≡ spec.marked tree.now changes.now one.old }
{
    one.is_stale = one.is_stale || is_touched(one, tree, changes);
}

// Marks the tiles that are touched.
fn mark_each(kept: &mut Vec<KeptTile>, tree: &LayerTree, changes: &Changes)
    ensures { kept.new.items ≡ map (spec.marked tree.now changes.now) kept.old.items }
{
    for i in 0..kept.len() {
        mark_one(&mut kept[i], tree, changes);
    }
}

/// Marks the tiles that a command changed.
pub(crate) fn mark(kept: &mut Vec<KeptTile>, tree: &LayerTree, changes: &Changes)
    ensures kept { (p : Page) → AreKeptFor p kept.old.items → AreKeptFor p kept.new.items }
    ensures current { (p : Page) (c : Edit) → IsPage p → Accepts p c → tree.now ≡ page_after_command p c → ListsChange (layer_change_of p c) (retiles p c) changes.now → AreCurrent p kept.old.items → AreCurrent tree.now kept.new.items }
{
    mark_each(kept, tree, changes);
}

// Marks a tile, whatever was changed.
fn make_stale(one: &mut KeptTile)
    ensures { one.new ≡ spec.made_stale one.old }
{
    one.is_stale = true;
}

// Marks each tile.
fn make_each_stale(kept: &mut Vec<KeptTile>)
    ensures { kept.new.items ≡ map spec.made_stale kept.old.items }
{
    for i in 0..kept.len() {
        make_stale(&mut kept[i]);
    }
}

/// Marks all tiles.
pub(crate) fn mark_all(active: &LayerTree, main: &LayerTree, kept: &mut Vec<KeptTile>)
    requires { AreKeptFor active.now kept.old.items }
    ensures kept { AreKeptFor active.now kept.new.items }
    ensures current { AreCurrent main.now kept.new.items }
{
    make_each_stale(kept);
}

// Leaves the tiles that are not marked.
fn leave_current(kept: &mut Vec<KeptTile>)
    ensures { kept.new.items ≡ filter (λ k. not k.is_stale) kept.old.items }
{
    kept.retain(|one| !one.is_stale);
}

/// Drops the tiles that are marked.
pub(crate) fn drop_stale(main: &LayerTree, kept: &mut Vec<KeptTile>)
    requires { AreCurrent main.now kept.old.items }
    ensures kept { AreKeptFor main.now kept.new.items }
    ensures current { AreCurrent main.now kept.new.items }
{
    leave_current(kept);
}
