//! Changing the display list of a layer.
//!
//! Trees share display lists. A list that is shared is cloned before it is changed (`Arc::make_mut`), so that the other
//! trees keep theirs.

ghost use Rattle.std.specs.Prelude.{◌≡◌, ◌≤◌, ◌<◌, length, map, insert, remove, slice_set, OnOk, OnErr, IfSome, find, Option, Some};
ghost use Rattle.geom.specs.Covers.{IsSound};
ghost use Rattle.page_display_list.specs.Content.{IsSoundItem};
ghost use Rattle.page_layers.specs.Lists.{with_first_changed};
ghost use Rattle.page_layers.specs.Layers.{parts_of, has_id, with_items};
ghost use Rattle.page_layers.specs.Refusals as refusals;
ghost use Rattle.page_layers.specs.Effects.{item_rect_at};
ghost use Rattle.page_layers.specs.IfThere.{item_rect_in};
ghost use Rattle.page_layers.specs.inner.FoundPlaces.{IsPlaceOf};

use crate::fault::EditFault;
use crate::layer::Layer;
use geom::Rect;
use page_display_list::{DisplayList, Item};
use std::alloc::AllocError;
use std::sync::Arc;

// How many items a layer has.
fn count_of(layer: &Layer) -> usize
    ensures { result ≡ length layer.now.list.value }
{
    layer.list.len()
}

/// How many items the layer with this id has, which stands at this place.
#[tactic(auto, using(crate::proofs::LayerPlaces::count_is))]
pub(crate) fn item_count(
    layers: &[Layer],
    id: u32,
    place: Option<usize>,
) -> Result<usize, EditFault>
    requires { IsPlaceOf id layers.now place }
    ensures { result ≡ refusals.item_count id (map parts_of layers.now) }
{
    // The contract alone speaks of the id.
    let _ = id;
    match place {
        Some(place) => {
            let layer = &layers[place];
            Ok(count_of(layer))
        }
        None => Err(EditFault::UnknownId),
    }
}

// The rect of an item of a layer, if there is one.
#[tactic(auto, using(crate::proofs::LayerPlaces::item_there, crate::proofs::LayerPlaces::item_past))]
fn rect_in(layer: &Layer, at: usize) -> Option<Rect>
    ensures value { result ≡ item_rect_in at (Some (parts_of layer.now)) }
    ensures sound { IfSome result IsSound }
{
    match layer.list.item(at) {
        Some(item) => Some(item.rect()),
        None => None,
    }
}

/// The rect of the item at a place of the display list of the layer with this id, if there is one.
#[tactic(auto, using(crate::proofs::LayerPlaces::found_is))]
pub(crate) fn rect_at(layers: &[Layer], id: u32, place: Option<usize>, at: usize) -> Option<Rect>
    requires { IsPlaceOf id layers.now place }
    ensures value { result ≡ item_rect_at id at (map parts_of layers.now) }
    ensures sound { IfSome result IsSound }
{
    // The contract alone speaks of the id.
    let _ = id;
    match place {
        Some(place) => {
            let layer = &layers[place];
            rect_in(layer, at)
        }
        None => None,
    }
}

// Inserts an item into a display list.
fn insert_in(list: &mut Arc<DisplayList>, at: usize, item: Item) -> Result<(), AllocError>
    requires place { at ≤ length list.old.value }
    requires room { length list.old.value < 256 }
    requires sound { IsSoundItem item }
    ensures ok { OnOk result (list.new.value ≡ insert list.old.value at item) }
    ensures err { OnErr result (list.new.value ≡ list.old.value) }
{
    let own = Arc::make_mut(list)?;
    match own.insert(at, item) {
        Ok(()) => Ok(()),
        Err((refused, _)) => Err(refused),
    }
}

// Removes an item of a display list.
fn remove_in(list: &mut Arc<DisplayList>, at: usize) -> Result<(), AllocError>
    requires { at < length list.old.value }
    ensures ok { OnOk result (list.new.value ≡ remove list.old.value at) }
    ensures err { OnErr result (list.new.value ≡ list.old.value) }
{
    let own = Arc::make_mut(list)?;
    own.remove(at);
    Ok(())
}

// Replaces an item of a display list.
fn replace_in(list: &mut Arc<DisplayList>, at: usize, item: Item) -> Result<(), AllocError>
    requires place { at < length list.old.value }
    requires sound { IsSoundItem item }
    ensures ok { OnOk result (list.new.value ≡ slice_set list.old.value at item) }
    ensures err { OnErr result (list.new.value ≡ list.old.value) }
{
    let own = Arc::make_mut(list)?;
    own.replace(at, item);
    Ok(())
}

/// Inserts an item into the display list of the layer with this id, which stands at this place. Running out of memory leaves the layers
/// as they were.
#[tactic(auto, using(crate::proofs::LayerPlaces::not_changed))]
pub(crate) fn insert(
    layers: &mut Vec<Layer>,
    id: u32,
    place: Option<usize>,
    at: usize,
    item: Item,
) -> Result<(), AllocError>
    requires place { IsPlaceOf id layers.old.items place }
    requires fits { IfSome (find (has_id id) (map parts_of layers.old.items)) (λ l. (at ≤ length l.items) × (length l.items < 256)) }
    requires sound { IsSoundItem item }
    ensures ok { OnOk result (map parts_of layers.new.items ≡ with_first_changed (has_id id) (with_items (λ items. insert items at item)) (map parts_of layers.old.items)) }
    ensures err { OnErr result (map parts_of layers.new.items ≡ map parts_of layers.old.items) }
{
    // The contract alone speaks of the id.
    let _ = id;
    match place {
        Some(place) => {
            let layer = &mut layers[place];
            insert_in(&mut layer.list, at, item)
        }
        None => Ok(()),
    }
}

/// Removes an item of the display list of the layer with this id, which stands at this place. Running out of memory leaves the layers as
/// they were.
#[tactic(auto, using(crate::proofs::LayerPlaces::not_changed))]
pub(crate) fn remove(
    layers: &mut Vec<Layer>,
    id: u32,
    place: Option<usize>,
    at: usize,
) -> Result<(), AllocError>
    requires place { IsPlaceOf id layers.old.items place }
    requires fits { IfSome (find (has_id id) (map parts_of layers.old.items)) (λ l. at < length l.items) }
    ensures ok { OnOk result (map parts_of layers.new.items ≡ with_first_changed (has_id id) (with_items (λ items. remove items at)) (map parts_of layers.old.items)) }
    ensures err { OnErr result (map parts_of layers.new.items ≡ map parts_of layers.old.items) }
{
    // The contract alone speaks of the id.
    let _ = id;
    match place {
        Some(place) => {
            let layer = &mut layers[place];
            remove_in(&mut layer.list, at)
        }
        None => Ok(()),
    }
}

/// Replaces an item of the display list of the layer with this id, which stands at this place. Running out of memory leaves the layers as
/// they were.
#[tactic(auto, using(crate::proofs::LayerPlaces::not_changed))]
pub(crate) fn replace(
    layers: &mut Vec<Layer>,
    id: u32,
    place: Option<usize>,
    at: usize,
    item: Item,
) -> Result<(), AllocError>
    requires place { IsPlaceOf id layers.old.items place }
    requires fits { IfSome (find (has_id id) (map parts_of layers.old.items)) (λ l. at < length l.items) }
    requires sound { IsSoundItem item }
    ensures ok { OnOk result (map parts_of layers.new.items ≡ with_first_changed (has_id id) (with_items (λ items. slice_set items at item)) (map parts_of layers.old.items)) }
    ensures err { OnErr result (map parts_of layers.new.items ≡ map parts_of layers.old.items) }
{
    // The contract alone speaks of the id.
    let _ = id;
    match place {
        Some(place) => {
            let layer = &mut layers[place];
            replace_in(&mut layer.list, at, item)
        }
        None => Ok(()),
    }
}
