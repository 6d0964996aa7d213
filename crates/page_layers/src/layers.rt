//! Changing layers of a list.

ghost use Rattle.std.specs.Prelude.{◌≡◌, ◌==◌, ◌<◌, ◌≤◌, ℕ, length, vec_len, map, OnOk, OnErr, insert};
ghost use Rattle.std.specs.List.{position};
ghost use Rattle.page_layers.specs.Lists.{with_first_changed, without_first};
ghost use Rattle.page_layers.specs.Refusals as refusals;
ghost use Rattle.page_layers.specs.Layers.{parts_of, has_id, with_size, with_colour, with_layer_moved};
ghost use Rattle.page_layers.specs.inner.FoundPlaces.{StandsAt, IsPlaceOf};

use crate::layer::Layer;
use pixel::Colour;
use std::alloc::AllocError;

/// The first place in a list of layers at which one has this id; None if none has it.
pub fn first_place(layers: &[Layer], id: u32) -> Option<usize>
    ensures { result ≡ position (λ l. has_id id (parts_of l)) layers.now }
{
    layers.iter().position(|layer| layer.id == id)
}

/// The place of the layer with this id.
pub(crate) fn place_of(layers: &[Layer], id: u32) -> Option<usize>
    ensures { IsPlaceOf id layers.now result }
{
    first_place(layers, id)
}

// Gives the layer at a place another size.
fn set_size(layers: &mut Vec<Layer>, place: usize, w: u32, h: u32)
    requires { place < vec_len layers.old }
    ensures { (id : ℕ) → StandsAt id layers.old.items place →
        map parts_of layers.new.items ≡ with_first_changed (has_id id) (with_size w h) (map parts_of layers.old.items) }
{
    let layer = &mut layers[place];
    layer.w = w;
    layer.h = h;
}

// Gives the layer at a place another background colour.
fn set_colour(layers: &mut Vec<Layer>, place: usize, colour: Colour)
    requires { place < vec_len layers.old }
    ensures { (id : ℕ) → StandsAt id layers.old.items place →
        map parts_of layers.new.items ≡ with_first_changed (has_id id) (with_colour colour) (map parts_of layers.old.items) }
{
    let layer = &mut layers[place];
    layer.colour = colour;
}

// Takes the layer at a place out.
fn take_out(layers: &mut Vec<Layer>, place: usize)
    requires { place < vec_len layers.old }
    ensures { (id : ℕ) → StandsAt id layers.old.items place →
        map parts_of layers.new.items ≡ without_first (has_id id) (map parts_of layers.old.items) }
{
    layers.remove(place);
}

/// Puts a layer in at a place. Running out of memory leaves the layers as they were.
pub(crate) fn put_in(layers: &mut Vec<Layer>, at: usize, layer: Layer) -> Result<(), AllocError>
    requires { at ≤ length layers.old.items }
    ensures ok { OnOk result (map parts_of layers.new.items ≡ insert (map parts_of layers.old.items) at (parts_of layer)) }
    ensures err { OnErr result (layers.new.items ≡ layers.old.items) }
{
    layers.insert(at, layer)?;
    Ok(())
}

// Takes the layer at a place out and puts it in at a place of the others. This takes no memory.
fn move_to(layers: &mut Vec<Layer>, place: usize, at: usize)
    requires from { place < vec_len layers.old }
    requires to { at < vec_len layers.old }
    ensures { (id : ℕ) → StandsAt id layers.old.items place →
        map parts_of layers.new.items ≡ with_layer_moved id at (map parts_of layers.old.items) }
{
    let layer = layers.remove(place);
    match layers.insert(at, layer) {
        Ok(()) => (),
        Err(_) => unreachable!(),
    }
}

/// Gives the layer with this id another size.
#[tactic(auto, using(crate::proofs::LayerPlaces::not_changed))]
pub(crate) fn resize(layers: &mut Vec<Layer>, id: u32, w: u32, h: u32)
    ensures { map parts_of layers.new.items ≡ with_first_changed (has_id id) (with_size w h) (map parts_of layers.old.items) }
{
    if let Some(place) = place_of(layers, id) {
        set_size(layers, place, w, h);
    }
}

/// Gives the layer with this id another background colour.
#[tactic(auto, using(crate::proofs::LayerPlaces::not_changed))]
pub(crate) fn recolour(layers: &mut Vec<Layer>, id: u32, colour: Colour)
    ensures { map parts_of layers.new.items ≡ with_first_changed (has_id id) (with_colour colour) (map parts_of layers.old.items) }
{
    if let Some(place) = place_of(layers, id) {
        set_colour(layers, place, colour);
    }
}

/// Takes the layer with this id out.
#[tactic(auto, using(crate::proofs::LayerPlaces::not_taken))]
pub(crate) fn remove(layers: &mut Vec<Layer>, id: u32)
    ensures { map parts_of layers.new.items ≡ without_first (has_id id) (map parts_of layers.old.items) }
{
    if let Some(place) = place_of(layers, id) {
        take_out(layers, place);
    }
}

/// Takes the layer with this id out and puts it in at a place of the others. This takes no memory.
#[tactic(auto, using(crate::proofs::LayerPlaces::not_moved))]
pub(crate) fn reorder(layers: &mut Vec<Layer>, id: u32, at: usize)
    requires { at < length layers.old.items }
    ensures { map parts_of layers.new.items ≡ with_layer_moved id at (map parts_of layers.old.items) }
{
    if let Some(place) = place_of(layers, id) {
        move_to(layers, place, at);
    }
}

/// Whether a layer has this id.
pub(crate) fn has_layer(layers: &[Layer], id: u32) -> bool
    ensures { result ≡ refusals.has_layer id (map parts_of layers.now) }
{
    match place_of(layers, id) {
        Some(_) => true,
        None => false,
    }
}
