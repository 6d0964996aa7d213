//! The commands that may part the layers of an effect: adding and moving a layer.

ghost use Rattle.std.specs.Prelude.{◌≡◌, ◌≤◌, ◌<◌, ℕ, [], length, map, insert, IfOk, ◌==◌};
ghost use Rattle.std.specs.Bool.{Decides};
ghost use Rattle.page_properties.specs.Nesting.{AreNested};
ghost use Rattle.page_layers.specs.Effects.{page_after_command};
ghost use Rattle.std.specs.List.{list_any};
ghost use Rattle.page_layers.specs.declared.command.Command.TheVariants as command;
ghost use Rattle.page_layers.specs.Layers.{PageLayer, parts_of, with_layer_moved};
ghost use Rattle.page_layers.specs.inner.FoundPlaces.{StandsAt};
ghost use Rattle.page_layers.specs.Refusals.{test_of};
ghost use Rattle.page_layers.specs.Outcomes.{StandTogether, Outcome};

use super::LayerTree;
use crate::command::{AddLayer, MoveLayer};
use crate::fault::{EditError, EditFault};
use crate::layer::Layer;
use crate::limits::{MAX_LAYERS, is_id, is_size, require};
use crate::{layers, listing};
use page_display_list::DisplayList;
use region::Changes;
use std::alloc::{AllocError, Global};
use std::sync::Arc;

// The effects of layers, in their order.
fn effects_of(alloc: Global, layers: &[Layer]) -> Result<Vec<u32>, AllocError>
    ensures { IfOk result (λ effects. effects.items ≡ map (λ l. l.effect) layers.now) }
{
    layers.iter().map(|layer| layer.effect).collect(alloc)
}

// The effects of the layers with this one taken out and inserted at a place of the others.
fn effects_moved(
    alloc: Global,
    layers: &[Layer],
    id: u32,
    at: usize,
) -> Result<Vec<u32>, AllocError>
    requires { at < length layers.now }
    ensures { IfOk result (λ effects. effects.items ≡ map (λ l. l.effect) (with_layer_moved id at (map parts_of layers.now))) }
{
    match layers::place_of(layers, id) {
        Some(place) => moved_effects(alloc, layers, place, at),
        None => effects_of(alloc, layers),
    }
}

// A display list without items.
fn empty_list(alloc: Global) -> Result<Arc<DisplayList>, AllocError>
    ensures { IfOk result (λ list. list.value ≡ []) }
{
    let list = Arc::new(alloc, DisplayList::new(alloc))?;
    Ok(list)
}

// How many layers there are.
fn count_of(layers: &[Layer]) -> usize
    ensures { result ≡ length (map parts_of layers.now) }
{
    layers.len()
}

// The effects of the layers with one more at a place.
fn effects_with(
    alloc: Global,
    layers: &[Layer],
    at: usize,
    effect: u32,
) -> Result<Vec<u32>, AllocError>
    requires { at ≤ length layers.now }
    ensures { IfOk result (λ effects. effects.items ≡ insert (map (λ l. l.effect) layers.now) at effect) }
{
    let mut effects = effects_of(alloc, layers)?;
    effects.insert(at, effect)?;
    Ok(effects)
}

// The effects of the layers with that at a place taken out and inserted at a place of the others.
fn moved_effects(
    alloc: Global,
    layers: &[Layer],
    place: usize,
    at: usize,
) -> Result<Vec<u32>, AllocError>
    requires from { place < length layers.now }
    requires to { at < length layers.now }
    ensures { IfOk result (λ effects. (id : ℕ) → StandsAt id layers.now place →
        effects.items ≡ map (λ l. l.effect) (with_layer_moved id at (map parts_of layers.now))) }
{
    let mut effects = effects_of(alloc, layers)?;
    let effect = effects.remove(place);
    effects.insert(at, effect)?;
    Ok(effects)
}

impl LayerTree {
    // How many layers there are.
    fn count(&self) -> usize
        ensures { result ≡ length self.now.layers }
    {
        count_of(self.layers.as_slice())
    }

    // Whether a layer ever had this id.
    fn was_used(&self, id: u32) -> bool
        ensures { result ≡ list_any (λ u. u == id) self.now.used }
    {
        self.used.contains(&id)
    }

    #[tactic(auto, unfolding(crate::specs::Refusals::test_of))]
    fn may_add_layer(&self, fields: &AddLayer) -> Result<(), EditFault>
        ensures { result ≡ test_of self.now (command.AddLayer fields.now) }
    {
        let transform_known = self.is_transform(fields.transform);
        let clip_known = self.is_clip(fields.clip);
        let effect_known = self.is_effect(fields.effect);
        let placed = transform_known && clip_known;
        require(placed && effect_known, EditFault::UnknownId)?;
        require(!self.was_used(fields.id), EditFault::IdUsed)?;
        let count = self.count();
        require(fields.at as usize <= count, EditFault::BadPlace)?;
        require(
            count < MAX_LAYERS as usize,
            EditFault::TooMany { limit: MAX_LAYERS },
        )?;
        is_id(fields.id)?;
        is_size(fields.w, fields.h)
    }

    #[tactic(auto, unfolding(crate::specs::Refusals::test_of))]
    fn may_move_layer(&self, fields: &MoveLayer) -> Result<(), EditFault>
        ensures { result ≡ test_of self.now (command.MoveLayer fields.now) }
    {
        require(
            layers::has_layer(self.layers.as_slice(), fields.id),
            EditFault::UnknownId,
        )?;
        require((fields.at as usize) < self.count(), EditFault::BadPlace)
    }

    // Whether the layers would stand together with one moved.
    fn stands_moved(&self, id: u32, at: u32) -> Result<bool, AllocError>
        requires { at < length self.now.layers }
        ensures { IfOk result (λ together. Decides together (StandTogether (page_after_command self.now (command.MoveLayer (record { id = id; at = at }))))) }
    {
        let layers = self.layers.as_slice();
        let effects = effects_moved(*self.layers.allocator(), layers, id, at as usize)?;
        let list = effects.as_slice();
        let together = self.props.is_nested(list);
        Ok(together)
    }

    /// Moves a layer. It is taken out and put in within the memory that the list has.
    pub(crate) fn move_layer(&mut self, fields: &MoveLayer) -> Result<Changes, EditError>
        ensures { Outcome self.old (command.MoveLayer fields.now) self.new result }
    {
        self.may_move_layer(fields)?;
        let together = self.stands_moved(fields.id, fields.at)?;
        if together {
            layers::reorder(&mut self.layers, fields.id, fields.at as usize);
            Ok(self.unlisted())
        } else {
            Err(EditError::Refused(EditFault::NotNested))
        }
    }

    // Whether the layers would stand together with one more.
    fn stands_with(&self, at: u32, effect: u32) -> Result<bool, AllocError>
        requires { at ≤ length self.now.layers }
        ensures { IfOk result (λ together. (l : PageLayer) → l.effect ≡ effect → Decides together (AreNested self.now.props.effects (map (λ k. k.effect) (insert self.now.layers at l)))) }
    {
        let layers = self.layers.as_slice();
        let effects = effects_with(*self.layers.allocator(), layers, at as usize, effect)?;
        let list = effects.as_slice();
        let together = self.props.is_nested(list);
        Ok(together)
    }

    /// Adds a layer with an empty display list.
    pub(crate) fn add_layer(&mut self, fields: &AddLayer) -> Result<Changes, EditError>
        ensures { Outcome self.old (command.AddLayer fields.now) self.new result }
    {
        self.may_add_layer(fields)?;
        let together = self.stands_with(fields.at, fields.effect)?;
        if together {
            let alloc = *self.layers.allocator();
            let changes = listing::whole(alloc, fields.id)?;
            let list = empty_list(alloc)?;
            self.used.reserve(1)?;
            let layer = Layer {
                id: fields.id,
                transform: fields.transform,
                clip: fields.clip,
                effect: fields.effect,
                w: fields.w,
                h: fields.h,
                colour: fields.colour,
                list,
            };
            layers::put_in(&mut self.layers, fields.at as usize, layer)?;
            match self.used.push(fields.id) {
                Ok(()) => (),
                Err(_) => unreachable!(),
            }
            Ok(changes)
        } else {
            Err(EditError::Refused(EditFault::NotNested))
        }
    }
}
