//! Commands on the items of a layer.

ghost use Rattle.std.specs.Prelude.{◌≡◌, ◌<◌, map};
ghost use Rattle.page_layers.specs.declared.command.Command.TheVariants as command;
ghost use Rattle.page_layers.specs.Layers.{parts_of};
ghost use Rattle.page_layers.specs.Pages.{Page};
ghost use Rattle.page_layers.specs.Refusals.{test_of};
ghost use Rattle.page_layers.specs.inner.FoundPlaces.{IsPlaceOf};
ghost use Rattle.page_layers.specs.inner.Tested.{Tested};

use super::LayerTree;
use crate::command::{InsertItem, RemoveItem, ReplaceItem};
use crate::fault::{EditError, EditFault};
use crate::layer::Layer;
use crate::layers::place_of;
use crate::limits::{MAX_ITEMS, is_item_rect, require};
use crate::{display, listing};
use region::Changes;

// Whether the layer, which stands at this place, takes the item; else the first fault.
#[tactic(auto, unfolding(crate::specs::Refusals::test_of))]
fn may_insert_item(
    layers: &[Layer],
    place: Option<usize>,
    fields: &InsertItem,
) -> Result<(), EditFault>
    requires { IsPlaceOf fields.now.layer layers.now place }
    ensures { (p : Page) → p.layers ≡ map parts_of layers.now → result ≡ test_of p (command.InsertItem fields.now) }
{
    let count = display::item_count(layers, fields.layer, place)?;
    require(fields.at as usize <= count, EditFault::BadPlace)?;
    require(
        count < MAX_ITEMS as usize,
        EditFault::TooMany { limit: MAX_ITEMS },
    )?;
    is_item_rect(fields.item.rect())
}

// Whether the layer, which stands at this place, has the item; else the first fault.
#[tactic(auto, unfolding(crate::specs::Refusals::test_of))]
fn may_remove_item(
    layers: &[Layer],
    place: Option<usize>,
    fields: &RemoveItem,
) -> Result<(), EditFault>
    requires { IsPlaceOf fields.now.layer layers.now place }
    ensures { (p : Page) → p.layers ≡ map parts_of layers.now → result ≡ test_of p (command.RemoveItem fields.now) }
{
    let count = display::item_count(layers, fields.layer, place)?;
    require((fields.at as usize) < count, EditFault::BadPlace)
}

// Whether the layer, which stands at this place, takes the item in place of another; else the first fault.
#[tactic(auto, unfolding(crate::specs::Refusals::test_of))]
fn may_replace_item(
    layers: &[Layer],
    place: Option<usize>,
    fields: &ReplaceItem,
) -> Result<(), EditFault>
    requires { IsPlaceOf fields.now.layer layers.now place }
    ensures { (p : Page) → p.layers ≡ map parts_of layers.now → result ≡ test_of p (command.ReplaceItem fields.now) }
{
    let count = display::item_count(layers, fields.layer, place)?;
    require((fields.at as usize) < count, EditFault::BadPlace)?;
    is_item_rect(fields.item.rect())
}

impl LayerTree {
    pub(crate) fn insert_item(&mut self, fields: &InsertItem) -> Result<Changes, EditError>
        ensures { Tested self.old (command.InsertItem fields.now) self.new result }
    {
        let layers = self.layers.as_slice();
        let place = place_of(layers, fields.layer);
        may_insert_item(layers, place, fields)?;
        let changes = listing::inside(*self.layers.allocator(), fields.layer, fields.item.rect())?;
        let copy = fields.item.copy()?;
        let at = fields.at as usize;
        display::insert(&mut self.layers, fields.layer, place, at, copy)?;
        Ok(changes)
    }

    pub(crate) fn remove_item(&mut self, fields: &RemoveItem) -> Result<Changes, EditError>
        ensures { Tested self.old (command.RemoveItem fields.now) self.new result }
    {
        let layers = self.layers.as_slice();
        let place = place_of(layers, fields.layer);
        may_remove_item(layers, place, fields)?;
        let old = display::rect_at(layers, fields.layer, place, fields.at as usize);
        let changes = listing::inside_old(*self.layers.allocator(), fields.layer, old)?;
        display::remove(&mut self.layers, fields.layer, place, fields.at as usize)?;
        Ok(changes)
    }

    pub(crate) fn replace_item(&mut self, fields: &ReplaceItem) -> Result<Changes, EditError>
        ensures { Tested self.old (command.ReplaceItem fields.now) self.new result }
    {
        let layers = self.layers.as_slice();
        let place = place_of(layers, fields.layer);
        may_replace_item(layers, place, fields)?;
        let old = display::rect_at(layers, fields.layer, place, fields.at as usize);
        let changes = listing::inside_both(
            *self.layers.allocator(),
            fields.layer,
            fields.item.rect(),
            old,
        )?;
        let copy = fields.item.copy()?;
        let at = fields.at as usize;
        display::replace(&mut self.layers, fields.layer, place, at, copy)?;
        Ok(changes)
    }
}
