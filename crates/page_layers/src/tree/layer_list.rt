//! Commands on the list of layers.

ghost use Rattle.std.specs.Prelude.{◌≡◌, ◌<◌};
ghost use Rattle.page_layers.specs.declared.command.Command.TheVariants as command;
ghost use Rattle.page_layers.specs.Refusals.{test_of};
ghost use Rattle.page_layers.specs.inner.Tested.{Tested};

use super::LayerTree;
use crate::command::{RemoveLayer, ResizeLayer, SetColour, SetView};
use crate::fault::{EditError, EditFault};
use crate::limits::{MAX_TILE, MAX_VIEWPORT, MIN_TILE, in_range, is_size, require};
use crate::view::View;
use crate::{layers, listing};
use region::Changes;

impl LayerTree {
    #[tactic(auto, unfolding(crate::specs::Refusals::test_of))]
    fn may_remove_layer(&self, fields: &RemoveLayer) -> Result<(), EditFault>
        ensures { result ≡ test_of self.now (command.RemoveLayer fields.now) }
    {
        require(
            layers::has_layer(self.layers.as_slice(), fields.id),
            EditFault::UnknownId,
        )
    }

    pub(crate) fn remove_layer(&mut self, fields: &RemoveLayer) -> Result<Changes, EditError>
        ensures { Tested self.old (command.RemoveLayer fields.now) self.new result }
    {
        self.may_remove_layer(fields)?;
        layers::remove(&mut self.layers, fields.id);
        Ok(self.unlisted())
    }

    #[tactic(auto, unfolding(crate::specs::Refusals::test_of))]
    fn may_resize_layer(&self, fields: &ResizeLayer) -> Result<(), EditFault>
        ensures { result ≡ test_of self.now (command.ResizeLayer fields.now) }
    {
        require(
            layers::has_layer(self.layers.as_slice(), fields.id),
            EditFault::UnknownId,
        )?;
        is_size(fields.w, fields.h)
    }

    pub(crate) fn resize_layer(&mut self, fields: &ResizeLayer) -> Result<Changes, EditError>
        ensures { Tested self.old (command.ResizeLayer fields.now) self.new result }
    {
        self.may_resize_layer(fields)?;
        let changes = listing::whole(*self.layers.allocator(), fields.id)?;
        layers::resize(&mut self.layers, fields.id, fields.w, fields.h);
        Ok(changes)
    }

    #[tactic(auto, unfolding(crate::specs::Refusals::test_of))]
    fn may_set_colour(&self, fields: &SetColour) -> Result<(), EditFault>
        ensures { result ≡ test_of self.now (command.SetColour fields.now) }
    {
        require(
            layers::has_layer(self.layers.as_slice(), fields.id),
            EditFault::UnknownId,
        )
    }

    pub(crate) fn set_colour(&mut self, fields: &SetColour) -> Result<Changes, EditError>
        ensures { Tested self.old (command.SetColour fields.now) self.new result }
    {
        self.may_set_colour(fields)?;
        layers::recolour(&mut self.layers, fields.id, fields.colour);
        Ok(self.unlisted())
    }

    #[tactic(auto, unfolding(crate::specs::Refusals::test_of))]
    fn may_set_view(&self, fields: &SetView) -> Result<(), EditFault>
        ensures { result ≡ test_of self.now (command.SetView fields.now) }
    {
        in_range(fields.w as i64, 1, MAX_VIEWPORT)?;
        in_range(fields.h as i64, 1, MAX_VIEWPORT)?;
        in_range(fields.tile as i64, MIN_TILE, MAX_TILE)
    }

    pub(crate) fn set_view(&mut self, fields: &SetView) -> Result<Changes, EditError>
        ensures { Tested self.old (command.SetView fields.now) self.new result }
    {
        self.may_set_view(fields)?;
        let mut changes = self.unlisted();
        if fields.tile != self.view.tile {
            changes.mark_retiled();
        }
        self.view = View {
            w: fields.w,
            h: fields.h,
            tile: fields.tile,
        };
        Ok(changes)
    }
}
