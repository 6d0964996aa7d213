//! Applying commands.

ghost use Rattle.page_layers.specs.Outcomes.{Outcome};
ghost use Rattle.page_layers.specs.inner.Tested.{Promised};

use super::LayerTree;
use crate::command::Command;
use crate::fault::EditError;
use region::Changes;

impl LayerTree {
    /// Applies a command, and answers which layers it changed.
    ///
    /// A layer that was added or resized is listed whole; a layer in which an item was inserted, removed or
    /// replaced is listed with the old and the new rect. The command is refused with the first fault, in the
    /// order of `EditFault`, that it has in this tree. After any error, out of memory included, the tree is
    /// as it was.
    pub fn apply(&mut self, command: &Command) -> Result<Changes, EditError>
        ensures { Outcome self.old command.now self.new result }
    {
        // This read tells the proof what the type keeps; it does nothing when it runs.
        let _ = &self.view;
        self.dispatch(command)
    }

    // Applies a command by the method of its name.
    fn dispatch(&mut self, command: &Command) -> Result<Changes, EditError>
        ensures { Promised self.old command.now self.new result }
    {
        match command {
            Command::AddTransform(fields) => self.add_transform(fields),
            Command::SetTransform(fields) => self.set_transform(fields),
            Command::AddClip(fields) => self.add_clip(fields),
            Command::SetClip(fields) => self.set_clip(fields),
            Command::AddEffect(fields) => self.add_effect(fields),
            Command::SetOpacity(fields) => self.set_opacity(fields),
            Command::AddScroller(fields) => self.add_scroller(fields),
            Command::SetRange(fields) => self.set_range(fields),
            Command::ScrollBy(fields) => self.scroll_by(fields),
            Command::ScrollTo(fields) => self.scroll_to(fields),
            Command::AddLayer(fields) => self.add_layer(fields),
            Command::RemoveLayer(fields) => self.remove_layer(fields),
            Command::ResizeLayer(fields) => self.resize_layer(fields),
            Command::SetColour(fields) => self.set_colour(fields),
            Command::InsertItem(fields) => self.insert_item(fields),
            Command::RemoveItem(fields) => self.remove_item(fields),
            Command::ReplaceItem(fields) => self.replace_item(fields),
            Command::MoveLayer(fields) => self.move_layer(fields),
            Command::SetView(fields) => self.set_view(fields),
        }
    }
}
