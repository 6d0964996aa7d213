//! The head of a script: what holds for the whole run.

ghost use Rattle.std.specs.Prelude.{◌≡◌, map};
ghost use Rattle.model_history.specs.Scripts.{script_of};
ghost use Rattle.script_json.specs.Reading.{with_lists};

use model_history::{Input, ScriptParts};
use page_layers::Command;
use pixel::Colour;
use script_fields::forms::Sides;
use tile_priority::TreePriority;

/// The first nine fields of the top object.
#[derive(Clone, Copy)]
pub(crate) struct Head {
    pub(crate) version: u32,
    pub(crate) viewport: Sides,
    pub(crate) tile: u32,
    pub(crate) background: Colour,
    pub(crate) budget: u32,
    pub(crate) raster_per_frame: u32,
    pub(crate) soon: u32,
    pub(crate) eventually: u32,
    pub(crate) priority: TreePriority,
}

impl Head {
    /// The script of this head, these main frames and these inputs.
    pub(crate) fn with_lists(self, main: Vec<Vec<Command>>, inputs: Vec<Input>) -> ScriptParts
        ensures { script_of result ≡ with_lists self (map (λ frame. frame.items) main.items) inputs.items }
    {
        ScriptParts {
            version: self.version,
            viewport_w: self.viewport.w,
            viewport_h: self.viewport.h,
            tile: self.tile,
            background: self.background,
            budget: self.budget,
            raster_per_frame: self.raster_per_frame,
            soon: self.soon,
            eventually: self.eventually,
            priority: self.priority,
            main,
            inputs,
        }
    }
}
