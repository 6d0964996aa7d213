//! The data of a plan.

use crate::input::Input;
use ghost_list::GhostList;
use page_layers::Command;
use pixel::Colour;
use tile_priority::TreePriority;

/// What is kept of a script: its numbers, as in [`ScriptParts`](crate::ScriptParts), and how long its lists are. What
/// these hold is for clauses alone.
pub(crate) struct PlanParts {
    pub(crate) version: u32,
    pub(crate) viewport_w: u32,
    pub(crate) viewport_h: u32,
    pub(crate) tile: u32,
    pub(crate) background: Colour,
    pub(crate) budget: u32,
    pub(crate) raster_per_frame: u32,
    pub(crate) soon: u32,
    pub(crate) eventually: u32,
    pub(crate) priority: TreePriority,
    // How many main frames there are, and the commands of each.
    pub(crate) frame_count: u32,
    pub(crate) main: GhostList<Vec<Command>>,
    // How many inputs there are, and these.
    pub(crate) input_count: u32,
    pub(crate) inputs: GhostList<Input>,
}

// Written out, since a derived drop is proved anew, field by field, in each function that lets one go.
impl Drop for PlanParts {
    fn drop(self) {
        let PlanParts {
            version: _,
            viewport_w: _,
            viewport_h: _,
            tile: _,
            background: _,
            budget: _,
            raster_per_frame: _,
            soon: _,
            eventually: _,
            priority: _,
            frame_count: _,
            main: _,
            input_count: _,
            inputs: _,
        } = self;
    }
}
