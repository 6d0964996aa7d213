//! The main thread's side of the compositor: a page as a tree of layers, the commands that change
//! it, and what it looks like.
#![tactic(auto)]

pub mod command;
mod display;
mod fault;
mod groups;
mod laws;
mod layer;
mod layers;
pub mod limits;
mod listing;
mod missing;
mod moves;
mod paint;
mod placed_layer;
mod scroll;
mod tree;
mod tree_paint;
mod value_offsets;
mod view;

pub use command::Command;
pub use fault::{EditError, EditFault};
pub use groups::groups_of;
pub use laws::{commands_keep_the_rest, targets_are_topmost};
pub use layer::Layer;
pub use layers::first_place;
pub use missing::place_at;
pub use moves::Move;
pub use paint::Group;
pub use placed_layer::{PlacedLayer, placed};
pub use tree::LayerTree;
pub use tree_paint::{Painting, paint_at};
pub use value_offsets::main_offsets;
pub use view::View;
