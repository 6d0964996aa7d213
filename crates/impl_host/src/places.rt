//! The place of a layer in a tree.

ghost use Rattle.std.specs.Prelude.{map};
ghost use Rattle.page_layers.specs.Layers.{parts_of};
ghost use Rattle.impl_host.specs.inner.Steps.{StandsAt};

use page_layers::{Layer, first_place};

/// The place of the layer with this id.
pub(crate) fn place_of(layers: &[Layer], id: u32) -> Option<usize>
    ensures { StandsAt id (map parts_of layers.now) result }
{
    first_place(layers, id)
}
