//! Where a bitmap goes.

ghost use Rattle.std.specs.Prelude.{◌≡◌};
ghost use Rattle.cc_c.specs.Commands as spec;

use crate::fields;
use geom::Rect;

/// The place of an item.
#[derive(Clone, Copy)]
pub struct ItemPlace {
    /// The layer.
    pub layer: u32,
    /// The place in its display list.
    pub at: u32,
    /// Where the item lies in the layer.
    pub rect: Rect,
}

/// Layer, at, and the rect.
#[tactic(auto, unfolding(crate::specs::Commands::item_place))]
pub(crate) fn item_place(numbers: &[i32]) -> Option<ItemPlace>
    ensures { result ≡ spec.item_place numbers.now }
{
    let layer = fields::whole(numbers, 0)?;
    let at = fields::whole(numbers, 1)?;
    let rect = fields::rect(numbers, 2)?;
    fields::no_more(numbers, 6)?;
    Some(ItemPlace { layer, at, rect })
}
