//! The limits of a page, and the tests of a command's values.

ghost use Rattle.std.specs.Prelude.{◌≡◌};
ghost use Rattle.page_layers.specs.Tests as spec;
ghost use Rattle.page_layers.specs.Refusals as refusals;

use crate::fault::EditFault;
use geom::Rect;

/// The greatest id of a layer or a node.
pub const MAX_ID: i64 = 65535;
/// How many nodes a family of a property tree has at most.
pub const MAX_NODES: u32 = 256;
/// How many layers a page has at most.
pub const MAX_LAYERS: u32 = 64;
/// How many items a display list has at most.
pub const MAX_ITEMS: u32 = 256;
/// The longest side of a layer in pixels, and how far from its origin an item may lie.
pub const MAX_SIDE: i64 = 16384;
/// The longest side of a viewport in pixels.
pub const MAX_VIEWPORT: i64 = 2048;
/// The shortest side of a tile in pixels.
pub const MIN_TILE: i64 = 16;
/// The longest side of a tile in pixels.
pub const MAX_TILE: i64 = 256;
/// How far a transform moves at most along an axis, and how far from the origin a clip lies at most, in
/// pixels.
pub const MAX_OFFSET: i64 = 65536;
/// The greatest end of a scroll range, and how far one scroll goes at most, in pixels.
pub const MAX_SCROLL: i64 = 1048576;

/// Passes if the condition holds, else answers the fault.
pub(crate) fn require(condition: bool, fault: EditFault) -> Result<(), EditFault>
    ensures { result ≡ spec.require condition fault }
{
    if condition { Ok(()) } else { Err(fault) }
}

/// Passes if the value lies in the range, else answers it with the end that it passes.
#[tactic(auto, unfolding(crate::specs::Tests::check_range))]
pub(crate) fn in_range(value: i64, low: i64, high: i64) -> Result<(), EditFault>
    ensures { result ≡ spec.check_range value low high }
{
    if value < low {
        return Err(EditFault::OutOfRange { value, limit: low });
    }
    if high < value {
        return Err(EditFault::OutOfRange { value, limit: high });
    }
    Ok(())
}

#[tactic(auto, unfolding(crate::specs::Tests::is_id))]
pub(crate) fn is_id(id: u32) -> Result<(), EditFault>
    ensures { result ≡ spec.is_id id }
{
    in_range(id as i64, 1, MAX_ID)
}

#[tactic(auto, unfolding(crate::specs::Tests::is_size))]
pub(crate) fn is_size(w: u32, h: u32) -> Result<(), EditFault>
    ensures { result ≡ spec.is_size w h }
{
    in_range(w as i64, 1, MAX_SIDE)?;
    in_range(h as i64, 1, MAX_SIDE)
}

#[tactic(auto, unfolding(crate::specs::Refusals::is_offset))]
pub(crate) fn is_offset(x: i32, y: i32) -> Result<(), EditFault>
    ensures { result ≡ refusals.is_offset x y }
{
    in_range(x as i64, -MAX_OFFSET, MAX_OFFSET)?;
    in_range(y as i64, -MAX_OFFSET, MAX_OFFSET)
}

#[tactic(auto, unfolding(crate::specs::Refusals::is_clip_rect))]
pub(crate) fn is_clip_rect(rect: Rect) -> Result<(), EditFault>
    ensures { result ≡ refusals.is_clip_rect rect }
{
    in_range(rect.x as i64, -MAX_OFFSET, MAX_OFFSET)?;
    in_range(rect.y as i64, -MAX_OFFSET, MAX_OFFSET)?;
    in_range(rect.w as i64, 0, MAX_OFFSET)?;
    in_range(rect.h as i64, 0, MAX_OFFSET)
}

#[tactic(auto, unfolding(crate::specs::Refusals::is_item_rect))]
pub(crate) fn is_item_rect(rect: Rect) -> Result<(), EditFault>
    ensures { result ≡ refusals.is_item_rect rect }
{
    in_range(rect.x as i64, -MAX_SIDE, MAX_SIDE)?;
    in_range(rect.y as i64, -MAX_SIDE, MAX_SIDE)?;
    in_range(rect.w as i64, 1, MAX_SIDE)?;
    in_range(rect.h as i64, 1, MAX_SIDE)
}

#[tactic(auto, unfolding(crate::specs::Refusals::is_scroll_range))]
pub(crate) fn is_scroll_range(x: u32, y: u32) -> Result<(), EditFault>
    ensures { result ≡ refusals.is_scroll_range x y }
{
    in_range(x as i64, 0, MAX_SCROLL)?;
    in_range(y as i64, 0, MAX_SCROLL)
}

#[tactic(auto, unfolding(crate::specs::Refusals::check_scroll))]
pub(crate) fn is_scroll(dx: i32, dy: i32) -> Result<(), EditFault>
    ensures { result ≡ refusals.check_scroll dx dy }
{
    in_range(dx as i64, -MAX_SCROLL, MAX_SCROLL)?;
    in_range(dy as i64, -MAX_SCROLL, MAX_SCROLL)
}
