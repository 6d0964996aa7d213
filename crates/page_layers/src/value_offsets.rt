//! The main scroll values as offsets.

ghost use Rattle.std.specs.Prelude.{◌≡◌, ℕ, IfOk};
ghost use Rattle.page_properties.specs.OffsetMap.{offset_at, AreOffsets};
ghost use Rattle.page_layers.specs.Effects.{main_point};
ghost use Rattle.page_layers.specs.Scrolls.{or_origin};
ghost use Rattle.page_properties.specs.Entries.{find};

use crate::tree::LayerTree;
use geom::Point;
use page_properties::Offsets;
use std::alloc::{AllocError, Global};

// The points under these ids as offsets; of one id's, the first.
fn offsets_of(alloc: Global, values: &[(u32, Point)]) -> Result<Offsets, AllocError>
    ensures { IfOk result (λ offsets. (id : ℕ) → offset_at offsets id ≡ or_origin (find id values.now)) }
{
    let mut offsets = Offsets::new(alloc);
    let mut left = values.len();
    while left > 0 {
        let i = left - 1;
        offsets.set(values[i].0, values[i].1)?;
        left = i;
    }
    Ok(offsets)
}

/// The main scroll values of a tree as offsets: each scroller's own, and (0, 0) for what is no scroller
/// of the tree. An error means out of memory.
pub fn main_offsets(alloc: Global, tree: &LayerTree) -> Result<Offsets, AllocError>
    ensures values { IfOk result (λ offsets. (id : ℕ) → offset_at offsets id ≡ main_point tree.now id) }
    ensures in_range { IfOk result (λ offsets. AreOffsets (offset_at offsets)) }
{
    tree.is_page();
    offsets_of(alloc, tree.values())
}
