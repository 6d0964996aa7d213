//! The offsets of both pages, by the values of the scrollers.

ghost use Rattle.std.specs.Prelude.{◌≡◌, ℕ, IfOk, option_copied};
ghost use Rattle.model_states.specs.Bounds.{IsBounded};
ghost use Rattle.page_properties.specs.OffsetMap.{offset_at, AreOffsets};
ghost use Rattle.page_layers.specs.Axes.{Axis};
ghost use Rattle.page_properties.specs.OffsetMap.{origin};
ghost use Rattle.impl_scroll.specs.Rows.{row_value};
ghost use Rattle.impl_scroll.specs.inner.Places.{at_active, at_pending, offsets_where, AreInRange};

use crate::ScrollValues;
use page_layers::LayerTree;
use page_properties::Offsets;
use std::alloc::{AllocError, Global};

/// No offsets: each is (0, 0).
pub(crate) fn none(alloc: Global) -> Offsets
    ensures value { (sc : ℕ) → offset_at result sc ≡ origin }
    ensures in_range { AreOffsets (offset_at result) }
{
    Offsets::new(alloc)
}

/// The offsets of the active page; each is (0, 0) if there is none. An error means out of memory.
pub(crate) fn active_offsets(
    alloc: Global,
    rows: &ScrollValues,
    page: Option<&LayerTree>,
) -> Result<Offsets, AllocError>
    requires bounded { (sc : ℕ) (ax : Axis) → IsBounded (row_value rows.now sc ax) }
    requires in_range { AreInRange (at_active rows.now) (option_copied page) }
    ensures value { IfOk result (λ offsets. (sc : ℕ) → offset_at offsets sc ≡ offsets_where (at_active rows.now) (option_copied page.entry) sc) }
    ensures in_range { IfOk result (λ offsets. AreOffsets (offset_at offsets)) }
{
    match page {
        None => Ok(none(alloc)),
        Some(page) => rows.active_offsets(alloc, page),
    }
}

/// The offsets of the pending page, whose commit sets these scrollers outright; each is (0, 0) if there
/// is none. An error means out of memory.
pub(crate) fn pending_offsets(
    alloc: Global,
    rows: &ScrollValues,
    page: Option<&LayerTree>,
    outright: &[u32],
) -> Result<Offsets, AllocError>
    requires bounded { (sc : ℕ) (ax : Axis) → IsBounded (row_value rows.now sc ax) }
    requires in_range { AreInRange (at_pending outright.now rows.now) (option_copied page) }
    ensures value { IfOk result (λ offsets. (sc : ℕ) → offset_at offsets sc ≡ offsets_where (at_pending outright.now rows.now) (option_copied page.entry) sc) }
    ensures in_range { IfOk result (λ offsets. AreOffsets (offset_at offsets)) }
{
    match page {
        None => Ok(none(alloc)),
        Some(page) => rows.pending_offsets(alloc, page, outright),
    }
}
