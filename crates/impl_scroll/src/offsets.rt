//! The offsets of a tree, by the values of all scrollers.

ghost use Rattle.std.specs.Prelude.{◌≡◌, ◌≤◌, ◌≤ℤ◌, ◌^◌, ℕ, pos, IfOk, Some};
ghost use Rattle.model_states.specs.Bounds.{IsBounded};
ghost use Rattle.page_properties.specs.OffsetMap.{offset_at, IsOffset, AreOffsets};
ghost use Rattle.page_layers.specs.Axes as axes;
ghost use Rattle.page_layers.specs.Scrolls.{clamp_to, IsInRange};
ghost use Rattle.page_layers.specs.Scrollers as scrollers;
ghost use Rattle.page_layers.specs.Scrollers.{offsets_in};
ghost use Rattle.model_steps.specs.Standing as standing;
ghost use Rattle.impl_scroll.specs.Rows as spec;
ghost use Rattle.impl_scroll.specs.Rows.{row_value};
ghost use Rattle.impl_scroll.specs.inner.Axes.{axis_of};
ghost use Rattle.impl_scroll.specs.inner.Stages.{stands_at};
ghost use Rattle.impl_scroll.specs.inner.Stages as stages;
ghost use Rattle.impl_scroll.specs.inner.Steps.{AreRising};

use crate::axis::{Axis, values_of};
use crate::row::Row;
use geom::Point;
use model_states::Synced;
use page_layers::LayerTree;
use page_properties::{Offsets, ScrollNode};
use std::alloc::{AllocError, Global};

/// Which tree a page is of.
#[derive(Clone, Copy)]
pub(crate) enum Stage<'a> {
    /// The tree that is drawn.
    Active,
    /// The tree that waits for its activation, whose commit sets these scrollers outright.
    Pending(&'a [u32]),
}

/// Whether a number is among others.
pub(crate) fn is_among(numbers: &[u32], number: u32) -> bool
    ensures { result ≡ spec.has_number numbers.now number }
{
    numbers.iter().any(|one| *one == number)
}

// The end of a range along an axis.
fn end_of(node: &ScrollNode, axis: Axis) -> u32
    requires across { node.now.max_x ≤ 2 ^ 20 }
    requires down { node.now.max_y ≤ 2 ^ 20 }
    ensures value { result ≡ scrollers.end_of (Some node.now) (axis_of axis) }
    ensures short { result ≤ 2 ^ 20 }
{
    match axis {
        Axis::Across => node.max_x,
        Axis::Down => node.max_y,
    }
}

/// The end of a scroller's range along an axis, at most 2^20; 0 if the page lacks it.
pub(crate) fn most(page: &LayerTree, scroller: u32, axis: Axis) -> u32
    ensures value { result ≡ scrollers.most page.now scroller (axis_of axis) }
    ensures short { result ≤ 2 ^ 20 }
{
    page.is_page();
    match page.props().scroller(scroller) {
        Some(node) => end_of(node, axis),
        None => 0,
    }
}

/// A number clamped to a range from 0 to its end.
#[tactic(auto, unfolding(page_layers::specs::Scrolls::clamp_to))]
pub(crate) fn clamped(most: u32, value: i64) -> i64
    requires { most ≤ 2 ^ 20 }
    ensures value { result ≡ clamp_to most value }
    ensures low { pos 0 ≤ℤ result }
    ensures high { result ≤ℤ pos (2 ^ 20) }
{
    value.min(most as i64).max(0)
}

/// Where a scroller with these values stands in a pending page, whose range for it ends so: at its pending
/// base if the commit sets it outright, else at its pending value, clamped to the range.
pub(crate) fn brought_to(outright: bool, most: u32, value: Synced) -> i64
    requires bounded { IsBounded value }
    requires range { most ≤ 2 ^ 20 }
    ensures { result ≡ standing.brought_to outright most value }
{
    if outright {
        value.pending_base
    } else {
        clamped(most, value.pending())
    }
}

// Where a scroller stands in a page.
fn value_in(stage: Stage<'_>, page: &LayerTree, scroller: u32, axis: Axis, value: Synced) -> i64
    requires bounded { IsBounded value }
    ensures { result ≡ stages.value_in stage.entry page.now scroller (axis_of axis) value }
{
    match stage {
        Stage::Active => value.active(),
        Stage::Pending(outright) => {
            let outright = is_among(outright, scroller);
            brought_to(outright, most(page, scroller, axis), value)
        }
    }
}

// A coordinate in 32 bits.
fn place(value: i64) -> i32
    requires low { pos 0 ≤ℤ value }
    requires high { value ≤ℤ pos (2 ^ 20) }
    ensures { result ≡ value }
{
    value as i32
}

// Where a scroller stands in a page along an axis, in its range there.
fn place_in(stage: Stage<'_>, page: &LayerTree, row: &Row, axis: Axis) -> i32
    requires bounded { IsBounded (spec.value_along (axis_of axis) row.now) }
    requires in_range { IsInRange (scrollers.most page.now row.now.scroller (axis_of axis)) (stages.value_in stage page.now row.now.scroller (axis_of axis) (spec.value_along (axis_of axis) row.now)) }
    ensures value { result ≡ stages.value_in stage.entry page.now row.now.scroller (axis_of axis) (spec.value_along (axis_of axis) row.now) }
    ensures low { pos 0 ≤ℤ result }
    ensures high { result ≤ℤ pos (2 ^ 20) }
{
    place(value_in(stage, page, row.scroller, axis, values_of(row, axis)))
}

// Where a scroller stands in a page.
fn point_in(stage: Stage<'_>, page: &LayerTree, row: &Row) -> Point
    requires x_bounded { IsBounded row.now.x }
    requires y_bounded { IsBounded row.now.y }
    requires x_in_range { IsInRange (scrollers.most page.now row.now.scroller axes.across) (stages.value_in stage page.now row.now.scroller axes.across row.now.x) }
    requires y_in_range { IsInRange (scrollers.most page.now row.now.scroller axes.down) (stages.value_in stage page.now row.now.scroller axes.down row.now.y) }
    ensures value { result ≡ record { x = stages.value_in stage.entry page.now row.now.scroller axes.across row.now.x; y = stages.value_in stage.entry page.now row.now.scroller axes.down row.now.y } }
    ensures in_range { IsOffset result }
{
    let x = place_in(stage, page, row, Axis::Across);
    let y = place_in(stage, page, row, Axis::Down);
    Point { x, y }
}

/// The offsets of a page: its scrollers stand where their values say, all others at (0, 0). An error means
/// out of memory.
pub(crate) fn offsets_of(
    alloc: Global,
    stage: Stage<'_>,
    page: &LayerTree,
    rows: &[Row],
) -> Result<Offsets, AllocError>
    requires rising { AreRising rows.now }
    requires bounded { (sc : ℕ) (ax : axes.Axis) → IsBounded (row_value rows.now sc ax) }
    requires in_range { (sc : ℕ) (ax : axes.Axis) → IsInRange (scrollers.most page.now sc ax) (stands_at stage page.now rows.now sc ax) }
    ensures value { IfOk result (λ offsets. (sc : ℕ) → offset_at offsets sc ≡ offsets_in page.now (stands_at stage.entry page.now rows.now) sc) }
    ensures in_range { IfOk result (λ offsets. AreOffsets (offset_at offsets)) }
{
    let mut offsets = Offsets::new(alloc);
    for row in rows {
        offsets.set(row.scroller, point_in(stage, page, row))?;
    }
    Ok(offsets)
}
