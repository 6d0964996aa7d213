//! How much of a scroll is accepted.

ghost use Rattle.std.specs.Prelude.{◌≡◌, ◌≤◌, ◌≤ℤ◌, ◌+ℤ◌, ◌-ℤ◌, ◌^◌, pos};
ghost use Rattle.model_states.specs.Bounds.{IsBounded};
ghost use Rattle.model_states.specs.Table.{active_value};
ghost use Rattle.page_layers.specs.Axes as axes;
ghost use Rattle.page_layers.specs.Scrolls.{clamp_to, IsInRange};
ghost use Rattle.page_layers.specs.Scrollers as scrollers;
ghost use Rattle.impl_scroll.specs.Rows as spec;
ghost use Rattle.impl_scroll.specs.inner.Axes.{axis_of};

use crate::axis::{Axis, values_of};
use crate::offsets::{clamped, most};
use crate::row::Row;
use geom::Point;
use page_layers::LayerTree;

// A number of a range, moved.
fn sum(at: i64, by: i32) -> i64
    requires low { pos 0 ≤ℤ at }
    requires high { at ≤ℤ pos (2 ^ 20) }
    ensures { result ≡ at +ℤ by }
{
    at + by as i64
}

// How far one number of a range is from another.
fn gap(to: i64, from: i64) -> i32
    requires low { pos 0 ≤ℤ to }
    requires high { to ≤ℤ pos (2 ^ 20) }
    requires from_low { pos 0 ≤ℤ from }
    requires from_high { from ≤ℤ pos (2 ^ 20) }
    ensures { result ≡ to -ℤ from }
{
    (to - from) as i32
}

// How far a number moves if this much is asked, in a range with this end.
fn moved_within(most: u32, at: i64, asked: i32) -> i32
    requires range { most ≤ 2 ^ 20 }
    requires low { pos 0 ≤ℤ at }
    requires high { at ≤ℤ pos (2 ^ 20) }
    ensures { result ≡ (clamp_to most (at +ℤ asked) -ℤ at) }
{
    gap(clamped(most, sum(at, asked)), at)
}

// How far a scroller of the page moves along an axis if this much is asked.
fn taken_along(page: &LayerTree, row: &Row, axis: Axis, asked: i32) -> i32
    requires bounded { IsBounded (spec.value_along (axis_of axis) row.now) }
    requires in_range { IsInRange (scrollers.most page.now row.now.scroller (axis_of axis)) (active_value (spec.value_along (axis_of axis) row.now)) }
    ensures { result ≡ (clamp_to (scrollers.most page.now row.now.scroller (axis_of axis)) (active_value (spec.value_along (axis_of axis) row.now) +ℤ asked) -ℤ active_value (spec.value_along (axis_of axis) row.now)) }
{
    let at = values_of(row, axis).active();
    moved_within(most(page, row.scroller, axis), at, asked)
}

/// How far a scroller with these values moves if this much is asked: as far as its range in the page
/// allows, and not at all if the page lacks it.
pub(crate) fn taken_by(page: &LayerTree, row: &Row, dx: i32, dy: i32) -> Point
    requires x_bounded { IsBounded row.now.x }
    requires y_bounded { IsBounded row.now.y }
    requires x_in_range { IsInRange (scrollers.most page.now row.now.scroller axes.across) (active_value row.now.x) }
    requires y_in_range { IsInRange (scrollers.most page.now row.now.scroller axes.down) (active_value row.now.y) }
    ensures x { result.x ≡ scrollers.amount_taken page.now (λ _ ax. active_value (spec.value_along ax row.now)) row.now.scroller axes.across dx }
    ensures y { result.y ≡ scrollers.amount_taken page.now (λ _ ax. active_value (spec.value_along ax row.now)) row.now.scroller axes.down dy }
{
    match page.props().scroller(row.scroller) {
        None => Point { x: 0, y: 0 },
        Some(_) => {
            let x = taken_along(page, row, Axis::Across, dx);
            let y = taken_along(page, row, Axis::Down, dy);
            Point { x, y }
        }
    }
}
