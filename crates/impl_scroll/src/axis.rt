//! The two axes.

ghost use Rattle.std.specs.Prelude.{◌≡◌};
ghost use Rattle.page_layers.specs.Axes as axes;
ghost use Rattle.page_layers.specs.Scrollers as scrollers;
ghost use Rattle.impl_scroll.specs.Rows as rows;
ghost use Rattle.impl_scroll.specs.inner.Axes.{axis_of};
ghost use Rattle.model_states.specs.Bounds.{IsBoundedNumber};

use crate::row::Row;
use geom::Point;
use model_states::Synced;
use page_layers::{LayerTree, Move};

/// An axis.
#[derive(Clone, Copy)]
pub(crate) enum Axis {
    /// To the right.
    Across,
    /// Downwards.
    Down,
}

// A move along an axis.
fn amount(one: Move, axis: Axis) -> i64
    ensures { result ≡ axes.amount (axis_of axis) one }
{
    match axis {
        Axis::Across => one.dx,
        Axis::Down => one.dy,
    }
}

/// How much some moves have for a scroller along an axis; 0 if they do not name it.
pub(crate) fn amount_in(moves: &[Move], scroller: u32, axis: Axis) -> i64
    ensures { result ≡ axes.amount_in scroller (axis_of axis) moves.now }
{
    for one in moves {
        if one.scroller == scroller {
            return amount(*one, axis);
        }
    }
    0
}

// A point along an axis.
fn along(at: Point, axis: Axis) -> i32
    ensures { result ≡ axes.along (axis_of axis) at }
{
    match axis {
        Axis::Across => at.x,
        Axis::Down => at.y,
    }
}

/// The main value of a scroller of a page along an axis.
pub(crate) fn main_value(page: &LayerTree, scroller: u32, axis: Axis) -> i64
    ensures value { result ≡ scrollers.main_value page.now scroller (axis_of axis) }
    ensures bounded { IsBoundedNumber result }
{
    along(page.value(scroller), axis) as i64
}

/// The values of a row along an axis.
pub(crate) fn values_of(row: &Row, axis: Axis) -> Synced
    ensures { result ≡ rows.value_along (axis_of axis) row.now }
{
    match axis {
        Axis::Across => row.x,
        Axis::Down => row.y,
    }
}
