//! Steps that change the values of all scrollers.

ghost use Rattle.std.specs.Prelude.{◌≡◌, ℕ, map};
ghost use Rattle.page_layers.specs.Axes as axes;
ghost use Rattle.impl_scroll.specs.Rows.{row_value};
ghost use Rattle.impl_scroll.specs.inner.Axes.{axis_of};
ghost use Rattle.impl_scroll.specs.inner.Steps as spec;
ghost use Rattle.impl_scroll.specs.inner.Steps.{MayStep, row_stepped, AreRising};

use crate::axis::{Axis, amount_in, main_value};
use crate::row::Row;
use model_states::Synced;
use page_layers::{LayerTree, Move};

/// What an event does to the values of every scroller.
#[derive(Clone, Copy)]
pub(crate) enum ValueStep<'a> {
    /// The main side is told of what it has not heard of.
    Pull,
    /// The main values of this page become the pending bases.
    Push(&'a LayerTree),
    /// The pending bases become the active ones.
    Activate,
    /// What the main side was told of comes into both bases.
    Abort,
    /// These moves are added.
    Add(&'a [Move]),
}

// The values of a scroller along an axis, after a step.
fn stepped(step: ValueStep<'_>, scroller: u32, axis: Axis, value: Synced) -> Synced
    requires { MayStep step scroller (axis_of axis) value }
    ensures { result ≡ spec.stepped step.entry scroller (axis_of axis) value }
{
    let mut value = value;
    match step {
        ValueStep::Pull => {
            value.pull();
        }
        ValueStep::Push(page) => value.push_main(main_value(page, scroller, axis)),
        ValueStep::Activate => value.activate(),
        ValueStep::Abort => value.abort(),
        ValueStep::Add(moves) => value.add(amount_in(moves, scroller, axis)),
    }
    value
}

// A row after a step.
fn stepped_row(step: ValueStep<'_>, row: Row) -> Row
    requires x { MayStep step row.scroller axes.across row.x }
    requires y { MayStep step row.scroller axes.down row.y }
    ensures { result ≡ row_stepped step.entry row }
{
    Row {
        scroller: row.scroller,
        x: stepped(step, row.scroller, Axis::Across, row.x),
        y: stepped(step, row.scroller, Axis::Down, row.y),
    }
}

/// Steps the values of all scrollers that have a row.
pub(crate) fn step_all(rows: &mut Vec<Row>, step: ValueStep<'_>)
    requires rising { AreRising rows.old.items }
    requires may { (sc : ℕ) (ax : axes.Axis) → MayStep step sc ax (row_value rows.old.items sc ax) }
    ensures { rows.new.items ≡ map (row_stepped step.entry) rows.old.items }
{
    for i in 0..rows.len() {
        rows[i] = stepped_row(step, rows[i]);
    }
}
