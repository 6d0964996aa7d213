//! What the next `Send` and the next activation list.

ghost use Rattle.std.specs.Prelude.{◌≡◌, ◌++◌, ◌-ℤ◌, ℕ, cond, pos, FitsSigned, IfOk, OnOk};
ghost use mir.Syntax.{w64};
ghost use Rattle.std.specs.Ordering.{int_eq};
ghost use Rattle.model_states.specs.Bounds.{IsBounded};
ghost use Rattle.model_states.specs.Table as table;
ghost use Rattle.page_layers.specs.Axes as axes;
ghost use Rattle.page_layers.specs.Axes.{listed};
ghost use Rattle.page_layers.specs.Scrollers as scrollers;
ghost use Rattle.model_steps.specs.Standing as standing;
ghost use Rattle.impl_scroll.specs.Rows as spec;
ghost use Rattle.impl_scroll.specs.Rows.{row_value};
ghost use Rattle.impl_scroll.specs.inner.Axes.{axis_of};
ghost use Rattle.impl_scroll.specs.inner.Stages as stages;
ghost use Rattle.impl_scroll.specs.inner.Stages.{unless_still, clamp_at};
ghost use Rattle.impl_scroll.specs.inner.Steps.{AreRising, ids_of};

use crate::axis::{Axis, values_of};
use crate::offsets::{brought_to, is_among, most};
use crate::row::Row;
use model_history::Moves;
use model_states::Synced;
use page_layers::{LayerTree, Move};
use std::alloc::{AllocError, Global};

// Whether a number is 0.
fn is_zero(z: i64) -> bool
    ensures { result ≡ int_eq z (pos 0) }
{
    z == 0
}

/// Whether a move is one of (0, 0).
pub(crate) fn is_still(one: Move) -> bool
    ensures { result ≡ axes.is_still one }
{
    is_zero(one.dx) && is_zero(one.dy)
}

// Adds a move at the end if it is not one of (0, 0). An error means out of memory.
fn push_moving(moves: &mut Moves, one: Move) -> Result<(), AllocError>
    ensures { OnOk result (moves.new ≡ moves.old ++ unless_still one) }
{
    if is_still(one) {
        return Ok(());
    }
    match moves.push(one) {
        Ok(()) => Ok(()),
        Err((refused, _)) => Err(refused),
    }
}

// What the main side has not heard of.
fn unheard(value: Synced) -> i64
    requires { IsBounded value }
    ensures { result ≡ table.pull_answer value }
{
    value.active_delta - value.reflected_pending
}

// What the main side has not heard of a scroller.
fn unheard_move(row: &Row) -> Move
    requires x { IsBounded row.now.x }
    requires y { IsBounded row.now.y }
    ensures { result ≡ record { scroller = row.now.scroller; dx = table.pull_answer row.now.x; dy = table.pull_answer row.now.y } }
{
    let dx = unheard(row.x);
    let dy = unheard(row.y);
    Move {
        scroller: row.scroller,
        dx,
        dy,
    }
}

/// What the main side has not heard of each scroller. An error means out of memory.
pub(crate) fn unheard_moves(alloc: Global, rows: &[Row]) -> Result<Moves, AllocError>
    requires rising { AreRising rows.now }
    requires bounded { (sc : ℕ) (ax : axes.Axis) → IsBounded (row_value rows.now sc ax) }
    ensures { IfOk result (λ moves. moves ≡ listed (stages.unheard rows.now) (ids_of rows.now)) }
{
    let mut moves = Moves::new(alloc);
    for row in rows {
        push_moving(&mut moves, unheard_move(row))?;
    }
    Ok(moves)
}

// How far one number is from another.
fn gap(to: i64, from: i64) -> i64
    requires { FitsSigned w64 (to -ℤ from) }
    ensures { result ≡ to -ℤ from }
{
    to - from
}

// How far an activation moves a scroller of a page along an axis, whose commit sets these outright.
fn clamp_along(outright: &[u32], page: &LayerTree, row: &Row, axis: Axis) -> i64
    requires { IsBounded (spec.value_along (axis_of axis) row.now) }
    ensures { result ≡ (standing.brought_to (spec.has_number outright.now row.now.scroller) (scrollers.most page.now row.now.scroller (axis_of axis)) (spec.value_along (axis_of axis) row.now) -ℤ table.pending_value (spec.value_along (axis_of axis) row.now)) }
{
    let value = values_of(row, axis);
    let outright = is_among(outright, row.scroller);
    gap(
        brought_to(outright, most(page, row.scroller, axis), value),
        value.pending(),
    )
}

// How far an activation moves a scroller; not at all if the page lacks it.
fn clamp_move(outright: &[u32], page: &LayerTree, row: &Row) -> Move
    requires x { IsBounded row.now.x }
    requires y { IsBounded row.now.y }
    ensures { result ≡ axes.move_of (λ sc ax. cond (scrollers.has_scroller page.now sc) (standing.brought_to (spec.has_number outright.now sc) (scrollers.most page.now sc ax) (spec.value_along ax row.now) -ℤ table.pending_value (spec.value_along ax row.now)) (pos 0)) row.now.scroller }
{
    let scroller = row.scroller;
    match page.props().scroller(scroller) {
        None => Move {
            scroller,
            dx: 0,
            dy: 0,
        },
        Some(_) => {
            let dx = clamp_along(outright, page, row, Axis::Across);
            let dy = clamp_along(outright, page, row, Axis::Down);
            Move { scroller, dx, dy }
        }
    }
}

/// How far an activation of a page moves each of its scrollers, if its commit sets these outright. An
/// error means out of memory.
pub(crate) fn clamp_moves(
    alloc: Global,
    outright: &[u32],
    page: &LayerTree,
    rows: &[Row],
) -> Result<Moves, AllocError>
    requires rising { AreRising rows.now }
    requires bounded { (sc : ℕ) (ax : axes.Axis) → IsBounded (row_value rows.now sc ax) }
    ensures { IfOk result (λ moves. moves ≡ listed (clamp_at outright.now page.now rows.now) (ids_of rows.now)) }
{
    let mut moves = Moves::new(alloc);
    for row in rows {
        push_moving(&mut moves, clamp_move(outright, page, row))?;
    }
    Ok(moves)
}
