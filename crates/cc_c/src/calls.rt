//! What the calls of C do to a compositor, with what they answer.

ghost use Rattle.std.specs.Prelude.{◌≡◌, ◌≤◌, true, false, IfSome};
ghost use Rattle.page_layers.specs.Pages.{IsView};
ghost use Rattle.page_hit_test.specs.Wheels.{IsAmount};
ghost use Rattle.cc_c.specs.Answers.{IsNew, TellsReset, TellsCommit, TellsDraw, TellsScroll, TellsWheel, TellsTarget, TellsCopy};

use crate::copying::copied;
use crate::held::Held;
use crate::status::{BAD, DONE, MEMORY, SHORT, UNKNOWN};
use cc::Compositor;
use geom::Point;
use page_layers::View;
use pixel::Colour;
use std::alloc::Global;
use viz_canvas::{Canvas, Rgba};

// Whether a number is in a range.
fn is_within(n: u32, low: u32, high: u32) -> bool
    ensures yes { result ≡ true → (low ≤ n) × (n ≤ high) }
    ensures no { result ≡ false → low ≤ n → n ≤ high → ⊥ }
{
    low <= n && n <= high
}

/// Whether a view is in its ranges: sides of 1 to 2048, and tiles of 16 to 256.
pub(crate) fn is_view(view: View) -> bool
    ensures yes { result ≡ true → IsView view }
    ensures no { result ≡ false → IsView view → ⊥ }
{
    if !is_within(view.w, 1, 2048) {
        return false;
    }
    if !is_within(view.h, 1, 2048) {
        return false;
    }
    is_within(view.tile, 16, 256)
}

/// A compositor of an empty page, in memory of its own; None only if memory ran out.
pub(crate) fn made(
    alloc: Global,
    view: View,
    background: Colour,
    budget: usize,
) -> Option<Box<Held>>
    requires { IsView view }
    ensures { IfSome result (λ held. IsNew view background held.value.compositor) }
{
    let Ok(compositor) = Compositor::new(alloc, view, background, budget) else {
        return None;
    };
    Box::new(alloc, Held { compositor }).ok()
}

/// Starts the main page anew, if the view is in its ranges.
pub(crate) fn renewed(page: &mut Compositor<Rgba>, view: View) -> u32
    ensures { TellsReset page.old view page.new result }
{
    if !is_view(view) {
        return BAD;
    }
    page.reset(view);
    DONE
}

/// Makes the main page the active one.
pub(crate) fn committed(page: &mut Compositor<Rgba>) -> u32
    ensures { TellsCommit page.old page.new result }
{
    match page.commit() {
        Ok(()) => DONE,
        Err(_) => MEMORY,
    }
}

/// Scrolls, and tells how far.
pub(crate) fn scrolled(
    page: &mut Compositor<Rgba>,
    scroller: u32,
    dx: i32,
    dy: i32,
    by_x: &mut i32,
    by_y: &mut i32,
) -> u32
    ensures { TellsScroll page.old scroller dx dy (record { x = by_x.old; y = by_y.old }) (record { x = by_x.new; y = by_y.new }) page.new result }
{
    match page.scroll(scroller, dx, dy) {
        Some(by) => {
            *by_x = by.x;
            *by_y = by.y;
            DONE
        }
        None => UNKNOWN,
    }
}

// Whether this much may be asked of a wheel along an axis.
fn is_amount(asked: i32) -> bool
    ensures yes { result ≡ true → IsAmount asked }
    ensures no { result ≡ false → IsAmount asked → ⊥ }
{
    asked >= -1048576 && asked <= 1048576
}

// Whether this much may be asked of a wheel along both axes.
fn are_amounts(asked: Point) -> bool
    ensures x { result ≡ true → IsAmount asked.x }
    ensures y { result ≡ true → IsAmount asked.y }
    ensures no { result ≡ false → IsAmount asked.x → IsAmount asked.y → ⊥ }
{
    if !is_amount(asked.x) {
        return false;
    }
    is_amount(asked.y)
}

/// Scrolls what lies under a point, and tells what is left.
pub(crate) fn wheeled(
    page: &mut Compositor<Rgba>,
    at: Point,
    asked: Point,
    rest_x: &mut i32,
    rest_y: &mut i32,
) -> u32
    ensures { TellsWheel page.old at asked (record { x = rest_x.old; y = rest_y.old }) (record { x = rest_x.new; y = rest_y.new }) page.new result }
{
    if !are_amounts(asked) {
        return BAD;
    }
    match page.wheel(at, asked) {
        Ok(wheel) => {
            *rest_x = wheel.rest.x;
            *rest_y = wheel.rest.y;
            DONE
        }
        Err(_) => MEMORY,
    }
}

/// Tells the topmost layer at a point.
pub(crate) fn targeted(page: &Compositor<Rgba>, at: Point, layer: &mut u32) -> u32
    ensures { TellsTarget page.now at layer.old layer.new result }
{
    match page.target(at) {
        Ok(id) => {
            *layer = id;
            DONE
        }
        Err(_) => MEMORY,
    }
}

/// Draws, and tells the rows that may have changed.
pub(crate) fn drawn(page: &mut Compositor<Rgba>, top: &mut u32, bottom: &mut u32) -> u32
    ensures { TellsDraw page.old (record { top = top.old; bottom = bottom.old }) (record { top = top.new; bottom = bottom.new }) page.new result }
{
    match page.draw() {
        Ok(rows) => {
            *top = rows.top;
            *bottom = rows.bottom;
            DONE
        }
        Err(_) => MEMORY,
    }
}

/// Copies rows of a frame: an `order` of 0 takes red, green, blue and alpha, one of 1 exchanges red and blue.
pub(crate) fn rows_copied(
    frame: &Canvas<Rgba>,
    order: u32,
    top: u32,
    bottom: u32,
    stride: usize,
    to: &mut [u8],
) -> u32
    ensures { TellsCopy frame.now order top bottom stride to.old to.new result }
{
    if order > 1 {
        return BAD;
    }
    if bottom < top {
        return BAD;
    }
    match copied(frame, order == 1, top, bottom, stride, to) {
        true => DONE,
        false => SHORT,
    }
}
