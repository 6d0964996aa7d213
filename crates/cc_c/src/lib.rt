//! The compositor as a library for C. Its header is `include/cc.h`.
//!
//! C keeps a handle, which is a pointer, and lends it to one call at a time. A call takes the compositor out of the
//! handle, makes one call of it, and puts it back; `handle` says what the pointer owns meanwhile. What a call did is
//! told by a status. Commands come as numbers and bytes, and `meaning` says what they mean.
#![tactic(auto)]

mod bad_numbers;
mod box_parts;
mod calls;
mod commands;
mod copying;
mod damage;
mod edits;
mod exchange;
mod failure;
mod fault;
mod fields;
mod handle;
mod held;
mod items;
mod meaning;
mod status;

ghost use Rattle.std.specs.Prelude.{◌≡◌, ⊤, length, None};
ghost use Rattle.cc.specs.Compositors.{offsets};
ghost use Rattle.cc_c.specs.Damages.{damage_of, written};
ghost use Rattle.cc_c.specs.Edits.{TellsEdit};
ghost use Rattle.cc_c.specs.Answers.{TellsReset, TellsCommit, TellsDraw, TellsCopy, TellsScroll, TellsWheel, TellsTarget, TellsChanged};
ghost use Rattle.cc_c.specs.Calls.{OnHandle, TellsNew};

use crate::calls::{
    committed, drawn, is_view, made, renewed, rows_copied, scrolled, targeted, wheeled,
};
use crate::damage::{DamageRect, told_damage};
use crate::edits::edited;
use crate::fault::Fault;
use crate::fields::colour_of;
use crate::handle::Handle;
use crate::status::{BAD, DONE, MEMORY, NONE, TAKEN};
use geom::Point;
use page_layers::View;
use std::alloc::Global;

/// The version of this interface: the soname's number.
#[unsafe(no_mangle)]
pub extern "C" fn cc_version() -> u32
    ensures { result ≡ 2 }
{
    2
}

/// Makes a compositor of an empty page: BAD if the view is out of its ranges or the background is not premultiplied,
/// TAKEN if the handle has a compositor already.
#[unsafe(no_mangle)]
pub extern "C" fn cc_new(
    alloc: Global,
    page: &mut Handle,
    w: u32,
    h: u32,
    tile: u32,
    rgba: u32,
    budget: usize,
) -> u32
    ensures { TellsNew page.old.value (record { w = w; h = h; tile = tile }) rgba page.new.value result }
{
    if let Some(held) = page.take(alloc) {
        page.put(held);
        return TAKEN;
    }
    let view = View { w, h, tile };
    let Some(background) = colour_of(rgba) else {
        return BAD;
    };
    if !is_view(view) {
        return BAD;
    }
    match made(alloc, view, background, budget) {
        Some(held) => {
            page.put(held);
            DONE
        }
        None => MEMORY,
    }
}

/// Ends a compositor; nothing is done if there is none.
#[unsafe(no_mangle)]
pub extern "C" fn cc_free(alloc: Global, page: &mut Handle)
    ensures { page.new.value ≡ None }
{
    drop(page.take(alloc));
}

/// Starts the main page anew: BAD if the view is out of its ranges.
#[unsafe(no_mangle)]
pub extern "C" fn cc_reset(alloc: Global, page: &mut Handle, w: u32, h: u32, tile: u32) -> u32
    ensures { OnHandle page.old.value page.new.value result ⊤ (λ old new. TellsReset old (record { w = w; h = h; tile = tile }) new result) }
{
    let Some(mut held) = page.take(alloc) else {
        return NONE;
    };
    let status = renewed(&mut held.compositor, View { w, h, tile });
    page.put(held);
    status
}

/// Applies the command with this number, these fields, this colour and these pixels: BAD if they mean none, REFUSED
/// if the page refuses it. Both tell why.
#[unsafe(no_mangle)]
pub extern "C" fn cc_edit(
    alloc: Global,
    page: &mut Handle,
    op: u32,
    fields: &[i32],
    rgba: u32,
    pixels: &[u8],
    fault: &mut Fault,
) -> u32
    ensures { OnHandle page.old.value page.new.value result (fault.new ≡ fault.old) (λ old new. TellsEdit old op fields.now rgba pixels.now fault.old fault.new new result) }
{
    let Some(mut held) = page.take(alloc) else {
        return NONE;
    };
    let status = edited(alloc, &mut held.compositor, op, fields, rgba, pixels, fault);
    page.put(held);
    status
}

/// Shows what the commands made of the main page.
#[unsafe(no_mangle)]
pub extern "C" fn cc_commit(alloc: Global, page: &mut Handle) -> u32
    ensures { OnHandle page.old.value page.new.value result ⊤ (λ old new. TellsCommit old new result) }
{
    let Some(mut held) = page.take(alloc) else {
        return NONE;
    };
    let status = committed(&mut held.compositor);
    page.put(held);
    status
}

/// Scrolls, and tells how far: UNKNOWN if the active page has no such scroller.
#[unsafe(no_mangle)]
pub extern "C" fn cc_scroll(
    alloc: Global,
    page: &mut Handle,
    scroller: u32,
    dx: i32,
    dy: i32,
    by_x: &mut i32,
    by_y: &mut i32,
) -> u32
    ensures { OnHandle page.old.value page.new.value result ((by_x.new ≡ by_x.old) × (by_y.new ≡ by_y.old)) (λ old new. TellsScroll old scroller dx dy (record { x = by_x.old; y = by_y.old }) (record { x = by_x.new; y = by_y.new }) new result) }
{
    let Some(mut held) = page.take(alloc) else {
        return NONE;
    };
    let status = scrolled(&mut held.compositor, scroller, dx, dy, by_x, by_y);
    page.put(held);
    status
}

/// Scrolls what lies under a point, and tells what is left: BAD if more than 1048576 is asked along an axis.
#[unsafe(no_mangle)]
pub extern "C" fn cc_wheel(
    alloc: Global,
    page: &mut Handle,
    x: i32,
    y: i32,
    dx: i32,
    dy: i32,
    rest_x: &mut i32,
    rest_y: &mut i32,
) -> u32
    ensures { OnHandle page.old.value page.new.value result ((rest_x.new ≡ rest_x.old) × (rest_y.new ≡ rest_y.old)) (λ old new. TellsWheel old (record { x = x; y = y }) (record { x = dx; y = dy }) (record { x = rest_x.old; y = rest_y.old }) (record { x = rest_x.new; y = rest_y.new }) new result) }
{
    let Some(mut held) = page.take(alloc) else {
        return NONE;
    };
    let at = Point { x, y };
    let asked = Point { x: dx, y: dy };
    let status = wheeled(&mut held.compositor, at, asked, rest_x, rest_y);
    page.put(held);
    status
}

/// Tells where a scroller of the active page stands; (0, 0) if there is none.
#[unsafe(no_mangle)]
pub extern "C" fn cc_offset(
    alloc: Global,
    page: &mut Handle,
    scroller: u32,
    x: &mut i32,
    y: &mut i32,
) -> u32
    ensures { OnHandle page.old.value page.new.value result ((x.new ≡ x.old) × (y.new ≡ y.old)) (λ old new. (new ≡ old) × (result ≡ 0) × (x.new ≡ (offsets old scroller).x) × (y.new ≡ (offsets old scroller).y)) }
{
    let Some(held) = page.take(alloc) else {
        return NONE;
    };
    let at = held.compositor.offset(scroller);
    *x = at.x;
    *y = at.y;
    page.put(held);
    DONE
}

/// Tells the topmost layer at a point; 0 if there is none.
#[unsafe(no_mangle)]
pub extern "C" fn cc_target(
    alloc: Global,
    page: &mut Handle,
    x: i32,
    y: i32,
    layer: &mut u32,
) -> u32
    ensures { OnHandle page.old.value page.new.value result (layer.new ≡ layer.old) (λ old new. (new ≡ old) × TellsTarget old (record { x = x; y = y }) layer.old layer.new result) }
{
    let Some(held) = page.take(alloc) else {
        return NONE;
    };
    let status = targeted(&held.compositor, Point { x, y }, layer);
    page.put(held);
    status
}

/// Tells whether a draw may change the frame: 1, or 0 if the frame shows the active page already.
#[unsafe(no_mangle)]
pub extern "C" fn cc_is_changed(alloc: Global, page: &mut Handle, changed: &mut u32) -> u32
    ensures { OnHandle page.old.value page.new.value result (changed.new ≡ changed.old) (λ old new. (new ≡ old) × (result ≡ 0) × TellsChanged old changed.new) }
{
    let Some(held) = page.take(alloc) else {
        return NONE;
    };
    *changed = if held.compositor.is_changed() { 1 } else { 0 };
    page.put(held);
    DONE
}

/// Draws, and tells the rows that may have changed: those from `top` on that lie above `bottom`.
#[unsafe(no_mangle)]
pub extern "C" fn cc_draw(alloc: Global, page: &mut Handle, top: &mut u32, bottom: &mut u32) -> u32
    ensures { OnHandle page.old.value page.new.value result ((top.new ≡ top.old) × (bottom.new ≡ bottom.old)) (λ old new. TellsDraw old (record { top = top.old; bottom = bottom.old }) (record { top = top.new; bottom = bottom.new }) new result) }
{
    let Some(mut held) = page.take(alloc) else {
        return NONE;
    };
    let status = drawn(&mut held.compositor, top, bottom);
    page.put(held);
    status
}

/// Tells the rects of the frame that the last draw may have changed: as many as fit are written, and `count` is how
/// many there are.
#[unsafe(no_mangle)]
pub extern "C" fn cc_damage(
    alloc: Global,
    page: &mut Handle,
    rects: &mut [DamageRect],
    count: &mut usize,
) -> u32
    ensures { OnHandle page.old.value page.new.value result ((rects.new ≡ rects.old) × (count.new ≡ count.old)) (λ old new. (new ≡ old) × (result ≡ 0) × (count.new ≡ length (damage_of old)) × (rects.new ≡ written (damage_of old) rects.old)) }
{
    let Some(held) = page.take(alloc) else {
        return NONE;
    };
    *count = told_damage(held.compositor.frame(), held.compositor.damage(), rects);
    page.put(held);
    DONE
}

/// Tells the frame's width and height.
#[unsafe(no_mangle)]
pub extern "C" fn cc_size(alloc: Global, page: &mut Handle, w: &mut u32, h: &mut u32) -> u32
    ensures { OnHandle page.old.value page.new.value result ((w.new ≡ w.old) × (h.new ≡ h.old)) (λ old new. (new ≡ old) × (result ≡ 0) × (w.new ≡ old.frame.w) × (h.new ≡ old.frame.h)) }
{
    let Some(held) = page.take(alloc) else {
        return NONE;
    };
    *w = held.compositor.frame().w();
    *h = held.compositor.frame().h();
    page.put(held);
    DONE
}

/// Copies rows of the frame, as red, green, blue and alpha (an `order` of 0), or as blue, green, red and alpha (1):
/// BAD if the order is another or `top` lies below `bottom`, SHORT if the frame lacks one of the rows or the buffer
/// has no room for them. Nothing is then copied.
#[unsafe(no_mangle)]
pub extern "C" fn cc_copy(
    alloc: Global,
    page: &mut Handle,
    order: u32,
    top: u32,
    bottom: u32,
    stride: usize,
    to: &mut [u8],
) -> u32
    ensures { OnHandle page.old.value page.new.value result (to.new ≡ to.old) (λ old new. (new ≡ old) × TellsCopy old.frame order top bottom stride to.old to.new result) }
{
    let Some(held) = page.take(alloc) else {
        return NONE;
    };
    let status = rows_copied(held.compositor.frame(), order, top, bottom, stride, to);
    page.put(held);
    status
}

/// Frees the images of tiles that the last draw did not use.
#[unsafe(no_mangle)]
pub extern "C" fn cc_trim(alloc: Global, page: &mut Handle) -> u32
    ensures { OnHandle page.old.value page.new.value result ⊤ (λ old new. (new ≡ old) × (result ≡ 0)) }
{
    let Some(mut held) = page.take(alloc) else {
        return NONE;
    };
    held.compositor.trim();
    page.put(held);
    DONE
}
