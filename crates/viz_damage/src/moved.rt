//! What changes when one quad stands in the place of another: of a tile that moved up or down, the rows alone that
//! differ from those that were there.

ghost use Rattle.std.specs.Prelude.{◌≡◌, ℕ, ◌+◌, ◌<◌, ◌≤◌, ℤ, pos, ◌+ℤ◌, ◌-ℤ◌, ◌≤ℤ◌, ◌∷◌, [], All, length, OnOk, IsTrue, ◌^◌};
ghost use Rattle.std.specs.Int.{int_max, int_min};
ghost use Rattle.page_display_list.specs.Bitmaps.{near};
ghost use Rattle.tile_raster.specs.Images.{AreSameRows};
ghost use Rattle.viz_scene.specs.Views.{quad_view};
ghost use Rattle.viz_scene.specs.Sound.{QuadFits, IsTaken};
ghost use Rattle.viz_scene.specs.Areas.{IsOnScreen};
ghost use Rattle.viz_damage.specs.inner.Areas.{HoldAll};
ghost use Rattle.viz_damage.specs.inner.Alike.{DifferWithin};
ghost use Rattle.viz_damage.specs.inner.Moved.{AreCommonRows, AreAlikeOutside, AreRowsAlike};

use crate::areas::{add_area, add_rows};
use crate::images::{are_same_images, is_same_number};
use crate::quads::area_of;
use geom::{Point, Rect};
use std::alloc::AllocError;
use tile_raster::TileImage;
use viz_scene::Quad;

// The least width and height of an image whose rows are looked at.
const LEAST_SIDE: i32 = 64;

/// Adds to damage where a quad differs from the one in whose place it stands, if the passes before them have these
/// reaches.
pub(crate) fn add_change(
    old: &Quad,
    new: &Quad,
    reaches: &[Rect],
    damage: &mut Vec<Rect>,
) -> Result<(), AllocError>
    requires old { QuadFits 2048 2048 (length reaches.now) (quad_view old.now) }
    requires new { QuadFits 2048 2048 (length reaches.now) (quad_view new.now) }
    requires reaches { All IsOnScreen reaches.now }
    requires damage { All IsOnScreen damage.old.items }
    ensures changes { OnOk result (DifferWithin reaches.now damage.new.items (quad_view old.now ∷ []) (quad_view new.now ∷ [])) }
    ensures held { OnOk result (HoldAll damage.new.items damage.old.items) }
    ensures damage { All IsOnScreen damage.new.items }
{
    if let (
        Quad::Tile { image, at, from },
        Quad::Tile {
            image: other,
            at: place,
            from: start,
        },
    ) = (old, new)
    {
        let before = Part {
            at: *at,
            from: *from,
        };
        let after = Part {
            at: *place,
            from: *start,
        };
        if may_share_rows(image, before, after)
            && share_columns(before, after)
            && are_same_images(image, other)
        {
            add_moved(image, before, after, damage)?;
            return Ok(());
        }
    }
    add_area(damage, area_of(old, reaches))?;
    add_area(damage, area_of(new, reaches))?;
    Ok(())
}

// A part of an image on the screen: where, and from which pixel of the image on.
#[derive(Clone, Copy)]
struct Part {
    at: Rect,
    from: Point,
}

// Whether two parts of an image have rows of the screen in common, and the image is large and has at most a quarter as
// many rows that differ from those before them.
fn may_share_rows(image: &TileImage, a: Part, b: Part) -> bool {
    let rect = image.rect();
    if rect.w < LEAST_SIDE || rect.h < LEAST_SIDE {
        return false;
    }
    let meet = a.at.y < b.at.y.saturating_add(b.at.h) && b.at.y < a.at.y.saturating_add(a.at.h);
    meet && image.kept_bytes() as u64 <= (rect.w as u64).saturating_mul(rect.h as u64)
}

// Whether two parts show the same columns at one place.
fn share_columns(a: Part, b: Part) -> bool
    ensures at { IsTrue result → a.at.x ≡ b.at.x }
    ensures width { IsTrue result → a.at.w ≡ b.at.w }
    ensures from { IsTrue result → a.from.x ≡ b.from.x }
{
    if !is_same_number(a.at.x, b.at.x) || !is_same_number(a.at.w, b.at.w) {
        return false;
    }
    is_same_number(a.from.x, b.from.x)
}

// Adds the rows where two parts of one image differ.
fn add_moved(
    image: &TileImage,
    old: Part,
    new: Part,
    damage: &mut Vec<Rect>,
) -> Result<(), AllocError>
    requires old { IsOnScreen old.at × IsTaken image.now old.at old.from }
    requires new { IsOnScreen new.at × IsTaken image.now new.at new.from }
    requires place { old.at.x ≡ new.at.x }
    requires width { old.at.w ≡ new.at.w }
    requires column { old.from.x ≡ new.from.x }
    requires damage { All IsOnScreen damage.old.items }
    ensures alike { OnOk result (AreAlikeOutside damage.new.items image.now old.at old.from new.at new.from) }
    ensures held { OnOk result (HoldAll damage.new.items damage.old.items) }
    ensures damage { All IsOnScreen damage.new.items }
{
    let rows = common_rows(old.at, new.at);
    let mut hint = damage.len();
    add_rows(
        damage,
        &mut hint,
        rows_between(old.at, rows.first, rows.top),
    )?;
    add_rows(damage, &mut hint, rows_between(old.at, rows.end, rows.last))?;
    add_common(image, old, new, rows, damage, &mut hint)?;
    Ok(())
}

// Rows of the screen that two areas have.
#[derive(Clone, Copy)]
struct CommonRows {
    // The first row that one of them has.
    first: i32,
    // The first row that both have.
    top: i32,
    // The row after the last one that both have.
    end: i32,
    // The row after the last one that one of them has.
    last: i32,
}

// The rows that two areas have, one of them or both; if they have none in common, `top` and `end` are one row.
fn common_rows(a: Rect, b: Rect) -> CommonRows
    requires one { IsOnScreen a }
    requires other { IsOnScreen b }
    ensures first { result.first ≡ int_min a.y b.y }
    ensures top { result.top ≡ int_max a.y b.y }
    ensures end { result.end ≡ int_max (int_min (a.y +ℤ a.h) (b.y +ℤ b.h)) (int_max a.y b.y) }
    ensures last { result.last ≡ int_max (a.y +ℤ a.h) (b.y +ℤ b.h) }
{
    let top = upper(a.y, b.y);
    let end = lower(end_of(a), end_of(b));
    CommonRows {
        first: lower(a.y, b.y),
        top,
        end: upper(end, top),
        last: upper(end_of(a), end_of(b)),
    }
}

// The lower of two numbers.
fn lower(a: i32, b: i32) -> i32
    ensures { result ≡ int_min a b }
{
    a.min(b)
}

// The upper of two numbers.
fn upper(a: i32, b: i32) -> i32
    ensures { result ≡ int_max a b }
{
    a.max(b)
}

// The row after the last one of an area.
fn end_of(at: Rect) -> i32
    requires { IsOnScreen at }
    ensures { result ≡ at.y +ℤ at.h }
{
    at.y + at.h
}

// Rows that both parts of an image have.
#[derive(Clone, Copy)]
struct SharedRows {
    // The row of the screen that is the first of them.
    top: i32,
    // How many.
    count: u32,
    // The row of the image that the old part has in the first of them.
    before: u32,
    // The row of the image that the new part has there.
    after: u32,
}

// Adds those of the rows that both parts of an image have where they differ.
fn add_common(
    image: &TileImage,
    old: Part,
    new: Part,
    rows: CommonRows,
    damage: &mut Vec<Rect>,
    hint: &mut usize,
) -> Result<(), AllocError>
    requires old { IsOnScreen old.at × IsTaken image.now old.at old.from }
    requires new { IsOnScreen new.at × IsTaken image.now new.at new.from }
    requires place { old.at.x ≡ new.at.x }
    requires width { old.at.w ≡ new.at.w }
    requires column { old.from.x ≡ new.from.x }
    requires rows { AreCommonRows old.at new.at rows.first rows.top rows.end rows.last }
    requires damage { All IsOnScreen damage.old.items }
    ensures alike { OnOk result (AreRowsAlike damage.new.items image.now old.at old.from new.at new.from rows.top rows.end) }
    ensures held { OnOk result (HoldAll damage.new.items damage.old.items) }
    ensures damage { All IsOnScreen damage.new.items }
{
    if rows.end <= rows.top {
        return Ok(());
    }
    // The rect of an image is sound, so the numbers of its rows fit.
    let _rect = image.rect();
    let shared = SharedRows {
        top: rows.top,
        count: count_between(rows.top, rows.end),
        before: row_at(old, rows.top),
        after: row_at(new, rows.top),
    };
    add_bands(image, old, new, shared, damage, hint)?;
    Ok(())
}

// How many rows of a screen there are from one on and before another.
fn count_between(top: i32, end: i32) -> u32
    requires low { pos 0 ≤ℤ top }
    requires order { top ≤ℤ end }
    requires high { end ≤ℤ pos 2048 }
    ensures { pos result ≡ end -ℤ top }
{
    (end - top) as u32
}

// The row of its image that a part shows in a row of the screen.
fn row_at(part: Part, y: i32) -> u32
    requires at { IsOnScreen part.at }
    requires from { pos 0 ≤ℤ part.from.y }
    requires top { part.at.y ≤ℤ y }
    requires end { y ≤ℤ pos 2048 }
    requires fits { (part.from.y +ℤ (y -ℤ part.at.y)) ≤ℤ pos (2 ^ 30) }
    ensures { pos result ≡ part.from.y +ℤ (y -ℤ part.at.y) }
{
    (part.from.y + (y - part.at.y)) as u32
}

// Adds those of some rows that both parts of an image have where they differ.
fn add_bands(
    image: &TileImage,
    old: Part,
    new: Part,
    shared: SharedRows,
    damage: &mut Vec<Rect>,
    hint: &mut usize,
) -> Result<(), AllocError>
    requires old { IsOnScreen old.at × IsTaken image.now old.at old.from }
    requires new { IsOnScreen new.at × IsTaken image.now new.at new.from }
    requires place { old.at.x ≡ new.at.x }
    requires width { old.at.w ≡ new.at.w }
    requires column { old.from.x ≡ new.from.x }
    requires before { pos shared.before ≡ old.from.y +ℤ (shared.top -ℤ old.at.y) }
    requires after { pos shared.after ≡ new.from.y +ℤ (shared.top -ℤ new.at.y) }
    requires old_rows { shared.before + shared.count ≤ near image.now.rect.h }
    requires new_rows { shared.after + shared.count ≤ near image.now.rect.h }
    requires low { pos 0 ≤ℤ shared.top }
    requires high { (shared.top +ℤ pos shared.count) ≤ℤ pos 2048 }
    requires damage { All IsOnScreen damage.old.items }
    ensures alike { OnOk result (AreRowsAlike damage.new.items image.now old.at old.from new.at new.from shared.top (shared.top +ℤ pos shared.count)) }
    ensures held { OnOk result (HoldAll damage.new.items damage.old.items) }
    ensures damage { All IsOnScreen damage.new.items }
{
    // The rect of an image is sound, so the numbers of its rows fit.
    let _rect = image.rect();
    let mut done = 0;
    while done < shared.count {
        let step = step_of(image, shared.before + done, shared.after + done);
        let next = row_after(done, step.rows, shared.count);
        if !step.are_same {
            add_rows(damage, hint, rows_of(old.at, shared.top, done, next))?;
        }
        done = next;
    }
    Ok(())
}

// The row after the given number of rows from a row on, or the end if that comes first.
fn row_after(done: u32, rows: u32, end: u32) -> u32
    requires inside { done < end }
    requires some { 1 ≤ rows }
    ensures further { done < result }
    ensures rows { result ≤ done + rows }
    ensures inside { result ≤ end }
{
    if rows < end - done { done + rows } else { end }
}

// Some rows of an image, from each of two rows on.
#[derive(Clone, Copy)]
struct RowStep {
    // How many.
    rows: u32,
    // Each is equal to its partner.
    are_same: bool,
}

// How an image goes on from two of its rows: by rows that are equal, or by rows that may differ.
fn step_of(image: &TileImage, a: u32, b: u32) -> RowStep
    requires one { a < near image.now.rect.h }
    requires other { b < near image.now.rect.h }
    ensures some { 1 ≤ result.rows }
    ensures same { IsTrue result.are_same → (k : ℕ) → k < result.rows → AreSameRows image.now.list image.now.rect (a + k) (b + k) }
{
    if a <= b {
        return step_from(image, a, b - a);
    }
    step_from(image, b, a - b)
}

// The same from a row, and from one some rows lower.
fn step_from(image: &TileImage, row: u32, apart: u32) -> RowStep
    requires { row < near image.now.rect.h }
    ensures some { 1 ≤ result.rows }
    ensures same { IsTrue result.are_same → (k : ℕ) → k < result.rows → AreSameRows image.now.list image.now.rect (row + k) (row + apart + k) }
{
    let same = image.same(row);
    if apart < same {
        RowStep {
            rows: same - apart,
            are_same: true,
        }
    } else {
        RowStep {
            rows: same,
            are_same: false,
        }
    }
}

// Some rows of an area of the screen, counted from a row of the screen on: from one on and before another.
fn rows_of(at: Rect, top: i32, from: u32, to: u32) -> Rect
    requires at { IsOnScreen at }
    requires low { pos 0 ≤ℤ top }
    requires order { from ≤ to }
    requires high { (top +ℤ pos to) ≤ℤ pos 2048 }
    ensures x { result.x ≡ at.x }
    ensures y { result.y ≡ top +ℤ pos from }
    ensures w { result.w ≡ at.w }
    ensures h { result.h ≡ (top +ℤ pos to) -ℤ (top +ℤ pos from) }
    ensures inside { IsOnScreen result }
{
    Rect {
        x: at.x,
        y: top + from as i32,
        w: at.w,
        h: (to - from) as i32,
    }
}

// The rows of an area of the screen from one on and before another.
fn rows_between(at: Rect, top: i32, end: i32) -> Rect
    requires at { IsOnScreen at }
    requires low { pos 0 ≤ℤ top }
    requires order { top ≤ℤ end }
    requires high { end ≤ℤ pos 2048 }
    ensures x { result.x ≡ at.x }
    ensures y { result.y ≡ top }
    ensures w { result.w ≡ at.w }
    ensures h { result.h ≡ end -ℤ top }
    ensures inside { IsOnScreen result }
{
    Rect {
        x: at.x,
        y: top,
        w: at.w,
        h: end - top,
    }
}
