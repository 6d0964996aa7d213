//! Painting where a mask lets a quad be seen.

ghost use Rattle.std.specs.Prelude.{◌≡◌, ℕ, ◌+◌, ◌-◌, ◌*◌, ◌%◌, ◌^◌, ◌<◌, ◌≤◌, min, false, length, slice_index};
ghost use Rattle.pixel.specs.Rows.{ArePremultiplied};
ghost use Rattle.pixel.specs.Surfaces.{IsInside, EachPixel, within_rows};
ghost use Rattle.viz_render.specs.inner.Masks.{block_count, is_open, EachOpen};
ghost use Rattle.viz_render.specs.inner.Paints.{painted, CanPaint, IsPaintable, some_rows, some_columns};

use crate::mask::QuadMask;
use crate::paint::{Paint, paint_part};
use page_display_list::CoveredArea;
use pixel::{Area, Size};

/// Paints a part of an area where a quad is seen.
pub(crate) fn paint_open(
    surface: &mut [u8],
    size: Size,
    part: CoveredArea,
    paint: &Paint<'_>,
    seen: QuadMask<'_>,
)
    requires paint { IsPaintable size part paint.now surface.old }
    ensures pixels { EachOpen size.width size.height seen.entry.mask.now.tops seen.entry.number (within_rows part.at part.at.h (painted paint.now part)) surface.old surface.new }
    ensures premultiplied { ArePremultiplied surface.old → ArePremultiplied surface.new }
{
    let QuadMask { mask, number } = seen;
    if mask.highest() <= number {
        paint_part(surface, size, part, paint);
    } else {
        paint_rows(surface, size, part, paint, mask.tops(), number);
    }
}

// Paints the rows of a part, those of one row of blocks at a time.
fn paint_rows(
    surface: &mut [u8],
    size: Size,
    part: CoveredArea,
    paint: &Paint<'_>,
    tops: &[usize],
    number: usize,
)
    requires paint { IsPaintable size part paint.now surface.old }
    requires tops { length tops.now ≡ block_count }
    ensures pixels { EachOpen size.width size.height tops.now number (within_rows part.at part.at.h (painted paint.now part)) surface.old surface.new }
    ensures premultiplied { ArePremultiplied surface.old → ArePremultiplied surface.new }
{
    let mut done = 0;
    while done < part.at.h {
        let rows = (8 - (part.at.y + done) % 8).min(part.at.h - done);
        let band = rows_of(part, done, rows);
        paint_columns(surface, size, band, paint, tops, number);
        done += rows;
    }
}

// Paints the columns of a part of one row of blocks, as many as are seen together at a time.
fn paint_columns(
    surface: &mut [u8],
    size: Size,
    part: CoveredArea,
    paint: &Paint<'_>,
    tops: &[usize],
    number: usize,
)
    requires paint { IsPaintable size part paint.now surface.old }
    requires tops { length tops.now ≡ block_count }
    requires some { 1 ≤ part.at.h }
    requires one { part.at.y % 8 + part.at.h ≤ 8 }
    ensures pixels { EachOpen size.width size.height tops.now number (within_rows part.at part.at.h (painted paint.now part)) surface.old surface.new }
    ensures premultiplied { ArePremultiplied surface.old → ArePremultiplied surface.new }
{
    let mut done = 0;
    while done < part.at.w {
        let run = next_run(tops, part.at, done, number);
        let first = done + run.hidden;
        let columns = columns_of(part, first, run.seen);
        paint_run(surface, size, columns, paint);
        done = first + run.seen;
    }
}

// Paints a part, which may be empty.
#[inline(always)]
fn paint_run(surface: &mut [u8], size: Size, part: CoveredArea, paint: &Paint<'_>)
    requires size { length surface.old ≡ 4 * (size.width * size.height) }
    requires inside { IsInside part.at size.width size.height }
    requires paint { CanPaint paint.now part }
    ensures pixels { EachPixel size.width size.height (within_rows part.at part.at.h (painted paint.now part)) surface.old surface.new }
    ensures premultiplied { ArePremultiplied surface.old → ArePremultiplied surface.new }
{
    if part.at.w > 0 {
        paint_part(surface, size, part, paint);
    }
}

// Some rows of a part.
fn rows_of(part: CoveredArea, first: usize, rows: usize) -> CoveredArea
    requires below { part.at.y + first < 2 ^ 64 }
    requires above { part.above + first < 2 ^ 64 }
    ensures { result ≡ some_rows part first rows }
{
    let at = Area {
        x: part.at.x,
        y: part.at.y + first,
        w: part.at.w,
        h: rows,
    };
    CoveredArea {
        at,
        left: part.left,
        above: part.above + first,
    }
}

// Some columns of a part.
fn columns_of(part: CoveredArea, first: usize, columns: usize) -> CoveredArea
    requires right { part.at.x + first < 2 ^ 64 }
    requires left { part.left + first < 2 ^ 64 }
    ensures { result ≡ some_columns part first columns }
{
    let at = Area {
        x: part.at.x + first,
        y: part.at.y,
        w: columns,
        h: part.at.h,
    };
    CoveredArea {
        at,
        left: part.left + first,
        above: part.above,
    }
}

/// Columns of an area in one row of blocks: some on which a quad is hidden, and after them some on which it is seen.
#[derive(Clone, Copy)]
pub(crate) struct ColumnRun {
    pub(crate) hidden: usize,
    pub(crate) seen: usize,
}

// The columns of an area from column `first` on in its top row of blocks, up to the end of those that are seen
// together.
#[inline(always)]
fn next_run(tops: &[usize], at: Area, first: usize, number: usize) -> ColumnRun
    requires tops { length tops.now ≡ block_count }
    requires wide { at.x + at.w ≤ 2048 }
    requires low { at.y < 64 }
    requires there { first < at.w }
    ensures some { 1 ≤ result.hidden + result.seen }
    ensures most { first + result.hidden + result.seen ≤ at.w }
    ensures hidden { (x : ℕ) → at.x + first ≤ x → x < at.x + first + result.hidden → is_open tops.now number x at.y ≡ false }
{
    let from = at.x + first;
    let end = at.x + at.w;
    let row = at.y / 8 * 129;
    let last = row + (end + 15) / 16;
    let first_seen = hidden_until(tops, row + from / 16, last, number);
    let next = seen_until(tops, first_seen, last, number);
    let hidden = columns_before(first_seen - row, from, end);
    ColumnRun {
        hidden,
        seen: columns_before(next - row, from, end) - hidden,
    }
}

// How many columns from column `from` to before `end` lie before a block.
#[inline(always)]
fn columns_before(block: usize, from: usize, end: usize) -> usize
    requires { block ≤ 128 }
    ensures { result ≡ min (16 * block) end - from }
{
    (16 * block).min(end).saturating_sub(from)
}

// The first place from `first` to before `end` with a number up to the given one; `end` if there is none.
#[inline(always)]
fn hidden_until(tops: &[usize], first: usize, end: usize, number: usize) -> usize
    requires order { first ≤ end }
    requires inside { end ≤ length tops.now }
    ensures low { first ≤ result }
    ensures high { result ≤ end }
    ensures hidden { (i : ℕ) → first ≤ i → i < result → number < slice_index tops.now i }
    ensures seen { result < end → slice_index tops.now result ≤ number }
{
    let mut place = first;
    while place < end && tops[place] > number {
        place += 1;
    }
    place
}

// The first place from `first` to before `end` with a number above the given one; `end` if there is none.
#[inline(always)]
fn seen_until(tops: &[usize], first: usize, end: usize, number: usize) -> usize
    requires order { first ≤ end }
    requires inside { end ≤ length tops.now }
    ensures low { first ≤ result }
    ensures high { result ≤ end }
    ensures hidden { result < end → number < slice_index tops.now result }
{
    let mut place = first;
    while place < end && tops[place] <= number {
        place += 1;
    }
    place
}
