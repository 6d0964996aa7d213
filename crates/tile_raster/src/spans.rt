//! The columns of a row that items of one colour cover, and drawing the row that they make.
//!
//! A row is drawn run by run: from a column on, the topmost opaque span and those above it tell the colour, and how
//! many columns have it. Each pixel is written once, and what is hidden is never looked at.

ghost use Rattle.std.specs.Prelude.{◌≡◌, ℕ, ◌*◌, ◌+◌, ◌-◌, ◌<◌, ◌≤◌, true, length, drop, fold, IsTrue};
ghost use Rattle.pixel.specs.Colours.{clear};
ghost use Rattle.pixel.specs.Rows.{pixel, ArePremultiplied};
ghost use Rattle.tile_raster.specs.inner.Patches.{has_column, spanned, spans_show};

use pixel::{Area, Colour, Size, fill_area};

/// The columns of a row that an item of one colour covers.
#[derive(Clone, Copy)]
pub(crate) struct Span {
    /// The first column.
    pub(crate) left: usize,
    /// The column after the last.
    pub(crate) right: usize,
    /// The item's colour.
    pub(crate) colour: Colour,
}

/// Columns of one colour.
#[derive(Clone, Copy)]
pub(crate) struct Run {
    /// The first of the spans that tell the colour.
    pub(crate) first: usize,
    /// The column after the last.
    pub(crate) end: usize,
}

/// Draws the row at a place among those that are kept of a picture: what the spans show in each of its columns.
pub(crate) fn draw_spans(bytes: &mut [u8], size: Size, place: usize, spans: &[Span])
    requires size { length bytes.old ≡ 4 * (size.width * size.height) }
    requires place { place < size.height }
    ensures drawn { (x : ℕ) → x < size.width → pixel bytes.new (place * size.width + x) ≡ spans_show spans.now x }
    ensures others { (x y : ℕ) → x < size.width → y < size.height → (y ≡ place → ⊥) → pixel bytes.new (y * size.width + x) ≡ pixel bytes.old (y * size.width + x) }
    ensures premultiplied { ArePremultiplied bytes.old → ArePremultiplied bytes.new }
{
    let mut x = 0;
    while x < size.width {
        let run = run_at(spans, x, size.width);
        let colour = colour_at(&spans[run.first..], x);
        fill_area(bytes, size, area_of(x, run.end, place), colour);
        x = run.end;
    }
}

// The area of some columns of one row.
fn area_of(left: usize, right: usize, y: usize) -> Area
    requires { left ≤ right }
    ensures { result ≡ record { x = left; y = y; w = right - left; h = 1 } }
{
    Area {
        x: left,
        y,
        w: right - left,
        h: 1,
    }
}

// The columns from column x on that have the colour of column x, and the first of the spans that tell it.
fn run_at(spans: &[Span], x: usize, width: usize) -> Run
    requires { x < width }
    ensures first { result.first ≤ length spans.now }
    ensures some { x < result.end }
    ensures inside { result.end ≤ width }
    ensures alike { (z : ℕ) → x ≤ z → z < result.end → spans_show spans.now z ≡ fold (spanned x) clear (drop result.first spans.now) }
{
    let mut first = spans.len();
    let mut end = width;
    while first > 0 {
        first -= 1;
        let span = &spans[first];
        end = alike_until(span, x, end);
        if is_hiding(span, x) {
            return Run { first, end };
        }
    }
    Run { first: 0, end }
}

// Up to which column, at most `end`, a span has the columns from column x on, or has none of them.
fn alike_until(span: &Span, x: usize, end: usize) -> usize
    requires { x < end }
    ensures some { x < result }
    ensures most { result ≤ end }
    ensures alike { (z : ℕ) → x ≤ z → z < result → has_column span.now z ≡ has_column span.now x }
{
    if x < span.left {
        end.min(span.left)
    } else if x < span.right {
        end.min(span.right)
    } else {
        end
    }
}

// Whether a span hides in column x what is below it.
fn is_hiding(span: &Span, x: usize) -> bool
    ensures column { IsTrue result → has_column span.now x ≡ true }
    ensures opaque { IsTrue result → span.now.colour.a ≡ 255 }
{
    let has_column = span.left <= x && x < span.right;
    has_column && span.colour.a() == 255
}

// What some spans show in column x.
fn colour_at(spans: &[Span], x: usize) -> Colour
    ensures { result ≡ fold (spanned x) clear spans.now }
{
    let mut colour = Colour::CLEAR;
    for span in spans {
        colour = laid(span, x, colour);
    }
    colour
}

// A span laid over a colour in column x.
fn laid(span: &Span, x: usize, below: Colour) -> Colour
    ensures { result ≡ spanned x below span.now }
{
    let has_column = span.left <= x && x < span.right;
    if has_column {
        below.over(span.colour)
    } else {
        below
    }
}
