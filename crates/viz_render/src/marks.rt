//! Marking the blocks of an area on which a quad is opaque.
//!
//! # What
//!
//! A mask divides an area of at most 2048 by 64 pixels into blocks of sixteen columns and eight rows. For each block it
//! has a number: that of the topmost quad that hides all below it on the whole block, counted from 1 as the quads are
//! drawn, or 0. A quad is not drawn on blocks with a higher number (`open.rt`), so that of a stack of opaque layers
//! only the topmost is drawn. The numbers stand row by row of blocks: in each row 128 of blocks and one that is of no
//! block, so 129; eight rows make the `block_count` of 1032.
//!
//! # How
//!
//! `mark_quads` goes from the topmost quad down. A block that has a number keeps it, so each block gets the number of
//! the topmost quad that hides it, and the work on lower quads shrinks: a tile whose blocks all have a number is left
//! at once (`are_marked`). A quad can mark only the blocks that its rect has whole.
//!
//! - A solid marks them all if its alpha is 255 (`mark_solid`), and so does a tile of one colour.
//! - A tile is looked at band by band (`mark_bands`): a band is the rows of its image that are equal to one another,
//!   so one row of pixels tells of all of them. For each sixteen pixels of that row that are opaque the blocks that lie
//!   in the band whole are marked.
//! - What is left are the blocks that a band's edge crosses (`mark_joints`). Of these each band is asked by itself
//!   (`is_opaque_block`), until one is not opaque.
//! - A group marks nothing: whether its pass is opaque is not known before it is drawn.
//!
//! # What is proved
//!
//! `Marks` says of each step that a block has the number that it had, or the quad's, and then the quad hides what is
//! below it at each pixel of the block. So a mask may have too few marks, never a wrong one: `are_marked` and
//! `is_marked`, which only save work, have no clause. That a mask finds each hidden block is not proved, and not so: a
//! block that two quads hide together, each a half, has no number.
//!
//! # Cost
//!
//! A solid costs a store for each block, at most 1024. A tile costs one look at each pixel of one row of each band,
//! sixteen at a time, and of a bitmap, whose rows all differ, one at each pixel of the blocks that are still open. So a
//! mask pays if quads lie three deep on average (`DEPTH` in `mask.rt`); for a pass that is less deep none is made.

ghost use Rattle.std.specs.Prelude.{◌≡◌, ℕ, ◌+◌, ◌-◌, ◌*◌, ◌/◌, ◌<◌, ◌≤◌, ◌⊎◌, ◌≢◌, true, pos, ◌+ℤ◌, All, length, slice_index, IsTrue};
ghost use Rattle.geom.specs.Covers.{IsSound};
ghost use Rattle.pixel.specs.Rows.{pixel, ArePremultiplied};
ghost use Rattle.pixel.specs.Surfaces.{holds};
ghost use Rattle.page_display_list.specs.Bitmaps.{near};
ghost use Rattle.viz_scene.specs.Views.{quad_view, quads_view, plain, tiled};
ghost use Rattle.viz_scene.specs.Sound.{IsTaken};
ghost use Rattle.tile_raster.specs.Images.{AreSameRows};
ghost use Rattle.viz_render.specs.inner.Drawing.{IsStrip, IsImagePart, CanBeDrawn, part_pixel};
ghost use Rattle.viz_render.specs.inner.Masks.{block_count, Hides, HidesIn, IsOfBlock, Marks, AreMarked, HaveNumbers};

use crate::beside::lies_beside;
use crate::mask::are_above;
use crate::surface::Surface;
use crate::tile::{equal_rows_at, row_number, taken_part};
use geom::{Point, Rect};
use page_display_list::{CoveredArea, shared_part};
use pixel::{Area, Colour, are_sixteen_opaque};
use tile_raster::TileImage;
use viz_scene::Quad;

/// Marks what the opaque ones of some quads hide of an area, on blocks without a number.
pub(crate) fn mark_quads(tops: &mut [usize], area: Rect, quads: &[Quad], passes: &[Surface])
    requires tops { length tops.old ≡ block_count }
    requires area { IsStrip area }
    requires quads { All (CanBeDrawn (length passes.now)) (quads_view quads.now) }
    requires marked { AreMarked area quads.now tops.old }
    ensures size { length tops.new ≡ block_count }
    ensures marked { AreMarked area quads.now tops.new }
    ensures numbers { HaveNumbers (length quads.now) tops.old tops.new }
{
    let mut number = quads.len();
    while number > 0 {
        mark_quad(tops, area, &quads[number - 1], passes, number);
        number -= 1;
    }
}

// Marks where one quad is opaque.
#[inline(always)]
fn mark_quad(tops: &mut [usize], area: Rect, quad: &Quad, passes: &[Surface], number: usize)
    requires tops { length tops.old ≡ block_count }
    requires area { IsStrip area }
    requires quad { CanBeDrawn (length passes.now) (quad_view quad.now) }
    ensures marks { Marks number (λ x y. x < near area.w → y < near area.h → Hides (quad_view quad.now) (area.x +ℤ pos x) (area.y +ℤ pos y)) tops.old tops.new }
{
    if lies_beside(quad, area, passes.len()) {
        return;
    }
    match quad {
        Quad::Tile { image, at, from } => mark_tile(tops, area, image, *at, *from, number),
        Quad::Solid { at, colour } => mark_solid(tops, area, *at, *colour, number),
        Quad::Group { .. } => {}
    }
}

// Marks where a tile is opaque.
fn mark_tile(
    tops: &mut [usize],
    area: Rect,
    image: &TileImage,
    at: Rect,
    from: Point,
    number: usize,
)
    requires tops { length tops.old ≡ block_count }
    requires area { IsStrip area }
    requires at { IsSound at }
    requires taken { IsTaken image.now at from }
    ensures marks { Marks number (λ x y. x < near area.w → y < near area.h → Hides (tiled image.now at from) (area.x +ℤ pos x) (area.y +ℤ pos y)) tops.old tops.new }
{
    let Some(part) = shared_part(at, area) else {
        return;
    };
    if are_marked(tops, part.at) {
        return;
    }
    if let Some(colour) = image.solid() {
        mark_solid(tops, area, at, colour, number);
        return;
    }
    let part = taken_part(part, from);
    mark_part(tops, image, part, number);
}

// Whether all blocks that an area has whole are marked.
fn are_marked(tops: &[usize], at: Area) -> bool
    requires tops { length tops.now ≡ block_count }
    requires wide { at.x + at.w ≤ 2048 }
    requires low { at.y + at.h ≤ 64 }
{
    let (left, right) = ((at.x + 15) / 16, (at.x + at.w) / 16);
    for down in (at.y + 7) / 8..(at.y + at.h) / 8 {
        if !are_above(tops, down * 129 + left, down * 129 + right, 0) {
            return false;
        }
    }
    true
}

// Marks where a part of an image is opaque.
fn mark_part(tops: &mut [usize], image: &TileImage, part: CoveredArea, number: usize)
    requires tops { length tops.old ≡ block_count }
    requires part { IsImagePart image.now part }
    ensures marks { Marks number (HidesIn part.at (part_pixel image.now part)) tops.old tops.new }
{
    mark_bands(tops, image, part, number);
    mark_joints(tops, image, part, number);
}

// Marks where the rows of a part of an image are opaque, those that are equal at a time.
fn mark_bands(tops: &mut [usize], image: &TileImage, part: CoveredArea, number: usize)
    requires tops { length tops.old ≡ block_count }
    requires part { IsImagePart image.now part }
    ensures marks { Marks number (HidesIn part.at (part_pixel image.now part)) tops.old tops.new }
{
    let mut done = 0;
    while done < part.at.h {
        let row = row_number(image, part, done);
        let rows = equal_rows_at(image, row, part.at.h - done);
        mark_band(tops, image, part, done, rows, number);
        done += rows;
    }
}

// Marks the blocks on which a part of an image is opaque, but not all of its rows are equal.
fn mark_joints(tops: &mut [usize], image: &TileImage, part: CoveredArea, number: usize)
    requires tops { length tops.old ≡ block_count }
    requires part { IsImagePart image.now part }
    ensures marks { Marks number (HidesIn part.at (part_pixel image.now part)) tops.old tops.new }
{
    for down in (part.at.y + 7) / 8..(part.at.y + part.at.h) / 8 {
        mark_joint(tops, image, part, down, number);
    }
}

// Marks the same in one row of blocks.
fn mark_joint(tops: &mut [usize], image: &TileImage, part: CoveredArea, down: usize, number: usize)
    requires tops { length tops.old ≡ block_count }
    requires part { IsImagePart image.now part }
    requires top { (part.at.y + 7) / 8 ≤ down }
    requires bottom { down < (part.at.y + part.at.h) / 8 }
    ensures marks { Marks number (HidesIn part.at (part_pixel image.now part)) tops.old tops.new }
{
    let row = row_number(image, part, 8 * down - part.at.y);
    if equal_rows_at(image, row, 8) == 8 {
        return;
    }
    for block in (part.at.x + 15) / 16..(part.at.x + part.at.w) / 16 {
        mark_over_bands(tops, image, part, block, down, number);
    }
}

// Marks a block if a part of an image is opaque on it.
fn mark_over_bands(
    tops: &mut [usize],
    image: &TileImage,
    part: CoveredArea,
    block: usize,
    down: usize,
    number: usize,
)
    requires tops { length tops.old ≡ block_count }
    requires part { IsImagePart image.now part }
    requires left { (part.at.x + 15) / 16 ≤ block }
    requires right { block < (part.at.x + part.at.w) / 16 }
    requires top { (part.at.y + 7) / 8 ≤ down }
    requires bottom { down < (part.at.y + part.at.h) / 8 }
    ensures marks { Marks number (HidesIn part.at (part_pixel image.now part)) tops.old tops.new }
{
    if tops[down * 129 + block] == 0 && is_opaque_block(image, part, block, down) {
        mark_one(tops, down * 129 + block, number);
    }
}

// Whether a part of an image is opaque on a block that it has whole.
fn is_opaque_block(image: &TileImage, part: CoveredArea, block: usize, down: usize) -> bool
    requires part { IsImagePart image.now part }
    requires left { (part.at.x + 15) / 16 ≤ block }
    requires right { block < (part.at.x + part.at.w) / 16 }
    requires top { (part.at.y + 7) / 8 ≤ down }
    requires bottom { down < (part.at.y + part.at.h) / 8 }
    ensures { IsTrue result → (x y : ℕ) → x / 16 ≡ block → 8 * down ≤ y → y < 8 * down + 8 → HidesIn part.at (part_pixel image.now part) x y }
{
    let first = 8 * down - part.at.y;
    let mut done = 0;
    while done < 8 {
        let row = row_number(image, part, first + done);
        let pixels = image.row(row);
        if !are_sixteen_opaque(pixels, 16 * block - part.at.x + part.left) {
            return false;
        }
        done += equal_rows_at(image, row, 8 - done);
    }
    true
}

// Marks where the given number of rows of a part of an image, from its row `row` on, are opaque, which are
// all equal.
fn mark_band(
    tops: &mut [usize],
    image: &TileImage,
    part: CoveredArea,
    row: usize,
    rows: usize,
    number: usize,
)
    requires tops { length tops.old ≡ block_count }
    requires part { IsImagePart image.now part }
    requires some { 1 ≤ rows }
    requires there { row + rows ≤ part.at.h }
    requires equal { (k : ℕ) → k < rows → AreSameRows image.now.list image.now.rect (part.above + row) (part.above + row + k) }
    ensures marks { Marks number (HidesIn part.at (part_pixel image.now part)) tops.old tops.new }
{
    let at = Area {
        x: part.at.x,
        y: part.at.y + row,
        w: part.at.w,
        h: rows,
    };
    let number_of_row = row_number(image, part, row);
    let pixels = image.row(number_of_row);
    mark_row(tops, at, pixels, part.left, number);
}

// Marks the blocks of an area on which the pixels of a row, from its pixel `from` on, are opaque.
fn mark_row(tops: &mut [usize], at: Area, row: &[u8], from: usize, number: usize)
    requires tops { length tops.old ≡ block_count }
    requires wide { at.x + at.w ≤ 2048 }
    requires low { at.y + at.h ≤ 64 }
    requires columns { 4 * (from + at.w) ≤ length row.now }
    requires premultiplied { ArePremultiplied row.now }
    ensures marks { Marks number (HidesIn at (λ x y. pixel row.now (x - at.x + from))) tops.old tops.new }
{
    for block in (at.x + 15) / 16..(at.x + at.w) / 16 {
        mark_opaque(tops, at, block, row, from, number);
    }
}

// Marks the blocks of sixteen columns that an area has whole, if the pixels of a row are opaque.
fn mark_opaque(tops: &mut [usize], at: Area, block: usize, row: &[u8], from: usize, number: usize)
    requires tops { length tops.old ≡ block_count }
    requires wide { at.x + at.w ≤ 2048 }
    requires low { at.y + at.h ≤ 64 }
    requires left { (at.x + 15) / 16 ≤ block }
    requires right { block < (at.x + at.w) / 16 }
    requires columns { 4 * (from + at.w) ≤ length row.now }
    requires premultiplied { ArePremultiplied row.now }
    ensures marks { Marks number (HidesIn at (λ x y. pixel row.now (x - at.x + from))) tops.old tops.new }
{
    if is_marked(tops, at, block) {
        return;
    }
    if are_sixteen_opaque(row, 16 * block - at.x + from) {
        mark_block(tops, at, block, number);
    }
}

// Marks the blocks of a rect of one colour, if it is opaque.
fn mark_solid(tops: &mut [usize], area: Rect, at: Rect, colour: Colour, number: usize)
    requires tops { length tops.old ≡ block_count }
    requires area { IsStrip area }
    requires at { IsSound at }
    ensures marks { Marks number (λ x y. x < near area.w → y < near area.h → Hides (plain at colour) (area.x +ℤ pos x) (area.y +ℤ pos y)) tops.old tops.new }
{
    if colour.a() != 255 {
        return;
    }
    if let Some(part) = shared_part(at, area) {
        mark_all(tops, part.at, number);
    }
}

// Marks the blocks of an area.
fn mark_all(tops: &mut [usize], at: Area, number: usize)
    requires tops { length tops.old ≡ block_count }
    requires wide { at.x + at.w ≤ 2048 }
    requires low { at.y + at.h ≤ 64 }
    ensures marks { Marks number (λ x y. holds at x y ≡ true) tops.old tops.new }
{
    for block in (at.x + 15) / 16..(at.x + at.w) / 16 {
        mark_block(tops, at, block, number);
    }
}

// Marks the blocks of sixteen columns that an area has whole, if they have no mark.
fn mark_block(tops: &mut [usize], at: Area, block: usize, number: usize)
    requires tops { length tops.old ≡ block_count }
    requires block { block < 128 }
    requires low { at.y + at.h ≤ 64 }
    ensures marks { Marks number (IsOfBlock at block) tops.old tops.new }
{
    for down in (at.y + 7) / 8..(at.y + at.h) / 8 {
        mark_one(tops, down * 129 + block, number);
    }
}

// Marks one block, if it has no mark.
fn mark_one(tops: &mut [usize], place: usize, number: usize)
    requires place { place < length tops.old }
    ensures size { length tops.new ≡ length tops.old }
    ensures there { (slice_index tops.new place ≡ slice_index tops.old place) ⊎ (slice_index tops.new place ≡ number) }
    ensures other { (i : ℕ) → i ≢ place → slice_index tops.new i ≡ slice_index tops.old i }
{
    if tops[place] == 0 {
        tops[place] = number;
    }
}

// Whether the blocks of sixteen columns that an area has whole seem to be marked.
fn is_marked(tops: &[usize], at: Area, block: usize) -> bool
    requires tops { length tops.now ≡ block_count }
    requires block { block < 128 }
    requires low { at.y + at.h ≤ 64 }
{
    let first = (at.y + 7) / 8;
    let end = (at.y + at.h) / 8;
    end <= first || tops[first * 129 + block] > 0 && tops[(end - 1) * 129 + block] > 0
}
