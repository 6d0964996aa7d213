//! Laying one row over many.

ghost use Rattle.std.specs.Prelude.{◌≡◌, ◌+◌, ◌-◌, ◌*◌, ◌<◌, ◌≤◌, ◌^◌, length};
ghost use Rattle.pixel.specs.Colours.{blend};
ghost use Rattle.pixel.specs.Rows.{pixel, ArePremultiplied};
ghost use Rattle.pixel.specs.LaneBytes.{IsBytes};
ghost use Rattle.pixel.specs.Surfaces.{IsPart, IsInside, EachPixel, within_rows};
ghost use Rattle.pixel.specs.inner.Columns.{columns_of};

use crate::four::{four_at, lay_four, put_four};
use crate::lanes::{are_clear, are_opaque};
use crate::sixteen::{are_sixteen_clear, are_sixteen_opaque, opaque_run};
use crate::{Area, Size, colour_at, colour_over_area, over_row};
use std::simd::prelude::*;

/// Lays the pixels of a row, from its pixel `from` on, over each row of an area of a surface.
pub fn rows_over_area(surface: &mut [u8], size: Size, at: Area, row: &[u8], from: usize)
    requires size { length surface.old ≡ 4 * (size.width * size.height) }
    requires inside { IsInside at size.width size.height }
    requires columns { 4 * (from + at.w) ≤ length row.now }
    requires premultiplied { ArePremultiplied row.now }
    ensures pixels { EachPixel size.width size.height (within_rows at at.h (λ x y below. blend below (pixel row.now (x - at.x + from)))) surface.old surface.new }
    ensures premultiplied { ArePremultiplied surface.old → ArePremultiplied surface.new }
{
    if at.h == 1 {
        row_over_row(surface, size, at, row, from);
    } else {
        row_over_columns(surface, size, at, row, from);
    }
}

// Lays the pixels of the row over those of an area of one row.
fn row_over_row(surface: &mut [u8], size: Size, at: Area, row: &[u8], from: usize)
    requires size { length surface.old ≡ 4 * (size.width * size.height) }
    requires inside { IsInside at size.width size.height }
    requires one { at.h ≡ 1 }
    requires columns { 4 * (from + at.w) ≤ length row.now }
    requires premultiplied { ArePremultiplied row.now }
    ensures pixels { EachPixel size.width size.height (within_rows at at.h (λ x y below. blend below (pixel row.now (x - at.x + from)))) surface.old surface.new }
    ensures premultiplied { ArePremultiplied surface.old → ArePremultiplied surface.new }
{
    let place = size.place_of(at.x, at.y, at.w);
    row_over_run(surface, place, at.w, row, from);
}

// Lays `n` pixels of the row, from its pixel `from` on, over those from pixel `k` on.
pub(crate) fn row_over_run(surface: &mut [u8], k: usize, n: usize, row: &[u8], from: usize)
    requires there { 4 * (k + n) ≤ length surface.old }
    requires given { 4 * (from + n) ≤ length row.now }
    requires premultiplied { ArePremultiplied row.now }
    ensures { IsPart k n (λ j below. blend below (pixel row.now (from + j))) surface.old surface.new }
{
    over_row(
        &mut surface[4 * k..4 * (k + n)],
        &row[4 * from..4 * (from + n)],
    );
}

// Lays the pixels of the row over each row of an area, some columns at a time.
fn row_over_columns(surface: &mut [u8], size: Size, at: Area, row: &[u8], from: usize)
    requires size { length surface.old ≡ 4 * (size.width * size.height) }
    requires inside { IsInside at size.width size.height }
    requires columns { 4 * (from + at.w) ≤ length row.now }
    requires premultiplied { ArePremultiplied row.now }
    ensures pixels { EachPixel size.width size.height (within_rows at at.h (λ x y below. blend below (pixel row.now (x - at.x + from)))) surface.old surface.new }
    ensures premultiplied { ArePremultiplied surface.old → ArePremultiplied surface.new }
{
    let mut done = 0;
    'runs: while done + 16 <= at.w {
        done += row_over_blocks(surface, size, at, row, from, done);
    }
    'fours: while done + 4 <= at.w {
        row_over_four_columns(surface, size, at, row, from, done);
        done += 4;
    }
    'ones: while done < at.w {
        row_over_column(surface, size, at, row, from, done);
        done += 1;
    }
}

// Lays pixels of the row over each row of some columns of the area, from its column `first` on, and returns how many:
// sixteen, or more if they are opaque and can be copied together.
fn row_over_blocks(
    surface: &mut [u8],
    size: Size,
    at: Area,
    row: &[u8],
    from: usize,
    first: usize,
) -> usize
    requires size { length surface.old ≡ 4 * (size.width * size.height) }
    requires inside { IsInside at size.width size.height }
    requires there { first + 16 ≤ at.w }
    requires columns { 4 * (from + at.w) ≤ length row.now }
    requires premultiplied { ArePremultiplied row.now }
    ensures some { 1 ≤ result }
    ensures most { first + result ≤ at.w }
    ensures pixels { EachPixel size.width size.height (within_rows (columns_of at first result) at.h (λ x y below. blend below (pixel row.now (x - at.x + from)))) surface.old surface.new }
    ensures premultiplied { ArePremultiplied surface.old → ArePremultiplied surface.new }
{
    let run = opaque_run(row, from + first, at.w - first);
    if run > 16 {
        let opaque = columns(at, first, run);
        copy_over_rows(surface, size, opaque, row, from + first);
        return run;
    }
    row_over_sixteen_columns(surface, size, at, row, from, first);
    16
}

// Lays sixteen pixels of the row over each row of sixteen columns of the area, from its column `first` on: opaque
// ones are copied, clear ones left out.
#[inline(always)]
fn row_over_sixteen_columns(
    surface: &mut [u8],
    size: Size,
    at: Area,
    row: &[u8],
    from: usize,
    first: usize,
)
    requires size { length surface.old ≡ 4 * (size.width * size.height) }
    requires inside { IsInside at size.width size.height }
    requires there { first + 16 ≤ at.w }
    requires columns { 4 * (from + at.w) ≤ length row.now }
    requires premultiplied { ArePremultiplied row.now }
    ensures pixels { EachPixel size.width size.height (within_rows (columns_of at first 16) at.h (λ x y below. blend below (pixel row.now (x - at.x + from)))) surface.old surface.new }
    ensures premultiplied { ArePremultiplied surface.old → ArePremultiplied surface.new }
{
    if are_sixteen_opaque(row, from + first) {
        let columns = columns(at, first, 16);
        copy_over_rows(surface, size, columns, row, from + first);
    } else if !are_sixteen_clear(row, from + first) {
        row_over_four_columns(surface, size, at, row, from, first);
        row_over_four_columns(surface, size, at, row, from, first + 4);
        row_over_four_columns(surface, size, at, row, from, first + 8);
        row_over_four_columns(surface, size, at, row, from, first + 12);
    }
}

// Gives each row of an area the pixels of the row from its pixel `from` on.
#[inline(always)]
fn copy_over_rows(surface: &mut [u8], size: Size, at: Area, row: &[u8], from: usize)
    requires size { length surface.old ≡ 4 * (size.width * size.height) }
    requires inside { IsInside at size.width size.height }
    requires given { 4 * (from + at.w) ≤ length row.now }
    requires premultiplied { ArePremultiplied row.now }
    ensures pixels { EachPixel size.width size.height (within_rows at at.h (λ x y below. pixel row.now (from + (x - at.x)))) surface.old surface.new }
    ensures premultiplied { ArePremultiplied surface.old → ArePremultiplied surface.new }
{
    for down in 0..at.h {
        let place = size.place_of(at.x, at.y + down, at.w);
        copy_run(surface, place, at.w, row, from);
    }
}

// Gives `n` pixels of a surface from pixel `k` on those of the row from its pixel `from` on.
#[inline(always)]
fn copy_run(surface: &mut [u8], k: usize, n: usize, row: &[u8], from: usize)
    requires there { 4 * (k + n) ≤ length surface.old }
    requires given { 4 * (from + n) ≤ length row.now }
    requires premultiplied { ArePremultiplied row.now }
    ensures { IsPart k n (λ j below. pixel row.now (from + j)) surface.old surface.new }
{
    surface[4 * k..4 * (k + n)].copy_from_slice(&row[4 * from..4 * (from + n)]);
}

// Lays four pixels of the row over each row of four columns of the area, from its column `first` on.
#[inline(always)]
fn row_over_four_columns(
    surface: &mut [u8],
    size: Size,
    at: Area,
    row: &[u8],
    from: usize,
    first: usize,
)
    requires size { length surface.old ≡ 4 * (size.width * size.height) }
    requires inside { IsInside at size.width size.height }
    requires there { first + 4 ≤ at.w }
    requires columns { 4 * (from + at.w) ≤ length row.now }
    requires premultiplied { ArePremultiplied row.now }
    ensures pixels { EachPixel size.width size.height (within_rows (columns_of at first 4) at.h (λ x y below. blend below (pixel row.now (x - at.x + from)))) surface.old surface.new }
    ensures premultiplied { ArePremultiplied surface.old → ArePremultiplied surface.new }
{
    let columns = columns(at, first, 4);
    let pixels = four_at(row, from + first);
    four_over_rows(surface, size, columns, pixels);
}

// Lays a pixel of the row over each row of column `first` of the area.
fn row_over_column(surface: &mut [u8], size: Size, at: Area, row: &[u8], from: usize, first: usize)
    requires size { length surface.old ≡ 4 * (size.width * size.height) }
    requires inside { IsInside at size.width size.height }
    requires there { first < at.w }
    requires columns { 4 * (from + at.w) ≤ length row.now }
    requires premultiplied { ArePremultiplied row.now }
    ensures pixels { EachPixel size.width size.height (within_rows (columns_of at first 1) at.h (λ x y below. blend below (pixel row.now (x - at.x + from)))) surface.old surface.new }
    ensures premultiplied { ArePremultiplied surface.old → ArePremultiplied surface.new }
{
    let column = columns(at, first, 1);
    let colour = colour_at(row, from + first);
    colour_over_area(surface, size, column, colour);
}

// `n` columns of an area, from its column `first` on.
fn columns(at: Area, first: usize, n: usize) -> Area
    requires there { first + n ≤ at.w }
    requires fits { at.x + at.w < 2 ^ 64 }
    ensures { result ≡ columns_of at first n }
{
    Area {
        x: at.x + first,
        y: at.y,
        w: n,
        h: at.h,
    }
}

// Lays four pixels over each row of an area of four columns.
#[inline(always)]
fn four_over_rows(surface: &mut [u8], size: Size, at: Area, pixels: u8x16)
    requires size { length surface.old ≡ 4 * (size.width * size.height) }
    requires inside { IsInside at size.width size.height }
    requires four { at.w ≡ 4 }
    requires bytes { IsBytes pixels }
    requires premultiplied { ArePremultiplied pixels }
    ensures pixels { EachPixel size.width size.height (within_rows at at.h (λ x y below. blend below (pixel pixels (x - at.x)))) surface.old surface.new }
    ensures premultiplied { ArePremultiplied surface.old → ArePremultiplied surface.new }
{
    if are_opaque(pixels) {
        put_four_in_rows(surface, size, at, pixels);
    } else if !are_clear(pixels) {
        lay_four_over_rows(surface, size, at, pixels);
    }
}

// Gives the pixels of each row of an area of four columns.
#[inline(always)]
fn put_four_in_rows(surface: &mut [u8], size: Size, at: Area, pixels: u8x16)
    requires size { length surface.old ≡ 4 * (size.width * size.height) }
    requires inside { IsInside at size.width size.height }
    requires four { at.w ≡ 4 }
    requires bytes { IsBytes pixels }
    requires premultiplied { ArePremultiplied pixels }
    ensures pixels { EachPixel size.width size.height (within_rows at at.h (λ x y below. pixel pixels (x - at.x))) surface.old surface.new }
    ensures premultiplied { ArePremultiplied surface.old → ArePremultiplied surface.new }
{
    for row in 0..at.h {
        let place = size.place_of(at.x, at.y + row, 4);
        put_four(surface, place, pixels);
    }
}

// Lays the pixels over each row of an area of four columns.
#[inline(always)]
fn lay_four_over_rows(surface: &mut [u8], size: Size, at: Area, pixels: u8x16)
    requires size { length surface.old ≡ 4 * (size.width * size.height) }
    requires inside { IsInside at size.width size.height }
    requires four { at.w ≡ 4 }
    requires bytes { IsBytes pixels }
    requires premultiplied { ArePremultiplied pixels }
    ensures pixels { EachPixel size.width size.height (within_rows at at.h (λ x y below. blend below (pixel pixels (x - at.x)))) surface.old surface.new }
    ensures premultiplied { ArePremultiplied surface.old → ArePremultiplied surface.new }
{
    for row in 0..at.h {
        let place = size.place_of(at.x, at.y + row, 4);
        lay_four(surface, place, pixels);
    }
}
