//! The area that opaque quads cover, by bands of rows of the screen.
//!
//! A quad meets few bands, so it is looked for among their rects alone: a pass may have thousands of opaque quads of
//! which no two make one rect.

ghost use Rattle.std.specs.Prelude.{◌≡◌, ◌<◌, ◌≤◌, ◌*◌, ℤ, pos, ◌<ℤ◌, ◌≤ℤ◌, false, [], length, All, IsTrue, IfOk, OnOk};
ghost use Rattle.viz_scene.specs.Areas.{IsOnScreen};
ghost use Rattle.viz_occlusion.specs.inner.Bands.{InBand, Gains, GainsFrom, GainsInBands, IsNothing, IsBlockOfBand, IsOpenInBand, IsBlockOfBands, IsOpenInBands, IsInBands, HasGap};

use crate::cover::{add_rect, are_rows_covered, end_of};
use geom::Rect;
use std::alloc::{AllocError, Global};
use std::marker::Model;

/// How many rows of the screen a band has.
const ROWS: i32 = 32;

/// How many bands the largest screen has.
const BANDS: usize = 64;

/// The rects that cover points of one band; they may reach beyond it. Contracts see them as a list.
#[derive(Drop)]
struct Band {
    rects: Vec<Rect>,
}

impl Model for Band {
    ghost use Rattle.std.specs.Prelude.{List, All};
    ghost use Rattle.geom.specs.declared.Rect.{Rect};
    ghost use Rattle.viz_scene.specs.Areas.{IsOnScreen};

    ghost Value = { List Rect };

    ghost view = { λ b. b.rects.items };

    ghost invariant = { λ b. All IsOnScreen b.rects.items };
}

impl Band {
    // A band in which nothing is covered.
    fn new(alloc: Global) -> Band
        ensures { result ≡ [] }
    {
        Band {
            rects: Vec::new(alloc),
        }
    }

    // Adds the points of a rect.
    fn add(&mut self, rect: Rect) -> Result<(), AllocError>
        requires { IsOnScreen rect }
        ensures { OnOk result (Gains self.old self.new rect) }
    {
        add_rect(&mut self.rects, rect)
    }

    // The rects.
    fn rects(&self) -> &[Rect]
        ensures value { result.now ≡ self.now }
        ensures inside { All IsOnScreen result.now }
    {
        self.rects.as_slice()
    }
}

/// The area that opaque quads cover. Contracts see the rects of each band, from the top of the screen.
pub(crate) struct Cover {
    bands: Vec<Band>,
}

impl Model for Cover {
    ghost use Rattle.std.specs.Prelude.{◌≡◌, List, length};
    ghost use Rattle.geom.specs.declared.Rect.{Rect};

    ghost Value = { List (List Rect) };

    ghost view = { λ c. c.bands.items };

    ghost invariant = { λ c. length c.bands.items ≡ 64 };
}

// Written out, since a derived drop is proved anew, field by field, in each function that lets one go.
impl Drop for Cover {
    fn drop(self) {
        let Cover { bands: _ } = self;
    }
}

impl Cover {
    /// Nothing is covered. An error means out of memory.
    pub(crate) fn new(alloc: Global) -> Result<Cover, AllocError>
        ensures { IfOk result (λ cover. IsNothing cover) }
    {
        let mut bands = Vec::with_capacity(alloc, BANDS)?;
        while bands.len() < BANDS {
            bands.push(Band::new(alloc))?;
        }
        Ok(Cover { bands })
    }

    /// Adds the points of a rect. An error means out of memory.
    pub(crate) fn add(&mut self, rect: Rect) -> Result<(), AllocError>
        requires { IsOnScreen rect }
        ensures { OnOk result (GainsInBands self.old self.new rect) }
    {
        let first = band_of(rect.y);
        let end = band_after(end_of(rect.y, rect.h));
        add_to_bands(&mut self.bands, first, end, rect)?;
        Ok(())
    }

    /// Whether each point of an area is covered.
    pub(crate) fn has(&self, area: Rect) -> bool
        requires { IsOnScreen area }
        ensures yes { IsTrue result → IsInBands area self.now }
        ensures no { result ≡ false → HasGap area self.now }
    {
        let right = end_of(area.x, area.w);
        let bottom = end_of(area.y, area.h);
        are_bands_covered(area.x, right, area.y, bottom, self.bands.as_slice())
    }
}

// The band in which a row lies.
fn band_of(y: i32) -> usize
    requires low { pos 0 ≤ℤ y }
    requires high { y ≤ℤ pos 2079 }
    ensures row { InBand result y }
    ensures few { result ≤ 64 }
{
    (y as u32 / ROWS as u32) as usize
}

// The number after the bands that have rows above an end.
fn band_after(end: i32) -> usize
    requires low { pos 0 ≤ℤ end }
    requires high { end ≤ℤ pos 2048 }
    ensures below { end ≤ℤ pos (32 * result) }
    ensures few { result ≤ 64 }
{
    band_of(end + (ROWS - 1))
}

// The first row of a band.
fn start_of(band: usize) -> i32
    requires { band < 64 }
    ensures { result ≡ pos (32 * band) }
{
    band as i32 * ROWS
}

// Adds the points of a rect to the bands from one on and before another. After an error some may have them.
fn add_to_bands(
    bands: &mut Vec<Band>,
    first: usize,
    end: usize,
    rect: Rect,
) -> Result<(), AllocError>
    requires rect { IsOnScreen rect }
    requires ordered { first ≤ end }
    requires end { end ≤ length bands.old.items }
    ensures many { length bands.new.items ≡ length bands.old.items }
    ensures gains { OnOk result (GainsFrom first end bands.old.items bands.new.items rect) }
{
    for band in first..end {
        bands[band].add(rect)?;
    }
    Ok(())
}

// Whether each point of some columns and rows is covered.
fn are_bands_covered(left: i32, right: i32, top: i32, bottom: i32, bands: &[Band]) -> bool
    requires top { pos 0 ≤ℤ top }
    requires ordered { top ≤ℤ bottom }
    requires bottom { bottom ≤ℤ pos 2048 }
    requires many { length bands.now ≡ 64 }
    ensures yes { IsTrue result → IsBlockOfBands bands.now left right top bottom }
    ensures no { result ≡ false → IsOpenInBands bands.now left right top bottom }
{
    for band in band_of(top)..band_after(bottom) {
        if !is_band_covered(left, right, top, bottom, band, bands[band].rects()) {
            return false;
        }
    }
    true
}

// Whether rects cover each point of some columns and rows that lies in a band.
fn is_band_covered(
    left: i32,
    right: i32,
    top: i32,
    bottom: i32,
    band: usize,
    rects: &[Rect],
) -> bool
    requires band { band < 64 }
    requires rects { All IsOnScreen rects.now }
    ensures yes { IsTrue result → IsBlockOfBand band rects.now left right top bottom }
    ensures no { result ≡ false → IsOpenInBand band rects.now left right top bottom }
{
    let start = start_of(band);
    are_rows_covered(left, right, top.max(start), bottom.min(start + ROWS), rects)
}
