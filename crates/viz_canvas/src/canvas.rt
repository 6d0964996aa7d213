//! Canvases.

ghost use Rattle.std.specs.Prelude.{◌≡◌, ℕ, ◌+◌, ◌*◌, ◌<◌, ◌≤◌, ◌^◌, length, IfOk, OnOk, OnErr};
ghost use Rattle.pixel.specs.Rows.{pixel};
ghost use Rattle.viz_scene.specs.Sound.{IsSceneSide};
ghost use Rattle.viz_canvas.specs.Canvases;
ghost use Rattle.viz_canvas.specs.Canvases.{IsOfSize, EachIs, canvas_pixel, CanvasShows, ShowsIn};
ghost use Rattle.viz_canvas.specs.CopiedRows.{row_before};
ghost use Rattle.viz_canvas.specs.Formats.{bytes_at};

use crate::drawing::{draw_rects, draw_rects_in_parts, prepare, screen_of};
use crate::format::PixelFormat;
use crate::moving::move_rows;
use crate::runs::write_run;
use pixel::{Colour, Size, fill_row};
use region::Region;
use std::alloc::{AllocError, Global};
use std::marker::{Model, PhantomData, Sync};
use std::thread::Threads;
use viz_render::Surfaces;
use viz_scene::Scene;

/// The picture of a screen of 1 to 2048 by 1 to 2048 pixels, in a pixel format.
pub struct Canvas<F: PixelFormat> {
    w: u32,
    h: u32,
    bytes: Vec<u8>,
    // Kept from one scene to the next.
    surfaces: Vec<Surfaces>,
    format: PhantomData<F>,
}

impl<F: PixelFormat> Model for Canvas<F> {
    ghost use Rattle.viz_canvas.specs.Canvases.{CanvasView, IsCanvas};

    ghost Value = { CanvasView };

    ghost view = { λ c. record { w = c.w; h = c.h; bytes = c.bytes.items } };

    ghost invariant = { λ c. IsCanvas F.DEPTH (record { w = c.w; h = c.h; bytes = c.bytes.items }) };
}

// Written out, since a derived drop is proved anew, field by field, in each function that lets one go.
impl<F: PixelFormat> Drop for Canvas<F> {
    fn drop(self) {
        let Canvas {
            w: _,
            h: _,
            bytes: _,
            surfaces: _,
            format: _,
        } = self;
    }
}

impl<F: PixelFormat> Canvas<F> {
    /// A canvas that is black and opaque. An error means out of memory.
    pub fn new(alloc: Global, w: u32, h: u32) -> Result<Canvas<F>, AllocError>
        requires wide { IsSceneSide w }
        requires tall { IsSceneSide h }
        ensures size { IfOk result (λ canvas. IsOfSize w h canvas) }
        ensures pixels { IfOk result (λ canvas. EachIs F.DEPTH (λ x y. F.bytes_of Canvases.black) canvas) }
    {
        let bytes = black_picture::<F>(alloc, w as usize, h as usize)?;
        Ok(Canvas {
            w,
            h,
            bytes,
            surfaces: Vec::new(alloc),
            format: PhantomData,
        })
    }

    /// The width in pixels.
    pub fn w(&self) -> u32
        ensures value { result ≡ self.now.w }
        ensures side { IsSceneSide result }
    {
        self.w
    }

    /// The height in pixels.
    pub fn h(&self) -> u32
        ensures value { result ≡ self.now.h }
        ensures side { IsSceneSide result }
    {
        self.h
    }

    /// The bytes of each pixel, row by row from the top, with nothing between them.
    pub fn bytes(&self) -> &[u8]
        ensures value { result.now ≡ self.now.bytes }
        ensures size { length result.now ≡ F.DEPTH * (self.now.w * self.now.h) }
    {
        &self.bytes
    }

    /// Gives `count` rows from row `to` on the pixels that as many rows from row `from` on had; the other rows
    /// stay.
    pub fn copy_rows(&mut self, from: u32, to: u32, count: u32)
        requires from { from + count ≤ self.old.h }
        requires to { to + count ≤ self.old.h }
        ensures size { IsOfSize self.old.w self.old.h self.new }
        ensures pixels { EachIs F.DEPTH (λ x y. canvas_pixel F.DEPTH self.old x (row_before from to count y)) self.new }
    {
        let (width, height) = (self.w as usize, self.h as usize);
        move_rows::<F>(
            self.bytes.as_mut_slice(),
            width,
            height,
            from as usize,
            to as usize,
            count as usize,
        );
    }

    /// Draws a scene of its size: each pixel is then the scene's. An error means out of memory, and the canvas is as it
    /// was.
    pub fn draw(&mut self, scene: &Scene) -> Result<(), AllocError>
        requires { IsOfSize scene.now.w scene.now.h self.old }
        ensures size { IsOfSize scene.now.w scene.now.h self.new }
        ensures bytes { length self.new.bytes ≡ F.DEPTH * (scene.now.w * scene.now.h) }
        ensures ok { OnOk result (CanvasShows F.DEPTH F.bytes_of scene.now self.new) }
        ensures err { OnErr result (self.new ≡ self.old) }
    {
        let screen = [screen_of(scene)];
        let alloc = *self.bytes.allocator();
        prepare(alloc, scene, &screen, 1, &mut self.surfaces)?;
        let across = self.w as usize;
        let bytes = self.bytes.as_mut_slice();
        draw_rects::<F>(scene, bytes, across, &screen, &mut self.surfaces[0]);
        Ok(())
    }

    /// Draws the part of a scene of its size that a region covers: there each pixel is then the scene's, and the others
    /// stay. An error means out of memory, and the canvas is as it was.
    pub fn draw_region(&mut self, scene: &Scene, region: &Region) -> Result<(), AllocError>
        requires { IsOfSize scene.now.w scene.now.h self.old }
        ensures size { IsOfSize scene.now.w scene.now.h self.new }
        ensures bytes { length self.new.bytes ≡ F.DEPTH * (scene.now.w * scene.now.h) }
        ensures ok { OnOk result (ShowsIn F.DEPTH F.bytes_of scene.now region.now self.old self.new) }
        ensures err { OnErr result (self.new ≡ self.old) }
    {
        let alloc = *self.bytes.allocator();
        prepare(alloc, scene, region.rects(), 1, &mut self.surfaces)?;
        let across = self.w as usize;
        let bytes = self.bytes.as_mut_slice();
        draw_rects::<F>(scene, bytes, across, region.rects(), &mut self.surfaces[0]);
        Ok(())
    }
}

impl<F: PixelFormat + Sync> Canvas<F> {
    /// Draws as `draw_region` does, and each rect of the region that is large enough in at most the given number of
    /// parts of whole rows, each by a thread of its own if it can be started. If one part is enough, none is
    /// started.
    pub fn draw_region_in_parts<R: Threads + Sync>(
        &mut self,
        rt: &R,
        scene: &Scene,
        region: &Region,
        parts: usize,
    ) -> Result<(), AllocError>
        requires { IsOfSize scene.now.w scene.now.h self.old }
        ensures size { IsOfSize scene.now.w scene.now.h self.new }
        ensures bytes { length self.new.bytes ≡ F.DEPTH * (scene.now.w * scene.now.h) }
        ensures ok { OnOk result (ShowsIn F.DEPTH F.bytes_of scene.now region.now self.old self.new) }
        ensures err { OnErr result (self.new ≡ self.old) }
    {
        let alloc = *self.bytes.allocator();
        prepare(alloc, scene, region.rects(), parts, &mut self.surfaces)?;
        let across = self.w as usize;
        let bytes = self.bytes.as_mut_slice();
        let surfaces = self.surfaces.as_mut_slice();
        draw_rects_in_parts::<R, F>(rt, scene, bytes, across, region.rects(), surfaces);
        Ok(())
    }
}

// The bytes of a black picture.
fn black_picture<F: PixelFormat>(
    alloc: Global,
    width: usize,
    height: usize,
) -> Result<Vec<u8>, AllocError>
    requires wide { width ≤ 2048 }
    requires tall { height ≤ 2048 }
    ensures size { IfOk result (λ bytes. length bytes.items ≡ F.DEPTH * (width * height)) }
    ensures pixels { IfOk result (λ bytes. (k : ℕ) → k < width * height → bytes_at F.DEPTH bytes.items k ≡ F.bytes_of Canvases.black) }
{
    let mut row = vec![in alloc; 0u8; 4 * width]?;
    fill_row(row.as_mut_slice(), black());
    let mut bytes = vec![in alloc; 0u8; F::DEPTH * (width * height)]?;
    let size = Size { width, height };
    fill_rows::<F>(bytes.as_mut_slice(), size, row.as_slice());
    Ok(bytes)
}

// Gives all rows of a picture of this size the pixels of one.
fn fill_rows<F: PixelFormat>(bytes: &mut [u8], size: Size, row: &[u8])
    requires size { length bytes.old ≡ F.DEPTH * (size.width * size.height) }
    requires row { length row.now ≡ 4 * size.width }
    requires small { size.width * size.height < 2 ^ 64 }
    requires black { (k : ℕ) → k < size.width → pixel row.now k ≡ Canvases.black }
    ensures { (k : ℕ) → k < size.width * size.height → bytes_at F.DEPTH bytes.new k ≡ F.bytes_of Canvases.black }
{
    for y in 0..size.height {
        let place = size.place_of(0, y, size.width);
        write_run::<F>(bytes, place, size.width, row, 0);
    }
}

// The opaque black.
fn black() -> Colour
    ensures { result ≡ Canvases.black }
{
    match Colour::new(0, 0, 0, 255) {
        Some(colour) => colour,
        None => Colour::CLEAR,
    }
}
