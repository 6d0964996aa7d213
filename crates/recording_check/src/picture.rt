//! An image beside the painting.

ghost use Rattle.std.specs.Prelude.{◌≡◌, ◌≤◌, ◌<◌, ◌*◌, ℕ, List, length, option_copied, IfOk, OnOk};
ghost use Rattle.std.specs.Bool.{Decides};
ghost use Rattle.geom.specs.declared.rect.Point.{Point};
ghost use Rattle.geom.specs.declared.tile.TileKey.{TileKey as Key};
ghost use Rattle.pixel.specs.Rows.{pixel, ArePremultiplied};
ghost use Rattle.page_properties.specs.OffsetMap.{offset_at, AreOffsets};
ghost use Rattle.page_layers.specs.Pages.{Page};
ghost use Rattle.page_layers.specs.Paintings.{ReadyShows};
ghost use Rattle.model_history.specs.Recordings.{rgb, image, image_head};
ghost use Rattle.recording_check.specs.inner.Behind.{behind_each, pixel_of, row_text};
ghost use Rattle.recording_check.specs.inner.Sheets.{ready};

use crate::fronts::{behind_front, behind_pixel};
use crate::line::ScreenRow;
use crate::sheet::{Sheet, sheets_of};
use crate::stack::{clear_row, paint_from};
use geom::TileKey;
use page_layers::{LayerTree, View};
use page_properties::Offsets;
use pixel::{Colour, colour_at, fill_row};
use recording_text::push_image_head;
use std::alloc::{AllocError, Global};

/// What the screen shows.
#[derive(Drop)]
struct Painting<'a> {
    // the layers, from the lowest on
    sheets: &'a [Sheet],
    view: View,
    // what stands below them
    background: Colour,
}

// What stands after the first w pixels of a row; None if the bytes do not begin with them.
fn behind_row<'a>(row: &[u8], w: usize, bytes: &'a [u8]) -> Option<&'a [u8]>
    requires size { length row.now ≡ 4 * w }
    requires premultiplied { ArePremultiplied row.now }
    ensures { option_copied result ≡ behind_each w (λ x. rgb (pixel row.now x)) bytes.now }
{
    let mut rest = bytes;
    for x in 0..w {
        match behind_pixel(colour_at(row, x), rest) {
            None => return None,
            Some(next) => rest = next,
        }
    }
    Some(rest)
}

// Paints row y of the screen. What `line` holds afterwards is not said.
fn paint_row(
    alloc: Global,
    painting: &Painting<'_>,
    y: u32,
    row: &mut [u8],
    line: &mut [u8],
) -> Result<(), AllocError>
    requires cut { 1 ≤ painting.now.view.tile }
    requires few { painting.now.view.w ≤ 2048 }
    requires down { y ≤ 2047 }
    requires size { length row.old ≡ 4 * painting.now.view.w }
    requires line { 4 * painting.now.view.w ≤ length line.old }
    ensures pixels { OnOk result ((p : Page) (offset : ℕ → Point) (missing : List Key) → ReadyShows p offset missing (ready painting.now.view.tile painting.now.sheets.now) →
        (x : ℕ) → x < painting.now.view.w → pixel row.new x ≡ pixel_of p offset missing painting.now.background x y) }
    ensures premultiplied { ArePremultiplied row.new }
{
    let at = ScreenRow {
        y,
        width: painting.view.w as usize,
        tile: painting.view.tile,
    };
    fill_row(row, painting.background);
    paint_from(alloc, painting.sheets, 0, at, row, line)?;
    Ok(())
}

// What stands after the pixels of all rows of the screen; None if the bytes do not begin with them. What `row` and `line` hold afterwards is not said.
fn behind_rows<'a>(
    alloc: Global,
    painting: &Painting<'_>,
    row: &mut [u8],
    line: &mut [u8],
    bytes: &'a [u8],
) -> Result<Option<&'a [u8]>, AllocError>
    requires cut { 1 ≤ painting.now.view.tile }
    requires width { painting.now.view.w ≤ 2048 }
    requires height { painting.now.view.h ≤ 2048 }
    requires size { length row.old ≡ 4 * painting.now.view.w }
    requires line { 4 * painting.now.view.w ≤ length line.old }
    ensures { IfOk result (λ rest. (p : Page) (offset : ℕ → Point) (missing : List Key) → ReadyShows p offset missing (ready painting.now.view.tile painting.now.sheets.now) →
        option_copied rest ≡ behind_each painting.now.view.h (row_text (pixel_of p offset missing painting.now.background) painting.now.view.w) bytes.now) }
{
    let width = painting.view.w as usize;
    let mut rest = bytes;
    for y in 0..painting.view.h {
        paint_row(alloc, painting, y, row, line)?;
        match behind_row(row, width, rest) {
            None => return Ok(None),
            Some(next) => rest = next,
        }
    }
    Ok(Some(rest))
}

// What stands after the first w pixels of each of the first h rows of the screen, with the memory for the
// rows; None if the bytes do not begin with them.
fn behind_pixels<'a>(
    alloc: Global,
    painting: &Painting<'_>,
    bytes: &'a [u8],
) -> Result<Option<&'a [u8]>, AllocError>
    requires cut { 1 ≤ painting.now.view.tile }
    requires width { painting.now.view.w ≤ 2048 }
    requires height { painting.now.view.h ≤ 2048 }
    ensures { IfOk result (λ rest. (p : Page) (offset : ℕ → Point) (missing : List Key) → ReadyShows p offset missing (ready painting.now.view.tile painting.now.sheets.now) →
        option_copied rest ≡ behind_each painting.now.view.h (row_text (pixel_of p offset missing painting.now.background) painting.now.view.w) bytes.now) }
{
    let width = painting.view.w as usize;
    let mut row = clear_row(alloc, width)?;
    let mut line = clear_row(alloc, width)?;
    let rest = behind_rows(
        alloc,
        painting,
        row.as_mut_slice(),
        line.as_mut_slice(),
        bytes,
    )?;
    Ok(rest)
}

// Whether bytes are a head and the rows of the screen after it, and nothing more.
fn holds_image(
    alloc: Global,
    painting: &Painting<'_>,
    head: &[u8],
    bytes: &[u8],
) -> Result<bool, AllocError>
    requires cut { 1 ≤ painting.now.view.tile }
    requires width { painting.now.view.w ≤ 2048 }
    requires height { painting.now.view.h ≤ 2048 }
    requires head { head.now ≡ image_head painting.now.view.w painting.now.view.h }
    ensures { IfOk result (λ yes. (p : Page) (offset : ℕ → Point) (missing : List Key) → ReadyShows p offset missing (ready painting.now.view.tile painting.now.sheets.now) →
        Decides yes (bytes.now ≡ image (pixel_of p offset missing painting.now.background) painting.now.view.w painting.now.view.h)) }
{
    let Some(pixels) = behind_front(head, bytes) else {
        return Ok(false);
    };
    let behind = behind_pixels(alloc, painting, pixels)?;
    match behind {
        None => Ok(false),
        Some(rest) => Ok(rest.is_empty()),
    }
}

/// Whether bytes are the image of what the screen shows: of the painting of a page, as large as its view, at
/// these offsets of its scrollers, over this background, and with the tiles of these keys missing. Each offset
/// is from 0 to 1048576 on both axes. An error means out of memory.
pub fn is_painted(
    alloc: Global,
    page: &LayerTree,
    offsets: &Offsets,
    missing: &[TileKey],
    background: Colour,
    bytes: &[u8],
) -> Result<bool, AllocError>
    requires { AreOffsets (offset_at offsets.now) }
    ensures { IfOk result (λ yes. Decides yes (bytes.now ≡ image (pixel_of page.now (offset_at offsets.now) missing.now background) page.now.view.w page.now.view.h)) }
{
    page.is_page();
    let view = page.view();
    let sheets = sheets_of(alloc, page, offsets, missing)?;
    let mut head = Vec::new(alloc);
    push_image_head(&mut head, view.w, view.h)?;
    let painting = Painting {
        sheets: sheets.as_slice(),
        view,
        background,
    };
    let holds = holds_image(alloc, &painting, head.as_slice(), bytes)?;
    Ok(holds)
}
