//! Layers laid over a row in order, in nested groups that are blended as one.

ghost use Rattle.std.specs.Prelude.{◌≡◌, ◌≤◌, ◌<◌, ◌+◌, ◌*◌, ℕ, pos, length, IfOk, OnOk};
ghost use Rattle.std.specs.List.{prefix_len};
ghost use Rattle.pixel.specs.Colours.{blend, scaled, clear};
ghost use Rattle.pixel.specs.Rows.{pixel, ArePremultiplied};
ghost use Rattle.page_layers.specs.Painting.{folded, items_at};
ghost use Rattle.page_layers.specs.inner.Runs.{lies_in};
ghost use Rattle.recording_check.specs.inner.Sheets.{effects_of, colour_in, HaveOpacities};

use crate::line::{ScreenRow, lay_over};
use crate::sheet::Sheet;
use pixel::faded_over;
use std::alloc::{AllocError, Global};

/// A transparent row of this many pixels.
pub(crate) fn clear_row(alloc: Global, width: usize) -> Result<Vec<u8>, AllocError>
    requires { width ≤ 2048 }
    ensures size { IfOk result (λ row. length row.items ≡ 4 * width) }
    ensures pixels { IfOk result (λ row. (k : ℕ) → k < width → pixel row.items k ≡ clear) }
    ensures premultiplied { IfOk result (λ row. ArePremultiplied row.items) }
{
    vec![in alloc; 0u8; 4 * width]
}

// Whether the layer lies in this effect's group at this depth.
fn lies_inside(sheet: &Sheet, depth: usize, effect: u32) -> bool
    ensures { result ≡ lies_in effects_of depth effect sheet.now }
{
    match sheet.group(depth) {
        None => false,
        Some(group) => effect == group.effect,
    }
}

// How many layers from the first on lie in this effect's group.
fn run_len(sheets: &[Sheet], depth: usize, effect: u32) -> usize
    ensures value { result ≡ prefix_len (lies_in effects_of depth effect) sheets.now }
    ensures within { result ≤ length sheets.now }
{
    let mut len = 0;
    for sheet in sheets {
        if !lies_inside(sheet, depth, effect) {
            break;
        }
        len += 1;
    }
    len
}

// Lays a row, faded to an opacity, over another.
fn fade_over(row: &mut [u8], width: usize, inner: &[u8], opacity: u8)
    requires size { length row.old ≡ 4 * width }
    requires same { length inner.now ≡ 4 * width }
    requires premultiplied { ArePremultiplied inner.now }
    ensures pixels { (x : ℕ) → x < width → pixel row.new x ≡ blend (pixel row.old x) (scaled (pixel inner.now x) opacity) }
    ensures premultiplied { ArePremultiplied row.old → ArePremultiplied row.new }
{
    faded_over(row, inner, opacity);
}

/// Layers, those of one effect with their groups from a depth on, laid over a row of the screen in order.
/// Layers that stand together in a group are blended from transparent, faded by the group's opacity, and laid
/// over what stands below them. What `line` holds afterwards is not said. An error means out of
/// memory.
pub(crate) fn paint_from(
    alloc: Global,
    sheets: &[Sheet],
    depth: usize,
    at: ScreenRow,
    row: &mut [u8],
    line: &mut [u8],
) -> Result<(), AllocError>
    requires deep { depth ≤ 256 }
    requires cut { 1 ≤ at.tile }
    requires few { at.width ≤ 2048 }
    requires down { at.y ≤ 2047 }
    requires size { length row.old ≡ 4 * at.width }
    requires line { 4 * at.width ≤ length line.old }
    ensures pixels { OnOk result ((opacity : ℕ → ℕ) (x : ℕ) → HaveOpacities opacity sheets.now → x < at.width →
        pixel row.new x ≡ folded opacity (items_at effects_of (colour_in at.tile (pos x) (pos at.y)) depth sheets.now) (pixel row.old x)) }
    ensures premultiplied { ArePremultiplied row.old → ArePremultiplied row.new }
{
    let mut rest = sheets;
    while let Some((first, tail)) = rest.split_first() {
        match first.group(depth) {
            None => {
                lay_over(first.placed(), at, row, line);
                rest = tail;
            }
            Some(group) => {
                let (run, after) = rest.split_at(run_len(rest, depth, group.effect));
                let mut inner = clear_row(alloc, at.width)?;
                paint_from(alloc, run, depth + 1, at, inner.as_mut_slice(), line)?;
                fade_over(row, at.width, inner.as_slice(), group.opacity);
                rest = after;
            }
        }
    }
    Ok(())
}
