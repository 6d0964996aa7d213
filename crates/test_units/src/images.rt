//! Images of tiles worked by hand.

ghost use Rattle.std.specs.Prelude.{◌≡◌, pos, IfOk};
ghost use Rattle.geom.specs.Covers.{IsSound};

use geom::{Rect, TileKey};
use page_display_list::{DisplayList, Item};
use pixel::Colour;
use std::alloc::{AllocError, Global};
use std::sync::Arc;
use test_table::{Checks, LineFault};
use tile_raster::{Job, TileImage};

/// A rect over half of a tile.
pub fn rect_over_half_of_a_tile(alloc: Global, checks: &mut Checks) -> Result<(), LineFault> {
    let image = image_of(alloc, 1)?;
    checks.same("no colour of its own", &image.solid(), &None);
    checks.same("its key", &image.key(), &KEY);
    let row = [255, 0, 0, 255, 0, 0, 0, 0];
    checks.same("its row", &image.row(0), &row.as_slice());
    Ok(())
}

/// A tile of one colour.
pub fn tile_of_one_colour(alloc: Global, checks: &mut Checks) -> Result<(), LineFault> {
    let image = image_of(alloc, 2)?;
    checks.same("its red", &image.solid().map(|c| c.r()), &Some(255));
    let row = [255, 0, 0, 255, 255, 0, 0, 255];
    checks.same("its row", &image.row(0), &row.as_slice());
    Ok(())
}

/// The key of the tile.
const KEY: TileKey = TileKey {
    layer: 1,
    x: 0,
    y: 0,
    stamp: 0,
};

/// A tile of 2 by 1 under a red rect of this width.
fn image_of(alloc: Global, wide: u8) -> Result<Arc<TileImage>, AllocError>
    ensures { IfOk result (λ image. image.value.rect.h ≡ pos 1) }
{
    let mut list = DisplayList::new(alloc);
    if let Some(colour) = Colour::new(255, 0, 0, 255) {
        let rect = strip(wide);
        if let Err((full, _)) = list.insert(0, Item::Rect { rect, colour }) {
            return Err(full);
        }
    }
    let list = match Arc::new(alloc, list) {
        Ok(list) => list,
        Err(_) => return Err(AllocError),
    };
    let job = Job {
        key: KEY,
        list,
        rect: strip(2),
    };
    match job.run(alloc) {
        Ok(image) => Ok(image),
        Err((full, _)) => Err(full),
    }
}

/// The rect of this width and one row, at the origin.
fn strip(wide: u8) -> Rect
    ensures sound { IsSound result }
    ensures one_row { result.h ≡ pos 1 }
{
    Rect {
        x: 0,
        y: 0,
        w: wide as i32,
        h: 1,
    }
}
