//! Lists and bitmaps worked by hand.

use geom::Rect;
use page_display_list::{BitmapCause, DisplayList, Item};
use pixel::Colour;
use std::alloc::{AllocError, Global};
use std::sync::Arc;
use test_table::{Checks, LineFault};

/// These bytes, to be shared.
fn shared(alloc: Global, bytes: &[u8]) -> Result<Arc<Vec<u8>>, AllocError> {
    let pixels = Vec::from_slice(alloc, bytes)?;
    Ok(Arc::new(alloc, pixels)?)
}

/// What `Item::bitmap` finds wrong with these bytes; `None` if they are a bitmap.
fn cause_of(alloc: Global, w: i32, bytes: &[u8]) -> Result<Option<BitmapCause>, LineFault> {
    let rect = Rect {
        x: 0,
        y: 0,
        w,
        h: 1,
    };
    match Item::bitmap(rect, shared(alloc, bytes)?) {
        Ok(_) => Ok(None),
        Err(bad) => {
            if bad.pixels.as_slice() != bytes {
                return Err(LineFault::CaseRefused);
            }
            Ok(Some(bad.cause))
        }
    }
}

/// Bytes that are no bitmap, which come back, and some that are one.
pub fn bad_bitmaps(alloc: Global, checks: &mut Checks) -> Result<(), LineFault> {
    let bytes = [0xff, 0, 0, 0xff, 2, 0, 0, 1];
    let cause = cause_of(alloc, 2, bytes.as_slice())?;
    let pixel = BitmapCause::Pixel { place: 1 };
    checks.same("no colour", &cause, &Some(pixel));
    let cause = cause_of(alloc, 2, &bytes[..7])?;
    let length = BitmapCause::Length {
        given: 7,
        wanted: 8,
    };
    checks.same("too short", &cause, &Some(length));
    let cause = cause_of(alloc, 257, bytes.as_slice())?;
    checks.same("too wide", &cause, &Some(BitmapCause::Side));
    checks.same("a bitmap", &cause_of(alloc, 1, &bytes[..4])?, &None);
    Ok(())
}

/// A list of one red pixel.
pub fn one_red_pixel(alloc: Global, checks: &mut Checks) -> Result<(), LineFault> {
    let red = Colour::new(0xff, 0, 0, 0xff).unwrap_or(Colour::CLEAR);
    let rect = Rect {
        x: 0,
        y: 0,
        w: 1,
        h: 1,
    };
    let mut list = DisplayList::new(alloc);
    if let Err((full, _item)) = list.insert(0, Item::Rect { rect, colour: red }) {
        return Err(LineFault::Memory(full));
    }
    let area = Rect {
        x: 0,
        y: 0,
        w: 2,
        h: 1,
    };
    let bytes = list.raster(area)?;
    let row = [0xff, 0, 0, 0xff, 0, 0, 0, 0];
    checks.same("its row", &bytes.as_slice(), &row.as_slice());
    let copy = list.clone()?;
    checks.same("of one item", &copy.len(), &1);
    checks.same("the copy's pixel", &copy.pixel_at(0, 0), &red);
    Ok(())
}

/// A bitmap of two half-transparent pixels over a white rect, of which the area shows the lower right corner.
pub fn bitmap_over_a_rect(alloc: Global, checks: &mut Checks) -> Result<(), LineFault> {
    let white = Colour::new(0xff, 0xff, 0xff, 0xff).unwrap_or(Colour::CLEAR);
    let blue = Colour::new(0, 0, 0x80, 0x80).unwrap_or(Colour::CLEAR);
    let pixels = shared(alloc, [0, 0, 0x80, 0x80, 0x80, 0, 0, 0x80].as_slice())?;
    let at = Rect {
        x: 1,
        y: 1,
        w: 2,
        h: 1,
    };
    let Ok(bitmap) = Item::bitmap(at, pixels) else {
        return Err(LineFault::CaseRefused);
    };
    let rect = Rect {
        x: 0,
        y: 0,
        w: 3,
        h: 2,
    };
    let item = Item::Rect {
        rect,
        colour: white,
    };
    let mut list = DisplayList::new(alloc);
    if let Err((full, _item)) = list.insert(0, item) {
        return Err(LineFault::Memory(full));
    }
    if let Err((full, _item)) = list.insert(1, bitmap) {
        return Err(LineFault::Memory(full));
    }
    let area = Rect {
        x: 2,
        y: 0,
        w: 2,
        h: 3,
    };
    let bytes = list.raster(area)?;
    let rows = [
        0xff, 0xff, 0xff, 0xff, 0, 0, 0, 0, 0xff, 0x7f, 0x7f, 0xff, 0, 0, 0, 0, 0, 0, 0, 0, 0, 0,
        0, 0,
    ];
    checks.same("the corner", &bytes.as_slice(), &rows.as_slice());
    let first = list.remove(0);
    checks.same("the lower one is gone", &first.rect(), &rect);
    checks.same("the upper one is left", &list.pixel_at(1, 1), &blue);
    let second = list.replace(0, first);
    checks.same("it is replaced", &second.rect(), &at);
    checks.same("by the lower one", &list.pixel_at(1, 1), &white);
    Ok(())
}
