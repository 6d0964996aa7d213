//! The changes that one command lists.

ghost use Rattle.std.specs.Prelude.{◌∷◌, [], true, false, IfOk, IfSome, Option, None, Some};
ghost use Rattle.geom.specs.Covers.{IsSound};
ghost use Rattle.page_layers.specs.IfThere.{rects_of};
ghost use Rattle.page_layers.specs.Outcomes.{ListsChange};

use geom::Rect;
use region::{Changes, LayerChange, Region};
use std::alloc::{AllocError, Global};

// One layer with a region.
fn one(alloc: Global, layer: u32, whole: bool, region: Region) -> Result<Changes, AllocError>
    ensures { IfOk result (λ c. ListsChange (Some (record { layer = layer; whole = whole; rects = region })) false c) }
{
    let mut changes = Changes::new(alloc);
    match changes.push(LayerChange {
        layer,
        whole,
        region,
    }) {
        Ok(()) => Ok(changes),
        Err(_) => Err(AllocError),
    }
}

/// A layer that changed whole.
pub(crate) fn whole(alloc: Global, layer: u32) -> Result<Changes, AllocError>
    ensures { IfOk result (λ c. ListsChange (Some (record { layer = layer; whole = true; rects = [] })) false c) }
{
    one(alloc, layer, true, Region::new(alloc))
}

/// A layer that changed where a rect covers it.
pub(crate) fn inside(alloc: Global, layer: u32, rect: Rect) -> Result<Changes, AllocError>
    requires { IsSound rect }
    ensures { IfOk result (λ c. ListsChange (Some (record { layer = layer; whole = false; rects = rect ∷ [] })) false c) }
{
    let mut region = Region::new(alloc);
    region.add(rect)?;
    one(alloc, layer, false, region)
}

/// A layer that changed where the rect of an item that it had covers it, if it had one.
pub(crate) fn inside_old(
    alloc: Global,
    layer: u32,
    old: Option<Rect>,
) -> Result<Changes, AllocError>
    requires { IfSome old IsSound }
    ensures { IfOk result (λ c. ListsChange (Some (record { layer = layer; whole = false; rects = rects_of old })) false c) }
{
    match old {
        Some(rect) => inside(alloc, layer, rect),
        None => one(alloc, layer, false, Region::new(alloc)),
    }
}

/// A layer that changed where a rect covers it, or that of an item that it had.
pub(crate) fn inside_both(
    alloc: Global,
    layer: u32,
    new: Rect,
    old: Option<Rect>,
) -> Result<Changes, AllocError>
    requires first { IsSound new }
    requires second { IfSome old IsSound }
    ensures { IfOk result (λ c. ListsChange (Some (record { layer = layer; whole = false; rects = new ∷ rects_of old })) false c) }
{
    let Some(old) = old else {
        return inside(alloc, layer, new);
    };
    let mut region = Region::new(alloc);
    region.add(old)?;
    region.add(new)?;
    one(alloc, layer, false, region)
}
