//! Display lists, and the images of tiles that show them.

ghost use Rattle.std.specs.Prelude.{◌≡◌, IfOk};
ghost use Rattle.geom.specs.Covers.{IsSound};
ghost use Rattle.page_display_list.specs.Content.{IsSoundItem};

use geom::{Rect, TileKey};
use page_display_list::{DisplayList, Item};
use std::alloc::{AllocError, Global};
use std::sync::Arc;
use tile_raster::{Job, TileImage};

/// Adds an item after the last one; a list of 256 items takes none.
pub(crate) fn add_item(list: &mut DisplayList, item: Item) -> Result<(), AllocError>
    requires { IsSoundItem item }
{
    let at = list.len();
    if at >= 256 {
        return Ok(());
    }
    match list.insert(at, item) {
        Ok(()) => Ok(()),
        Err((full, _item)) => Err(full),
    }
}

/// A list, to be shared.
pub(crate) fn shared(alloc: Global, list: DisplayList) -> Result<Arc<DisplayList>, AllocError> {
    match Arc::new(alloc, list) {
        Ok(list) => Ok(list),
        Err(_) => Err(AllocError),
    }
}

/// The image of a tile that shows a list.
pub(crate) fn image_of(
    alloc: Global,
    key: TileKey,
    list: Arc<DisplayList>,
    rect: Rect,
) -> Result<Arc<TileImage>, AllocError>
    requires { IsSound rect }
    ensures { IfOk result (λ image. image.value ≡ record { key = key; rect = rect; list = list.value }) }
{
    match (Job { key, list, rect }).run(alloc) {
        Ok(image) => Ok(image),
        Err((full, _job)) => Err(full),
    }
}
