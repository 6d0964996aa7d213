//! The job of making one picture.

ghost use Rattle.std.specs.Prelude.{◌≡◌, IfOk, IfErr};
ghost use Rattle.geom.specs.Covers.{IsSound};

use crate::image::TileImage;
use geom::{Rect, TileKey};
use page_display_list::DisplayList;
use std::alloc::{AllocError, Global};
use std::sync::Arc;

/// The picture that is to be made: what a display list shows on the rect of a tile.
#[derive(Drop)]
pub struct Job {
    /// The key of the tile.
    pub key: TileKey,
    /// What the layer shows.
    pub list: Arc<DisplayList>,
    /// The rect of the tile, in pixels of its layer.
    pub rect: Rect,
}

impl Job {
    /// Makes the picture. An error means out of memory: it gives the job back.
    pub fn run(self, alloc: Global) -> Result<Arc<TileImage>, (AllocError, Job)>
        requires { IsSound self.rect }
        ensures ok { IfOk result (λ image. image.value ≡ record { key = self.key; rect = self.rect; list = self.list.value }) }
        ensures err { IfErr result (λ e. e.1 ≡ self) }
    {
        match self.image(alloc) {
            Ok(image) => Ok(image),
            Err(full) => Err((full, self)),
        }
    }

    // The picture, which shares the job's list.
    pub(crate) fn image(&self, alloc: Global) -> Result<Arc<TileImage>, AllocError>
        requires { IsSound self.now.rect }
        ensures { IfOk result (λ image. image.value ≡ record { key = self.now.key; rect = self.now.rect; list = self.now.list.value }) }
    {
        let list = Arc::try_clone(&self.list)?;
        let image = TileImage::of_list(alloc, self.key, list, self.rect)?;
        match Arc::new(alloc, image) {
            Ok(image) => Ok(image),
            Err(_) => Err(AllocError),
        }
    }
}
