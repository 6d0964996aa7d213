//! The pixels that a pass is drawn into.

ghost use Rattle.std.specs.Prelude.{◌≡◌, ◌*◌, ◌≤◌, ◌^◌, length, IfOk};
ghost use Rattle.geom.specs.Covers.{IsSound};
ghost use Rattle.pixel.specs.Rows.{ArePremultiplied};
ghost use Rattle.page_display_list.specs.Bitmaps.{near, byte_count};

use crate::size::size_of;
use geom::Rect;
use pixel::Pixels;
use std::alloc::{AllocError, Global};
use std::marker::Model;

/// The pixels of a pass on a rect of the screen, row by row from the top, with room after them. Everywhere
/// else the pass is transparent.
#[derive(Drop)]
pub(crate) struct Surface {
    pub(crate) rect: Rect,
    // Premultiplied pixels, four bytes each.
    pub(crate) bytes: Vec<u8>,
}

impl Model for Surface {
    ghost use Rattle.viz_render.specs.inner.Drawing.{SurfaceView, IsSurface};

    ghost Value = { SurfaceView };

    ghost view = { λ s. record { rect = s.rect; bytes = s.bytes.items } };

    ghost invariant = { λ s. IsSurface (record { rect = s.rect; bytes = s.bytes.items }) };
}

impl Surface {
    /// A surface with room for the given number of pixels, which has none.
    pub(crate) fn new(alloc: Global, pixels: usize) -> Result<Surface, AllocError>
        requires { pixels ≤ 2 ^ 60 }
        ensures { IfOk result (λ surface. length surface.bytes ≡ 4 * pixels) }
    {
        let bytes = vec![in alloc; 0u8; 4 * pixels]?;
        Ok(Surface {
            rect: Rect {
                x: 0,
                y: 0,
                w: 0,
                h: 0,
            },
            bytes,
        })
    }

    /// Where its pixels lie.
    pub(crate) fn rect(&self) -> Rect
        ensures value { result ≡ self.now.rect }
        ensures sound { IsSound result }
    {
        self.rect
    }

    /// Its pixels.
    pub(crate) fn pixels(&self) -> Pixels<'_>
        ensures { result ≡ record { bytes = self.now.bytes; size = record { width = near self.now.rect.w; height = near self.now.rect.h } } }
    {
        Pixels::new(self.bytes(), size_of(self.rect()))
    }

    /// The bytes of its pixels, and those after them.
    pub(crate) fn bytes(&self) -> &[u8]
        ensures value { result.now ≡ self.now.bytes }
        ensures room { byte_count self.now.rect.w self.now.rect.h ≤ length result.now }
        ensures premultiplied { ArePremultiplied result.now }
    {
        &self.bytes
    }
}
