//! Quads, and the passes that they make.

ghost use Rattle.std.specs.Prelude.{◌≡◌, IfOk};
ghost use Rattle.viz_scene.specs.Views.{quad_view};

use geom::{Point, Rect};
use pixel::Colour;
use std::alloc::AllocError;
use std::sync::Arc;
use tile_raster::TileImage;

/// One thing to draw in a pass. Rects are in pixels of the screen.
#[derive(Drop)]
pub enum Quad {
    /// A part of the image of a tile.
    Tile {
        /// The image.
        image: Arc<TileImage>,
        /// Where the part lies.
        at: Rect,
        /// The pixel of the image that lies at the top left corner of `at`, counted from the image's own.
        from: Point,
    },
    /// A rect of one colour.
    Solid {
        /// Where it lies.
        at: Rect,
        /// Its colour.
        colour: Colour,
    },
    /// An earlier pass as a whole.
    Group {
        /// The number of the pass, counted from 0.
        pass: u32,
        /// What it is faded to: 0 is transparent, 255 unchanged.
        opacity: u8,
    },
}

/// Quads that are drawn in order, each over those before it.
#[derive(Drop)]
pub struct RenderPass {
    /// The quads.
    pub quads: Vec<Quad>,
}

impl Quad {
    /// The same quad, which shares a tile's image. An error means out of memory.
    pub fn copy(&self) -> Result<Quad, AllocError>
        ensures { IfOk result (λ quad. quad_view quad ≡ quad_view self.now) }
    {
        match self {
            Quad::Tile { image, at, from } => {
                let image = Arc::try_clone(image)?;
                Ok(Quad::Tile {
                    image,
                    at: *at,
                    from: *from,
                })
            }
            Quad::Solid { at, colour } => Ok(Quad::Solid {
                at: *at,
                colour: *colour,
            }),
            Quad::Group { pass, opacity } => Ok(Quad::Group {
                pass: *pass,
                opacity: *opacity,
            }),
        }
    }
}
