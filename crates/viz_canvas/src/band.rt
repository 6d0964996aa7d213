//! Rows of a picture.

ghost use Rattle.std.specs.Prelude.{◌≡◌, ◌≤◌};

use pixel::Area;
use viz_scene::Scene;

/// Whole rows of a picture, one under another.
#[derive(Clone, Copy)]
pub(crate) struct Band {
    /// The first of them, counted from the top of the picture.
    pub(crate) top: usize,
    /// How many they are.
    pub(crate) rows: usize,
    /// How many pixels there are from the start of a row to that of the next: the picture's width, or more.
    pub(crate) across: usize,
}

/// Where a part is drawn: in a band, and in which area of it.
#[derive(Clone, Copy)]
pub(crate) struct BandArea {
    pub(crate) band: Band,
    pub(crate) at: Area,
}

/// All rows of the picture of a scene, with `across` pixels from one to the next.
pub(crate) fn band_of(scene: &Scene, across: usize) -> Band
    ensures value { result ≡ record { top = 0; rows = scene.now.h; across = across } }
    ensures tall { scene.now.h ≤ 2048 }
{
    Band {
        top: 0,
        rows: scene.h() as usize,
        across,
    }
}
