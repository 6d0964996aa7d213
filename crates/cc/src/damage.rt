//! What a draw may have changed of a frame.

ghost use Rattle.std.specs.Prelude.{◌≡◌, ◌<◌, ◌≤ℤ◌, ℕ, ℤ, pos, false, None, All, IfSome, OnOk, OnErr};
ghost use Rattle.std.specs.Option.{option_to_list};
ghost use Rattle.geom.specs.Covers.{IsSound, IsSpan, covers, within};
ghost use Rattle.page_display_list.specs.Bitmaps.{near};
ghost use Rattle.region.specs.Points.{covered};
ghost use Rattle.viz_painter.specs.Painters.{ShowsWhole, ShowsOutside, IsKeptOutside};
ghost use Rattle.cc.specs.Compositors.{has_row, AreRowsOf};

use geom::Rect;
use region::Region;
use std::alloc::AllocError;
use viz_canvas::{Canvas, PixelFormat};
use viz_painter::Painter;
use viz_scene::Scene;

/// Rows of a frame that follow one another, counted from its top; none if `bottom` is `top`.
#[derive(Clone, Copy, Debug, PartialEq, Eq)]
pub struct FrameRows {
    /// The uppermost row.
    pub top: u32,
    /// The row after the lowest.
    pub bottom: u32,
}

/// No rows.
pub(crate) fn no_rows() -> FrameRows
    ensures { result ≡ record { top = 0; bottom = 0 } }
{
    FrameRows { top: 0, bottom: 0 }
}

/// The rows of a frame of this height that some rects lie in, and those between.
pub(crate) fn frame_rows(rects: &[Rect], height: u32) -> FrameRows
    requires { All IsSound rects.now }
    ensures rows { (x : ℤ) → (y : ℕ) → y < height → has_row result y ≡ false → covered rects.now x (pos y) ≡ false }
    ensures inside { AreRowsOf height result }
{
    rows_above(rows_of(rects), height)
}

// Those of some rows that a frame of this height has.
fn rows_above(rows: FrameRows, height: u32) -> FrameRows
    ensures rows { (y : ℕ) → y < height → has_row result y ≡ false → has_row rows y ≡ false }
    ensures inside { AreRowsOf height result }
{
    let bottom = rows.bottom.min(height);
    let top = rows.top.min(bottom);
    FrameRows { top, bottom }
}

// The rows that some rects lie in, and those between.
fn rows_of(rects: &[Rect]) -> FrameRows
    requires { All IsSound rects.now }
    ensures { (x : ℤ) → (y : ℕ) → has_row result y ≡ false → covered rects.now x (pos y) ≡ false }
{
    let mut rows = FrameRows {
        top: u32::MAX,
        bottom: 0,
    };
    for rect in rects {
        rows = joined(rows, rows_of_rect(*rect));
    }
    rows
}

// The rows that a rect lies in.
fn rows_of_rect(rect: Rect) -> FrameRows
    requires { IsSound rect }
    ensures { (x : ℤ) → (y : ℕ) → has_row result y ≡ false → covers rect x (pos y) ≡ false }
{
    rows_of_span(rect.y, rect.h)
}

// The given number of rows from one on, of which some may lie above the frame.
fn rows_of_span(at: i32, len: i32) -> FrameRows
    requires { IsSpan at len }
    ensures { (y : ℕ) → has_row result y ≡ false → within at len (pos y) ≡ false }
{
    let end = at + len;
    let top = row_of(at.max(0));
    let bottom = row_of(end.max(0));
    FrameRows { top, bottom }
}

// A row that does not lie above the frame.
fn row_of(n: i32) -> u32
    requires { pos 0 ≤ℤ n }
    ensures { result ≡ near n }
{
    n as u32
}

// The rows of both, and those between.
fn joined(a: FrameRows, b: FrameRows) -> FrameRows
    ensures { (y : ℕ) → has_row result y ≡ false → (has_row a y ≡ false) × (has_row b y ≡ false) }
{
    let top = a.top.min(b.top);
    let bottom = a.bottom.max(b.bottom);
    FrameRows { top, bottom }
}

// The rect of a whole frame.
fn whole_of<F: PixelFormat>(frame: &Canvas<F>) -> Rect
    ensures { result ≡ record { x = pos 0; y = pos 0; w = pos frame.now.w; h = pos frame.now.h } }
{
    Rect {
        x: 0,
        y: 0,
        w: frame.w() as i32,
        h: frame.h() as i32,
    }
}

// Draws a scene, of which the frame shows all but some rects already if these are known.
fn draw<F: PixelFormat>(
    painter: &mut Painter<F>,
    scene: Scene,
    unshown: Option<Region>,
) -> Result<(), AllocError>
    requires { IfSome unshown (λ rects. ShowsOutside F.DEPTH F.bytes_of scene rects painter.old.canvas) }
    ensures shown { OnOk result (ShowsWhole F.DEPTH F.bytes_of scene painter.new.canvas) }
    ensures kept { OnOk result (IsKeptOutside F.DEPTH painter.new.damage painter.old.canvas painter.new.canvas) }
{
    match unshown {
        Some(region) => painter.paint_within(scene, region),
        None => painter.paint(scene),
    }
}

/// Draws a scene, of which the frame shows all but some rects already if these are known. An error means out of
/// memory: `lost` is then the rect of the whole frame, which may show anything.
#[tactic(auto, using(crate::proofs::Damages::kept_nowhere))]
pub(crate) fn paint<F: PixelFormat>(
    painter: &mut Painter<F>,
    lost: &mut Option<Rect>,
    scene: Scene,
    unshown: Option<Region>,
) -> Result<(), AllocError>
    requires none { lost.old ≡ None }
    requires outside { IfSome unshown (λ rects. ShowsOutside F.DEPTH F.bytes_of scene rects painter.old.canvas) }
    ensures shown { OnOk result (ShowsWhole F.DEPTH F.bytes_of scene painter.new.canvas) }
    ensures kept { OnOk result (IsKeptOutside F.DEPTH painter.new.damage painter.old.canvas painter.new.canvas) }
    ensures none { OnOk result (lost.new ≡ None) }
    ensures lost { OnErr result (IsKeptOutside F.DEPTH (option_to_list lost.new) painter.old.canvas painter.new.canvas) }
{
    match draw(painter, scene, unshown) {
        Ok(()) => Ok(()),
        Err(refused) => {
            *lost = Some(whole_of(painter.canvas()));
            Err(refused)
        }
    }
}
