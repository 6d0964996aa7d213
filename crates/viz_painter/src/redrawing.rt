//! What is left to draw of a scene on a canvas that may show another one.

ghost use Rattle.std.specs.Prelude.{◌≡◌, IfSome, IfOk, OnOk, IsTrue};
ghost use Rattle.viz_canvas.specs.Canvases.{IsOfSize, EachIs, canvas_pixel};
ghost use Rattle.viz_damage.specs.Moved.{IsShift};
ghost use Rattle.viz_occlusion.specs.Culled.{IsCulled};
ghost use Rattle.viz_painter.specs.Painters.{ShowsWhole, ShowsOutside};
ghost use Rattle.viz_painter.specs.inner.Helds.{culled_of};
ghost use Rattle.viz_painter.specs.inner.Rests.{HasOutside, rest_in, row_moved};

use crate::held_scene::HeldScene;
use crate::left::{Left, MovedRows};
use region::Region;
use std::alloc::{AllocError, Global};
use viz_canvas::{Canvas, PixelFormat};
use viz_scene::Scene;

/// The next scene without its hidden quads, and what is left to draw of it: elsewhere the canvas, which then has the
/// scene's size, shows it already. An error means out of memory, and the canvas may then show anything.
pub(crate) fn begin<F: PixelFormat>(
    alloc: Global,
    canvas: &mut Canvas<F>,
    held: Option<HeldScene>,
    scene: Scene,
) -> Result<(HeldScene, Left), AllocError>
    requires { IfSome (culled_of held) (λ old. ShowsWhole F.DEPTH F.bytes_of old canvas.old) }
    ensures scene { IfOk result (λ next. next.0.scene ≡ scene) }
    ensures culled { IfOk result (λ next. IsCulled scene next.0.culled) }
    ensures rest { IfOk result (λ next. ShowsOutside F.DEPTH F.bytes_of next.0.culled (rest_in next.1.damage next.1.moved) canvas.new) }
    ensures damage { IfOk result (λ next. HasOutside F.DEPTH F.bytes_of next.0.culled next.1.damage canvas.old) }
{
    let next = HeldScene::new(alloc, scene)?;
    let left = left_of(alloc, canvas, held, next.culled())?;
    Ok((next, left))
}

/// The next scene without its hidden quads, where the canvas is known to show the scene outside of a region. An error
/// means out of memory.
#[tactic(auto, using(crate::proofs::Redrawn::culled_outside, crate::proofs::Redrawn::had_outside))]
pub(crate) fn begin_within<F: PixelFormat>(
    alloc: Global,
    _canvas: &Canvas<F>,
    scene: Scene,
    _region: &Region,
) -> Result<HeldScene, AllocError>
    requires { ShowsOutside F.DEPTH F.bytes_of scene _region.now _canvas.now }
    ensures culled { IfOk result (λ next. IsCulled scene next.culled) }
    ensures scene { IfOk result (λ next. next.scene ≡ scene) }
    ensures rest { IfOk result (λ next. ShowsOutside F.DEPTH F.bytes_of next.culled _region.now _canvas.now) }
    ensures damage { IfOk result (λ next. HasOutside F.DEPTH F.bytes_of next.culled _region.now _canvas.now) }
{
    HeldScene::new(alloc, scene)
}

// What is left to draw of a scene; where the canvas shows one of the same size, that is the damage or less.
fn left_of<F: PixelFormat>(
    alloc: Global,
    canvas: &mut Canvas<F>,
    held: Option<HeldScene>,
    scene: &Scene,
) -> Result<Left, AllocError>
    requires { IfSome (culled_of held) (λ old. ShowsWhole F.DEPTH F.bytes_of old canvas.old) }
    ensures rest { IfOk result (λ left. ShowsOutside F.DEPTH F.bytes_of scene.now (rest_in left.damage left.moved) canvas.new) }
    ensures damage { IfOk result (λ left. HasOutside F.DEPTH F.bytes_of scene.now left.damage canvas.old) }
{
    match held {
        Some(old) if are_of_one_size(old.culled(), scene) => {
            left_of_change(alloc, canvas, old.culled(), scene)
        }
        _ => left_of_whole(alloc, canvas, scene),
    }
}

/// Whether two scenes are of one size.
pub(crate) fn are_of_one_size(a: &Scene, b: &Scene) -> bool
    ensures wide { IsTrue result → a.now.w ≡ b.now.w }
    ensures tall { IsTrue result → a.now.h ≡ b.now.h }
{
    a.w() == b.w() && a.h() == b.h()
}

// The whole of a scene, for which the canvas is made to fit.
fn left_of_whole<F: PixelFormat>(
    alloc: Global,
    canvas: &mut Canvas<F>,
    scene: &Scene,
) -> Result<Left, AllocError>
    ensures rest { IfOk result (λ left. ShowsOutside F.DEPTH F.bytes_of scene.now (rest_in left.damage left.moved) canvas.new) }
    ensures damage { IfOk result (λ left. HasOutside F.DEPTH F.bytes_of scene.now left.damage canvas.old) }
{
    fit(alloc, canvas, scene)?;
    let left = Left::of_whole(alloc, scene)?;
    Ok(left)
}

// Takes a new canvas where the old one is not of a scene's size.
fn fit<F: PixelFormat>(
    alloc: Global,
    canvas: &mut Canvas<F>,
    scene: &Scene,
) -> Result<(), AllocError>
    ensures { OnOk result (IsOfSize scene.now.w scene.now.h canvas.new) }
{
    if canvas.w() == scene.w() && canvas.h() == scene.h() {
        return Ok(());
    }
    let new = Canvas::new(alloc, scene.w(), scene.h())?;
    *canvas = new;
    Ok(())
}

// What is left to draw where the canvas shows a scene of the same size; its rows are moved.
fn left_of_change<F: PixelFormat>(
    alloc: Global,
    canvas: &mut Canvas<F>,
    old: &Scene,
    scene: &Scene,
) -> Result<Left, AllocError>
    requires wide { old.now.w ≡ scene.now.w }
    requires tall { old.now.h ≡ scene.now.h }
    requires shown { ShowsWhole F.DEPTH F.bytes_of old.now canvas.old }
    ensures rest { IfOk result (λ left. ShowsOutside F.DEPTH F.bytes_of scene.now (rest_in left.damage left.moved) canvas.new) }
    ensures damage { IfOk result (λ left. HasOutside F.DEPTH F.bytes_of scene.now left.damage canvas.old) }
{
    let left = Left::of_change(alloc, old, scene)?;
    move_rows(canvas, &left.moved);
    Ok(left)
}

// Moves the rows of a canvas.
fn move_rows<F: PixelFormat>(canvas: &mut Canvas<F>, moved: &Option<MovedRows>)
    requires { IfSome moved.now (λ rows. IsShift canvas.old.h rows.shift) }
    ensures size { IsOfSize canvas.old.w canvas.old.h canvas.new }
    ensures pixels { EachIs F.DEPTH (λ x y. canvas_pixel F.DEPTH canvas.old x (row_moved moved.now y)) canvas.new }
{
    match moved {
        Some(rows) => canvas.copy_rows(rows.shift.from, rows.shift.to, rows.shift.count),
        None => {}
    }
}
