//! What is left to draw of a scene in a buffer that may show another one.

ghost use Rattle.std.specs.Prelude.{◌≡◌, IfSome, IfOk};
ghost use Rattle.viz_canvas.specs.Buffers.{HasRows, EachPixelIs, AreGapsKept, ShowsScene, pixel_at};
ghost use Rattle.viz_damage.specs.Moved.{IsShift};
ghost use Rattle.viz_occlusion.specs.Culled.{IsCulled};
ghost use Rattle.viz_painter.specs.Redrawers.{ShowsHeld, ShowsSceneOutside};
ghost use Rattle.viz_painter.specs.inner.Helds.{culled_of};
ghost use Rattle.viz_painter.specs.inner.Rests.{rest_in, row_moved};

use crate::held_scene::HeldScene;
use crate::left::{Left, MovedRows};
use crate::redrawing::are_of_one_size;
use std::alloc::{AllocError, Global};
use viz_canvas::{PixelFormat, copy_rows};
use viz_scene::Scene;

/// The next scene without its hidden quads, and what is left to draw of it: elsewhere its picture in the buffer shows it
/// already. An error means out of memory, and the buffer is as it was.
#[tactic(auto, using(crate::proofs::RedrawnIn::rows_culled, crate::proofs::RedrawnIn::gaps_culled, crate::proofs::RedrawnIn::gaps_same))]
pub(crate) fn begin_in<F: PixelFormat>(
    alloc: Global,
    held: Option<HeldScene>,
    scene: Scene,
    bytes: &mut [u8],
    across: usize,
) -> Result<(HeldScene, Left), AllocError>
    requires rows { HasRows F.DEPTH across scene.w scene.h bytes.old }
    requires held { ShowsHeld F.DEPTH F.bytes_of across (culled_of held) bytes.old }
    ensures scene { IfOk result (λ next. next.0.scene ≡ scene) }
    ensures culled { IfOk result (λ next. IsCulled scene next.0.culled) }
    ensures rows { IfOk result (λ next. HasRows F.DEPTH across next.0.culled.w next.0.culled.h bytes.new) }
    ensures rest { IfOk result (λ next. ShowsSceneOutside F.DEPTH F.bytes_of across next.0.culled (rest_in next.1.damage next.1.moved) bytes.new) }
    ensures damage { IfOk result (λ next. ShowsSceneOutside F.DEPTH F.bytes_of across next.0.culled next.1.damage bytes.old) }
    ensures gaps { AreGapsKept F.DEPTH across scene.w scene.h bytes.old bytes.new }
{
    let next = HeldScene::new(alloc, scene)?;
    let left = left_in::<F>(alloc, held, next.culled(), bytes, across)?;
    Ok((next, left))
}

// What is left to draw of a scene; where the buffer shows one of the same size, that is the damage or less.
#[tactic(auto, using(crate::proofs::RedrawnIn::nothing_in, crate::proofs::RedrawnIn::gaps_same))]
fn left_in<F: PixelFormat>(
    alloc: Global,
    held: Option<HeldScene>,
    scene: &Scene,
    bytes: &mut [u8],
    across: usize,
) -> Result<Left, AllocError>
    requires rows { HasRows F.DEPTH across scene.now.w scene.now.h bytes.old }
    requires held { ShowsHeld F.DEPTH F.bytes_of across (culled_of held) bytes.old }
    ensures rest { IfOk result (λ left. ShowsSceneOutside F.DEPTH F.bytes_of across scene.now (rest_in left.damage left.moved) bytes.new) }
    ensures damage { IfOk result (λ left. ShowsSceneOutside F.DEPTH F.bytes_of across scene.now left.damage bytes.old) }
    ensures gaps { AreGapsKept F.DEPTH across scene.now.w scene.now.h bytes.old bytes.new }
{
    match held {
        Some(old) if are_of_one_size(old.culled(), scene) => {
            left_of_change_in::<F>(alloc, old.culled(), scene, bytes, across)
        }
        _ => {
            let left = Left::of_whole(alloc, scene)?;
            Ok(left)
        }
    }
}

// What is left to draw if the buffer shows a scene of the same size; its rows are moved.
#[tactic(auto, using(crate::proofs::RedrawnIn::gaps_same))]
fn left_of_change_in<F: PixelFormat>(
    alloc: Global,
    old: &Scene,
    scene: &Scene,
    bytes: &mut [u8],
    across: usize,
) -> Result<Left, AllocError>
    requires wide { old.now.w ≡ scene.now.w }
    requires tall { old.now.h ≡ scene.now.h }
    requires rows { HasRows F.DEPTH across scene.now.w scene.now.h bytes.old }
    requires shown { ShowsScene F.DEPTH F.bytes_of across old.now bytes.old }
    ensures rest { IfOk result (λ left. ShowsSceneOutside F.DEPTH F.bytes_of across scene.now (rest_in left.damage left.moved) bytes.new) }
    ensures damage { IfOk result (λ left. ShowsSceneOutside F.DEPTH F.bytes_of across scene.now left.damage bytes.old) }
    ensures gaps { AreGapsKept F.DEPTH across scene.now.w scene.now.h bytes.old bytes.new }
{
    let left = Left::of_change(alloc, old, scene)?;
    move_rows_in::<F>(scene, &left.moved, bytes, across);
    Ok(left)
}

// Moves the rows of a picture of a scene's size in a buffer.
#[tactic(auto, using(crate::proofs::RedrawnIn::gaps_same))]
fn move_rows_in<F: PixelFormat>(
    scene: &Scene,
    moved: &Option<MovedRows>,
    bytes: &mut [u8],
    across: usize,
)
    requires rows { HasRows F.DEPTH across scene.now.w scene.now.h bytes.old }
    requires shift { IfSome moved.now (λ rows. IsShift scene.now.h rows.shift) }
    ensures pixels { EachPixelIs F.DEPTH across scene.now.w scene.now.h (λ x y. pixel_at F.DEPTH across bytes.old x (row_moved moved.now y)) bytes.new }
    ensures gaps { AreGapsKept F.DEPTH across scene.now.w scene.now.h bytes.old bytes.new }
{
    match moved {
        Some(rows) => {
            let shift = rows.shift;
            copy_rows::<F>(scene, bytes, across, shift.from, shift.to, shift.count);
        }
        None => {}
    }
}
