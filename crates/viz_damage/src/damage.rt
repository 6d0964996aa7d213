//! Where two scenes may differ.

ghost use Rattle.std.specs.Prelude.{◌≡◌, ◌<◌, All, [], length, IfOk, IsTrue, ℤ, false};
ghost use Rattle.geom.specs.Covers.{covers};
ghost use Rattle.region.specs.Points.{covered};
ghost use Rattle.viz_scene.specs.Views.{passes_view};
ghost use Rattle.viz_scene.specs.Sound.{AreSound};
ghost use Rattle.viz_damage.specs.Damage.{AreAlikeOutside, screen};
ghost use Rattle.viz_scene.specs.Areas.{IsOnScreen};
ghost use Rattle.viz_damage.specs.inner.Alike.{PassesAlike};

use crate::images::is_same_colour;
use crate::lists::add_changes;
use crate::quads::reach_of;
use geom::Rect;
use region::Region;
use std::alloc::{AllocError, Global};
use viz_scene::{RenderPass, Scene};

/// The damage from one scene to another of the same size: at each point of the screen outside it their pixels
/// are equal. An error means out of memory.
pub fn damage_of(alloc: Global, old: &Scene, new: &Scene) -> Result<Region, AllocError>
    requires wide { old.now.w ≡ new.now.w }
    requires tall { old.now.h ≡ new.now.h }
    ensures { IfOk result (λ region. AreAlikeOutside region old.now new.now) }
{
    if !can_be_compared(old, new) {
        let region = whole_screen(alloc, old)?;
        return Ok(region);
    }
    let before = old.passes();
    let after = new.passes();
    let rects = changed_rects(alloc, before, after)?;
    let region = region_of(alloc, rects.as_slice())?;
    Ok(region)
}

// Whether two scenes have one background, and as many passes.
fn can_be_compared(old: &Scene, new: &Scene) -> bool
    ensures background { IsTrue result → old.now.background ≡ new.now.background }
    ensures passes { IsTrue result → length old.now.passes ≡ length new.now.passes }
{
    is_same_colour(old.background(), new.background()) && pass_count(old) == pass_count(new)
}

// How many passes a scene has.
fn pass_count(scene: &Scene) -> usize
    ensures { result ≡ length scene.now.passes }
{
    scene.passes().len()
}

/// The region of all points of the screen of a scene. An error means out of memory.
pub fn whole_screen(alloc: Global, scene: &Scene) -> Result<Region, AllocError>
    ensures { IfOk result (λ region. (x y : ℤ) → covered region x y ≡ false → covers (screen scene.now) x y ≡ false) }
{
    let mut region = Region::new(alloc);
    region.add(Rect {
        x: 0,
        y: 0,
        w: scene.w() as i32,
        h: scene.h() as i32,
    })?;
    Ok(region)
}

// The region of some rects.
fn region_of(alloc: Global, rects: &[Rect]) -> Result<Region, AllocError>
    requires { All IsOnScreen rects.now }
    ensures { IfOk result (λ region. (x y : ℤ) → covered region x y ≡ covered rects.now x y) }
{
    let mut region = Region::new(alloc);
    for rect in rects {
        region.add(*rect)?;
    }
    Ok(region)
}

// The rects where as many passes differ from their successors.
fn changed_rects(
    alloc: Global,
    old: &[RenderPass],
    new: &[RenderPass],
) -> Result<Vec<Rect>, AllocError>
    requires count { length old.now ≡ length new.now }
    requires old { AreSound 2048 2048 0 (passes_view old.now) }
    requires new { AreSound 2048 2048 0 (passes_view new.now) }
    ensures alike { IfOk result (λ rects. (x y : ℤ) → covered rects.items x y ≡ false → PassesAlike x y [] (passes_view old.now) (passes_view new.now)) }
    ensures inside { IfOk result (λ rects. All IsOnScreen rects.items) }
{
    let mut damage = Vec::new(alloc);
    let mut reaches = Vec::new(alloc);
    for i in 0..old.len() {
        let before = old[i].quads.as_slice();
        let after = new[i].quads.as_slice();
        let seen = reaches.as_slice();
        let reach = reach_of(before, seen);
        add_changes(before, after, seen, &mut damage)?;
        reaches.push(reach)?;
    }
    Ok(damage)
}
