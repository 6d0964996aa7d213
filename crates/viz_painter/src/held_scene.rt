//! The scene that a canvas shows.

ghost use Rattle.std.specs.Prelude.{◌≡◌, IfOk, IsTrue};
ghost use Rattle.viz_occlusion.specs.Culled.{IsCulled};
ghost use Rattle.viz_painter.specs.Painters.{HoldsCulled};
ghost use Rattle.viz_painter.specs.inner.Helds.{culled_of};

use std::alloc::{AllocError, Global};
use std::marker::Model;
use viz_damage::are_one;
use viz_occlusion::cull;
use viz_scene::Scene;

/// A scene, and the same without its hidden quads. The whole is kept so that it can be compared with the next
/// one before hidden quads are looked for in that.
pub(crate) struct HeldScene {
    scene: Scene,
    culled: Scene,
}

impl Model for HeldScene {
    ghost use Rattle.viz_occlusion.specs.Culled.{IsCulled};
    ghost use Rattle.viz_painter.specs.inner.Helds.{HeldView};

    ghost Value = { HeldView };

    ghost view = { λ h. record { scene = h.scene; culled = h.culled } };

    ghost invariant = { λ h. IsCulled h.scene h.culled };
}

// Written out, since a derived drop is proved anew, field by field, in each function that lets one go.
impl Drop for HeldScene {
    fn drop(self) {
        let HeldScene {
            scene: _,
            culled: _,
        } = self;
    }
}

impl HeldScene {
    /// A scene, whose hidden quads are left out. An error means out of memory.
    pub(crate) fn new(alloc: Global, scene: Scene) -> Result<HeldScene, AllocError>
        ensures scene { IfOk result (λ held. held.scene ≡ scene) }
        ensures culled { IfOk result (λ held. IsCulled scene held.culled) }
    {
        let culled = cull(alloc, &scene)?;
        Ok(HeldScene { scene, culled })
    }

    // The scene with its hidden quads.
    fn scene(&self) -> &Scene
        ensures value { result.now ≡ self.now.scene }
        ensures culled { IsCulled self.now.scene self.now.culled }
    {
        &self.scene
    }

    /// The scene without its hidden quads.
    pub(crate) fn culled(&self) -> &Scene
        ensures { result.now ≡ self.now.culled }
    {
        &self.culled
    }
}

/// Whether this scene is the one that is held.
#[tactic(auto, using(crate::proofs::Redrawn::holds_it))]
pub(crate) fn is_held(held: &Option<HeldScene>, scene: &Scene) -> bool
    ensures { IsTrue result → HoldsCulled scene.now (culled_of held.now) }
{
    match held {
        Some(held) => are_one(held.scene(), scene),
        None => false,
    }
}
