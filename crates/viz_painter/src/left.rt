//! What is left to draw of a scene if another one is shown.

ghost use Rattle.std.specs.Prelude.{◌≡◌, IfOk};
ghost use Rattle.viz_damage.specs.Damage.{AreAlikeOutside};
ghost use Rattle.viz_damage.specs.Moved.{IsShift};
ghost use Rattle.viz_painter.specs.inner.Rests.{IsLeft, CoversScreen, rest_in};

use crate::worth::{may_pay, pays};
use region::Region;
use std::alloc::{AllocError, Global};
use viz_damage::{Shift, damage_of, damage_of_shift, shift_of, whole_screen};
use viz_scene::Scene;

/// What is left to draw of a scene.
#[derive(Drop)]
pub(crate) struct Left {
    /// Outside of the damage the picture showed the scene beforehand.
    pub(crate) damage: Region,
    /// The rows to move first; None if all of the damage is left to draw.
    pub(crate) moved: Option<MovedRows>,
}

/// Rows of a picture that go to other rows of it.
#[derive(Drop)]
pub(crate) struct MovedRows {
    pub(crate) shift: Shift,
    /// What is left to draw once they are moved.
    pub(crate) rest: Region,
}

impl Left {
    /// The whole of a scene. An error means out of memory.
    pub(crate) fn of_whole(alloc: Global, scene: &Scene) -> Result<Left, AllocError>
        ensures rest { IfOk result (λ left. CoversScreen scene.now (rest_in left.damage left.moved)) }
        ensures damage { IfOk result (λ left. CoversScreen scene.now left.damage) }
    {
        let screen = whole_screen(alloc, scene)?;
        Ok(Left {
            damage: screen,
            moved: None,
        })
    }

    /// What is left if a scene of the same size is shown, which may have been scrolled. An error means out of
    /// memory.
    pub(crate) fn of_change(alloc: Global, old: &Scene, scene: &Scene) -> Result<Left, AllocError>
        requires wide { old.now.w ≡ scene.now.w }
        requires tall { old.now.h ≡ scene.now.h }
        ensures { IfOk result (λ left. IsLeft old.now scene.now left.damage left.moved) }
    {
        let damage = damage_of(alloc, old, scene)?;
        match shift_of(old, scene) {
            Some(shift) if may_pay(shift, scene.w(), &damage) => {
                left_of_shift(alloc, old, scene, shift, damage)
            }
            _ => Ok(Left {
                damage,
                moved: None,
            }),
        }
    }

    /// What is left to draw once the rows are moved.
    pub(crate) fn rest(&self) -> &Region
        ensures { result.now ≡ rest_in self.now.damage self.now.moved }
    {
        match &self.moved {
            Some(rows) => &rows.rest,
            None => &self.damage,
        }
    }
}

// Moves rows if less is left then than the damage.
fn left_of_shift(
    alloc: Global,
    old: &Scene,
    scene: &Scene,
    shift: Shift,
    damage: Region,
) -> Result<Left, AllocError>
    requires wide { old.now.w ≡ scene.now.w }
    requires tall { old.now.h ≡ scene.now.h }
    requires shift { IsShift scene.now.h shift }
    requires damage { AreAlikeOutside damage old.now scene.now }
    ensures { IfOk result (λ left. IsLeft old.now scene.now left.damage left.moved) }
{
    let rest = damage_of_shift(alloc, old, scene, shift)?;
    if !pays(shift, scene.w(), &rest, &damage) {
        return Ok(Left {
            damage,
            moved: None,
        });
    }
    Ok(Left {
        damage,
        moved: Some(MovedRows { shift, rest }),
    })
}
