//! Where a scene does not show what another showed some rows before.

ghost use Rattle.std.specs.Prelude.{◌≡◌, ◌≤◌, pos, ◌-ℤ◌, ◌≤ℤ◌, IfOk};
ghost use Rattle.viz_damage.specs.Moved.{IsShift, AreAlikeMoved};

use crate::damage_of;
use crate::moved_rows::MovedRows;
use crate::scene::moved;
use crate::shift::Shift;
use geom::Rect;
use region::Region;
use std::alloc::{AllocError, Global};
use viz_scene::Scene;

/// The damage that is left if rows of a frame that shows one scene went to other rows, and it is to show
/// another scene of the same size. An error means out of memory.
pub fn damage_of_shift(
    alloc: Global,
    old: &Scene,
    new: &Scene,
    shift: Shift,
) -> Result<Region, AllocError>
    requires wide { old.now.w ≡ new.now.w }
    requires tall { old.now.h ≡ new.now.h }
    requires shift { IsShift new.now.h shift }
    ensures { IfOk result (λ region. AreAlikeMoved shift region old.now new.now) }
{
    let width = row_of(new.w());
    let bottom = row_of(new.h());
    let by = fall_of(shift.from, shift.to);
    let top = row_of(shift.to);
    let end = row_of(shift.to + shift.count);
    let before = moved(alloc, old, MovedRows { by, top, end })?;
    let after = moved(alloc, new, MovedRows { by: 0, top, end })?;
    let mut region = damage_of(alloc, &before, &after)?;
    region.add(rows_of(width, 0, top))?;
    region.add(rows_of(width, end, bottom))?;
    Ok(region)
}

// How many rows lower a row is now.
fn fall_of(from: u32, to: u32) -> i32
    requires from { from ≤ 2048 }
    requires to { to ≤ 2048 }
    ensures { result ≡ pos to -ℤ pos from }
{
    to as i32 - from as i32
}

// A row of a screen, or its width.
fn row_of(n: u32) -> i32
    requires { n ≤ 2048 }
    ensures { result ≡ pos n }
{
    n as i32
}

// The rect of some rows of this width.
fn rows_of(width: i32, top: i32, end: i32) -> Rect
    requires low { pos 0 ≤ℤ top }
    requires rows { top ≤ℤ end }
    requires high { end ≤ℤ pos 2048 }
    ensures x { result.x ≡ pos 0 }
    ensures y { result.y ≡ top }
    ensures w { result.w ≡ width }
    ensures h { result.h ≡ end -ℤ top }
{
    Rect {
        x: 0,
        y: top,
        w: width,
        h: end - top,
    }
}
