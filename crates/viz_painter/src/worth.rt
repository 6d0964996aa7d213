//! Whether moving rows of a canvas is worth it.

use region::Region;
use viz_damage::Shift;

/// Whether moving the rows of a shift may be worth it: moving a pixel costs half of what drawing one does.
pub(crate) fn may_pay(shift: Shift, width: u32, damage: &Region) -> bool {
    moving_cost(shift, width) <= pixels_of(damage)
}

/// Whether moving the rows of a shift and drawing what is left then is worth it.
pub(crate) fn pays(shift: Shift, width: u32, rest: &Region, damage: &Region) -> bool {
    moving_cost(shift, width).saturating_add(pixels_of(rest)) <= pixels_of(damage)
}

// What moving the rows of a shift costs, in pixels that are drawn.
fn moving_cost(shift: Shift, width: u32) -> u64 {
    (shift.count as u64).saturating_mul(width as u64) / 2
}

// How many pixels the rects of a region have, if they do not overlap.
fn pixels_of(region: &Region) -> u64 {
    let mut pixels = 0u64;
    for rect in region.rects() {
        let width = rect.w.max(0) as u64;
        let height = rect.h.max(0) as u64;
        pixels = pixels.saturating_add(width.saturating_mul(height));
    }
    pixels
}
