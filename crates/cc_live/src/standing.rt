//! Where scrollers stand.

ghost use Rattle.std.specs.Prelude.{◌≡◌, ◌≤ℤ◌, ◌^◌, pos};
ghost use Rattle.model_states.specs.Bounds.{IsBounded};
ghost use Rattle.model_states.specs.Table.{active_value};
ghost use Rattle.model_history.specs.Scrolls.{active_offsets};
ghost use Rattle.impl_log.specs.Runs.{past};

use crate::live::Live;
use geom::Point;
use model_states::Synced;

// Where a scroller with these values stands along an axis.
fn place_of(values: Synced) -> i32
    requires bounded { IsBounded values }
    requires low { pos 0 ≤ℤ active_value values }
    requires high { active_value values ≤ℤ pos (2 ^ 20) }
    ensures { result ≡ active_value values }
{
    values.active() as i32
}

impl Live {
    /// Where a scroller of the active page stands, in pixels from the start of its range, at most 1,048,576 along each
    /// axis; (0, 0) if that page has no such scroller.
    pub fn offset(&self, scroller: u32) -> Point
        ensures { result ≡ active_offsets self.now.run.script (past self.now.run) scroller }
    {
        self.core.is_legal();
        let (x, y) = self.core.values(scroller);
        Point {
            x: place_of(x),
            y: place_of(y),
        }
    }
}
