//! What is accepted of a scroll and of a wheel.

ghost use Rattle.std.specs.Prelude.{◌≡◌, ◌≤◌, ℕ, List, [], pos, IfOk, option_copied};
ghost use Rattle.page_properties.specs.OffsetMap.{offset_at};
ghost use Rattle.page_layers.specs.Axes.{across, down};
ghost use Rattle.page_hit_test.specs.Wheels.{AreWithinRanges, IsAmount, IsWheel};
ghost use Rattle.model_history.specs.declared.history.Entry.{Entry as EntryModel};
ghost use Rattle.model_history.specs.Scripts.{ScriptModel};
ghost use Rattle.model_history.specs.Frames as frames;
ghost use Rattle.model_history.specs.Frames.{active_page};
ghost use Rattle.model_history.specs.Scrolls as scrolls;
ghost use Rattle.model_history.specs.Legal.{Legal};
ghost use Rattle.impl_scroll.specs.Standings.{StandsForPast, page_at};
ghost use Rattle.impl_scroll.specs.Occasions.{ShowsNow, WheelsNow};

use crate::standing::Standing;
use geom::Point;
use page_hit_test::{Wheel, WheelParts, wheel_parts};
use page_layers::LayerTree;
use page_properties::Offsets;
use std::alloc::{AllocError, Global};

// A coordinate of a point on a screen.
fn coordinate(at: u32) -> i32
    requires { at ≤ 2047 }
    ensures { result ≡ pos at }
{
    at as i32
}

// What a wheel at a point of the screen does in a page. An error means out of memory.
fn wheel_in(
    alloc: Global,
    page: &LayerTree,
    offsets: &Offsets,
    at: (u32, u32),
    dx: i32,
    dy: i32,
) -> Result<Wheel, AllocError>
    requires ranges { AreWithinRanges page.now (offset_at offsets.now) }
    requires column { at.0 ≤ 2047 }
    requires row { at.1 ≤ 2047 }
    requires across { IsAmount dx }
    requires down { IsAmount dy }
    ensures { IfOk result (IsWheel page.now (offset_at offsets.now) (pos at.0) (pos at.1) dx dy) }
{
    let x = coordinate(at.0);
    let y = coordinate(at.1);
    wheel_parts(alloc, page, offsets, Point { x, y }, Point { x: dx, y: dy })
}

// A wheel that hits no layer: nothing takes any of it.
fn wheel_nowhere(alloc: Global, dx: i32, dy: i32) -> Wheel
    ensures target { result.target ≡ 0 }
    ensures parts { result.parts ≡ [] }
    ensures rest_across { result.rest.x ≡ dx }
    ensures rest_down { result.rest.y ≡ dy }
{
    Wheel {
        target: 0,
        parts: WheelParts::new(alloc),
        rest: Point { x: dx, y: dy },
    }
}

impl Standing {
    /// What is accepted of a scroll: as far as the scroller's range in the active page allows. Nothing is
    /// accepted if that page lacks it, and before the first activation.
    pub fn accepted(&self, active: Option<&LayerTree>, scroller: u32, dx: i32, dy: i32) -> Point
        requires { ShowsNow self.now (option_copied active) }
        ensures x { (s : ScriptModel) (workers : ℕ) (h : List EntryModel) → Legal s workers h → StandsForPast s h self.now → option_copied active.entry ≡ page_at s h (frames.active h) → result.x ≡ scrolls.accepted s h scroller across dx }
        ensures y { (s : ScriptModel) (workers : ℕ) (h : List EntryModel) → Legal s workers h → StandsForPast s h self.now → option_copied active.entry ≡ page_at s h (frames.active h) → result.y ≡ scrolls.accepted s h scroller down dy }
    {
        match active {
            None => Point { x: 0, y: 0 },
            Some(page) => self.rows.accepted(page, scroller, dx, dy),
        }
    }

    /// What a wheel at a point of the screen does, which is the next input: the layer of the active page
    /// that it hits, what the scrollers there take of it, and what they leave. Before the first activation
    /// it hits no layer and all is left. An error means out of memory.
    pub fn wheel(
        &self,
        alloc: Global,
        active: Option<&LayerTree>,
        x: u32,
        y: u32,
        dx: i32,
        dy: i32,
    ) -> Result<Wheel, AllocError>
        requires { WheelsNow self.now (option_copied active) x y dx dy }
        ensures { IfOk result (λ wheel. (s : ScriptModel) (workers : ℕ) (h : List EntryModel) → StandsForPast s h self.now → option_copied active.entry ≡ page_at s h (frames.active h) → IsWheel (active_page s h) (scrolls.active_offsets s h) (pos x) (pos y) dx dy wheel) }
    {
        match active {
            None => Ok(wheel_nowhere(alloc, dx, dy)),
            Some(page) => wheel_in(alloc, page, &self.active, (x, y), dx, dy),
        }
    }
}
