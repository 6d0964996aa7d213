//! Commands on scrollers, and their main values.

ghost use Rattle.std.specs.Prelude.{◌≡◌, ◌≤◌, ◌^◌, pos, neg_ℤ, ◌+ℤ◌, ◌-ℤ◌, ◌<ℤ◌, ◌≤ℤ◌, IsTrue};
ghost use Rattle.page_layers.specs.declared.command.Command.TheVariants as command;
ghost use Rattle.page_layers.specs.Refusals.{test_of};
ghost use Rattle.page_properties.specs.OffsetMap.{IsOffset};
ghost use Rattle.page_properties.specs.Placement.{minus};
ghost use Rattle.page_properties.specs.Entries.{find, knows};
ghost use Rattle.page_layers.specs.Effects.{main_point, scrolled_to, scrolled_by};
ghost use Rattle.page_layers.specs.Scrolls as scrolls;
ghost use Rattle.page_layers.specs.inner.Tested.{Tested};

use super::LayerTree;
use crate::command::{AddScroller, ScrollBy, ScrollTo, SetRange};
use crate::fault::{EditError, EditFault};
use crate::limits::{MAX_NODES, is_id, is_scroll, is_scroll_range, require};
use crate::scroll::{clamp_to, set_value, value_in};
use geom::Point;
use page_properties::ScrollNode;
use region::Changes;

// A place clamped to a scroll range.
fn clamped(max_x: u32, max_y: u32, x: i64, y: i64) -> Point
    requires across { max_x ≤ 1048576 }
    requires down { max_y ≤ 1048576 }
    ensures { result ≡ record { x = scrolls.clamp_to max_x x; y = scrolls.clamp_to max_y y } }
{
    let x = clamp_to(max_x, x);
    let y = clamp_to(max_y, y);
    Point { x, y }
}

// The value of a scroller, clamped to another range.
fn value_within(values: &[(u32, Point)], id: u32, max_x: u32, max_y: u32) -> Point
    requires across { max_x ≤ 1048576 }
    requires down { max_y ≤ 1048576 }
    ensures { let old = scrolls.or_origin (find id values.now) in
        result ≡ record { x = scrolls.clamp_to max_x old.x; y = scrolls.clamp_to max_y old.y } }
{
    let old = value_in(values, id);
    clamped_point(max_x, max_y, old.x, old.y)
}

// A place of 32 bits clamped to a scroll range.
fn clamped_point(max_x: u32, max_y: u32, x: i32, y: i32) -> Point
    requires across { max_x ≤ 1048576 }
    requires down { max_y ≤ 1048576 }
    ensures { result ≡ record { x = scrolls.clamp_to max_x x; y = scrolls.clamp_to max_y y } }
{
    let x = clamp_to(max_x, x as i64);
    let y = clamp_to(max_y, y as i64);
    Point { x, y }
}

// A coordinate moved by an amount.
fn sum(at: i32, by: i64) -> i64
    requires low { neg_ℤ (pos (2 ^ 58)) <ℤ by }
    requires high { by <ℤ pos (2 ^ 58) }
    ensures { result ≡ at +ℤ by }
{
    at as i64 + by
}

// How far one point is from another.
fn difference(new: Point, old: Point) -> Point
    requires first { IsOffset new }
    requires second { IsOffset old }
    ensures { result ≡ minus new old }
{
    let x = gap(new.x, old.x);
    let y = gap(new.y, old.y);
    Point { x, y }
}

// How far one coordinate is from another.
fn gap(new: i32, old: i32) -> i32
    requires low { pos 0 ≤ℤ new }
    requires high { new ≤ℤ pos (2 ^ 20) }
    requires old_low { pos 0 ≤ℤ old }
    requires old_high { old ≤ℤ pos (2 ^ 20) }
    ensures { result ≡ new -ℤ old }
{
    new - old
}

impl LayerTree {
    /// The main value of a scroller; (0, 0) if the tree has no such scroller.
    pub fn value(&self, id: u32) -> Point
        ensures value { result ≡ main_point self.now id }
        ensures in_range { IsOffset result }
    {
        value_in(self.values.as_slice(), id)
    }

    #[tactic(auto, unfolding(crate::specs::Refusals::test_of, crate::specs::Refusals::takes))]
    fn may_add_scroller(&self, fields: &AddScroller) -> Result<(), EditFault>
        ensures { result ≡ test_of self.now (command.AddScroller fields.now) }
    {
        require(self.is_scroller(fields.parent), EditFault::UnknownId)?;
        require(self.props.scroller(fields.id).is_none(), EditFault::IdUsed)?;
        require(
            self.props.scrollers() < MAX_NODES as usize,
            EditFault::TooMany { limit: MAX_NODES },
        )?;
        is_id(fields.id)?;
        is_scroll_range(fields.max_x, fields.max_y)
    }

    pub(crate) fn add_scroller(&mut self, fields: &AddScroller) -> Result<Changes, EditError>
        ensures { Tested self.old (command.AddScroller fields.now) self.new result }
    {
        self.may_add_scroller(fields)?;
        self.values.reserve(1)?;
        self.props.add_scroller(
            fields.id,
            ScrollNode {
                parent: fields.parent,
                max_x: fields.max_x,
                max_y: fields.max_y,
            },
        )?;
        match self.values.insert(0, (fields.id, Point { x: 0, y: 0 })) {
            Ok(()) => (),
            Err(_) => unreachable!(),
        }
        Ok(self.unlisted())
    }

    // Sets the main value of a scroller, clamped to its range.
    fn scroll(&mut self, id: u32, x: i64, y: i64)
        ensures { self.new ≡ scrolled_to self.old id x y }
    {
        match self.props.scroller(id) {
            Some(node) => {
                let at = clamped(node.max_x, node.max_y, x, y);
                set_value(&mut self.values, id, at);
            }
            None => (),
        }
    }

    // Adds to the main value of a scroller, clamped to its range.
    fn scroll_more(&mut self, id: u32, dx: i64, dy: i64)
        requires left { neg_ℤ (pos (2 ^ 58)) <ℤ dx }
        requires right { dx <ℤ pos (2 ^ 58) }
        requires up { neg_ℤ (pos (2 ^ 58)) <ℤ dy }
        requires down { dy <ℤ pos (2 ^ 58) }
        ensures { self.new ≡ scrolled_by self.old id dx dy }
    {
        let old = self.value(id);
        let x = sum(old.x, dx);
        let y = sum(old.y, dy);
        self.scroll(id, x, y);
    }

    #[tactic(auto, unfolding(crate::specs::Refusals::test_of))]
    fn may_set_range(&self, fields: &SetRange) -> Result<(), EditFault>
        ensures { result ≡ test_of self.now (command.SetRange fields.now) }
    {
        require(
            self.props.scroller(fields.id).is_some(),
            EditFault::UnknownId,
        )?;
        is_scroll_range(fields.max_x, fields.max_y)
    }

    #[tactic(auto, unfolding(crate::specs::Refusals::test_of))]
    fn may_scroll_by(&self, fields: &ScrollBy) -> Result<(), EditFault>
        ensures { result ≡ test_of self.now (command.ScrollBy fields.now) }
    {
        require(
            self.props.scroller(fields.id).is_some(),
            EditFault::UnknownId,
        )?;
        is_scroll(fields.dx, fields.dy)
    }

    #[tactic(auto, unfolding(crate::specs::Refusals::test_of))]
    fn may_scroll_to(&self, fields: &ScrollTo) -> Result<(), EditFault>
        ensures { result ≡ test_of self.now (command.ScrollTo fields.now) }
    {
        require(
            self.props.scroller(fields.id).is_some(),
            EditFault::UnknownId,
        )?;
        is_scroll_range(fields.x, fields.y)
    }

    pub(crate) fn scroll_by(&mut self, fields: &ScrollBy) -> Result<Changes, EditError>
        ensures { Tested self.old (command.ScrollBy fields.now) self.new result }
    {
        self.may_scroll_by(fields)?;
        self.scroll_more(fields.id, fields.dx as i64, fields.dy as i64);
        Ok(self.unlisted())
    }

    pub(crate) fn scroll_to(&mut self, fields: &ScrollTo) -> Result<Changes, EditError>
        ensures { Tested self.old (command.ScrollTo fields.now) self.new result }
    {
        self.may_scroll_to(fields)?;
        self.scroll(fields.id, fields.x as i64, fields.y as i64);
        Ok(self.unlisted())
    }

    pub(crate) fn set_range(&mut self, fields: &SetRange) -> Result<Changes, EditError>
        ensures { Tested self.old (command.SetRange fields.now) self.new result }
    {
        self.may_set_range(fields)?;
        let values = self.values.as_slice();
        let at = value_within(values, fields.id, fields.max_x, fields.max_y);
        self.props.set_range(fields.id, fields.max_x, fields.max_y);
        set_value(&mut self.values, fields.id, at);
        Ok(self.unlisted())
    }

    /// Adds to the main value of a scroller and clamps it to its range; answers the change.
    ///
    /// The amounts are below 2^58 in absolute value.
    pub fn pull(&mut self, id: u32, dx: i64, dy: i64) -> Point
        requires known { IsTrue (knows id self.old.props.scrollers) }
        requires left { neg_ℤ (pos (2 ^ 58)) <ℤ dx }
        requires right { dx <ℤ pos (2 ^ 58) }
        requires up { neg_ℤ (pos (2 ^ 58)) <ℤ dy }
        requires down { dy <ℤ pos (2 ^ 58) }
        ensures tree { self.new ≡ scrolled_by self.old id dx dy }
        ensures change { result ≡ minus (main_point self.new id) (main_point self.old id) }
    {
        let old = self.value(id);
        self.scroll_more(id, dx, dy);
        let new = self.value(id);
        difference(new, old)
    }
}
