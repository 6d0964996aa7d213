//! The offsets of scrollers.

ghost use Rattle.std.specs.Prelude.{◌≡◌, ◌==◌, ◌&&◌, ℕ, pos, if◌then◌else◌, is_ok, OnErr};
ghost use Rattle.page_properties.specs.OffsetMap.{offset_at};

use crate::family::Family;
use geom::Point;
use std::alloc::{AllocError, Global};
use std::marker::Model;

/// The offset of each scroller: a map from its id to a point, (0, 0) if it has no entry.
pub struct Offsets {
    points: Family<Point>,
}

impl Model for Offsets {
    ghost use Rattle.std.specs.Prelude.{List, ℕ};
    ghost use Rattle.geom.specs.declared.rect.Point.{Point};

    ghost Value = { List (ℕ × Point) };

    ghost view = { λ o. o.points };
}

// Written out, since a derived drop is proved anew, field by field, in each function that lets one go.
impl Drop for Offsets {
    fn drop(self) {
        let Offsets { points: _ } = self;
    }
}

impl Offsets {
    /// No offsets: each is (0, 0). Later calls take their memory from `alloc`.
    pub fn new(alloc: Global) -> Offsets
        ensures { (id : ℕ) → offset_at result id ≡ record { x = pos 0; y = pos 0 } }
    {
        Offsets {
            points: Family::new(alloc),
        }
    }

    /// Gives the scroller `id` the offset `p`. An error means out of memory; the map is then as it was.
    pub fn set(&mut self, id: u32, p: Point) -> Result<(), AllocError>
        ensures offsets { (k : ℕ) → offset_at self.new k ≡ (if is_ok result && k == id then p else offset_at self.old k) }
        ensures unchanged { OnErr result (self.new ≡ self.old) }
    {
        match self.points.get(id) {
            Some(_) => {
                self.points.set(id, &p);
                Ok(())
            }
            None => self.points.add(id, p),
        }
    }

    /// The offset of a scroller; (0, 0) if none was set.
    #[tactic(auto, unfolding(crate::specs::OffsetMap::offset_at))]
    pub fn get(&self, id: u32) -> Point
        ensures { result ≡ offset_at self.now id }
    {
        match self.points.get(id) {
            Some(&p) => p,
            None => Point { x: 0, y: 0 },
        }
    }
}
