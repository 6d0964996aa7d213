//! Sets of points, kept as rects.

ghost use Rattle.std.specs.Prelude.{◌≡◌, ◌↔◌, ◌⊎◌, ℤ, ◌&&◌, ◌||◌, IsTrue, OnOk, OnErr, IfOk, All, List, [], ◌∷◌, ◌++◌};
ghost use Rattle.geom.specs.Covers.{covers, IsSound, IsSpan};
ghost use Rattle.region.specs.inner.Holding;
ghost use Rattle.region.specs.inner.Holding.{any_holds, rect_holds};
ghost use Rattle.region.specs.Points.{covered, touched, Touch};

use geom::{Point, Rect};
use std::alloc::{AllocError, Global};
use std::marker::Model;

/// A set of points. Contracts see it as a list of rects, and it covers the points that some of them covers.
pub struct Region {
    rects: Vec<Rect>,
}

impl Model for Region {
    ghost use Rattle.std.specs.Prelude.{List, All};
    ghost use Rattle.geom.specs.declared.rect.Rect.{Rect};
    ghost use Rattle.geom.specs.Covers.{IsSound};

    ghost Value = { List Rect };

    ghost view = { λ r. r.rects.items };

    ghost invariant = { λ r. All IsSound r.rects.items };
}

// Written out, since a derived drop is proved anew, field by field, in each function that lets one go.
impl Drop for Region {
    fn drop(self) {
        let Region { rects: _ } = self;
    }
}

impl Region {
    /// The empty region, which takes its memory from `alloc`.
    pub fn new(alloc: Global) -> Region
        ensures { result ≡ [] }
    {
        Region {
            rects: Vec::new(alloc),
        }
    }

    /// Adds the points of `r`. An error means out of memory, and the region is as it was.
    pub fn add(&mut self, r: Rect) -> Result<(), AllocError>
        requires { IsSound r }
        ensures ok { OnOk result ((x y : ℤ) → covered self.new x y ≡ (covered self.old x y || covers r x y)) }
        ensures err { OnErr result (self.new ≡ self.old) }
    {
        add_rect(&mut self.rects, &r)
    }

    /// Adds the points of `other`. An error means out of memory, and the region is as it was.
    pub fn union(&mut self, other: &Region) -> Result<(), AllocError>
        ensures ok { OnOk result ((x y : ℤ) → covered self.new x y ≡ (covered self.old x y || covered other.now x y)) }
        ensures err { OnErr result (self.new ≡ self.old) }
    {
        add_rects(&mut self.rects, &other.rects)
    }

    /// Whether the region covers the point.
    pub fn covers(&self, p: Point) -> bool
        ensures { result ≡ covered self.now p.x p.y }
    {
        any_covers(&self.rects, p)
    }

    /// Whether there is a point that both the region and `r` cover.
    #[tactic(auto, using(crate::proofs::Covering::touching))]
    pub fn touches(&self, r: Rect) -> bool
        requires { IsSound r }
        ensures points { IsTrue result ↔ Touch self.now r }
        ensures value { result ≡ touched self.now r }
    {
        any_touches(&self.rects, r)
    }

    /// Takes away the points outside `r`.
    pub fn clip(&mut self, r: Rect)
        requires { IsSound r }
        ensures { (x y : ℤ) → covered self.new x y ≡ (covered self.old x y && covers r x y) }
    {
        clip_rects(&mut self.rects, r);
    }

    /// The rects of the region. They may overlap, and some may be empty.
    pub fn rects(&self) -> &[Rect]
        ensures same { result.now ≡ self.now }
        ensures sound { All IsSound result.now }
    {
        &self.rects
    }

    // The same region.
    pub(crate) fn copy(&self) -> Result<Region, AllocError>
        ensures { IfOk result (λ r. r ≡ self.now) }
    {
        let rects = self.rects.clone()?;
        Ok(Region { rects })
    }
}

// Whether some rect of the list covers the point.
fn any_covers(rects: &[Rect], p: Point) -> bool
    requires { All IsSound rects.now }
    ensures { result ≡ covered rects.now p.x p.y }
{
    rects.iter().any(|r| r.contains(p))
}

// Whether some rect of the list has a point in common with `r`.
fn any_touches(rects: &[Rect], r: Rect) -> bool
    requires sound { All IsSound rects.now }
    requires other { IsSound r }
    ensures { result ≡ touched rects.now r }
{
    rects.iter().any(|rect| rect.touches(r))
}

// Whether some rect of the list holds `r` whole.
fn any_holds(rects: &[Rect], r: Rect) -> bool
    requires sound { All IsSound rects.now }
    requires other { IsSound r }
    ensures { result ≡ any_holds rects.now r }
{
    rects.iter().any(|rect| holds(*rect, r))
}

// How many rects, the last of a list, are asked whether they hold a new one.
const ASKED: usize = 512;

// Whether one of the last rects of the list holds `r` whole.
#[tactic(auto, using(crate::proofs::Covering::last_held))]
fn any_late_holds(rects: &[Rect], r: Rect) -> bool
    requires sound { All IsSound rects.now }
    requires other { IsSound r }
    ensures { IsTrue result → IsTrue (any_holds rects.now r) }
{
    let (_, last) = rects.split_at(rects.len().saturating_sub(ASKED));
    any_holds(last, r)
}

// Whether `rect` holds `r` whole.
fn holds(rect: Rect, r: Rect) -> bool
    requires sound { IsSound rect }
    requires other { IsSound r }
    ensures { result ≡ rect_holds rect r }
{
    let across = span_holds(rect.x, rect.w, r.x, r.w);
    let down = span_holds(rect.y, rect.h, r.y, r.h);
    across && down
}

// Whether the one span holds the other whole.
#[tactic(auto, unfolding(crate::specs::inner::Holding::span_holds))]
fn span_holds(at: i32, len: i32, other_at: i32, other_len: i32) -> bool
    requires span { IsSpan at len }
    requires other { IsSpan other_at other_len }
    ensures { result ≡ Holding.span_holds at len other_at other_len }
{
    let end = at + len;
    let other_end = other_at + other_len;
    at <= other_at && other_end <= end
}

// Cuts each rect to what it has in common with `r`.
fn clip_rects(rects: &mut Vec<Rect>, r: Rect)
    requires sound { All IsSound rects.old.items }
    requires other { IsSound r }
    ensures points { (x y : ℤ) → covered rects.new.items x y ≡ (covered rects.old.items x y && covers r x y) }
    ensures sound { All IsSound rects.new.items }
{
    for i in 0..rects.len() {
        let cut = rects[i].intersect(r);
        rects[i] = cut;
    }
}

// The list with `r` at its end, or the list if one of its last rects holds `r` whole.
#[tactic(auto, using(crate::proofs::Covering::any_held))]
fn add_rect(rects: &mut Vec<Rect>, r: &Rect) -> Result<(), AllocError>
    requires sound { All IsSound rects.old.items }
    requires other { IsSound r.now }
    ensures ok { OnOk result ((x y : ℤ) → covered rects.new.items x y ≡ (covered rects.old.items x y || covers r.now x y)) }
    ensures err { OnErr result (rects.new.items ≡ rects.old.items) }
    ensures grows { (rects.new.items ≡ rects.old.items) ⊎ (rects.new.items ≡ rects.old.items ++ r.now ∷ []) }
{
    if any_late_holds(rects, *r) {
        return Ok(());
    }
    rects.push(*r)?;
    Ok(())
}

// The list with the rects of `others`, but for those that its last rects hold; running out of memory leaves the list as it was.
fn add_rects(rects: &mut Vec<Rect>, others: &[Rect]) -> Result<(), AllocError>
    requires sound { All IsSound rects.old.items }
    requires others_sound { All IsSound others.now }
    ensures ok { OnOk result ((x y : ℤ) → covered rects.new.items x y ≡ (covered rects.old.items x y || covered others.now x y)) }
    ensures err { OnErr result (rects.new.items ≡ rects.old.items) }
    ensures sound { All IsSound rects.new.items }
{
    let before = rects.len();
    for r in others {
        if let Err(full) = add_rect(rects, r) {
            rects.truncate(before);
            return Err(full);
        }
    }
    Ok(())
}
