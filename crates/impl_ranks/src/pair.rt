//! The ranks of a layer, beside the layer of the same number in the other tree.
//!
//! If both stand alike on the screen, a tile is seen alike in both trees: one look serves both, and the stamps
//! alone tell whether the other tree has the key, too.

ghost use Rattle.std.specs.Prelude.{◌≡◌, ◌==◌, ◌++◌, true, cond, filter_map, Some, IsTrue, OnOk, All, option_copied};
ghost use Rattle.std.specs.Option.{option_and_then};
ghost use Rattle.geom.specs.Covers.{IsSound};
ghost use Rattle.geom.specs.Grids.{has};
ghost use Rattle.tile_tiling.specs.Tiles.{stamp_at};
ghost use Rattle.tile_priority.specs.declared.rank.Side.TheVariants as side;
ghost use Rattle.impl_ranks.specs.inner.Lists as spec;
ghost use Rattle.impl_ranks.specs.inner.Lists.{IsNarrow};
ghost use Rattle.impl_ranks.specs.inner.Pairs as pairs;
ghost use Rattle.impl_ranks.specs.inner.Pairs.{SameBorders, StandAlike};

use crate::found::rank_on;
use crate::layer::SeenLayer;
use crate::near::{area_near, place_rank, push_rank};
use geom::{Place, Rect};
use std::alloc::{AllocError, Global};
use std::marker::Model;
use tile_priority::{Borders, Rank, Side, TreePriority, least};

/// A layer with the borders of its tree, and the layer of the same number in the other tree, if there is one,
/// with those of that tree.
#[derive(Drop)]
pub(crate) struct Pair<'b, 'a> {
    borders: &'b Borders,
    layer: &'b SeenLayer<'a>,
    theirs: &'b Borders,
    other: Option<&'b SeenLayer<'a>>,
    // The two stand alike on the screen.
    alike: bool,
}

impl<'b, 'a> Model for Pair<'b, 'a> {
    ghost use Rattle.std.specs.Prelude.{◌≡◌, true, option_copied};
    ghost use Rattle.geom.specs.Covers.{IsSound};
    ghost use Rattle.impl_ranks.specs.inner.Pairs as pairs;

    ghost Value = { pairs.Pair };

    ghost view = { λ p. record { borders = p.borders.now; layer = p.layer.now; theirs = p.theirs.now; other = option_copied p.other } };

    ghost invariant = { λ p. IsSound p.borders.now.viewport × IsSound p.theirs.now.viewport × (p.alike ≡ true → pairs.IsAlike p.borders.now p.layer.now p.theirs.now (option_copied p.other)) };
}

// Whether two rects have one corner.
fn have_one_corner(a: Rect, b: Rect) -> bool
    ensures x { result ≡ true → b.x ≡ a.x }
    ensures y { result ≡ true → b.y ≡ a.y }
{
    b.x == a.x && b.y == a.y
}

// Whether they have one size.
fn have_one_size(a: Rect, b: Rect) -> bool
    ensures w { result ≡ true → b.w ≡ a.w }
    ensures h { result ≡ true → b.h ≡ a.h }
{
    b.w == a.w && b.h == a.h
}

// Whether two rects are one.
fn is_same_rect(a: Rect, b: Rect) -> bool
    ensures { result ≡ true → b ≡ a }
{
    let corner = have_one_corner(a, b);
    let size = have_one_size(a, b);
    corner && size
}

// Whether two trees have one viewport, and one soon border.
fn are_seen_alike(borders: &Borders, theirs: &Borders) -> bool
    ensures viewport { result ≡ true → theirs.now.viewport ≡ borders.now.viewport }
    ensures soon { result ≡ true → theirs.now.soon ≡ borders.now.soon }
{
    is_same_rect(borders.viewport, theirs.viewport) && theirs.soon == borders.soon
}

// Whether they have one eventually border, and the same of them comes first.
fn are_ranked_alike(borders: &Borders, theirs: &Borders) -> bool
    ensures eventually { result ≡ true → theirs.now.eventually ≡ borders.now.eventually }
    ensures priority { result ≡ true → theirs.now.priority ≡ borders.now.priority }
{
    theirs.eventually == borders.eventually && theirs.priority == borders.priority
}

// Whether these borders are the same.
fn are_same(borders: &Borders, theirs: &Borders) -> bool
    ensures { result ≡ true → SameBorders borders.now theirs.now }
{
    let seen = are_seen_alike(borders, theirs);
    let ranked = are_ranked_alike(borders, theirs);
    seen && ranked
}

// Whether the layer beside one is there and stands alike, in a tree with the same borders.
fn is_alike(
    borders: &Borders,
    layer: &SeenLayer<'_>,
    theirs: &Borders,
    other: Option<&SeenLayer<'_>>,
) -> bool
    ensures { result ≡ true → pairs.IsAlike borders.now layer.now theirs.now (option_copied other.entry) }
{
    match other {
        None => false,
        Some(other) => {
            let same = are_same(borders, theirs);
            let stands = layer.stands_as(other);
            same && stands
        }
    }
}

// Whether two layers have one key at a place that both have.
fn have_one_key(layer: &SeenLayer<'_>, other: &SeenLayer<'_>, place: Place) -> bool
    requires here { IsTrue (has layer.now.grid place) }
    requires there { IsTrue (has other.now.grid place) }
    ensures { result ≡ (stamp_at other.now.stamps place == stamp_at layer.now.stamps place) }
{
    other.key_at(place).stamp == layer.key_at(place).stamp
}

// The tree that gives the better rank to a tile that is seen alike in both.
fn better_side(borders: &Borders) -> Side
    ensures { result ≡ pairs.better_side borders.now.priority }
{
    match borders.priority {
        TreePriority::New => Side::Pending,
        TreePriority::Same | TreePriority::Smooth => Side::Active,
    }
}

// The tree that gives the better rank to the key of a place of an active layer, beside a pending layer that has the
// place, too.
fn side_at(borders: &Borders, layer: &SeenLayer<'_>, other: &SeenLayer<'_>, place: Place) -> Side
    requires here { IsTrue (has layer.now.grid place) }
    requires there { IsTrue (has other.now.grid place) }
    ensures { result ≡ cond (stamp_at other.now.stamps place == stamp_at layer.now.stamps place) (pairs.better_side borders.now.priority) side.Active }
{
    if have_one_key(layer, other, place) {
        better_side(borders)
    } else {
        Side::Active
    }
}

// The rank of a place of an active layer, or the better one that its key has in a pending layer that stands alike.
fn better_alike(
    borders: &Borders,
    layer: &SeenLayer<'_>,
    other: &SeenLayer<'_>,
    place: Place,
) -> Option<Rank>
    requires viewport { IsSound borders.now.viewport }
    requires there { IsTrue (has layer.now.grid place) }
    requires alike { StandAlike layer.now other.now }
    ensures { result ≡ option_and_then (pairs.better_beside borders.now (Some other.now)) (spec.place_rank borders.now side.Active layer.now place) }
{
    let side = side_at(borders, layer, other, place);
    place_rank(borders, side, layer, place)
}

// The same, of a pending layer that may stand elsewhere.
fn better_apart(
    borders: &Borders,
    layer: &SeenLayer<'_>,
    theirs: &Borders,
    other: &SeenLayer<'_>,
    place: Place,
) -> Option<Rank>
    requires viewport { IsSound borders.now.viewport }
    requires other_viewport { IsSound theirs.now.viewport }
    requires there { IsTrue (has layer.now.grid place) }
    ensures { result ≡ option_and_then (pairs.better_beside theirs.now (Some other.now)) (spec.place_rank borders.now side.Active layer.now place) }
{
    match place_rank(borders, Side::Active, layer, place) {
        None => None,
        Some(rank) => least(
            Some(rank),
            rank_on(theirs, Side::Pending, Some(other), rank.key),
        ),
    }
}

// The rank of a place of a pending layer, if its key has none in an active layer that stands alike.
#[tactic(auto, using(crate::proofs::Pairs::alone_twin))]
fn alone_alike(
    borders: &Borders,
    layer: &SeenLayer<'_>,
    other: &SeenLayer<'_>,
    place: Place,
) -> Option<Rank>
    requires viewport { IsSound borders.now.viewport }
    requires there { IsTrue (has layer.now.grid place) }
    requires alike { StandAlike layer.now other.now }
    ensures { result ≡ option_and_then (pairs.alone_beside borders.now (Some other.now)) (spec.place_rank borders.now side.Pending layer.now place) }
{
    if have_one_key(layer, other, place) {
        None
    } else {
        place_rank(borders, Side::Pending, layer, place)
    }
}

// The same, of an active layer that may stand elsewhere.
fn alone_apart(
    borders: &Borders,
    layer: &SeenLayer<'_>,
    theirs: &Borders,
    other: &SeenLayer<'_>,
    place: Place,
) -> Option<Rank>
    requires viewport { IsSound borders.now.viewport }
    requires other_viewport { IsSound theirs.now.viewport }
    requires there { IsTrue (has layer.now.grid place) }
    ensures { result ≡ option_and_then (pairs.alone_beside theirs.now (Some other.now)) (spec.place_rank borders.now side.Pending layer.now place) }
{
    match place_rank(borders, Side::Pending, layer, place) {
        None => None,
        Some(rank) => {
            if rank_on(theirs, Side::Active, Some(other), rank.key).is_none() {
                Some(rank)
            } else {
                None
            }
        }
    }
}

impl<'b, 'a> Pair<'b, 'a> {
    /// A layer with the borders of its tree, and the layer beside it with those of the other tree.
    pub(crate) fn new(
        borders: &'b Borders,
        layer: &'b SeenLayer<'a>,
        theirs: &'b Borders,
        other: Option<&'b SeenLayer<'a>>,
    ) -> Pair<'b, 'a>
        requires own { IsSound borders.now.viewport }
        requires theirs { IsSound theirs.now.viewport }
        ensures { result ≡ record { borders = borders.now; layer = layer.now; theirs = theirs.now; other = option_copied other.entry } }
    {
        let alike = is_alike(borders, layer, theirs, other);
        Pair {
            borders,
            layer,
            theirs,
            other,
            alike,
        }
    }

    // The rank of a place of the active layer, or the better one that its key has in the pending layer.
    #[tactic(auto, using(crate::proofs::Pairs::better_without, crate::proofs::Pairs::one_borders))]
    fn better(&self, place: Place) -> Option<Rank>
        requires { IsTrue (has self.now.layer.grid place) }
        ensures { result ≡ option_and_then (pairs.better_beside self.now.theirs self.now.other) (spec.place_rank self.now.borders side.Active self.now.layer place) }
    {
        match self.other {
            None => place_rank(self.borders, Side::Active, self.layer, place),
            Some(other) => {
                if self.alike {
                    better_alike(self.borders, self.layer, other, place)
                } else {
                    better_apart(self.borders, self.layer, self.theirs, other, place)
                }
            }
        }
    }

    // The rank of a place of the pending layer, if its key has none in the active layer.
    #[tactic(auto, using(crate::proofs::Pairs::alone_without, crate::proofs::Pairs::one_borders))]
    fn alone(&self, place: Place) -> Option<Rank>
        requires { IsTrue (has self.now.layer.grid place) }
        ensures { result ≡ option_and_then (pairs.alone_beside self.now.theirs self.now.other) (spec.place_rank self.now.borders side.Pending self.now.layer place) }
    {
        match self.other {
            None => place_rank(self.borders, Side::Pending, self.layer, place),
            Some(other) => {
                if self.alike {
                    alone_alike(self.borders, self.layer, other, place)
                } else {
                    alone_apart(self.borders, self.layer, self.theirs, other, place)
                }
            }
        }
    }

    // Puts the ranks of these places of the active layer after others, each as the better one of its key.
    fn push_better_at(&self, ranks: &mut Vec<Rank>, places: &[Place]) -> Result<(), AllocError>
        requires { All (λ p. IsTrue (has self.now.layer.grid p)) places.now }
        ensures { OnOk result (ranks.new.items ≡ ranks.old.items ++ filter_map (λ p. option_and_then (pairs.better_beside self.now.theirs self.now.other) (spec.place_rank self.now.borders side.Active self.now.layer p)) places.now) }
    {
        ranks.reserve(places.len())?;
        for place in places {
            push_rank(ranks, self.better(*place))?;
        }
        Ok(())
    }

    // Puts the ranks of these places of the pending layer after others, if their keys have none in the active layer.
    fn push_alone_at(&self, ranks: &mut Vec<Rank>, places: &[Place]) -> Result<(), AllocError>
        requires { All (λ p. IsTrue (has self.now.layer.grid p)) places.now }
        ensures { OnOk result (ranks.new.items ≡ ranks.old.items ++ filter_map (λ p. option_and_then (pairs.alone_beside self.now.theirs self.now.other) (spec.place_rank self.now.borders side.Pending self.now.layer p)) places.now) }
    {
        for place in places {
            push_rank(ranks, self.alone(*place))?;
        }
        Ok(())
    }

    /// Puts the ranks of the active layer's places near the viewport after others, each as the better one that its key
    /// has in the pending layer. An error means out of memory.
    #[tactic(auto, using(crate::proofs::Pairs::fused))]
    pub(crate) fn push_better(&self, alloc: Global, ranks: &mut Vec<Rank>) -> Result<(), AllocError>
        requires { IsNarrow self.now.borders }
        ensures { OnOk result (ranks.new.items ≡ ranks.old.items ++ filter_map (pairs.better_beside self.now.theirs self.now.other) (spec.near_ranks self.now.borders side.Active self.now.layer)) }
    {
        let places = self.layer.places_near(alloc, area_near(self.borders))?;
        self.push_better_at(ranks, places.as_slice())
    }

    /// Puts the ranks of the pending layer's places near the viewport after others, if their keys have none in the
    /// active layer. An error means out of memory.
    #[tactic(auto, using(crate::proofs::Pairs::fused))]
    pub(crate) fn push_alone(&self, alloc: Global, ranks: &mut Vec<Rank>) -> Result<(), AllocError>
        requires { IsNarrow self.now.borders }
        ensures { OnOk result (ranks.new.items ≡ ranks.old.items ++ filter_map (pairs.alone_beside self.now.theirs self.now.other) (spec.near_ranks self.now.borders side.Pending self.now.layer)) }
    {
        let places = self.layer.places_near(alloc, area_near(self.borders))?;
        self.push_alone_at(ranks, places.as_slice())
    }
}
