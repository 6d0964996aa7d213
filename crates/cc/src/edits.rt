//! Where on the screen the main page may look otherwise than the active one.

ghost use Rattle.std.specs.Prelude.{◌≡◌, ◌&&◌, ◌||◌, ◌*◌, ◌-ℤ◌, ℤ, pos, neg_ℤ, ◌≤ℤ◌, find, option_map, All, IfSome, IsTrue};
ghost use Rattle.geom.specs.Covers.{covers, IsSound};
ghost use Rattle.geom.specs.Gaps.{shifted};
ghost use Rattle.page_properties.specs.Placement.{IsWithin};
ghost use Rattle.page_layers.specs.Layers.{parts_of, has_id};
ghost use Rattle.region.specs.Points.{covered};
ghost use Rattle.cc.specs.inner.Edits as spec;
ghost use Rattle.cc.specs.inner.Edits.{shows_rects, CoverBoth, IsKnownUnion, CoverChange, CoverFirst, IsNoted};

use geom::{Point, Rect};
use page_layers::{Command, Layer, LayerTree, main_offsets};
use region::{Changes, LayerChange, Region};
use std::alloc::Global;
use tile_visible::clip_in;

// How many rects are noted at most: of more it is not known where the pages differ.
const MOST_RECTS: usize = 16;

// How far from the origin of its layer a rect that is moved to the screen begins at most.
const FAR: i32 = 134217728;

// Whether a command changes nothing but the items of a layer.
fn changes_items(command: &Command) -> bool
    ensures { result ≡ spec.changes_items command.now }
{
    match command {
        Command::InsertItem(_) => true,
        Command::RemoveItem(_) => true,
        Command::ReplaceItem(_) => true,
        _ => false,
    }
}

// The layer of a page with this id.
fn layer_of(page: &LayerTree, id: u32) -> Option<&Layer>
    ensures { option_map (λ l. parts_of l.now) result ≡ find (has_id id) page.now.layers }
{
    let layers = page.layers();
    for layer in layers {
        if layer.id == id {
            return Some(layer);
        }
    }
    None
}

// Whether a rect that begins at this number may be moved.
fn is_near(at: i32) -> bool
    ensures low { IsTrue result → neg_ℤ (pos 134217728) ≤ℤ at }
    ensures high { IsTrue result → at ≤ℤ pos 134217728 }
{
    -FAR <= at && at <= FAR
}

// A rect, moved; None if it begins too far from the origin.
#[tactic(auto, using(crate::proofs::ScreenRects::moved_sound))]
fn moved_rect(rect: Rect, by: Point) -> Option<Rect>
    requires rect { IsSound rect }
    requires by { IsWithin (256 * 1114112) by }
    ensures value { IfSome result (λ moved. moved ≡ shifted rect by) }
    ensures sound { IfSome result IsSound }
{
    if !is_near(rect.x) {
        return None;
    }
    if !is_near(rect.y) {
        return None;
    }
    Some(rect.shift(by))
}

// Adds what a rect and an area both cover; None if memory is out.
fn add_common(region: &mut Region, rect: Rect, area: Rect) -> Option<()>
    requires rect { IsSound rect }
    requires area { IsSound area }
    ensures { IfSome result (λ u. (x y : ℤ) → covered region.new x y ≡ (covered region.old x y || (covers rect x y && covers area x y))) }
{
    if !rect.touches(area) {
        return Some(());
    }
    match region.add(rect.intersect(area)) {
        Ok(()) => Some(()),
        Err(_) => None,
    }
}

// What rects, moved, cover of an area; None if memory is out, or a rect lies too far from the origin.
fn moved_into(alloc: Global, rects: &[Rect], by: Point, area: Rect) -> Option<Region>
    requires rects { All IsSound rects.now }
    requires by { IsWithin (256 * 1114112) by }
    requires area { IsSound area }
    ensures { IfSome result (λ moved. (x y : ℤ) → covered moved x y ≡ (covered rects.now (x -ℤ by.x) (y -ℤ by.y) && covers area x y)) }
{
    let mut moved = Region::new(alloc);
    for rect in rects {
        let place = moved_rect(*rect, by)?;
        add_common(&mut moved, place, area)?;
    }
    Some(moved)
}

// Where on the screen a layer shows some of its rects; None if that is not known.
fn rects_on_screen(alloc: Global, page: &LayerTree, layer: &Layer, rects: &[Rect]) -> Option<Region>
    requires { All IsSound rects.now }
    ensures { IfSome result (λ shown. (x y : ℤ) → covered shown x y ≡ shows_rects page.now rects.now (parts_of layer.now) x y) }
{
    let Ok(offsets) = main_offsets(alloc, page) else {
        return None;
    };
    let by = page.props().translation(layer.transform, &offsets);
    moved_into(alloc, rects, by, clip_in(page, &offsets, layer))
}

// Where on the screen a change of a layer shows; None if that is not known.
#[tactic(auto, using(crate::proofs::ScreenRects::change_covered))]
fn change_on_screen(alloc: Global, page: &LayerTree, change: &LayerChange) -> Option<Region>
    ensures { IfSome result (λ shown. CoverChange page.now change.now shown) }
{
    let layer = layer_of(page, change.layer)?;
    rects_on_screen(alloc, page, layer, change.region.rects())
}

// Where on the screen the first of some changes shows; None if that is not known.
#[tactic(auto, using(crate::proofs::ScreenRects::first_covered))]
fn first_on_screen(alloc: Global, page: &LayerTree, changes: &Changes) -> Option<Region>
    ensures { IfSome result (λ shown. CoverFirst page.now changes.now.list shown) }
{
    let change = changes.at(0)?;
    change_on_screen(alloc, page, change)
}

// The points of two regions; None if memory is out, or these are many rects.
#[tactic(auto, using(crate::proofs::ScreenRects::cover_both))]
fn both_regions(first: Region, second: &Region) -> Option<Region>
    ensures { IfSome result (CoverBoth first second.now) }
{
    let mut all = first;
    all.union(second).ok()?;
    if all.rects().len() > MOST_RECTS {
        return None;
    }
    Some(all)
}

/// The points of two regions; None if one is not known, memory is out, or these are many rects.
#[tactic(auto, using(crate::proofs::ScreenRects::known_union_is))]
pub(crate) fn known_union(first: Option<Region>, second: Option<Region>) -> Option<Region>
    ensures { IfSome result (IsKnownUnion first second) }
{
    let first = first?;
    let second = second?;
    both_regions(first, &second)
}

/// Where the main page may look otherwise than the active one after a command, if that was known before it and the
/// command changed items alone; None if it is not known.
#[tactic(auto, using(crate::proofs::ScreenRects::noted_is))]
pub(crate) fn noted(
    alloc: Global,
    before: Option<Region>,
    command: &Command,
    page: &LayerTree,
    changes: &Changes,
) -> Option<Region>
    ensures { IfSome result (IsNoted before command.now page.now changes.now.list) }
{
    let old = before?;
    if !changes_items(command) {
        return None;
    }
    let new = first_on_screen(alloc, page, changes)?;
    both_regions(old, &new)
}
