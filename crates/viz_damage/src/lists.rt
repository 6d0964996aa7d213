//! What changes from the quads of a pass to those of its successor.

ghost use Rattle.std.specs.Prelude.{◌≡◌, ◌+◌, ◌-◌, ◌<◌, ◌≤◌, All, length, take, drop, false, OnOk, IfOk, IsTrue};
ghost use Rattle.viz_scene.specs.Views.{quads_view};
ghost use Rattle.viz_scene.specs.Sound.{QuadFits};
ghost use Rattle.viz_scene.specs.Areas.{IsOnScreen};
ghost use Rattle.viz_damage.specs.inner.Areas.{HoldAll};
ghost use Rattle.viz_damage.specs.inner.Alike.{ActListsAlike, DifferWithin, GoOnAlike};

use crate::areas::add_area;
use crate::moved::add_change;
use crate::quads::{act_alike, area_of, stand_for_one};
use geom::Rect;
use std::alloc::AllocError;
use viz_scene::Quad;

// How far ahead a quad is looked for that stands in both lists.
const MOST_AHEAD: usize = 64;

// The same if both quads are rects of one colour: once they have moved, none represents another.
const FEW_AHEAD: usize = 4;

/// Adds to damage where two lists of quads differ, if the passes before them have these reaches.
pub(crate) fn add_changes(
    old: &[Quad],
    new: &[Quad],
    reaches: &[Rect],
    damage: &mut Vec<Rect>,
) -> Result<(), AllocError>
    requires old { All (QuadFits 2048 2048 (length reaches.now)) (quads_view old.now) }
    requires new { All (QuadFits 2048 2048 (length reaches.now)) (quads_view new.now) }
    requires reaches { All IsOnScreen reaches.now }
    requires damage { All IsOnScreen damage.old.items }
    ensures changes { OnOk result (DifferWithin reaches.now damage.new.items (quads_view old.now) (quads_view new.now)) }
    ensures held { OnOk result (HoldAll damage.new.items damage.old.items) }
    ensures damage { All IsOnScreen damage.new.items }
{
    let end = common_end(old, new, reaches.len());
    let (old, _) = old.split_at(old.len() - end);
    let (new, _) = new.split_at(new.len() - end);
    add_front_changes(old, new, reaches, damage)?;
    Ok(())
}

// How many quads at the end of two lists act alike.
fn common_end(old: &[Quad], new: &[Quad], passes: usize) -> usize
    requires old { All (QuadFits 2048 2048 passes) (quads_view old.now) }
    requires new { All (QuadFits 2048 2048 passes) (quads_view new.now) }
    ensures old { result ≤ length old.now }
    ensures new { result ≤ length new.now }
    ensures alike { ActListsAlike (quads_view (drop (length old.now - result) old.now)) (quads_view (drop (length new.now - result) new.now)) }
{
    let mut end = 0;
    while end < old.len() && end < new.len() {
        let quad = &old[old.len() - 1 - end];
        let other = &new[new.len() - 1 - end];
        if !act_alike(quad, other, passes) {
            return end;
        }
        end += 1;
    }
    end
}

// Adds to damage where two lists of quads differ, from their first quads on.
fn add_front_changes(
    old: &[Quad],
    new: &[Quad],
    reaches: &[Rect],
    damage: &mut Vec<Rect>,
) -> Result<(), AllocError>
    requires old { All (QuadFits 2048 2048 (length reaches.now)) (quads_view old.now) }
    requires new { All (QuadFits 2048 2048 (length reaches.now)) (quads_view new.now) }
    requires reaches { All IsOnScreen reaches.now }
    requires damage { All IsOnScreen damage.old.items }
    ensures changes { OnOk result (DifferWithin reaches.now damage.new.items (quads_view old.now) (quads_view new.now)) }
    ensures held { OnOk result (HoldAll damage.new.items damage.old.items) }
    ensures damage { All IsOnScreen damage.new.items }
{
    let mut i = 0;
    let mut j = 0;
    while i < old.len() && j < new.len() {
        let next = add_step(old, i, new, j, reaches, damage)?;
        i = next.old;
        j = next.new;
    }
    add_areas(old, i, old.len() - i, reaches, damage)?;
    add_areas(new, j, new.len() - j, reaches, damage)?;
    Ok(())
}

// A place in each of two lists.
#[derive(Clone, Copy)]
struct Places {
    old: usize,
    new: usize,
}

// Adds what changes from a place in each list to the next places at which they may go on alike.
fn add_step(
    old: &[Quad],
    i: usize,
    new: &[Quad],
    j: usize,
    reaches: &[Rect],
    damage: &mut Vec<Rect>,
) -> Result<Places, AllocError>
    requires old { All (QuadFits 2048 2048 (length reaches.now)) (quads_view old.now) }
    requires i { i < length old.now }
    requires new { All (QuadFits 2048 2048 (length reaches.now)) (quads_view new.now) }
    requires j { j < length new.now }
    requires reaches { All IsOnScreen reaches.now }
    requires damage { All IsOnScreen damage.old.items }
    ensures old { IfOk result (λ next. (i ≤ next.old) × (next.old ≤ length old.now)) }
    ensures new { IfOk result (λ next. (j ≤ next.new) × (next.new ≤ length new.now)) }
    ensures further { IfOk result (λ next. i + j < next.old + next.new) }
    ensures changes { IfOk result (λ next.
        DifferWithin reaches.now damage.old.items (take i (quads_view old.now)) (take j (quads_view new.now))
        → DifferWithin reaches.now damage.new.items (take next.old (quads_view old.now)) (take next.new (quads_view new.now))) }
    ensures held { IfOk result (λ next. HoldAll damage.new.items damage.old.items) }
    ensures damage { All IsOnScreen damage.new.items }
{
    let step = step_at(old, i, new, j, reaches.len());
    if step.act_alike {
        return Ok(Places {
            old: i + 1,
            new: j + 1,
        });
    }
    if step.gone == 1 && step.come == 1 {
        add_change(&old[i], &new[j], reaches, damage)?;
        return Ok(Places {
            old: i + 1,
            new: j + 1,
        });
    }
    add_areas(old, i, step.gone, reaches, damage)?;
    add_areas(new, j, step.come, reaches, damage)?;
    Ok(Places {
        old: i + step.gone,
        new: j + step.come,
    })
}

// How two lists go on from a place in each.
#[derive(Clone, Copy)]
struct ListStep {
    // The quads there act alike.
    act_alike: bool,
    // How many quads of the old list are gone.
    gone: usize,
    // How many quads of the new list have come.
    come: usize,
}

// How two lists go on: by one quad in each that acts alike, or by what has to go and to come until two quads
// represent one thing.
fn step_at(old: &[Quad], i: usize, new: &[Quad], j: usize, passes: usize) -> ListStep
    requires old { All (QuadFits 2048 2048 passes) (quads_view old.now) }
    requires i { i < length old.now }
    requires j { j < length new.now }
    ensures alike { IsTrue result.act_alike → GoOnAlike (quads_view old.now) i (quads_view new.now) j }
    ensures gone { i + result.gone ≤ length old.now }
    ensures come { j + result.come ≤ length new.now }
    ensures some { 1 ≤ result.gone + result.come }
{
    if act_alike(&old[i], &new[j], passes) {
        return ListStep {
            act_alike: true,
            gone: 1,
            come: 1,
        };
    }
    step_over(old, i, new, j)
}

// How far ahead is looked for a quad that represents one of these two.
fn most_ahead(a: &Quad, b: &Quad) -> usize {
    match (a, b) {
        (Quad::Solid { .. }, Quad::Solid { .. }) => FEW_AHEAD,
        _ => MOST_AHEAD,
    }
}

// How many quads have to go and to come until two quads represent one thing.
fn step_over(old: &[Quad], i: usize, new: &[Quad], j: usize) -> ListStep
    requires i { i < length old.now }
    requires j { j < length new.now }
    ensures change { result.act_alike ≡ false }
    ensures gone { i + result.gone ≤ length old.now }
    ensures come { j + result.come ≤ length new.now }
    ensures some { 1 ≤ result.gone + result.come }
{
    let changed = ListStep {
        act_alike: false,
        gone: 1,
        come: 1,
    };
    if stand_for_one(&old[i], &new[j]) {
        return changed;
    }
    let most = most_ahead(&old[i], &new[j]);
    for ahead in 1..most {
        if ahead < old.len() - i && stand_for_one(&old[i + ahead], &new[j]) {
            return ListStep {
                act_alike: false,
                gone: ahead,
                come: 0,
            };
        }
        if ahead < new.len() - j && stand_for_one(&old[i], &new[j + ahead]) {
            return ListStep {
                act_alike: false,
                gone: 0,
                come: ahead,
            };
        }
    }
    changed
}

// Adds the areas that the given number of quads from a place on act on.
fn add_areas(
    quads: &[Quad],
    start: usize,
    count: usize,
    reaches: &[Rect],
    damage: &mut Vec<Rect>,
) -> Result<(), AllocError>
    requires quads { All (QuadFits 2048 2048 (length reaches.now)) (quads_view quads.now) }
    requires count { start + count ≤ length quads.now }
    requires reaches { All IsOnScreen reaches.now }
    requires damage { All IsOnScreen damage.old.items }
    ensures changes { OnOk result (DifferWithin reaches.now damage.new.items (take (start + count) (quads_view quads.now)) (take start (quads_view quads.now))) }
    ensures held { OnOk result (HoldAll damage.new.items damage.old.items) }
    ensures damage { All IsOnScreen damage.new.items }
{
    for place in start..start + count {
        add_area(damage, area_of(&quads[place], reaches))?;
    }
    Ok(())
}
