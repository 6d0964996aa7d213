//! Which of the two ways to draw a picture of patches takes less time.

ghost use Rattle.geom.specs.Covers.{IsSound};

use crate::patches::Patch;
use crate::pixels::{height_of, width_of};
use crate::spans::Span;
use geom::Rect;
use std::alloc::{AllocError, Global};

/// The least patches of a picture that is drawn item by item: below, run by run is as fast whatever they are.
const LEAST_PATCHES: usize = 32;

/// How many pixels an item is laid over in the time in which one run of a row looks at one span.
const PIXELS_OF_LOOK: usize = 4;

/// How many pixels an item is laid over in the time that it takes in a row besides.
const PIXELS_OF_ITEM: usize = 8;

/// Whether a picture of these patches takes less time item by item than run by run. It does if many patches that begin
/// and end in many columns lie above one another: then each of the runs of a row looks at each of its spans.
pub(crate) fn are_faster_as_items(
    alloc: Global,
    patches: &[Patch],
    rect: Rect,
) -> Result<bool, AllocError>
    requires { IsSound rect }
{
    if patches.len() < LEAST_PATCHES {
        return Ok(false);
    }
    let mut edges = vec![in alloc; false; width_of(rect)]?;
    Ok(have_many_runs(patches, rect, edges.as_mut_slice()))
}

// The same, if a column is marked once a patch is known to begin or end there.
fn have_many_runs(patches: &[Patch], rect: Rect, edges: &mut [bool]) -> bool
    requires { IsSound rect }
{
    let mut runs = 1usize;
    let mut spans = 0usize;
    let mut pixels = 0usize;
    for patch in patches {
        // What is below it costs nothing run by run.
        if hides_all(patch, rect) {
            edges.fill(false);
            runs = 1;
            spans = 0;
        }
        runs = runs.saturating_add(new_edges(edges, &patch.span));
        spans = spans.saturating_add(rows_of(patch));
        pixels = pixels.saturating_add(pixels_of(patch));
    }
    runs.saturating_mul(spans).saturating_mul(PIXELS_OF_LOOK) > pixels
}

// Whether a patch is opaque and the whole picture.
fn hides_all(patch: &Patch, rect: Rect) -> bool
    requires { IsSound rect }
{
    let Span {
        left,
        right,
        colour,
    } = patch.span;
    let across = left == 0 && right >= width_of(rect);
    let down = patch.top == 0 && patch.bottom >= height_of(rect);
    across && down && colour.a() == 255
}

// Marks the columns in which a span begins and ends; how many were not marked.
fn new_edges(edges: &mut [bool], span: &Span) -> usize {
    let left = mark_edge(edges, span.left);
    let right = mark_edge(edges, span.right);
    left as usize + right as usize
}

// Marks a column, if there is such a column; whether it was not marked.
fn mark_edge(edges: &mut [bool], x: usize) -> bool {
    if x >= edges.len() || edges[x] {
        return false;
    }
    edges[x] = true;
    true
}

// How many rows a patch has.
fn rows_of(patch: &Patch) -> usize {
    patch.bottom.saturating_sub(patch.top)
}

// How many pixels a patch has, and what it costs in its rows besides.
fn pixels_of(patch: &Patch) -> usize {
    let width = patch.span.right.saturating_sub(patch.span.left);
    let cost = width.saturating_add(PIXELS_OF_ITEM);
    rows_of(patch).saturating_mul(cost)
}
