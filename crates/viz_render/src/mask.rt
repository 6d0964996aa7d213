//! What of an area opaque quads hide.

ghost use Rattle.std.specs.Prelude.{◌≡◌, ◌≢◌, ℕ, ◌<◌, ◌≤◌, ◌⊎◌, ◌+◌, All, length, slice_index, IsTrue};
ghost use Rattle.page_display_list.specs.Bitmaps.{near};
ghost use Rattle.viz_scene.specs.Views.{quads_view};
ghost use Rattle.viz_render.specs.inner.Drawing.{IsStrip, CanBeDrawn};
ghost use Rattle.viz_render.specs.inner.Masks.{block_count, AreMarked, HaveNumbers, AreNumbers, AreOpenNumbers, AreHidden, IsHiddenIn};

use crate::marks::mark_quads;
use crate::surface::Surface;
use geom::Rect;
use pixel::Area;
use std::alloc::{AllocError, Global};
use std::marker::Model;
use viz_scene::{Quad, Scene};

//// How many numbers a mask has: those of the blocks of 64 rows, 129 in each row of them.
const COUNT: usize = 1032;

/// How many rows a block has.
const ROWS_OF_BLOCK: i32 = 8;

/// How many pixels a block has.
const PIXELS_OF_BLOCK: i32 = 128;

/// How often the tiles and rects of a pass have to cover the screen on average for a mask to pay.
const DEPTH: i32 = 3;

/// For each block of sixteen columns and eight rows of an area, which quad is the first that has to be drawn there, as
/// it is opaque on the whole block: its number, counted from 1, or 0 if all have to be, and the background.
#[derive(Drop)]
pub(crate) struct Mask {
    tops: Vec<usize>,
    // None of them exceeds it.
    highest: usize,
    // Of each pass of the scene, whether a mask pays.
    deep: Vec<bool>,
}

impl Model for Mask {
    ghost use Rattle.viz_render.specs.inner.Masks.{MaskView, IsMask};

    ghost Value = { MaskView };

    ghost view = { λ m. record { tops = m.tops.items; highest = m.highest } };

    ghost invariant = { λ m. IsMask (record { tops = m.tops.items; highest = m.highest }) };
}

/// A quad of a pass, by its number in the pass's mask. It is drawn only where the mask lets it be seen.
#[derive(Clone, Copy)]
pub(crate) struct QuadMask<'a> {
    pub(crate) mask: &'a Mask,
    pub(crate) number: usize,
}

impl Mask {
    /// Takes the memory for the masks of a scene. An error means out of memory.
    pub(crate) fn new(alloc: Global, scene: &Scene) -> Result<Mask, AllocError> {
        let tops = vec![in alloc; 0usize; COUNT]?;
        let mut deep = vec![in alloc; false; scene.passes().len()]?;
        measure_passes(deep.as_mut_slice(), scene);
        Ok(Mask {
            tops,
            highest: 0,
            deep,
        })
    }

    /// Looks in which passes of a scene a mask pays.
    pub(crate) fn measure(&mut self, scene: &Scene)
        ensures { self.new ≡ self.old }
    {
        measure_passes(self.deep.as_mut_slice(), scene);
    }

    /// Whether a mask pays in some pass.
    pub(crate) fn pays(&self) -> bool {
        self.deep.iter().any(|deep| *deep)
    }

    /// The numbers, row by row of blocks.
    pub(crate) fn tops(&self) -> &[usize]
        ensures value { result.now ≡ self.now.tops }
        ensures room { length result.now ≡ block_count }
    {
        &self.tops
    }

    /// A number that none of them exceeds.
    pub(crate) fn highest(&self) -> usize
        ensures value { result ≡ self.now.highest }
        ensures bound { (i : ℕ) → slice_index self.now.tops i ≤ result }
    {
        self.highest
    }

    // Whether a mask pays for an area of the pass of this number. It hides whole blocks, of which a lower area has none.
    fn is_deep(&self, number: usize, area: Rect) -> bool {
        if area.h < ROWS_OF_BLOCK {
            return false;
        }
        match self.deep.get(number) {
            Some(deep) => *deep,
            None => false,
        }
    }

    /// Marks what the opaque ones of a pass's quads hide of an area, if that pays. The passes before it have
    /// surfaces.
    pub(crate) fn mark(&mut self, area: Rect, quads: &[Quad], passes: &[Surface])
        requires area { IsStrip area }
        requires quads { All (CanBeDrawn (length passes.now)) (quads_view quads.now) }
        ensures marked { AreMarked area quads.now self.new.tops }
        ensures numbers { AreNumbers (length quads.now) self.new.tops }
    {
        let highest = self.highest;
        let deep = self.is_deep(passes.len(), area);
        self.highest = marked(self.tops.as_mut_slice(), highest, deep, area, quads, passes);
    }

    /// Marks the same of an area of a pass before the root. Blocks of the area on which the root's mask hides this quad
    /// of the root have a number after those of all quads.
    pub(crate) fn mark_open(
        &mut self,
        area: Rect,
        quads: &[Quad],
        passes: &[Surface],
        root: QuadMask<'_>,
    )
        requires area { IsStrip area }
        requires quads { All (CanBeDrawn (length passes.now)) (quads_view quads.now) }
        ensures marked { AreMarked area quads.now self.new.tops }
        ensures numbers { AreOpenNumbers (length quads.now) root.entry.mask.now.tops root.entry.number self.new.tops }
    {
        let deep = self.is_deep(passes.len(), area);
        self.highest = open_marked(self.tops.as_mut_slice(), root, deep, area, quads, passes);
    }

    /// Whether a quad of this number is hidden on all of a part of the area.
    pub(crate) fn hides(&self, at: Area, number: usize) -> bool
        requires wide { at.x + at.w ≤ 2048 }
        requires low { at.y + at.h ≤ 64 }
        ensures { IsTrue result → IsHiddenIn at self.now.tops number }
    {
        if self.highest <= number {
            return false;
        }
        are_blocks_above(&self.tops, at, number)
    }

    /// Whether a quad of this number is hidden on most blocks of an area.
    pub(crate) fn hides_most(&self, area: Rect, number: usize) -> bool {
        if self.highest <= number {
            return false;
        }
        let mut hidden = 0i32;
        for top in self.tops.as_slice() {
            hidden = hidden.wrapping_add((*top > number) as i32);
        }
        hidden.saturating_mul(PIXELS_OF_BLOCK) > area.w.saturating_mul(area.h) / 2
    }
}

// The highest number of a mask after it was made for some quads of an area, or cleared if it does not pay; none
// was above `highest` before.
fn marked(
    tops: &mut [usize],
    highest: usize,
    deep: bool,
    area: Rect,
    quads: &[Quad],
    passes: &[Surface],
) -> usize
    requires tops { length tops.old ≡ block_count }
    requires bound { (i : ℕ) → slice_index tops.old i ≤ highest }
    requires area { IsStrip area }
    requires quads { All (CanBeDrawn (length passes.now)) (quads_view quads.now) }
    ensures size { length tops.new ≡ block_count }
    ensures bound { (i : ℕ) → slice_index tops.new i ≤ result }
    ensures marked { AreMarked area quads.now tops.new }
    ensures numbers { AreNumbers (length quads.now) tops.new }
{
    clear(tops, highest);
    if deep {
        mark_deep(tops, area, quads, passes)
    } else {
        0
    }
}

// Gives all numbers 0, of which none is above `highest`.
#[tactic(auto, using(crate::proofs::MarkSteps::none_left))]
fn clear(tops: &mut [usize], highest: usize)
    requires bound { (i : ℕ) → slice_index tops.old i ≤ highest }
    ensures size { length tops.new ≡ length tops.old }
    ensures none { (i : ℕ) → slice_index tops.new i ≤ 0 }
{
    if highest > 0 {
        fill_zeros(tops);
    }
}

// Gives all numbers 0.
fn fill_zeros(tops: &mut [usize])
    ensures size { length tops.new ≡ length tops.old }
    ensures none { (i : ℕ) → slice_index tops.new i ≤ 0 }
{
    tops.fill(0);
}

// The highest number after the marking of what the opaque ones of some quads hide.
fn mark_deep(tops: &mut [usize], area: Rect, quads: &[Quad], passes: &[Surface]) -> usize
    requires tops { length tops.old ≡ block_count }
    requires area { IsStrip area }
    requires quads { All (CanBeDrawn (length passes.now)) (quads_view quads.now) }
    requires marked { AreMarked area quads.now tops.old }
    ensures size { length tops.new ≡ length tops.old }
    ensures bound { (i : ℕ) → slice_index tops.new i ≤ result }
    ensures marked { AreMarked area quads.now tops.new }
    ensures numbers { HaveNumbers (length quads.now) tops.old tops.new }
{
    mark_quads(tops, area, quads, passes);
    highest_of(tops)
}

// The highest number of a mask after it was made for some quads of an area of which the root's mask hides blocks.
fn open_marked(
    tops: &mut [usize],
    root: QuadMask<'_>,
    deep: bool,
    area: Rect,
    quads: &[Quad],
    passes: &[Surface],
) -> usize
    requires tops { length tops.old ≡ block_count }
    requires area { IsStrip area }
    requires quads { All (CanBeDrawn (length passes.now)) (quads_view quads.now) }
    ensures size { length tops.new ≡ block_count }
    ensures bound { (i : ℕ) → slice_index tops.new i ≤ result }
    ensures marked { AreMarked area quads.now tops.new }
    ensures numbers { AreOpenNumbers (length quads.now) root.entry.mask.now.tops root.entry.number tops.new }
{
    let number = quads.len() + 1;
    hide_blocks(tops, root.mask.tops(), root.number, number);
    if deep {
        mark_deep(tops, area, quads, passes)
    } else {
        number
    }
}

// Gives the blocks on which the root's mask hides a quad of number `last` this number, and all others 0.
fn hide_blocks(tops: &mut [usize], root: &[usize], last: usize, number: usize)
    requires tops { length tops.old ≡ block_count }
    requires root { length root.now ≡ block_count }
    ensures size { length tops.new ≡ block_count }
    ensures hidden { AreHidden root.now last number block_count tops.new }
{
    for place in 0..COUNT {
        hide_block(tops, place, root[place], last, number);
    }
}

// Gives a block this number if that of the root's mask is above `last`, else 0.
fn hide_block(tops: &mut [usize], place: usize, top: usize, last: usize, number: usize)
    requires place { place < length tops.old }
    ensures size { length tops.new ≡ length tops.old }
    ensures there { (slice_index tops.new place ≡ 0) ⊎ ((last < top) × (slice_index tops.new place ≡ number)) }
    ensures other { (i : ℕ) → i ≢ place → slice_index tops.new i ≡ slice_index tops.old i }
{
    if top > last {
        tops[place] = number;
    } else {
        tops[place] = 0;
    }
}

// Whether the numbers of all blocks that an area touches are above another.
fn are_blocks_above(tops: &[usize], at: Area, number: usize) -> bool
    requires tops { length tops.now ≡ block_count }
    requires wide { at.x + at.w ≤ 2048 }
    requires low { at.y + at.h ≤ 64 }
    ensures { IsTrue result → IsHiddenIn at tops.now number }
{
    let (left, right) = (at.x / 16, (at.x + at.w + 15) / 16);
    for down in at.y / 8..(at.y + at.h + 7) / 8 {
        if !are_above(tops, down * 129 + left, down * 129 + right, number) {
            return false;
        }
    }
    true
}

/// Whether the numbers from place `first` to before `end` are all above another.
pub(crate) fn are_above(tops: &[usize], first: usize, end: usize, number: usize) -> bool
    requires { end ≤ length tops.now }
    ensures { IsTrue result → (i : ℕ) → first ≤ i → i < end → number < slice_index tops.now i }
{
    let mut above = true;
    for place in first..end {
        if tops[place] <= number {
            above = false;
        }
    }
    above
}

// The highest of some numbers.
fn highest_of(tops: &[usize]) -> usize
    ensures { (i : ℕ) → slice_index tops.now i ≤ result }
{
    let mut highest = 0;
    for top in tops {
        highest = highest.max(*top);
    }
    highest
}

// Tells of each pass of a scene whether its tiles and rects lie above one another in many places.
fn measure_passes(deep: &mut [bool], scene: &Scene) {
    let pixels = scene.w().saturating_mul(scene.h()) as i32;
    for i in 0..deep.len() {
        if let Some(pass) = scene.passes().get(i) {
            deep[i] = pixels_of(pass.quads.as_slice()) / DEPTH > pixels;
        }
    }
}

// How many pixels the tiles and rects of some quads have together.
fn pixels_of(quads: &[Quad]) -> i32 {
    let mut sum: i32 = 0;
    for quad in quads {
        match quad {
            Quad::Tile { at, .. } | Quad::Solid { at, .. } => {
                sum = sum.saturating_add(at.w.saturating_mul(at.h));
            }
            Quad::Group { .. } => {}
        }
    }
    sum
}
