//! The painting of one point, computed layer by layer.

ghost use Rattle.std.specs.Prelude.{◌≡◌, ℕ, ◌≤◌, ◌+◌, All, length, vec_len};
ghost use Rattle.std.specs.List.{prefix_len};
ghost use Rattle.page_layers.specs.Painting.{folded, items_at};
ghost use Rattle.page_layers.specs.inner.Runs.{lies_in};
ghost use Rattle.page_layers.specs.inner.LayerSamples.{groups_of, colour_of, HaveOpacities};

use pixel::Colour;

/// An effect below 255 that a layer lies in: the layers in it are blended as one.
#[derive(Clone, Copy)]
pub struct Group {
    /// The effect's id.
    pub effect: u32,
    /// The effect's opacity, 0 to 255.
    pub opacity: u8,
}

/// A layer at a point.
#[derive(Drop)]
pub(crate) struct LayerSample {
    /// The effects below 255 that the layer lies in, the outermost first.
    pub(crate) groups: Vec<Group>,
    /// The layer's colour at the point.
    pub(crate) colour: Colour,
}

// Whether the layer lies in this effect's group at this depth.
fn lies_inside(sample: &LayerSample, depth: usize, effect: u32) -> bool
    ensures { result ≡ lies_in groups_of depth effect sample.now }
{
    if depth < sample.groups.len() {
        let group = sample.groups[depth];
        effect == group.effect
    } else {
        false
    }
}

// How many layers from the first on lie in this effect's group.
fn run_len(samples: &[LayerSample], depth: usize, effect: u32) -> usize
    ensures value { result ≡ prefix_len (lies_in groups_of depth effect) samples.now }
    ensures within { result ≤ length samples.now }
{
    let mut len = 0;
    for sample in samples {
        if !lies_inside(sample, depth, effect) {
            break;
        }
        len += 1;
    }
    len
}

/// The layers at a point, those of one effect with their groups from a depth on, laid over a colour
/// in order. Layers that stand together in a group are blended from transparent, faded by the
/// group's opacity, and laid over what stands below them.
pub(crate) fn paint_from(samples: &[LayerSample], depth: usize, below: Colour) -> Colour
    requires few { All (λ s. vec_len s.groups ≤ 256) samples.now }
    requires deep { depth ≤ 256 }
    ensures { (opacity : ℕ → ℕ) → HaveOpacities opacity samples.now →
        result ≡ folded opacity (items_at groups_of colour_of depth samples.now) below }
{
    let mut colour = below;
    let mut rest = samples;
    while let Some((first, tail)) = rest.split_first() {
        if depth < first.groups.len() {
            let group = first.groups[depth];
            let (run, after) = rest.split_at(run_len(rest, depth, group.effect));
            let inner = paint_from(run, depth + 1, Colour::CLEAR);
            colour = colour.over(inner.scale(group.opacity));
            rest = after;
        } else {
            colour = colour.over(first.colour);
            rest = tail;
        }
    }
    colour
}
