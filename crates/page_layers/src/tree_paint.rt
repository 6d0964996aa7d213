//! The direct painting of a tree: what the screen shows at a point.
//!
//! What of a layer does not depend on the point is made ready once, for all points of a picture: where
//! the layer lies on the screen, and the groups that it is blended in.

ghost use Rattle.std.specs.Prelude.{◌≡◌, ◌≤◌, ℕ, ℤ, List, map, length, All, IfOk};
ghost use Rattle.geom.specs.declared.rect.Point.{Point};
ghost use Rattle.geom.specs.declared.tile.TileKey.{TileKey as Key};
ghost use Rattle.geom.specs.Sides.{IsLayerSide};
ghost use Rattle.page_properties.specs.OffsetMap.{offset_at, AreOffsets};
ghost use Rattle.page_properties.specs.Trees.{IsTrees};
ghost use Rattle.page_layers.specs.Layers.{parts_of};
ghost use Rattle.page_layers.specs.Pages.{Page};
ghost use Rattle.page_layers.specs.inner.LayerSamples.{groups_of, colour_of, HaveOpacities};
ghost use Rattle.page_layers.specs.TreePainting.{layer_colour_at, groups_in, opacity_in, paint};
ghost use Rattle.page_layers.specs.Paintings.{IsScreenPoint, ReadyShows, placed_colour};

use crate::groups;
use crate::layer::Layer;
use crate::paint::{LayerSample, paint_from};
use crate::placed_layer::{PlacedLayer, placed};
use crate::tree::LayerTree;
use geom::TileKey;
use page_properties::{Offsets, PropertyTrees};
use pixel::Colour;
use std::alloc::{AllocError, Global};
use std::marker::Model;

/// A tree made ready to be painted, at fixed offsets of its scrollers and with fixed missing tiles.
pub struct Painting {
    tile: u32,
    layers: Vec<PlacedLayer>,
    // One for each layer; the colours are those of the last point.
    samples: Vec<LayerSample>,
}

impl Model for Painting {
    ghost use Rattle.std.specs.Prelude.{◌≡◌, ◌≤◌, map, length, All};
    ghost use Rattle.page_layers.specs.Paintings.{Ready};

    ghost Value = { Ready };

    ghost view = { λ p. record { tile = p.tile; layers = p.layers.items; groups = map (λ s. s.groups.items) p.samples.items } };

    ghost invariant = { λ p. (1 ≤ p.tile) × (length p.layers.items ≡ length p.samples.items) × All (λ gs. length gs ≤ 256) (map (λ s. s.groups.items) p.samples.items) };
}

// Written out, since a derived drop is proved anew, field by field, in each function that lets one go.
impl Drop for Painting {
    fn drop(self) {
        let Painting {
            tile: _,
            layers: _,
            samples: _,
        } = self;
    }
}

// Layers in their places.
fn placed_layers(
    alloc: Global,
    tree: &LayerTree,
    offsets: &Offsets,
    missing: &[TileKey],
    layers: &[Layer],
) -> Result<Vec<PlacedLayer>, AllocError>
    requires offsets { AreOffsets (offset_at offsets.now) }
    requires sizes { All (λ l. IsLayerSide l.w × IsLayerSide l.h) layers.now }
    ensures colours { IfOk result (λ ready. (x y : ℤ) → map (placed_colour tree.now.view.tile x y) ready.items ≡ map (λ l. layer_colour_at tree.now (offset_at offsets.now) missing.now x y (parts_of l)) layers.now) }
    ensures count { IfOk result (λ ready. length ready.items ≡ length layers.now) }
{
    let mut ready = Vec::new(alloc);
    for layer in layers {
        ready.push(placed(alloc, tree, offsets, missing, layer)?)?;
    }
    Ok(ready)
}

// The samples of layers, with their groups, and without colour.
fn samples_of(
    alloc: Global,
    props: &PropertyTrees,
    layers: &[Layer],
) -> Result<Vec<LayerSample>, AllocError>
    requires { IsTrees props.now }
    ensures groups { IfOk result (λ samples. map groups_of samples.items ≡ map (λ l. groups_in props.now.effects l.effect) layers.now) }
    ensures opacities { IfOk result (λ samples. HaveOpacities (opacity_in props.now.effects) samples.items) }
    ensures few { IfOk result (λ samples. All (λ s. length s.groups.items ≤ 256) samples.items) }
    ensures count { IfOk result (λ samples. length samples.items ≡ length layers.now) }
{
    let mut samples = Vec::new(alloc);
    for layer in layers {
        let groups = groups::groups_of(alloc, props, layer.effect)?;
        samples.push(LayerSample {
            groups,
            colour: Colour::CLEAR,
        })?;
    }
    Ok(samples)
}

// Gives each sample the colour of its layer at a point of the screen.
fn set_colours(layers: &[PlacedLayer], samples: &mut [LayerSample], tile: u32, x: i32, y: i32)
    requires count { length layers.now ≡ length samples.old }
    requires cut { 1 ≤ tile }
    requires screen { IsScreenPoint x y }
    ensures colours { map colour_of samples.new ≡ map (placed_colour tile x y) layers.now }
    ensures groups { map (λ s. s.groups.items) samples.new ≡ map (λ s. s.groups.items) samples.old }
{
    for i in 0..layers.len() {
        samples[i].colour = layers[i].colour_at(tile, x, y);
    }
}

impl Painting {
    /// The tree made ready, at these offsets of its scrollers and with the tiles of these keys missing,
    /// whatever their stamps. Each offset is from 0 to 1048576 on both axes. An error means out of memory.
    pub fn new(
        alloc: Global,
        tree: &LayerTree,
        offsets: &Offsets,
        missing: &[TileKey],
    ) -> Result<Painting, AllocError>
        requires { AreOffsets (offset_at offsets.now) }
        ensures { IfOk result (λ painting. ReadyShows tree.now (offset_at offsets.now) missing.now painting) }
    {
        tree.is_page();
        let props = tree.props();
        props.are_trees();
        let layers = placed_layers(alloc, tree, offsets, missing, tree.layers())?;
        let samples = samples_of(alloc, props, tree.layers())?;
        let tile = tree.view().tile;
        Ok(Painting {
            tile,
            layers,
            samples,
        })
    }

    /// What the screen shows at a point, if nothing stands below the layers but this background.
    /// Both coordinates are from 0 to 2047. It takes no memory.
    pub fn pixel(&mut self, background: Colour, x: i32, y: i32) -> Colour
        requires { IsScreenPoint x y }
        ensures value { (p : Page) (offset : ℕ → Point) (missing : List Key) → ReadyShows p offset missing self.old → result ≡ paint p offset missing background x y }
        ensures same { self.new ≡ self.old }
    {
        set_colours(
            self.layers.as_slice(),
            self.samples.as_mut_slice(),
            self.tile,
            x,
            y,
        );
        paint_from(self.samples.as_slice(), 0, background)
    }
}

/// What the screen shows at one point of a tree, at these offsets of its scrollers, over this
/// background, and with the tiles of these keys missing. Each offset is from 0 to 1048576 on both axes,
/// and both coordinates are from 0 to 2047. An error means out of memory. For many points of one picture
/// make a [`Painting`].
pub fn paint_at(
    alloc: Global,
    tree: &LayerTree,
    offsets: &Offsets,
    missing: &[TileKey],
    background: Colour,
    x: i32,
    y: i32,
) -> Result<Colour, AllocError>
    requires offsets { AreOffsets (offset_at offsets.now) }
    requires screen { IsScreenPoint x y }
    ensures { IfOk result (λ c. c ≡ paint tree.now (offset_at offsets.now) missing.now background x y) }
{
    let mut painting = Painting::new(alloc, tree, offsets, missing)?;
    Ok(painting.pixel(background, x, y))
}
