//! Layers in their places on the screen, with the groups that they are blended in.

ghost use Rattle.std.specs.Prelude.{◌≡◌, ◌≤◌, ◌<◌, ℤ, length, get_or, map, All, IfOk, IfSome, MatchOption};
ghost use Rattle.geom.specs.Sides.{IsLayerSide};
ghost use Rattle.page_properties.specs.OffsetMap.{offset_at, AreOffsets};
ghost use Rattle.page_layers.specs.Layers.{parts_of};
ghost use Rattle.page_layers.specs.TreePainting.{layer_colour_at, groups_in, opacity_in};
ghost use Rattle.page_layers.specs.Paintings.{ReadyShows};
ghost use Rattle.recording_check.specs.inner.Sheets.{effects_of, colour_in, ready, HaveOpacities, IsSheetOf};

use geom::TileKey;
use page_layers::{Group, Layer, LayerTree, PlacedLayer, groups_of, placed};
use page_properties::Offsets;
use std::alloc::{AllocError, Global};
use std::marker::Model;

/// A layer in its place on the screen, with its groups.
#[derive(Drop)]
pub(crate) struct Sheet {
    placed: PlacedLayer,
    // The effects below 255 that it lies in, the outermost first.
    groups: Vec<Group>,
}

impl Model for Sheet {
    ghost use Rattle.std.specs.Prelude.{◌≤◌, length};
    ghost use Rattle.recording_check.specs.inner.Sheets.{SheetModel};

    ghost Value = { SheetModel };

    ghost view = { λ s. record { placed = s.placed; groups = s.groups.items } };

    ghost invariant = { λ s. length s.groups.items ≤ 256 };
}

// A layer of a tree in its place at these offsets.
fn sheet_of(
    alloc: Global,
    tree: &LayerTree,
    offsets: &Offsets,
    missing: &[TileKey],
    layer: &Layer,
) -> Result<Sheet, AllocError>
    requires offsets { AreOffsets (offset_at offsets.now) }
    requires wide { IsLayerSide layer.now.w }
    requires tall { IsLayerSide layer.now.h }
    ensures { IfOk result (λ s. IsSheetOf tree.now (offset_at offsets.now) missing.now (parts_of layer.now) s) }
{
    let props = tree.props();
    props.are_trees();
    let groups = groups_of(alloc, props, layer.effect)?;
    let own = placed(alloc, tree, offsets, missing, layer)?;
    Ok(Sheet {
        placed: own,
        groups,
    })
}

// Layers of a tree in their places at these offsets.
fn sheets_in(
    alloc: Global,
    tree: &LayerTree,
    offsets: &Offsets,
    missing: &[TileKey],
    layers: &[Layer],
) -> Result<Vec<Sheet>, AllocError>
    requires offsets { AreOffsets (offset_at offsets.now) }
    requires sizes { All (λ l. IsLayerSide l.w × IsLayerSide l.h) layers.now }
    ensures colours { IfOk result (λ sheets. (x y : ℤ) → map (colour_in tree.now.view.tile x y) sheets.items ≡ map (λ l. layer_colour_at tree.now (offset_at offsets.now) missing.now x y (parts_of l)) layers.now) }
    ensures groups { IfOk result (λ sheets. map effects_of sheets.items ≡ map (λ l. groups_in tree.now.props.effects l.effect) layers.now) }
    ensures opacities { IfOk result (λ sheets. HaveOpacities (opacity_in tree.now.props.effects) sheets.items) }
{
    let mut sheets = Vec::new(alloc);
    for layer in layers {
        sheets.push(sheet_of(alloc, tree, offsets, missing, layer)?)?;
    }
    Ok(sheets)
}

/// The layers of a tree in their places at these offsets, in painting order. An error means out of memory.
pub(crate) fn sheets_of(
    alloc: Global,
    tree: &LayerTree,
    offsets: &Offsets,
    missing: &[TileKey],
) -> Result<Vec<Sheet>, AllocError>
    requires { AreOffsets (offset_at offsets.now) }
    ensures { IfOk result (λ sheets. ReadyShows tree.now (offset_at offsets.now) missing.now (ready tree.now.view.tile sheets.items)) }
{
    tree.is_page();
    let sheets = sheets_in(alloc, tree, offsets, missing, tree.layers())?;
    Ok(sheets)
}

impl Sheet {
    /// The layer in its place.
    pub(crate) fn placed(&self) -> &PlacedLayer
        ensures { result.now ≡ self.now.placed }
    {
        &self.placed
    }

    /// The group that the layer lies in at a depth, if there is one.
    pub(crate) fn group(&self, depth: usize) -> Option<Group>
        ensures value { MatchOption result (length self.now.groups ≤ depth) (λ g. (depth < length self.now.groups) × (g ≡ get_or self.now.groups depth g)) }
        ensures few { IfSome result (λ g. depth < 256) }
    {
        self.groups.get(depth).copied()
    }
}
