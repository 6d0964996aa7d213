//! The tree of layers, and the commands that change it.

ghost use Rattle.std.specs.Prelude.{◌≡◌, [], false, IfOk, map};
ghost use Rattle.page_layers.specs.Layers.{parts_of};
ghost use Rattle.page_layers.specs.Pages.{IsView};

use crate::layer::Layer;
use crate::view::View;
use geom::Point;
use page_properties::PropertyTrees;
use region::Changes;
use std::alloc::{AllocError, Global};
use std::marker::Model;
use std::sync::Arc;

mod apply;
mod items;
mod layer_list;
mod nodes;
mod parting;
mod scrolls;
mod sound;

/// A page as a tree of layers.
pub struct LayerTree {
    view: View,
    props: PropertyTrees,
    layers: Vec<Layer>,
    used: Vec<u32>,
    // The newest scroller first, as in the property trees.
    values: Vec<(u32, Point)>,
}

impl Model for LayerTree {
    ghost use Rattle.page_layers.specs.Pages.{Page};

    ghost Value = { Page };

    ghost use Rattle.std.specs.Prelude.{map};
    ghost use Rattle.page_layers.specs.Layers.{parts_of};
    ghost use Rattle.page_layers.specs.Sound.{IsPage};

    ghost view = { λ t. record { view = t.view; props = t.props; layers = map parts_of t.layers.items; used = t.used.items; values = t.values.items } };

    ghost invariant = { λ t. IsPage (record { view = t.view; props = t.props; layers = map parts_of t.layers.items; used = t.used.items; values = t.values.items }) };
}

// Written out, since a derived drop is proved anew, field by field, in each function that lets one go.
impl Drop for LayerTree {
    fn drop(self) {
        let LayerTree {
            view: _,
            props: _,
            layers: _,
            used: _,
            values: _,
        } = self;
    }
}

// The same layer, which shares the display list.
fn copy_layer(layer: &Layer) -> Result<Layer, AllocError>
    ensures { IfOk result (λ copy. parts_of copy ≡ parts_of layer.now) }
{
    let list = Arc::try_clone(&layer.list)?;
    Ok(Layer {
        id: layer.id,
        transform: layer.transform,
        clip: layer.clip,
        effect: layer.effect,
        w: layer.w,
        h: layer.h,
        colour: layer.colour,
        list,
    })
}

// The same layers, which share their display lists.
fn copy_layers(alloc: Global, layers: &[Layer]) -> Result<Vec<Layer>, AllocError>
    ensures { IfOk result (λ copies. map parts_of copies.items ≡ map parts_of layers.now) }
{
    let mut copies = Vec::with_capacity(alloc, layers.len())?;
    for layer in layers {
        let copy = copy_layer(layer)?;
        copies.push(copy)?;
    }
    Ok(copies)
}

impl LayerTree {
    /// A tree without layers and nodes, with this view. It takes its memory from `alloc`.
    ///
    /// The view's sides are 1 to 2048, and its tiles 16 to 256.
    pub fn new(alloc: Global, view: View) -> LayerTree
        requires { IsView view }
        ensures { result ≡ record { view = view; props = record { transforms = []; clips = []; effects = []; scrollers = [] }; layers = []; used = []; values = [] } }
    {
        let props = PropertyTrees::new(alloc);
        let layers = Vec::new(alloc);
        let used = Vec::new(alloc);
        let values = Vec::new(alloc);
        LayerTree {
            view,
            props,
            layers,
            used,
            values,
        }
    }

    /// The same tree. The two share the display lists of their layers.
    pub fn copy(&self) -> Result<LayerTree, AllocError>
        ensures { IfOk result (λ tree. tree ≡ self.now) }
    {
        let alloc = *self.layers.allocator();
        let props = self.props.copy()?;
        let layers = copy_layers(alloc, self.layers.as_slice())?;
        let used = Vec::from_slice(alloc, self.used.as_slice())?;
        let values = Vec::from_slice(alloc, self.values.as_slice())?;
        Ok(LayerTree {
            view: self.view,
            props,
            layers,
            used,
            values,
        })
    }

    /// The viewport and the tile size.
    pub fn view(&self) -> View
        ensures { result ≡ self.now.view }
    {
        self.view
    }

    /// The property trees.
    pub fn props(&self) -> &PropertyTrees
        ensures { result.now ≡ self.now.props }
    {
        &self.props
    }

    /// The layers, in painting order.
    pub fn layers(&self) -> &[Layer]
        ensures { map parts_of result.now ≡ self.now.layers }
    {
        self.layers.as_slice()
    }

    // No changes.
    fn unlisted(&self) -> Changes
        ensures { result ≡ record { list = []; retiled = false } }
    {
        Changes::new(*self.layers.allocator())
    }
}
