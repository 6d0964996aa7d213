//! Which scrollers take a wheel over a layer.

ghost use Rattle.std.specs.Prelude.{◌≡◌, map, find, option_map, IfOk};
ghost use Rattle.page_properties.specs.Trees.{IsTrees};
ghost use Rattle.page_layers.specs.Layers.{parts_of, has_id};
ghost use Rattle.page_layers.specs.Hits as hits;
ghost use Rattle.page_layers.specs.Wheels.{chain_at};

use page_layers::{Layer, LayerTree};
use page_properties::PropertyTrees;
use std::alloc::{AllocError, Global};

// The scroller of the nearest transform that names one, from this one up to the root; 0 if none
// does.
fn nearest_scroller(props: &PropertyTrees, transform: u32) -> u32
    requires { IsTrees props.now }
    ensures { result ≡ hits.nearest_scroller props.now.transforms transform }
{
    let mut id = transform;
    while let Some(node) = props.transform(id) {
        if node.scroller != 0 {
            return node.scroller;
        }
        id = node.parent;
    }
    0
}

// A scroller and its parents up to the root.
fn scrollers_from(
    alloc: Global,
    props: &PropertyTrees,
    scroller: u32,
) -> Result<Vec<u32>, AllocError>
    requires { IsTrees props.now }
    ensures { IfOk result (λ chain. chain.items ≡ hits.scrollers_from props.now.scrollers scroller) }
{
    let mut chain = Vec::new(alloc);
    let mut id = scroller;
    while let Some(node) = props.scroller(id) {
        chain.push(id)?;
        id = node.parent;
    }
    Ok(chain)
}

// The transform of the layer with this id, if there is one.
fn transform_of(layers: &[Layer], id: u32) -> Option<u32>
    ensures { result ≡ option_map (λ l. l.transform) (find (has_id id) (map parts_of layers.now)) }
{
    for layer in layers {
        if layer.id == id {
            return Some(layer.transform);
        }
    }
    None
}

/// The scrollers that take a wheel over a layer, the nearest first; none if no transform above the
/// layer names a scroller, and if there is no such layer. An error means out of memory.
pub fn chain(alloc: Global, tree: &LayerTree, layer: u32) -> Result<Vec<u32>, AllocError>
    ensures { IfOk result (λ chain. chain.items ≡ chain_at tree.now layer) }
{
    let props = tree.props();
    props.are_trees();
    match transform_of(tree.layers(), layer) {
        None => Ok(Vec::new(alloc)),
        Some(transform) => scrollers_from(alloc, props, nearest_scroller(props, transform)),
    }
}
