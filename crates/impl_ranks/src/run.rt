//! What layers say of keys, of which many in a row are of one layer.

ghost use Rattle.std.specs.Prelude.{◌≡◌, option_copied};
ghost use Rattle.impl_ranks.specs.inner.Lists as spec;

use crate::found::has_on;
use crate::layer::{SeenLayer, layer_at};
use geom::TileKey;
use std::marker::Model;

/// Layers, of which the one that was looked for last is at hand.
#[derive(Drop)]
pub(crate) struct LayerRun<'b, 'a> {
    layers: &'b [SeenLayer<'a>],
    // The number that was looked for last.
    id: u32,
    // Its layer.
    layer: Option<&'b SeenLayer<'a>>,
}

impl<'b, 'a> Model for LayerRun<'b, 'a> {
    ghost use Rattle.std.specs.Prelude.{◌≡◌, List, option_copied};
    ghost use Rattle.impl_ranks.specs.SeenTrees.{SeenLayerModel};
    ghost use Rattle.impl_ranks.specs.inner.Lists.{layer_at};

    ghost Value = { List SeenLayerModel };

    ghost view = { λ r. r.layers.now };

    ghost invariant = { λ r. option_copied r.layer ≡ layer_at r.id r.layers.now };
}

impl<'b, 'a> LayerRun<'b, 'a> {
    /// These layers.
    pub(crate) fn new(layers: &'b [SeenLayer<'a>]) -> LayerRun<'b, 'a>
        ensures { result ≡ layers.now }
    {
        LayerRun {
            layers,
            id: 0,
            layer: layer_at(layers, 0),
        }
    }

    // The layer of this number, which is looked for if it is not at hand.
    fn find(&mut self, id: u32) -> Option<&'b SeenLayer<'a>>
        ensures layer { option_copied result ≡ spec.layer_at id self.old }
        ensures same { self.new ≡ self.old }
    {
        if id != self.id {
            self.layer = layer_at(self.layers, id);
            self.id = id;
        }
        self.layer
    }

    /// Whether one of them has a key.
    pub(crate) fn has(&mut self, key: TileKey) -> bool
        ensures has { result ≡ spec.seen_has self.old key }
        ensures same { self.new ≡ self.old }
    {
        let layer = self.find(key.layer);
        has_on(layer, key)
    }
}
