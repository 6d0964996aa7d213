//! What holds of every tree, and its main scroll values.

ghost use Rattle.std.specs.Prelude.{◌≡◌, map, All};
ghost use Rattle.geom.specs.Sides.{IsLayerSide};
ghost use Rattle.page_layers.specs.Layers.{parts_of};
ghost use Rattle.page_layers.specs.Sound.{IsPage};

use super::LayerTree;
use crate::layer::Layer;
use geom::Point;

impl LayerTree {
    /// Its layers, the nodes that they name, and its main scroll values are those of a page. A law that
    /// does nothing when it runs.
    pub fn is_page(&self)
        ensures { IsPage self.now }
    {
        // This read tells the proof what the type keeps; it does nothing when it runs.
        let _ = &self.view;
    }
    /// Both sides of each of its layers are 1 to 16384. A law that does nothing when it runs.
    pub fn are_sized(&self, layers: &[Layer])
        requires { map parts_of layers.now ≡ self.now.layers }
        ensures { All (λ l. IsLayerSide l.w × IsLayerSide l.h) layers.now }
    {
        self.is_page();
    }

    /// The main scroll values under the ids of their scrollers, the newest scroller first.
    pub(crate) fn values(&self) -> &[(u32, Point)]
        ensures { result.now ≡ self.now.values }
    {
        self.values.as_slice()
    }
}
