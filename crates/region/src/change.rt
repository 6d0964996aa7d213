//! What a list of commands changed in one layer.

ghost use Rattle.std.specs.Prelude.{◌≡◌, OnOk, OnErr, IfOk};
ghost use Rattle.region.specs.Lists.{IsJoined};

use crate::region::Region;
use std::alloc::AllocError;

/// What changed in one layer.
#[derive(Drop)]
pub struct LayerChange {
    /// The layer's number.
    pub layer: u32,
    /// The layer was added or resized, so each of its points may have changed.
    pub whole: bool,
    /// Outside this region no point has changed, if the layer was not changed whole.
    pub region: Region,
}

impl LayerChange {
    // The same change.
    pub(crate) fn copy(&self) -> Result<LayerChange, AllocError>
        ensures { IfOk result (λ c. c ≡ self.now) }
    {
        let region = self.region.copy()?;
        Ok(LayerChange {
            layer: self.layer,
            whole: self.whole,
            region,
        })
    }

    // Adds what changed later in the same layer; running out of memory leaves the change as it was.
    pub(crate) fn join(&mut self, later: &LayerChange) -> Result<(), AllocError>
        requires { self.old.layer ≡ later.now.layer }
        ensures ok { OnOk result (IsJoined self.old later.now self.new) }
        ensures err { OnErr result (self.new ≡ self.old) }
    {
        self.region.union(&later.region)?;
        self.whole = self.whole || later.whole;
        Ok(())
    }
}
