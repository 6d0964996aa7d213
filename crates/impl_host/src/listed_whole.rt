//! Which layers a commit lists as changed whole.

ghost use Rattle.std.specs.Prelude.{◌≡◌, ◌&&◌, nat_eq};
ghost use Rattle.region.specs.Lists as lists;

use region::{Changes, LayerChange};

// Whether a change is of this whole layer.
fn is_whole(change: &LayerChange, layer: u32) -> bool
    ensures { result ≡ (nat_eq change.now.layer layer && change.now.whole) }
{
    change.layer == layer && change.whole
}

/// Whether a commit lists a layer as changed whole.
pub(crate) fn is_listed_whole(changes: &Changes, layer: u32) -> bool
    ensures { result ≡ lists.is_listed_whole changes.now.list layer }
{
    for i in 0..changes.len() {
        if let Some(change) = changes.at(i) {
            if is_whole(change, layer) {
                return true;
            }
        }
    }
    false
}
