//! Whether the layers of each effect stand together in the list of layers.
//!
//! One pass over the layers marks the effects that were met. If a layer enters effects that no
//! layer before it was in, they are new; at the first one that was met before, the layer just before
//! must still be in it. Each effect is entered once and left once, so that the work grows with the
//! number of layers and effects, times a search by id.

ghost use Rattle.std.specs.Prelude.{◌≡◌, ◌≤◌, ◌⊎◌, ◌↔◌, ℕ, true, false, ◌&&◌, ◌||◌, not, length, IsTrue};
ghost use Rattle.page_properties.specs.inner.Marks.{marked};
ghost use Rattle.page_properties.specs.Nesting.{lies_in, AreNested};
ghost use Rattle.page_properties.specs.Trees.{AreEffects};

use crate::family::Family;
use crate::nodes::EffectNode;

/// Whether the layers of each effect, with those of the effects below it, stand together.
pub fn nested_in(effects: &Family<EffectNode>, layers: &[u32]) -> bool
    requires { AreEffects effects.now }
    ensures { IsTrue result ↔ AreNested effects.now layers.now }
{
    let mut met = [false; 256];
    let mut last = 0;
    for &effect in layers {
        let meeting = meet(effects, effect, &mut met);
        if meeting != 0 && !is_in(effects, meeting, last) {
            return false;
        }
        last = effect;
    }
    true
}

/// Marks an effect and those above it, up to the first one that is marked already: the answer, or
/// 0 if there is none.
fn meet(effects: &Family<EffectNode>, effect: u32, met: &mut [bool]) -> u32
    requires family { AreEffects effects.now }
    requires room { length effects.now ≤ length met.old }
    ensures marks { (k : ℕ) → marked effects.now met.new k ≡ marked effects.now met.old k || (lies_in effects.now k effect && not (lies_in effects.now k result)) }
    ensures stop { (result ≡ 0) ⊎ ((marked effects.now met.old result ≡ true) × (lies_in effects.now result effect ≡ true)) }
    ensures fresh { (k : ℕ) → lies_in effects.now k effect ≡ true → lies_in effects.now k result ≡ false → marked effects.now met.old k ≡ false }
{
    let mut id = effect;
    while let Some((place, node)) = effects.entry(id) {
        if met[place] {
            return id;
        }
        met[place] = true;
        id = node.parent;
    }
    0
}

/// Whether an effect is `above` or below it.
fn is_in(effects: &Family<EffectNode>, above: u32, effect: u32) -> bool
    requires { AreEffects effects.now }
    ensures { result ≡ lies_in effects.now above effect }
{
    let mut id = effect;
    while let Some(node) = effects.get(id) {
        if id == above {
            return true;
        }
        id = node.parent;
    }
    false
}
