//! Laws of stamps, as contracts of functions that do nothing.

ghost use Rattle.tile_tiling.specs.Stamps.{CarryStepsStamps};

/// A tiling with the stamps of a list of commits has those of one commit more once that commit's change is
/// carried, or the tiling is made anew if the commit retiles or the layer changed whole.
pub fn carry_steps_the_stamps()
    ensures { CarryStepsStamps }
{}
