//! Laws of blending, as contracts of functions that do nothing.

ghost use Rattle.pixel.specs.Laws.{OpaqueHides, ClearShows, ClearTakes};

/// An opaque source hides what lies below it: laid over any colour it is the source.
#[tactic(auto, using(crate::proofs::Blends::opaque_hides))]
pub fn opaque_source_hides()
    ensures { OpaqueHides }
{}

/// The transparent colour laid over another leaves it as it is.
#[tactic(auto, using(crate::proofs::Blends::clear_shows))]
pub fn clear_source_shows()
    ensures { ClearShows }
{}

/// A source laid over the transparent colour is the source.
#[tactic(auto, using(crate::proofs::Blends::clear_takes))]
pub fn clear_takes_source()
    ensures { ClearTakes }
{}
