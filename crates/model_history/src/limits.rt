//! What a script may say at most, as its format has it.

/// The greatest id of a scroller.
pub(crate) const MOST_ID: u32 = 65535;

/// The furthest place of a wheel along an axis, in pixels.
pub(crate) const MOST_PLACE: u32 = 2047;

/// How far a scroll or a wheel goes at most along an axis, in pixels.
pub(crate) const MOST_SCROLL: i32 = 1_048_576;
