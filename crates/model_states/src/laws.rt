//! Laws of the table of scroll values, as contracts of functions that do nothing.

ghost use Rattle.std.specs.Prelude.{◌≡◌};
ghost use Rattle.model_states.specs.Table.{zero, pulled, activated, aborted, added};
ghost use Rattle.model_states.specs.Bounds.{IsBounded};
ghost use Rattle.model_states.specs.Laws.{KeepsValues, FollowsPending, AddsToBoth};

use crate::Synced;

/// The constant is the scroller that has not moved, and its values are within the bounds of every step.
pub fn starts_at_zero()
    ensures value { Synced.ZERO ≡ zero }
    ensures bounded { IsBounded Synced.ZERO }
{}

/// A pull and an abort move neither offset: they only change which part is base and which is delta.
pub fn values_survive()
    ensures pull { KeepsValues pulled }
    ensures abort { KeepsValues aborted }
{}

/// An activation brings the active offset to the pending one, and the pending one stays.
pub fn activation_takes_pending_value()
    ensures { FollowsPending activated }
{}

/// A scroll moves both offsets by its amount.
pub fn move_adds_to_both()
    ensures { AddsToBoth added }
{}
