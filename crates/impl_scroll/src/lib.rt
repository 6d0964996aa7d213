//! The scroll values of all scrollers, as the compositor keeps them.
//!
//! Each scroller that a commit brought or that was scrolled has a row: its five values along both axes. A
//! scroller without a row has not moved, and its values are 0; so contracts speak of the values of every
//! scroller and name no row. An event changes all rows by one step: those of the table of scroll values,
//! each along each axis. From the values follow the offsets of both trees and the moves that the next
//! `Send` and the next activation list.
//!
//! The work of a step grows with the number of rows, which is the number of scrollers.
//!
//! A [`Standing`] has the values of all scrollers and the offsets that follow from them in the active and in
//! the pending page. An event that moves scrollers, or changes a page, gives a new one beside the old: the
//! call takes all its memory before the event is entered, and the owner puts the new one in place after it.
//! Only a `Send` steps the one that stands, for it moves no scroller. It tells what the next events say of the
//! scrollers: the moves that a `Send` and an activation list, and what is accepted of a scroll and of a wheel.
//! Contracts speak of runs, by the script and the past, which lists the newest entry first.
#![tactic(auto)]

mod axis;
mod clobbering;
mod cover;
mod events;
mod inputs;
mod laws;
mod listing;
mod offsets;
mod page_offsets;
mod pages;
mod parts;
mod row;
mod scroll_values;
mod standing;
mod steps;
mod taking;

pub use clobbering::{clobbered_by, clobbered_in};
pub use laws::activated_values_are_bounded;
pub use pages::Pages;
pub use parts::moves_of;
pub use row::Row;
pub use scroll_values::ScrollValues;
pub use standing::Standing;
