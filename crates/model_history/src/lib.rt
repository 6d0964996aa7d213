//! What a script says and what a run records: inputs, events, histories, and the recording's text.
//!
//! The main side of the compositor changes pages frame by frame, the compositor side scrolls and
//! draws; each atomic step of either is one [`Event`]. A run's [`History`] lists its events with the
//! actor that entered each. The definitions in `specs/` say which line an event has and what a
//! recording of a history holds.
#![tactic(auto)]

mod applying;
mod commit;
mod event;
mod frame;
mod history;
mod input;
mod input_ranges;
mod laws_frames;
mod laws_growth;
mod laws_lockstep;
mod laws_pages;
mod laws_scrolls;
mod laws_sharing;
mod laws_tiles;
mod limits;
mod moves;
mod plan;
mod plan_parts;
mod script;
mod script_error;
mod script_parts;

pub use commit::Commit;
pub use event::Event;
pub use frame::{apply_frame, changes_something, take_frame};
pub use history::{Entry, History};
pub use input::Input;
pub use laws_frames::{
    actors_are_few, beginnings_are_legal, frames_take_their_course, one_answer,
    sent_frames_are_answered,
};
pub use laws_growth::{
    a_main_frame_may_follow, an_input_may_follow, commands_may_follow_their_frame,
    grown_scripts_are_accepted, grown_scripts_are_playable, what_was_legal_stays_legal,
};
pub use laws_lockstep::lockstep_is_one;
pub use laws_pages::{
    accepted_scripts_are_playable, main_values_are_in_range, pages_depend_on_earlier_pulls,
    playable_commands_are_taken, unchanged_frames_do_nothing,
};
pub use laws_scrolls::{
    clobbering_leaves_no_delta, listed_moves_rise, moves_are_small, offsets_stay_in_range,
    scrolls_count_once, values_are_sums,
};
pub use laws_sharing::{dead_keys_stay_dead, equal_keys_show_the_same};
pub use laws_tiles::{no_key_twice, required_stays_ready};
pub use moves::Moves;
pub use plan::Plan;
pub use script::Script;
pub use script_error::ScriptError;
pub use script_parts::ScriptParts;
