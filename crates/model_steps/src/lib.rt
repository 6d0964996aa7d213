//! How each kind of event changes what the model tells of a past.
//!
//! The definitions of the model scan a whole past. Code that keeps what they tell has to know how one
//! event more changes it: these laws say it, as contracts of functions that do nothing.
#![tactic(auto)]

mod laws;
mod laws_choice;
mod laws_commits;
mod laws_tiles;
mod laws_values;

pub use laws::{dones_change_the_choice, starts_change_the_choice};
pub use laws_choice::{
    aborts_leave_the_choice, activations_keep_the_pending_tree, commits_leave_the_ready_keys,
    rebuilt_choices_are_alike, sends_leave_the_choice, trees_and_keys_make_the_choice,
};
pub use laws_commits::{commits_list_what_changed, commits_step_the_stamps};
pub use laws_tiles::{keys_stay_shown, layers_show_their_keys, ready_keys_were_ready};
pub use laws_values::{
    activations_list_the_clamps, sends_list_what_is_unheard, values_tell_the_offsets,
};
