//! Tables of cases, as the programs of the gate read them: which lines say something, which cases are tried,
//! how many are wrong, and how the program ends.
#![tactic(auto)]

mod answer;
mod checks;
mod dice;
mod fault;
mod keys;
mod lines;
mod questions;
mod tally;
mod titles;
mod values;

pub use answer::Answer;
pub use checks::Checks;
pub use dice::Dice;
pub use fault::LineFault;
pub use keys::keys_text;
pub use lines::{Table, check_table, end_counted, end_unread, says_something};
pub use questions::{Questions, Subject};
pub use tally::Tally;
pub use titles::Titles;
pub use values::{key_and_value, numbers, push_word, signed, whole, wholes};
