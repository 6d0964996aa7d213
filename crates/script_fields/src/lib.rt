//! JSON objects by their fields: values of a form, the first field at fault, and the texts that print them.
//!
//! [`read_value`] takes one value of a text at a time, as `serde_json` defines it, out of the tokens of `json`;
//! [`fields`] then asks an object for the field at a key, and [`forms`] whether a value has a form. [`texts`] prints.
#![tactic(auto)]

mod digits;
mod fault;
pub mod fields;
pub mod forms;
mod hex;
mod number;
mod read;
pub mod texts;
mod unread;

pub use fault::{FieldFault, Trouble};
pub use hex::bytes;
pub use read::read_value;
pub use unread::Unread;
