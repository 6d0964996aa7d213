//! Scripts as JSON texts.

mod commands;
pub(crate) mod field;
mod inputs;
pub(crate) mod items;
pub(crate) mod object;
pub(crate) mod parts;
