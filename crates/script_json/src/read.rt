//! Reading, part by part: each function is named as the definition that says what it reads.

pub(crate) mod commands;
pub(crate) mod inputs;
pub(crate) mod items;
pub(crate) mod parts;
mod stream;
