//! Scripts as JSON texts: reading one, with the place of its first fault, and its canonical text.
#![tactic(auto)]

mod command;
mod fault;
mod halt;
mod head;
pub mod laws;
mod layers;
mod limits;
mod nodes;
mod op;
mod print;
mod read;
mod script;
mod text_fault;

pub use fault::{PartsFault, ShapeFault};
pub use read::parts::read_parts;
pub use script::{print_script, read_script};
pub use text_fault::TextFault;
