//! Why parts are no script.

use page_layers::EditFault;
use std::alloc::AllocError;

/// Why parts whose numbers are in their ranges were not made a script.
#[derive(Clone, Copy, PartialEq, Eq, Debug)]
pub enum ScriptError {
    /// A command is refused, and it is the first: all before it are taken, frame by frame.
    Command {
        /// The main frame, from 0.
        frame: u32,
        /// The command's place in that frame, from 0.
        command: u32,
        /// Why it is refused.
        fault: EditFault,
    },
    /// Memory ran out.
    Memory(AllocError),
}
