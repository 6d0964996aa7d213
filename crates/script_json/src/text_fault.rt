//! Why bytes are no script.

use crate::fault::ShapeFault;
use page_layers::EditFault;
use std::alloc::AllocError;
use thiserror::Error;

/// Why bytes are no script.
#[derive(Clone, Copy, PartialEq, Eq, Debug, Error)]
pub enum TextFault {
    /// The bytes are no JSON.
    #[error("the text is no JSON")]
    Json,
    /// The value is no script: the place of its first fault.
    #[error("list {}, index {}: field {} is at fault", .0.list, .0.index, .0.field)]
    Shape(ShapeFault),
    /// A command is refused, and it is the first: all before it are taken, frame by frame.
    #[error("main frame {frame}, command {command}: refused with {fault:?}")]
    Script {
        /// The main frame, from 0.
        frame: u32,
        /// The command's place in that frame, from 0.
        command: u32,
        /// Why it is refused.
        fault: EditFault,
    },
    /// There was no memory.
    #[error("memory ran out")]
    Memory(AllocError),
}
