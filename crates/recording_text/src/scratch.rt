//! Room that is used again from line to line.

use std::alloc::Global;

/// Room for reading lines: the numbers of a line, and the line of the event that they are.
#[derive(Drop)]
pub struct Scratch {
    /// The numbers of the line that is read.
    pub(crate) numbers: Vec<i64>,
    /// The line of the event that these numbers are.
    pub(crate) line: Vec<u8>,
    /// What the lists of an event are taken from.
    pub(crate) alloc: Global,
}

impl Scratch {
    /// Room that holds nothing yet.
    pub fn new(alloc: Global) -> Scratch {
        Scratch {
            numbers: Vec::new(alloc),
            line: Vec::new(alloc),
            alloc,
        }
    }
}
