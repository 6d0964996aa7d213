//! How calls of the main thread end.

use page_layers::EditFault;
use std::alloc::AllocError;

/// Why a call of the main thread did nothing.
#[derive(Clone, Copy, PartialEq, Eq, Debug)]
pub enum MainFault {
    /// It may not be done now: no main frame is in flight, or none is open.
    NotNow,
    /// The main frame has as many commands as it may have, 2^32 - 1.
    Worn,
    /// The page refuses the command, and this is its first fault.
    Refused(EditFault),
    /// Memory ran out. The call may be made again, or the main frame is to be begun again if the call says so.
    Memory(AllocError),
}

/// How a main frame ended.
#[derive(Clone, Copy, PartialEq, Eq, Debug)]
pub enum Ended {
    /// It changed something, and may be committed.
    Ready,
    /// It changed nothing.
    Unchanged,
}
