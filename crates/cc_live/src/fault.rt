//! Why a call did nothing.

use std::alloc::AllocError;

/// Why a call of a live compositor did not do what it was asked.
#[derive(Clone, Copy, PartialEq, Eq, Debug)]
pub enum LiveFault {
    /// It may not be done now: the scheduler's state does not allow it, or another input waits.
    NotNow,
    /// A number is out of its range.
    OutOfRange,
    /// As many inputs or main frames were told as may be, 2^32 - 2. Another object can go on with the page.
    Worn,
    /// Memory ran out. The call may be made again.
    Memory(AllocError),
}
