//! Why an edit was not made.

use crate::bad_numbers::BadNumbers;
use page_layers::EditFault;

/// Why an edit was not made. All is then as it was.
#[derive(Clone, Copy)]
pub enum Failure {
    /// The numbers mean no command, for this cause.
    Bad(BadNumbers),
    /// The page refuses the command with this fault.
    Refused(EditFault),
    /// Memory ran out.
    Memory,
}
