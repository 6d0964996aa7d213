//! What was drawn since the picture may have changed.

use crate::Drawing;

/// What was drawn since the active tree was moved, or one of its tiles made or evicted. Most draws come after such a
/// change, so the first drawing is handed out and no more; of the second one a copy is kept for those after it.
pub(crate) enum Drawn {
    /// Nothing.
    Nothing,
    /// One drawing.
    Once,
    /// More than one: this one.
    Kept(Drawing),
}

// Written out, since a derived drop is proved anew, field by field, in each function that lets one go.
impl Drop for Drawn {
    fn drop(self) {
        match self {
            Drawn::Nothing => {}
            Drawn::Once => {}
            Drawn::Kept(_) => {}
        }
    }
}
