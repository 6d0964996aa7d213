//! A main frame that is open.

use page_layers::{Command, LayerTree};

/// A main frame that is being edited.
#[derive(Drop)]
pub(crate) struct OpenFrame {
    /// The page after the frame's pulls and its commands so far.
    pub(crate) page: LayerTree,
    /// The commands, in order.
    pub(crate) commands: Vec<Command>,
}
