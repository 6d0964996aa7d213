//! The pages in which the scrollers stand.

use page_layers::LayerTree;

/// The pages in which the scrollers stand.
#[derive(Clone, Copy)]
pub struct Pages<'a> {
    /// The page of the active commit; None before the first activation.
    pub active: Option<&'a LayerTree>,
    /// The page of the pending commit, if there is one.
    pub pending: Option<&'a LayerTree>,
    /// The scrollers that the pending commit sets outright; none if there is no pending commit.
    pub outright: &'a [u32],
}
