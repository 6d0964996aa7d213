//! Whose tiles come first while two trees stand.

/// Which of the two trees has its tiles made first: Chromium's three tree priorities.
#[derive(Clone, Copy, PartialEq, Eq, Debug)]
pub enum TreePriority {
    /// Both alike (`SAME_PRIORITY_FOR_BOTH_TREES`).
    Same,
    /// The active tree first, so that scrolling stays smooth (`SMOOTHNESS_TAKES_PRIORITY`).
    Smooth,
    /// The pending tree first, so that new content comes soon (`NEW_CONTENT_TAKES_PRIORITY`).
    New,
}
