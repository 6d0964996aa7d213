//! How main frames end whose commits make trees.

use crate::commits::next_tree::NextTree;
use crate::frames::Frames;
use main_host::MainEnd;
use test_table::LineFault;

/// Ends the next main frame, which changes nothing.
pub fn abort(frames: &mut Frames) -> Result<(), LineFault> {
    match frames.end_plain()? {
        MainEnd::Abort { .. } => Ok(()),
        MainEnd::Ready(_) => Err(LineFault::OtherEnd),
    }
}

/// Ends the next main frame, which is committed.
pub fn commit(frames: &mut Frames) -> Result<NextTree, LineFault> {
    match frames.end_plain()? {
        MainEnd::Ready(commit) => Ok(NextTree::of_commit(commit)),
        MainEnd::Abort { .. } => Err(LineFault::OtherEnd),
    }
}
