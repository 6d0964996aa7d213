//! Property trees: transforms, clips, effects and scrollers.
#![tactic(auto)]

mod family;
mod index;
mod laws;
mod nesting;
mod nodes;
mod offsets;
mod placement;
mod tables;
mod trees;

pub use laws::nodes_follow_their_parents;
pub use nodes::{ClipNode, EffectNode, ScrollNode, TransformNode};
pub use offsets::Offsets;
pub use trees::PropertyTrees;
