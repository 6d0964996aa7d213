//! Asks about pages, makes calls that no script reaches through the program, drives trees by the commits of scripts
//! and compares what comes out with tables.
//!
//! | Table | Its lines |
//! |---|---|
//! | `HitQuestions` | `hits.rt`: what the hit test says of a page |
//! | `Questions<Calls>` | `calls.rt`: what calls that no script reaches answer |
//! | `Pushes` | `commits.rt`: the keys of the trees of commits |
#![tactic(auto)]

mod calls;
mod commits;
mod frames;
mod hits;
mod scripts;

pub use calls::Calls;
pub use commits::Pushes;
pub use hits::HitQuestions;
