//! Redrawing what changed from one scene to the next.
//!
//! - `pairs COUNT SEED`: the given number of pairs of random scenes, tried by `pairs`,
//! - `shifts COUNT SEED`: the same, of which each second one is the first scrolled up or down,
//! - `copy LAYERS TIMES`, `cull LAYERS TIMES`, `damage LAYERS TIMES`: a scene of 1024 by 1024 pixels of the
//!   given number of layers of 25 tiles is copied, has its hidden quads left out, or is compared with its
//!   equal,
//! - `show LAYERS TIMES`, `tile LAYERS TIMES`: a painter shows copies of that scene, or of two that differ in
//!   one tile of the last layer, one after the other,
//! - `scroll DOWN TIMES`: a painter shows the page of `scrolled` alternately where it is not scrolled and the
//!   given number of pixels further down.

use crate::pairs::PairKind;
use crate::{pairs, scrolled, showing};
use std::io;

/// What to do.
#[derive(Clone, Copy)]
enum Task {
    /// Tries pairs of scenes.
    Pairs(PairKind),
    /// Scrolls a page.
    Scroll,
    /// Does one thing with a large scene, again and again.
    Large(showing::Act),
}

/// The task of a name.
fn task_of(name: &str) -> Option<Task> {
    match name {
        "pairs" => Some(Task::Pairs(PairKind::Changed)),
        "shifts" => Some(Task::Pairs(PairKind::Shifted)),
        "scroll" => Some(Task::Scroll),
        "copy" => Some(Task::Large(showing::Act::Copy)),
        "cull" => Some(Task::Large(showing::Act::Cull)),
        "damage" => Some(Task::Large(showing::Act::Damage)),
        "show" => Some(Task::Large(showing::Act::Show)),
        "tile" => Some(Task::Large(showing::Act::Tile)),
        _ => None,
    }
}

/// Does what the words ask for and prints what came out; false if they ask for nothing of this module.
pub(crate) fn run(rt: &HostRuntime, words: &[String]) -> io::Result<bool> {
    let [name, first, second] = words else {
        return Ok(false);
    };
    let Some(task) = task_of(name.as_str()) else {
        return Ok(false);
    };
    let (Ok(first), Ok(second)) = (
        first.as_str().parse::<u32>(),
        second.as_str().parse::<u32>(),
    ) else {
        return Ok(false);
    };
    match task {
        Task::Pairs(kind) => pairs::tell(rt, kind, first, second)?,
        Task::Scroll => {
            let sum = scrolled::sum_of(rt.alloc(), first, second)?;
            println!(rt; "{sum}")?;
        }
        Task::Large(act) => {
            let sum = showing::sum_of(rt.alloc(), act, first, second)?;
            println!(rt; "{sum}")?;
        }
    }
    Ok(true)
}
