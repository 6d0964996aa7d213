//! The trees of one script.

ghost use Rattle.std.specs.Prelude.{◌≡◌, None, IfOk, IsSome};
ghost use Rattle.impl_host.specs.Trees.{MayFollow};

use crate::commits::frames;
use crate::commits::next_tree::NextTree;
use crate::frames::Frames;
use impl_host::{TreeState, Trees, may_push};
use model_history::Script;
use std::alloc::{AllocError, Global};
use test_table::LineFault;

/// A script's main frames, and the trees that its commits make.
pub struct Pushing {
    frames: Frames,
    trees: Trees,
    /// What was taken back last and not pushed again.
    taken: Option<NextTree>,
}

// Written out, since a derived drop is proved anew, field by field, in each function that lets one go.
impl Drop for Pushing {
    fn drop(self) {
        let Pushing {
            frames: _,
            trees: _,
            taken: _,
        } = self;
    }
}

// Makes a tree the pending one, which it may be.
fn push(trees: &mut Trees, next: NextTree) -> Result<(), LineFault>
    requires free { trees.old.pending ≡ None }
    requires follows { MayFollow trees.old.active next.tree.value next.changes }
{
    match trees.push(next.tree, next.changes, next.frame) {
        Ok(()) => Ok(()),
        Err((full, _, _)) => Err(LineFault::Memory(full)),
    }
}

// Makes a tree the pending one.
fn push_tree(trees: &mut Trees, next: NextTree) -> Result<(), LineFault> {
    if may_push(trees, &next.tree, &next.changes) {
        push(trees, next)
    } else {
        Err(LineFault::NotNext)
    }
}

// A copy of the pending tree, which is there.
fn copy_of_pending(trees: &Trees) -> Result<NextTree, LineFault>
    ensures { IfOk result (λ _. IsSome trees.now.pending) }
{
    match trees.pending() {
        Some(pending) => Ok(NextTree::of_pushed(pending)?),
        None => Err(LineFault::OtherTrees),
    }
}

impl Pushing {
    /// Before the first main frame of a script.
    pub fn new(alloc: Global, script: Script) -> Result<Pushing, AllocError> {
        Ok(Pushing {
            frames: Frames::new(alloc, script)?,
            trees: Trees::new(alloc),
            taken: None,
        })
    }

    /// Ends the next main frame, which changes nothing.
    pub fn abort(&mut self) -> Result<(), LineFault> {
        frames::abort(&mut self.frames)
    }

    /// Ends the next main frame, which is committed, and makes its tree the pending one.
    pub fn push(&mut self) -> Result<(), LineFault> {
        let next = frames::commit(&mut self.frames)?;
        push_tree(&mut self.trees, next)
    }

    /// Takes the pending tree back.
    pub fn take_back(&mut self) -> Result<(), LineFault> {
        self.taken = Some(copy_of_pending(&self.trees)?);
        self.trees.take_back();
        Ok(())
    }

    /// Makes the tree that was taken back the pending one again.
    pub fn push_again(&mut self) -> Result<(), LineFault> {
        match self.taken.take() {
            Some(taken) => push_tree(&mut self.trees, taken),
            None => Err(LineFault::OtherTrees),
        }
    }

    /// Makes the pending tree the active one.
    pub fn activate(&mut self) -> Result<(), LineFault> {
        if self.trees.pending().is_none() {
            return Err(LineFault::OtherTrees);
        }
        self.trees.activate();
        Ok(())
    }

    /// The pending tree, if there is one.
    pub fn pending(&self) -> Option<&TreeState> {
        self.trees.pending()
    }

    /// The active tree, if there is one.
    pub fn active(&self) -> Option<&TreeState> {
        self.trees.active()
    }
}
