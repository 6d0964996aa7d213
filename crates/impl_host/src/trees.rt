//! The pending and the active tree, and the one that is used again.

ghost use Rattle.std.specs.Prelude.{◌≡◌, None, IsSome, OnOk, OnErr, IfErr};
ghost use Rattle.std.specs.Option.{option_copied};
ghost use Rattle.impl_host.specs.Trees.{MayFollow, IsPushed};

use crate::making::next_tilings;
use crate::recycled::Recycled;
use crate::spare::Spare;
use crate::state::TreeState;
use page_layers::LayerTree;
use region::Changes;
use std::alloc::{AllocError, Global};
use std::marker::Model;
use std::mem;
use std::sync::Arc;

/// The trees of the compositor side. At most one is pending; the active one is drawn meanwhile.
pub struct Trees {
    alloc: Global,
    active: Option<TreeState>,
    pending: Option<TreeState>,
    recycled: Recycled,
    // What a push works with; kept for its memory.
    spares: Vec<Spare>,
}

impl Model for Trees {
    ghost use Rattle.impl_host.specs.Trees.{TreesModel};
    ghost use Rattle.impl_host.specs.inner.Steps.{IsNext, IsRecycled};

    ghost Value = { TreesModel };

    ghost view = { λ t. record { active = t.active; pending = t.pending } };

    ghost invariant = { λ t. IsNext t.active t.pending × IsRecycled t.active t.recycled };
}

// Written out, since a derived drop is proved anew, field by field, in each function that lets one go.
impl Drop for Trees {
    fn drop(self) {
        let Trees {
            alloc: _,
            active: _,
            pending: _,
            recycled: _,
            spares: _,
        } = self;
    }
}

impl Trees {
    /// No trees. They take their memory from `alloc`.
    pub fn new(alloc: Global) -> Trees
        ensures active { result.active ≡ None }
        ensures pending { result.pending ≡ None }
    {
        Trees {
            alloc,
            active: None,
            pending: None,
            recycled: Recycled::Nothing,
            spares: Vec::new(alloc),
        }
    }

    /// The active tree; None exactly if there is none.
    pub fn active(&self) -> Option<&TreeState>
        ensures { option_copied result ≡ self.now.active }
    {
        self.active.as_ref()
    }

    /// The pending tree; None exactly if there is none.
    pub fn pending(&self) -> Option<&TreeState>
        ensures { option_copied result ≡ self.now.pending }
    {
        self.pending.as_ref()
    }

    /// Makes the tree of a commit pending, with its stamps: for each place the last commit that changed what
    /// the place shows. The last pushed tree is the active one, as none may be pending.
    ///
    /// The commit may follow that tree: a layer that it does not list with `whole` stands there with its
    /// size, and if it does not retile, the tile size is the one there. An error means out of memory: the
    /// tree and the changes are given back, and the trees are as they were.
    pub fn push(
        &mut self,
        tree: Arc<LayerTree>,
        changes: Changes,
        frame: u32,
    ) -> Result<(), (AllocError, Arc<LayerTree>, Changes)>
        requires free { self.old.pending ≡ None }
        requires follows { MayFollow self.old.active tree.value changes }
        ensures ok { OnOk result (IsPushed self.old tree.value changes frame self.new) }
        ensures err { OnErr result (self.new ≡ self.old) }
        ensures given_back { IfErr result (λ e. (e.1 ≡ tree) × (e.2 ≡ changes)) }
    {
        let recycled = mem::replace(&mut self.recycled, Recycled::Nothing);
        match next_tilings(
            self.alloc,
            &mut self.spares,
            recycled,
            &self.active,
            &tree,
            &changes,
            frame,
        ) {
            Ok(tilings) => {
                self.pending = Some(TreeState {
                    frame,
                    tree,
                    changes,
                    tilings,
                });
                Ok(())
            }
            Err(full) => Err((full, tree, changes)),
        }
    }

    /// Makes the pending tree active. There must be one.
    pub fn activate(&mut self)
        requires { IsSome self.old.pending }
        ensures active { self.new.active ≡ self.old.pending }
        ensures pending { self.new.pending ≡ None }
    {
        let pending = self.pending.take();
        let active = mem::replace(&mut self.active, pending);
        self.recycled = match active {
            Some(old) => Recycled::Behind(old),
            None => Recycled::Nothing,
        };
    }

    /// Takes the pending tree back, as if it had not been pushed. There must be one.
    pub fn take_back(&mut self)
        requires { IsSome self.old.pending }
        ensures active { self.new.active ≡ self.old.active }
        ensures pending { self.new.pending ≡ None }
    {
        self.recycled = match self.pending.take() {
            Some(taken) => Recycled::Ahead(taken),
            None => Recycled::Nothing,
        };
    }
}
