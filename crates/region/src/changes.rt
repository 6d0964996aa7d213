//! What a list of commands changed in a tree.

ghost use Rattle.std.specs.Prelude.{◌≡◌, true, false, ◌||◌, OnOk, OnErr, IfOk, IfErr, is_ok, if◌then◌else◌, [], ◌∷◌, ◌++◌, length, slice_get};
ghost use Rattle.std.specs.Option.{option_copied};
ghost use Rattle.region.specs.Lists.{Changed, IsRising, IsAboveLast, AreJoined, without_layer};

use crate::change::LayerChange;
use crate::joining::{copy_of, join_lists, push_change, remove_layer};
use std::alloc::{AllocError, Global};
use std::marker::Model;

/// What changed, one element for a layer at most, by rising layer. Contracts see the list of the elements
/// and whether the tree was retiled.
pub struct Changes {
    list: Vec<LayerChange>,
    retiled: bool,
}

impl Model for Changes {
    ghost use Rattle.region.specs.Lists.{Changed, IsRising};

    ghost Value = { Changed };

    ghost view = { λ c. record { list = c.list.items; retiled = c.retiled } };

    ghost invariant = { λ c. IsRising c.list.items };
}

// Written out, since a derived drop is proved anew, field by field, in each function that lets one go.
impl Drop for Changes {
    fn drop(self) {
        let Changes {
            list: _,
            retiled: _,
        } = self;
    }
}

impl Changes {
    /// No changes. The list takes its memory from `alloc`.
    pub fn new(alloc: Global) -> Changes
        ensures { result ≡ record { list = []; retiled = false } }
    {
        Changes {
            list: Vec::new(alloc),
            retiled: false,
        }
    }

    /// Appends `change`, whose layer is above the last one of the list. An error means out of memory: it gives
    /// the change back, and the list is as it was.
    pub fn push(&mut self, change: LayerChange) -> Result<(), (AllocError, LayerChange)>
        requires { IsAboveLast self.old.list change.layer }
        ensures list { self.new ≡ (if is_ok result then record self.old { list = self.old.list ++ change ∷ [] } else self.old) }
        ensures given_back { IfErr result (λ e. e.1 ≡ change) }
    {
        push_change(&mut self.list, change)
    }

    /// The same changes. An error means out of memory.
    pub fn copy(&self) -> Result<Changes, AllocError>
        ensures { IfOk result (λ c. c ≡ self.now) }
    {
        let list = copy_of(*self.list.allocator(), &self.list)?;
        Ok(Changes {
            list,
            retiled: self.retiled,
        })
    }

    /// How many layers are listed.
    pub fn len(&self) -> usize
        ensures length { result ≡ length self.now.list }
        ensures rising { IsRising self.now.list }
    {
        self.list.len()
    }

    /// The element at place `i`, counted from 0; None exactly if `i` is not below `len`.
    pub fn at(&self, i: usize) -> Option<&LayerChange>
        ensures { option_copied result ≡ slice_get self.now.list i }
    {
        self.list.get(i)
    }

    /// Whether the tree was retiled: some command gave it another tile size.
    pub fn retiled(&self) -> bool
        ensures { result ≡ self.now.retiled }
    {
        self.retiled
    }

    /// Notes that the tree was retiled.
    pub fn mark_retiled(&mut self)
        ensures { self.new ≡ record self.old { retiled = true } }
    {
        self.retiled = true;
    }

    /// Adds the changes of `later`: a layer is listed if one of the two lists it, whole if one of them
    /// has it whole, with a region that covers what the two cover. An error means out of memory, and the
    /// changes are as they were.
    pub fn join(&mut self, later: &Changes) -> Result<(), AllocError>
        ensures ok { OnOk result (AreJoined self.old.list later.now.list self.new.list) }
        ensures retiled { OnOk result (self.new.retiled ≡ (self.old.retiled || later.now.retiled)) }
        ensures err { OnErr result (self.new ≡ self.old) }
    {
        join_lists(&mut self.list, &later.list)?;
        self.retiled = self.retiled || later.retiled;
        Ok(())
    }

    /// Takes `layer` out of the list. The others stay.
    pub fn forget(&mut self, layer: u32)
        ensures { self.new ≡ record self.old { list = without_layer layer self.old.list } }
    {
        remove_layer(&mut self.list, layer);
    }
}
