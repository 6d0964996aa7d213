//! The host of the compositor side.

ghost use Rattle.std.specs.Prelude.{◌≡◌, ◌∷◌, [], List, None, option_copied, option_map};
ghost use Rattle.model_history.specs.declared.history.Entry.{Entry};
ghost use Rattle.model_history.specs.EventFields.{sends, commits, activates};
ghost use Rattle.model_history.specs.Scripts.{ScriptModel};
ghost use Rattle.impl_host.specs.Trees.{TreeModel};
ghost use Rattle.impl_scroll.specs.Standings.{StandsForPast, ArePages};
ghost use Rattle.impl_host.specs.Hosts.{Hosts, with_standing};

use crate::{TreeState, Trees};
use impl_scroll::{Pages, Standing};
use page_layers::LayerTree;
use std::alloc::Global;
use std::marker::Model;

/// The compositor side of a run: the active and the pending tree, and where their scrollers stand.
///
/// Contracts say for which runs it stands, by the script and the past: `Hosts`.
pub struct ImplHost {
    pub(crate) trees: Trees,
    pub(crate) standing: Standing,
    // The scrollers that the pending commit sets outright; none if there is no pending commit.
    pub(crate) outright: Vec<u32>,
}

impl Model for ImplHost {
    ghost use Rattle.impl_host.specs.Hosts.{ImplHostModel};

    ghost Value = { ImplHostModel };

    ghost view = { λ h. record { trees = h.trees; standing = h.standing; outright = h.outright.items } };
}

// Written out, since a derived drop is proved anew, field by field, in each function that lets one go.
impl Drop for ImplHost {
    fn drop(self) {
        let ImplHost {
            trees: _,
            standing: _,
            outright: _,
        } = self;
    }
}

/// The page of a tree that may be missing.
pub(crate) fn page_of(tree: Option<&TreeState>) -> Option<&LayerTree>
    ensures { option_copied result ≡ option_map (λ (t : TreeModel). t.page) (option_copied tree.entry) }
{
    match tree {
        None => None,
        Some(tree) => Some(tree.tree()),
    }
}

impl ImplHost {
    /// The compositor side before all events: no trees, and no scroller has moved. Later calls take their
    /// memory from `alloc`.
    pub fn new(alloc: Global) -> ImplHost
        ensures { (s : ScriptModel) → Hosts s [] result }
    {
        ImplHost {
            trees: Trees::new(alloc),
            standing: Standing::new(alloc),
            outright: Vec::new(alloc),
        }
    }

    /// The active and the pending page, and the scrollers that the pending commit sets outright.
    pub fn pages(&self) -> Pages<'_>
        ensures { (s : ScriptModel) (h : List Entry) → Hosts s h self.now → ArePages s h result }
    {
        Pages {
            active: page_of(self.trees.active()),
            pending: page_of(self.trees.pending()),
            outright: self.outright.as_slice(),
        }
    }

    /// Where the scrollers stand.
    pub fn standing(&self) -> &Standing
        ensures { result.now ≡ self.now.standing }
    {
        &self.standing
    }

    /// Puts other places of the scrollers in place, for the past after an event that changes neither tree.
    /// Takes no memory.
    pub fn stand(&mut self, standing: Standing)
        ensures value { self.new ≡ with_standing self.old standing }
        ensures keeps { (s : ScriptModel) (h : List Entry) (e : Entry) → sends e.event ≡ None → commits e.event ≡ None → activates e.event ≡ None → Hosts s h self.old → StandsForPast s (e ∷ h) standing → Hosts s (e ∷ h) self.new }
    {
        self.standing = standing;
    }
}
