//! A family of nodes: added one after another under ids of their own, and found by id.

ghost use Rattle.std.specs.Prelude.{◌≡◌, ℕ, false, ◌∷◌, [], List, length, if◌then◌else◌, is_ok, IfOk, MatchOption, IsTrue, reverse, slice_get};
ghost use Rattle.std.specs.Option.{option_copied};
ghost use Rattle.page_properties.specs.Entries.{with_node_changed, find, ids, knows, rising};
ghost use Rattle.page_properties.specs.inner.Index.{IsEntryOf};

use crate::index::{IndexEntry, count_below, place_in};
use std::alloc::{AllocError, Global};
use std::marker::Model;

/// Nodes under ids of their own, which contracts see as a list, the newest first.
#[derive(Drop)]
pub struct Family<N> {
    nodes: Vec<(u32, N)>,
    entries: Vec<IndexEntry>,
}

impl<N> Model for Family<N> {
    ghost use Rattle.std.specs.Prelude.{ℕ, List, reverse};
    ghost use Rattle.page_properties.specs.Entries.{ids, AreDistinctIds};
    ghost use Rattle.page_properties.specs.inner.Index.{IsIndex};

    ghost Value = { List (ℕ × N) };

    ghost view = { λ f. reverse f.nodes.items };

    ghost invariant = { λ f. AreDistinctIds (reverse f.nodes.items) × IsIndex (ids (reverse f.nodes.items)) f.entries.items };
}

impl<N: Copy> Family<N> {
    /// An empty family, which takes its memory from `alloc`.
    pub fn new(alloc: Global) -> Family<N>
        ensures { result ≡ [] }
    {
        Family {
            nodes: Vec::new(alloc),
            entries: Vec::new(alloc),
        }
    }

    // The same as `entry`, by the index.
    fn indexed(&self, id: u32) -> Option<(usize, &N)>
        ensures { MatchOption result (find id self.now ≡ None) (λ e. IsEntryOf id self.now e.0 e.1.now) }
    {
        match place_in(&self.entries, id) {
            Some(place) => Some((place, &self.nodes[place].1)),
            None => None,
        }
    }

    /// The place of an id in the order of addition, and its node; None exactly if the family has
    /// no such id. If nodes are numbered from 1 on as they are added, as in most pages, nothing is searched for.
    pub fn entry(&self, id: u32) -> Option<(usize, &N)>
        ensures { MatchOption result (find id self.now ≡ None) (λ e. IsEntryOf id self.now e.0 e.1.now) }
    {
        let place = (id as usize).wrapping_sub(1);
        match self.nodes.get(place) {
            Some(node) if node.0 == id => Some((place, &node.1)),
            _ => self.indexed(id),
        }
    }

    /// The node of an id; None exactly if the family has no such id.
    pub fn get(&self, id: u32) -> Option<&N>
        ensures { option_copied result ≡ find id self.now }
    {
        match self.entry(id) {
            Some((_, node)) => Some(node),
            None => None,
        }
    }

    /// Adds a node under a new id. An error means out of memory and leaves the family as it was.
    pub fn add(&mut self, id: u32, node: N) -> Result<(), AllocError>
        requires { knows id self.old ≡ false }
        ensures { self.new ≡ (if is_ok result then (id, node) ∷ self.old else self.old) }
    {
        self.entries.reserve(1)?;
        let below = count_below(&self.entries, id);
        let place = self.nodes.len();
        self.nodes.push((id, node))?;
        self.entries.insert(below, IndexEntry { id, place })?;
        Ok(())
    }

    /// Puts another node under an id that the family has.
    pub fn set(&mut self, id: u32, node: &N)
        requires { IsTrue (knows id self.old) }
        ensures { self.new ≡ with_node_changed id (λ _. node.now) self.old }
    {
        if let Some(place) = place_in(&self.entries, id) {
            self.nodes[place] = (id, *node);
        }
    }

    /// How many nodes there are.
    pub fn len(&self) -> usize
        ensures { result ≡ length self.now }
    {
        self.nodes.len()
    }

    /// The id at place `i` of the ids by rising id; None exactly if `i` is not below `len`.
    #[tactic(auto, using(crate::proofs::Rising::id_read, crate::proofs::Rising::no_id))]
    pub fn id_at(&self, i: usize) -> Option<u32>
        ensures { result ≡ slice_get (rising (ids self.now)) i }
    {
        if i < self.entries.len() {
            Some(self.entries[i].id)
        } else {
            None
        }
    }

    /// A family of the same nodes. An error means out of memory.
    pub fn copy(&self) -> Result<Family<N>, AllocError>
        ensures { IfOk result (λ f. f ≡ self.now) }
    {
        let nodes = Vec::from_slice(*self.nodes.allocator(), &self.nodes)?;
        let entries = Vec::from_slice(*self.entries.allocator(), &self.entries)?;
        Ok(Family { nodes, entries })
    }
}
