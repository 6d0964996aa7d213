//! Histories that forget.

ghost use Rattle.std.specs.Prelude.{◌≡◌, ◌+◌, ◌-◌, ◌<◌, ◌≤◌, ◌⊎◌, ◌∷◌, ◌++◌, [], max, length, slice_get, Some, MatchOption, OnOk};
ghost use Rattle.std.specs.VecDeque.{deque_len, deque_capacity};

use ghost_list::GhostList;
use model_history::{Entry, Event};
use std::alloc::{AllocError, Global};
use std::collections::VecDeque;
use std::marker::Model;

/// The entries of a run, the oldest first, of which the oldest may be forgotten: an entry keeps its place, and is no
/// longer there to be read.
///
/// Contracts see all entries, forgotten ones too, how many of them were forgotten, and how many more the history can
/// take without asking for memory: its spare.
pub struct KeptHistory {
    /// What was forgotten.
    gone: GhostList<Entry>,
    /// How many entries that is, and so the place of the first one that is kept.
    first: usize,
    kept: VecDeque<Entry>,
    /// How many tile keys the events of `kept` list. Few events list any, but one may list a million. No clause speaks
    /// of it.
    keys: usize,
}

impl Model for KeptHistory {
    ghost use Rattle.std.specs.Prelude.{◌≡◌, ◌+◌, ◌-◌, ◌≤◌, ◌++◌, min, length};
    ghost use Rattle.std.specs.VecDeque.{deque_len, deque_capacity};
    ghost use Rattle.impl_log.specs.Kept.{KeptEntries};

    ghost Value = { KeptEntries };

    ghost view = { λ h. record { entries = h.gone.items ++ h.kept.items; first = h.first; spare = min (deque_capacity h.kept - deque_len h.kept) (18446744073709551615 - (h.first + deque_len h.kept)) } };

    ghost invariant = { λ h. (length h.gone.items ≡ h.first) × (h.first + deque_len h.kept ≤ 18446744073709551615) };
}

// Written out, since a derived drop is proved anew, field by field, in each function that lets one go.
impl Drop for KeptHistory {
    fn drop(self) {
        let KeptHistory {
            gone: _,
            first: _,
            kept: _,
            keys: _,
        } = self;
    }
}

// How many tile keys an event lists: those that a draw missed, or that were evicted for a tile.
fn key_count(event: &Event) -> usize {
    match event {
        Event::Draw { missing, .. } => missing.len(),
        Event::Start { evicted, .. } => evicted.len(),
        _ => 0,
    }
}

impl KeptHistory {
    /// The empty history.
    pub(crate) fn new(alloc: Global) -> KeptHistory
        ensures entries { result.entries ≡ [] }
        ensures first { result.first ≡ 0 }
    {
        KeptHistory {
            gone: GhostList::new(),
            first: 0,
            kept: VecDeque::new(alloc),
            keys: 0,
        }
    }

    /// Makes room for `n` entries. An error means out of memory, which is also so if there would be 2^64 entries.
    pub(crate) fn reserve(&mut self, n: usize) -> Result<(), AllocError>
        ensures room { OnOk result (n ≤ self.new.spare) }
        ensures entries { self.new.entries ≡ self.old.entries }
        ensures first { self.new.first ≡ self.old.first }
        ensures spare { self.old.spare ≤ self.new.spare }
    {
        if usize::MAX - self.len() < n {
            return Err(AllocError);
        }
        self.kept.reserve(n)
    }

    /// Adds an entry at the end, in a place that was reserved. It takes no memory.
    pub(crate) fn push_reserved(&mut self, entry: Entry)
        requires { 1 ≤ self.old.spare }
        ensures entries { self.new.entries ≡ self.old.entries ++ entry ∷ [] }
        ensures first { self.new.first ≡ self.old.first }
        ensures spare { self.new.spare + 1 ≡ self.old.spare }
    {
        self.keys = self.keys.saturating_add(key_count(&entry.event));
        self.kept.push_back_reserved(entry);
    }

    // Forgets the oldest entry that is kept.
    fn forget_one(&mut self)
        requires { self.old.first < length self.old.entries }
        ensures entries { self.new.entries ≡ self.old.entries }
        ensures first { self.new.first ≡ self.old.first + 1 }
        ensures spare { self.old.spare ≤ self.new.spare }
    {
        let Some(entry) = self.kept.pop_front() else {
            unreachable!()
        };
        self.keys = self.keys.saturating_sub(key_count(&entry.event));
        self.gone = self.gone.and(&entry);
        self.first += 1;
    }

    /// Forgets the entries before a place.
    pub(crate) fn forget(&mut self, place: usize)
        requires { place ≤ length self.old.entries }
        ensures entries { self.new.entries ≡ self.old.entries }
        ensures first { self.new.first ≡ max self.old.first place }
        ensures spare { self.old.spare ≤ self.new.spare }
    {
        while self.first < place {
            self.forget_one();
        }
    }

    /// How many tile keys the entries that are kept list.
    pub(crate) fn keys(&self) -> usize {
        self.keys
    }

    /// How many entries there are, forgotten ones too.
    pub fn len(&self) -> usize
        ensures { result ≡ length self.now.entries }
    {
        self.first + self.kept.len()
    }

    /// How many of the oldest entries were forgotten, which is the place of the first one that is kept.
    pub fn first(&self) -> usize
        ensures { result ≡ self.now.first }
    {
        self.first
    }

    /// The entry at a place, which was not forgotten.
    pub fn entry(&self, at: usize) -> &Entry
        requires kept { self.now.first ≤ at }
        requires there { at < length self.now.entries }
        ensures { slice_get self.now.entries at ≡ Some result.now }
    {
        &self.kept[at - self.first]
    }

    /// The entry at a place; None exactly if it was forgotten, or there is none yet.
    pub fn get(&self, at: usize) -> Option<&Entry>
        ensures { MatchOption result ((at < self.now.first) ⊎ (length self.now.entries ≤ at)) (λ e. slice_get self.now.entries at ≡ Some e.now) }
    {
        if at < self.first {
            return None;
        }
        self.kept.get(at - self.first)
    }
}
