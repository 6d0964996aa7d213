//! The index of a family: for each id the place of its node, by rising id.

ghost use Rattle.std.specs.Prelude.{◌≡◌, ◌≤◌, length};
ghost use Rattle.page_properties.specs.inner.Index.{front, listed_place, AreRising};

/// The place of the node that has this id.
#[derive(Clone, Copy)]
pub struct IndexEntry {
    /// The node's id.
    pub id: u32,
    /// The node's place in the order of addition, from 0.
    pub place: usize,
}

/// How many entries have a smaller id. The work grows with the logarithm of their number.
pub fn count_below(entries: &[IndexEntry], id: u32) -> usize
    requires { AreRising entries.now }
    ensures value { result ≡ front id entries.now }
    ensures within { result ≤ length entries.now }
{
    entries.partition_point(|entry| entry.id < id)
}

/// The place of an id; None if no entry has it. An id below all others, as that of the root is, is not searched for.
#[tactic(auto, using(crate::proofs::Indexes::entry_here, crate::proofs::Indexes::entry_other, crate::proofs::Indexes::entry_past, crate::proofs::Indexes::entry_before))]
pub fn place_in(entries: &[IndexEntry], id: u32) -> Option<usize>
    requires { AreRising entries.now }
    ensures { result ≡ listed_place id entries.now }
{
    if !entries.is_empty() && id < entries[0].id {
        return None;
    }
    let below = count_below(entries, id);
    if below < entries.len() {
        let entry = entries[below];
        if entry.id == id {
            return Some(entry.place);
        }
    }
    None
}
