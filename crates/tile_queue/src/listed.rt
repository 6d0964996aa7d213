//! A list of which an edit in the middle moves small numbers, and no element.

ghost use Rattle.std.specs.Prelude.{◌≡◌, ℕ, ◌+◌, ◌<◌, ◌≤◌, nat_lt, length, get_or, IfOk, IfSome, IsSome, ◌↔◌, ◌++◌, [], vec_capacity};
ghost use Rattle.std.specs.List.{insert, remove};
ghost use Rattle.std.specs.Option.{option_to_list};
ghost use Rattle.std.specs.List.Sorted.{IsBinarySearchResult, IsSearchInRange};
ghost use Rattle.std.specs.VecDeque.{deque_capacity};
ghost use Rattle.tile_queue.specs.inner.Listing.{one_if, uses, up_to, IsStored};

use std::alloc::{AllocError, Global};
use std::collections::VecDeque;
use std::marker::Model;

/// A list whose elements stay where they are put: its order is kept as numbers of slots, four bytes each.
#[derive(Drop)]
pub(crate) struct Listed<T> {
    // The elements, each in a slot of its own.
    slots: Vec<T>,
    // The slots of the elements, in the order of the list.
    order: VecDeque<u32>,
    // The slots whose elements were taken out.
    free: Vec<u32>,
    // What a slot past the last has.
    nothing: T,
    room: usize,
}

impl<T> Model for Listed<T> {
    ghost use Rattle.std.specs.Prelude.{map, get_or, vec_capacity};
    ghost use Rattle.std.specs.VecDeque.{deque_capacity};
    ghost use Rattle.tile_queue.specs.inner.Listing.{Listing, IsListing};

    ghost Value = { Listing T };

    ghost view = { λ l. record { items = map (λ i. get_or l.slots.items i l.nothing) l.order.items; room = l.room } };

    ghost invariant = { λ l. IsListing l.slots.items l.order.items l.free.items l.room (vec_capacity l.slots) (deque_capacity l.order) (vec_capacity l.free) };
}

/// The element of a slot.
pub(crate) fn in_slot<T: Copy>(slots: &[T], nothing: T, slot: u32) -> T
    ensures { result ≡ get_or slots.now slot nothing }
{
    match slots.get(slot as usize) {
        Some(x) => *x,
        None => nothing,
    }
}

// Puts an element into a free slot, or into a new one.
fn store<T: Copy>(slots: &mut Vec<T>, free: &mut Vec<u32>, x: T) -> u32
    requires held { (i : ℕ) → uses i free.old.items ≤ one_if (nat_lt i (length slots.old.items)) }
    requires room { length slots.old.items < vec_capacity slots.old + length free.old.items }
    requires small { length slots.old.items < 4294967295 + length free.old.items }
    ensures stored { IsStored x slots.old.items free.old.items slots.new.items free.new.items result }
    ensures slots_capacity { vec_capacity slots.old ≤ vec_capacity slots.new }
    ensures free_capacity { vec_capacity free.new ≡ vec_capacity free.old }
{
    match free.pop() {
        Some(slot) => {
            slots[slot as usize] = x;
            slot
        }
        None => {
            let slot = slots.len() as u32;
            let _ = slots.push(x);
            slot
        }
    }
}

// The slots of the given number of elements, one after another, with room for the given number. An error
// means out of memory.
#[tactic(auto, using(crate::proofs::Slots::up_to_more))]
fn first_slots(alloc: Global, count: u32, room: usize) -> Result<VecDeque<u32>, AllocError>
    ensures slots { IfOk result (λ order. order.items ≡ up_to count) }
    ensures room { IfOk result (λ order. room ≤ deque_capacity order) }
{
    let mut order = VecDeque::with_capacity(alloc, room)?;
    for slot in 0..count {
        order.push_back(slot).map_err(AllocError::from)?;
    }
    Ok(order)
}

// Where the binary search for an element ends.
fn search_in<T: Ord + Copy>(
    slots: &[T],
    order: &VecDeque<u32>,
    nothing: T,
    x: &T,
) -> Result<usize, usize>
    ensures bound { IsSearchInRange result (length order.now.items) }
    ensures position { IsBinarySearchResult (λ i. T.cmp (get_or slots.now i nothing) x.now) order.now.items result }
{
    order.binary_search_by(|slot| in_slot(slots, nothing, *slot).cmp(x))
}

impl<T: Copy> Listed<T> {
    /// The list of these elements, with room for the given number. An error means out of memory.
    pub(crate) fn of(
        alloc: Global,
        items: Vec<T>,
        nothing: T,
        room: usize,
    ) -> Result<Listed<T>, AllocError>
        requires { (length items.items ≤ room) × (room ≤ vec_capacity items) }
        ensures items { IfOk result (λ l. l.items ≡ items.items) }
        ensures room { IfOk result (λ l. l.room ≡ room) }
    {
        // Never so in a run: a page has fewer tiles near its viewport. Slots are kept as 32 bits.
        if room > 4294967295 {
            return Err(AllocError);
        }
        let order = first_slots(alloc, items.len() as u32, room)?;
        let free = Vec::with_capacity(alloc, room)?;
        Ok(Listed {
            slots: items,
            order,
            free,
            nothing,
            room,
        })
    }

    /// An empty list without room.
    pub(crate) fn new(alloc: Global, nothing: T) -> Listed<T>
        ensures { result ≡ record { items = []; room = 0 } }
    {
        Listed {
            slots: Vec::new(alloc),
            order: VecDeque::new(alloc),
            free: Vec::new(alloc),
            nothing,
            room: 0,
        }
    }

    /// How many elements there are.
    pub(crate) fn len(&self) -> usize
        ensures { result ≡ length self.now.items }
    {
        self.order.len()
    }

    /// The element at a place.
    pub(crate) fn get(&self, at: usize) -> T
        requires { at < length self.now.items }
        ensures { result ≡ get_or self.now.items at result }
    {
        in_slot(&self.slots, self.nothing, self.order[at])
    }

    /// The first element, if there is one.
    pub(crate) fn front(&self) -> Option<T>
        ensures variant { IsSome result ↔ (0 < length self.now.items) }
        ensures lookup { IfSome result (λ x. x ≡ get_or self.now.items 0 x) }
    {
        if self.len() == 0 {
            return None;
        }
        Some(self.get(0))
    }

    /// Where the binary search for an element ends, in a list that is sorted.
    pub(crate) fn search(&self, x: &T) -> Result<usize, usize>
    where
        T: Ord,
        ensures bound { IsSearchInRange result (length self.now.items) }
        ensures position { IsBinarySearchResult (λ y. T.cmp y x.now) self.now.items result }
    {
        search_in(&self.slots, &self.order, self.nothing, x)
    }

    /// Puts an element to a place.
    pub(crate) fn insert(&mut self, at: usize, x: T)
        requires place { at ≤ length self.old.items }
        requires room { length self.old.items < self.old.room }
        ensures items { self.new.items ≡ insert self.old.items at x }
        ensures room { self.new.room ≡ self.old.room }
    {
        let slot = store(&mut self.slots, &mut self.free, x);
        let _ = self.order.insert(at, slot);
    }

    /// Takes out the element at a place.
    pub(crate) fn remove(&mut self, at: usize)
        requires { at < length self.old.items }
        ensures items { self.new.items ≡ remove self.old.items at }
        ensures room { self.new.room ≡ self.old.room }
    {
        let slot = self.order[at];
        let _ = self.order.remove(at);
        let _ = self.free.push(slot);
    }

    /// Takes out the first element, if there is one.
    pub(crate) fn pop_front(&mut self) -> Option<T>
        ensures items { self.old.items ≡ option_to_list result ++ self.new.items }
        ensures variant { IsSome result ↔ (0 < length self.old.items) }
        ensures room { self.new.room ≡ self.old.room }
    {
        if self.len() == 0 {
            return None;
        }
        let first = self.get(0);
        self.remove(0);
        Some(first)
    }
}
