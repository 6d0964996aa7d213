//! The table that the passes share: three words, and one slot.
//! The slot has the value while the turn is free, and is out with the holder otherwise.
use crate::turn::Turn;
use atomic_table::{Seat, Table, TableRule};
use std::alloc::Global;
use std::collections::LinkedList;
use std::snapshot::Snapshot;

/// The word of the turn: 0 while it is free, and 1 while a pass holds it.
pub(crate) const TURN: usize = 0;

/// The word of the count: how many entries the history has.
pub(crate) const COUNT: usize = 1;

/// The word of the numbers: how many were given to passes.
pub(crate) const MADE: usize = 2;

/// What a pass had seen and done when another pass took it in. No value of it is made.
pub struct Old<M, E> {
    pub stem: Option<M>,
    pub number: u32,
    pub seen: LinkedList<(u32, E)>,
    pub mine: LinkedList<(u32, E)>,
}

/// What a pass knows, in proofs alone: no value of it is made.
pub struct PassView<M, E> {
    /// What the value began with, or `None` if the pass is spent.
    pub stem: Option<M>,
    /// The actor's number, or `None` if the pass has drawn none.
    pub number: Option<u32>,
    /// How many passes the lock was made for.
    pub most: u32,
    /// The history that the pass saw last.
    pub seen: LinkedList<(u32, E)>,
    /// The entries that the pass made.
    pub mine: LinkedList<(u32, E)>,
    /// Whether the pass holds the turn.
    pub holds: bool,
    /// How often the pass took the turn.
    pub taken: u64,
    /// How often its exchange found the turn taken.
    pub busy: u64,
    /// How many numbers the lock is known to have given.
    pub known: u32,
    /// The passes that it took in.
    pub olds: LinkedList<Old<M, E>>,
}

/// The value that the table is made with, and how many passes it is for.
pub type Key<T> = (Snapshot<T>, u32);

/// The rule of the lock's table.
pub struct Law;

impl<T: Turn> TableRule<Option<T>, PassView<T::Stem, T::Entry>, Key<T>> for Law {
    ghost use Rattle.thread_lock.specs.Turns.{Kept, opening_view};

    ghost holds = { λ _. Kept T.stem T.history };

    ghost first = { λ key. opening_view (T.stem key.0.value) key.1 };
}

pub(crate) type Board<T> = Table<
    Option<T>,
    PassView<<T as Turn>::Stem, <T as Turn>::Entry>,
    Key<T>,
    Law,
    Global,
>;

pub(crate) type PassSeat<T> = Seat<Option<T>, PassView<<T as Turn>::Stem, <T as Turn>::Entry>>;
