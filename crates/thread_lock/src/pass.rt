//! The passes, through which actors know what they saw and did.
ghost use Rattle.std.specs.Prelude.{◌≡◌, ◌⊎◌, ◌+◌, [], ◌∷◌, ◌++◌, Some};
ghost use Rattle.thread_lock.specs.Lists.{entries_by, gained};
ghost use Rattle.thread_lock.specs.inner.Steps.{gains, Brings};

use crate::board::{Board, COUNT, PassSeat, TURN};
use crate::lock::TurnLock;
use crate::plays::{Release, Stamp};
use crate::turn::Turn;
use std::marker::Model;

/// A pass that does not hold the turn.
#[derive(Drop)]
pub struct Pass<T: Turn> {
    pub(crate) place: PassSeat<T>,
    pub(crate) actor: u32,
    pub(crate) most: u32,
}

impl<T: Turn> Model for Pass<T> {
    ghost use Rattle.thread_lock.specs.PassModels.{PassModel, pass_of, Rests};

    ghost Value = { PassModel T.Stem T.Entry };

    ghost view = { λ p. pass_of p.place.table_id p.actor p.place.me.0 };

    ghost invariant = { λ p. Rests p.actor p.most p.place.me };
}

/// A pass that holds the turn, with the value. It is not `Drop`: end it by `take`.
pub struct HeldTurn<T: Turn> {
    pub(crate) place: PassSeat<T>,
    pub(crate) actor: u32,
    pub(crate) most: u32,
    pub(crate) value: T,
}

impl<T: Turn> Model for HeldTurn<T> {
    ghost use Rattle.thread_lock.specs.PassModels.{Hold, pass_of, Takes, Fits};

    ghost Value = { Hold T T.Stem T.Entry };

    ghost view = { λ h. record { pass = pass_of h.place.table_id h.actor h.place.me.0; value = h.value } };

    ghost invariant = { λ h. Takes h.actor h.most h.place.me × Fits T.stem T.history h.actor h.place.me.0 h.value };
}

/// A pass that holds the turn while the caller has the value. It is not `Drop`: end it by `put`.
pub struct Empty<T: Turn> {
    pub(crate) place: PassSeat<T>,
    pub(crate) actor: u32,
    pub(crate) most: u32,
    pub(crate) count: u64,
}

impl<T: Turn> Model for Empty<T> {
    ghost use Rattle.std.specs.Prelude.{◌≡◌, length};
    ghost use Rattle.thread_lock.specs.PassModels.{PassModel, pass_of, Takes};

    ghost Value = { PassModel T.Stem T.Entry };

    ghost view = { λ e. pass_of e.place.table_id e.actor e.place.me.0 };

    ghost invariant = { λ e. Takes e.actor e.most e.place.me × (e.count ≡ length e.place.me.0.seen) };
}

/// The turn was taken. The pass comes back.
#[derive(Drop)]
pub struct Busy<T: Turn> {
    pub pass: Pass<T>,
}

/// The lock gave as many numbers as it was made for.
#[derive(Clone, Copy, Debug, PartialEq, Eq)]
pub enum SplitFault {
    Full,
}

impl<T: Turn> Pass<T> {
    /// The number of the actor that the pass was made for.
    pub fn actor(&self) -> u32
        ensures { result ≡ self.now.actor }
    {
        self.actor
    }
}

impl<T: Turn> HeldTurn<T> {
    /// The number of the actor that holds the turn.
    pub fn actor(&self) -> u32
        ensures { result ≡ self.now.pass.actor }
    {
        self.actor
    }

    /// The value. Its history is what the pass has seen, and has the pass's own entries under its number.
    pub fn value(&self) -> &T
        ensures value { result.now ≡ self.now.value }
        ensures seen { T.history result.now ≡ self.now.pass.seen }
        ensures mine { entries_by self.now.pass.actor (T.history result.now) ≡ self.now.pass.mine }
        ensures stem { self.now.pass.stem ≡ Some (T.stem result.now) }
    {
        &self.value
    }

    /// The value out of the lock, and the place to put it back.
    pub fn take(self) -> (T, Empty<T>)
        ensures value { result.0 ≡ self.value }
        ensures place { result.1 ≡ self.pass }
        ensures seen { T.history result.0 ≡ self.pass.seen }
        ensures mine { entries_by self.pass.actor (T.history result.0) ≡ self.pass.mine }
        ensures stem { self.pass.stem ≡ Some (T.stem result.0) }
    {
        let HeldTurn {
            place,
            actor,
            most,
            value,
        } = self;
        let count = value.entries();
        (
            value,
            Empty {
                place,
                actor,
                most,
                count,
            },
        )
    }
}

impl<T: Turn> Empty<T> {
    /// Puts the value back and frees the turn.
    /// The value has its old history, or one entry of this actor after it, and the stem with which the lock was made.
    pub fn put(self, lock: &TurnLock<T>, new: T) -> Pass<T>
        requires lock { self.lock ≡ lock.now.id }
        requires stem { self.stem ≡ Some (T.stem new) }
        requires history { (T.history new ≡ self.seen) ⊎ ((entry : T.Entry) × (T.history new ≡ self.seen ++ (self.actor, entry) ∷ [])) }
        ensures { result ≡ record self { seen = T.history new; mine = self.mine ++ gained self.seen (T.history new) } }
    {
        let Empty {
            mut place,
            actor,
            most,
            count,
        } = self;
        let entries = new.entries();
        let out = lock.table.shared.exchange(&mut place, 0, Some(new));
        let None = out else { unreachable!() };
        stamp(&lock.table, &mut place, count, entries);
        lock.table.shared.store::<Release>(&mut place, TURN, 0);
        lock.table.shared.wake_one(TURN);
        Pass { place, actor, most }
    }
}

// Counts the entry that the holder made, if it made one.
fn stamp<T: Turn>(table: &Board<T>, place: &mut PassSeat<T>, count: u64, entries: u64)
    requires table { (place.old.table_id ≡ table.now.shared.table_id) × (table.now.shared.table_id.words ≡ 3) }
    requires value { Brings T.history count entries place.old.me }
    ensures table { place.new.table_id ≡ place.old.table_id }
    ensures stamped { (x : T) → place.old.me.1 ≡ (0, Some x) ∷ [] → place.new.me ≡ (gains (T.history x) place.old.me.0, place.old.me.1) }
{
    if entries != count {
        table.shared.store::<Stamp>(place, COUNT, entries);
    }
}
