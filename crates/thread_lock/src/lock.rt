//! The lock.
ghost use Rattle.std.specs.Prelude.{◌≡◌, ◌+◌, ◌<◌, ◌≤◌, [], Some, IsSome, IfSome, IfOk, IfErr, MatchBool};
ghost use mathlib.Core.List.{IsPrefix};
ghost use Rattle.thread_lock.specs.inner.Steps.{Took, Missed};

use crate::board::{Board, MADE, PassSeat, TURN};
use crate::pass::{Busy, HeldTurn, Pass, SplitFault};
use crate::plays::{Draw, Learn, SplitOff, Try};
use crate::turn::Turn;
use atomic_table::Table;
use std::alloc::{AllocError, AllocFailed, Global};
use std::marker::Model;
use std::snapshot::Snapshot;
use std::sync::Wait;

/// A lock around a value that actors take turns with. Threads may share it.
#[derive(Drop)]
pub struct TurnLock<T: Turn> {
    pub(crate) table: Board<T>,
    pub(crate) most: u32,
}

impl<T: Turn> Model for TurnLock<T> {
    ghost use Rattle.std.specs.Prelude.{◌≡◌};
    ghost use Rattle.thread_lock.specs.PassModels.{Lock};

    ghost Value = { Lock };

    ghost view = { λ l. record { id = l.table.shared.table_id; most = l.most } };

    ghost invariant = { λ l. (l.table.shared.table_id.words ≡ 3) × (l.table.shared.table_id.slots ≡ 1) };
}

impl<T: Turn> TurnLock<T> {
    /// A lock around `first`, for `most` passes, and the pass of actor 0. When memory runs out `first` comes back.
    pub fn new(
        alloc: Global,
        first: T,
        most: u32,
    ) -> Result<(TurnLock<T>, Pass<T>), (AllocError, T)>
        requires { (T.history first ≡ []) × (0 < most) }
        ensures lock { IfOk result (λ made. made.0.most ≡ most) }
        ensures pass { IfOk result (λ made. made.1 ≡ record { lock = made.0.id; actor = 0; stem = Some (T.stem first); most = most; seen = []; mine = []; taken = 0; busy = 0; known = 1 }) }
        ensures memory { IfErr result (λ refused. refused.1 ≡ first) }
    {
        let about = (Snapshot::of(&first), most);
        let mut slots = Vec::new(alloc);
        if let Err(AllocFailed { value }) = slots.push(Some(first)) {
            slots.destroy_empty();
            return Err((AllocError, value.unwrap()));
        }
        match Table::new(alloc, &[0, 0, 1], slots, &about) {
            Ok((table, place)) => Ok((
                TurnLock { table, most },
                Pass {
                    place,
                    actor: 0,
                    most,
                },
            )),
            Err(refused) => {
                let mut slots = refused.slots;
                let first = slots.pop().unwrap().unwrap();
                slots.destroy_empty();
                Err((AllocError, first))
            }
        }
    }

    /// A new pass, made of the given one, with the next number, which is above the given pass's own. It draws by exchanges until one succeeds, so it may wait for other splits.
    /// It answers `Full` if the lock had already given as many numbers as it was made for.
    pub fn split<R: Wait>(&self, rt: &R, pass: &mut Pass<T>) -> Result<Pass<T>, SplitFault>
        requires { pass.old.lock ≡ self.now.id }
        ensures given { pass.new ≡ record pass.old { known = pass.new.known } }
        ensures known { pass.old.known ≤ pass.new.known }
        ensures made { IfOk result (λ made. made ≡ record pass.new { actor = pass.new.known; mine = []; taken = 0; busy = 0 }) }
        ensures room { IfOk result (λ _. pass.new.known < pass.new.most) }
        ensures other { IfOk result (λ made. pass.old.actor < made.actor) }
        ensures full { IfErr result (λ _. pass.new.known ≡ pass.new.most) }
    {
        for _ in rt.forever() {
            if let Some(answer) = self.draw(pass) {
                return answer;
            }
        }
        unreachable!()
    }

    // One round of `split`: `None` if another split drew the number first.
    fn draw(&self, pass: &mut Pass<T>) -> Option<Result<Pass<T>, SplitFault>>
        requires { pass.old.lock ≡ self.now.id }
        ensures given { pass.new ≡ record pass.old { known = pass.new.known } }
        ensures known { pass.old.known ≤ pass.new.known }
        ensures made { IfSome result (λ answer. IfOk answer (λ made. made ≡ record pass.new { actor = pass.new.known; mine = []; taken = 0; busy = 0 })) }
        ensures room { IfSome result (λ answer. IfOk answer (λ _. pass.new.known < pass.new.most)) }
        ensures other { IfSome result (λ answer. IfOk answer (λ made. pass.old.actor < made.actor)) }
        ensures full { IfSome result (λ answer. IfErr answer (λ _. pass.new.known ≡ pass.new.most)) }
    {
        let given = self.table.shared.load::<Learn>(&mut pass.place, MADE);
        if given >= pass.most as u64 {
            return Some(Err(SplitFault::Full));
        }
        let mut place = self.table.shared.split_seat::<SplitOff>(&mut pass.place);
        let found = self
            .table
            .shared
            .compare_exchange::<Draw>(&mut place, MADE, given, given + 1);
        if found != given {
            return None;
        }
        Some(Ok(Pass {
            place,
            actor: given as u32,
            most: pass.most,
        }))
    }

    /// Takes the turn if it is free, by one exchange. Otherwise the pass comes back, and counts that.
    pub fn try_enter(&self, pass: Pass<T>) -> Result<HeldTurn<T>, Busy<T>>
        requires { pass.lock ≡ self.now.id }
        ensures entered { IfOk result (λ held. held.pass ≡ record pass { seen = T.history held.value; taken = pass.taken + 1 }) }
        ensures seen { IfOk result (λ held. IsPrefix pass.seen (T.history held.value)) }
        ensures busy { IfErr result (λ refused. refused.pass ≡ record pass { busy = pass.busy + 1 }) }
    {
        let Pass {
            mut place,
            actor,
            most,
        } = pass;
        if !self.knock(&mut place) {
            let pass = Pass { place, actor, most };
            return Err(Busy { pass });
        }
        let value = self.table.shared.exchange(&mut place, 0, None).unwrap();
        Ok(HeldTurn {
            place,
            actor,
            most,
            value,
        })
    }

    // One exchange on the turn, and whether it took the turn.
    fn knock(&self, place: &mut PassSeat<T>) -> bool
        requires table { place.old.table_id ≡ self.now.id }
        requires pass { IsSome place.old.me.0.stem × IsSome place.old.me.0.number }
        ensures table { place.new.table_id ≡ place.old.table_id }
        ensures took { MatchBool result (Took T.stem T.history place.old.me place.new.me) (Missed place.old.me place.new.me) }
    {
        self.table.shared.compare_exchange::<Try>(place, TURN, 0, 1) == 0
    }

    /// Takes the turn. It waits while another pass holds it.
    pub fn enter<R: Wait>(&self, rt: &R, pass: Pass<T>) -> HeldTurn<T>
        requires { pass.lock ≡ self.now.id }
        ensures entered { result.pass ≡ record pass { seen = T.history result.value; taken = pass.taken + 1; busy = result.pass.busy } }
        ensures seen { IsPrefix pass.seen (T.history result.value) }
        ensures waited { pass.busy ≤ result.pass.busy }
    {
        let mut pass = pass;
        for _ in rt.forever() {
            match self.try_enter(pass) {
                Ok(held) => return held,
                Err(refused) => pass = refused.pass,
            }
            self.table.shared.park(rt, TURN, 1);
        }
        unreachable!()
    }
}
