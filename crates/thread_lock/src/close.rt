//! The end of a lock: all its passes together give the value back.
ghost use Rattle.std.specs.Prelude.{◌≡◌, ◌+◌, ◌<◌, ◌≤◌, [], ◌∷◌, ◌++◌, length, map, vec_len, All, IfOk, IfErr};
ghost use Rattle.thread_lock.specs.PassModels.{old_of, IsOf, IsToldBy, HasAllActors};

use crate::board::{Board, PassSeat};
use crate::lock::TurnLock;
use crate::pass::Pass;
use crate::plays::TakeIn;
use crate::turn::Turn;

/// Not all passes were there. The lock and those that were come back.
#[derive(Drop)]
pub struct PassesOut<T: Turn> {
    pub lock: TurnLock<T>,
    pub passes: Vec<Pass<T>>,
    /// How many passes were handed in.
    pub given: u32,
    /// How many passes the lock was made for.
    pub most: u32,
}

impl<T: Turn> TurnLock<T> {
    /// Takes all passes that the lock was made for, and gives the value back.
    /// It answers `PassesOut` if fewer passes were handed in.
    pub fn close(self, passes: Vec<Pass<T>>) -> Result<T, PassesOut<T>>
        requires some { 0 < vec_len passes }
        requires own { All (IsOf self) passes.items }
        ensures told { IfOk result (λ value. All (IsToldBy T.stem T.history value) passes.items) }
        ensures named { IfOk result (λ value. HasAllActors (T.history value) passes.items) }
        ensures all { IfOk result (λ _. self.most ≤ vec_len passes) }
        ensures back { IfErr result (λ out. (out.lock ≡ self) × (out.passes.items ≡ passes.items)) }
        ensures out { IfErr result (λ out. (out.given ≡ vec_len passes) × (out.most ≡ self.most) × (out.given < out.most)) }
    {
        let given = passes.len();
        if given < self.most as usize {
            let most = self.most;
            return Err(PassesOut {
                lock: self,
                passes,
                given: given as u32,
                most,
            });
        }
        let TurnLock { table, most: _ } = self;
        let mut passes = passes;
        let last = passes.pop().unwrap();
        Ok(reunite(table, passes, last))
    }
}

// The value, once the last pass has taken in the others.
fn reunite<T: Turn>(table: Board<T>, others: Vec<Pass<T>>, last: Pass<T>) -> T
    requires table { (table.shared.table_id.words ≡ 3) × (table.shared.table_id.slots ≡ 1) }
    requires own { (last.lock ≡ table.shared.table_id) × All (λ pass. pass.lock ≡ table.shared.table_id) others.items }
    requires enough { last.most ≤ length others.items + 1 }
    ensures told { All (IsToldBy T.stem T.history result) (others.items ++ last ∷ []) }
    ensures named { HasAllActors (T.history result) (others.items ++ last ∷ []) }
{
    let Pass {
        mut place,
        actor: _,
        most: _,
    } = last;
    join_all(&table, &mut place, others);
    let mut closed = table.close_with(place);
    let home = closed.take(0);
    closed.free();
    home.unwrap()
}

// The seat takes in those of all passes.
fn join_all<T: Turn>(table: &Board<T>, place: &mut PassSeat<T>, passes: Vec<Pass<T>>)
    requires table { (place.old.table_id ≡ table.now.shared.table_id) × (table.now.shared.table_id.words ≡ 3) }
    requires passes { All (λ pass. pass.lock ≡ table.now.shared.table_id) passes.items }
    ensures table { (place.new.table_id ≡ place.old.table_id) × (place.new.id ≡ place.old.id) × (place.new.me.1 ≡ place.old.me.1) }
    ensures took { place.new.me.0 ≡ record place.old.me.0 { known = place.new.me.0.known; olds = map old_of passes.items ++ place.old.me.0.olds } }
{
    let mut passes = passes;
    while let Some(pass) = passes.pop() {
        let Pass {
            place: other,
            actor: _,
            most: _,
        } = pass;
        table.shared.join_seat::<TakeIn>(place, other);
    }
}
