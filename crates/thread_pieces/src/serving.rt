//! Handing the pieces of a ring on.
ghost use Rattle.std.specs.Prelude.{◌≡◌, ◌≤◌, ℕ, ◌++◌, List, [], IfNone, IsFalse, MatchOption};
ghost use Rattle.byte_io.specs.Pieces.{WriteCause};
ghost use Rattle.thread_pieces.specs.Shots.{all_shown, shown};
ghost use Rattle.thread_pieces.specs.Ring.{EmptyBatch, SamePresenter, TakesBatch, bytes_taken, seen};
ghost use Rattle.thread_pieces.specs.Answers.{Blames, Presents, Served, Takes};

use crate::ends::Presenter;
use crate::limits::{DEALT_PIECES, HELD_BYTES};
use crate::{Painters, ScenePainter, Shot};
use byte_io::{PutFault, Sink};
use std::alloc::AllocError;
use std::marker::Sync;
use std::sync::Wait;
use std::thread::Threads;

/// Paints and puts pieces, unless an earlier one was refused, and answers for both.
pub(crate) fn present<R: Threads + Sync, K: Sink, P: ScenePainter>(
    rt: &R,
    state: Result<(), PutFault>,
    pieces: Vec<Shot>,
    painters: &mut Painters<P>,
    out: &mut K,
) -> Result<(), PutFault>
    ensures { Presents K.Sink state result out.old out.new (all_shown pieces.items) }
{
    match state {
        Ok(()) => painters.put(rt, pieces, out),
        Err(fault) => Err(fault),
    }
}

/// Memory ran out, unless an earlier piece was refused.
pub(crate) fn without_memory<K: Sink>(
    state: Result<(), PutFault>,
    refused: AllocError,
    out: &mut K,
) -> Result<(), PutFault>
    ensures steps { (bytes : List ℕ) → Presents K.Sink state result out.old out.new bytes }
    ensures same { out.new ≡ out.old }
{
    match state {
        Ok(()) => Err(PutFault::Memory(refused)),
        Err(fault) => Err(fault),
    }
}

impl Presenter {
    // Takes the next piece out of the ring, if there is one.
    #[tactic(auto, using(crate::proofs::Parts::one_more))]
    fn take_one(&mut self) -> Option<Shot>
        ensures ring { SamePresenter self.old self.new }
        ensures bytes { MatchOption result (bytes_taken self.new ≡ bytes_taken self.old) (λ piece. bytes_taken self.new ≡ bytes_taken self.old ++ shown piece) }
        ensures none { IfNone result (seen self.new ≡ []) }
    {
        match self.consumer.pop() {
            Ok(piece) => {
                self.taken = self.taken.saturating_add(piece.bytes());
                Some(piece)
            }
            Err(_) => None,
        }
    }

    // Takes pieces out of the ring, at least one if there is any, and at most the given number, until there is none
    // or they are large. An error means out of memory, and the piece that was taken last is lost.
    #[tactic(auto, using(crate::proofs::RingGains::taken_and_lost, crate::proofs::Parts::one_more))]
    fn take_batch(&mut self, most: usize) -> Result<Vec<Shot>, AllocError>
        requires { 1 ≤ most }
        ensures ring { SamePresenter self.old self.new }
        ensures bytes { TakesBatch (bytes_taken self.old) (bytes_taken self.new) result }
        ensures empty { EmptyBatch (seen self.new) result }
    {
        let mut batch = Vec::new(self.alloc);
        while batch.len() < most {
            if self.taken >= HELD_BYTES && !batch.is_empty() {
                return Ok(batch);
            }
            let Some(piece) = self.take_one() else {
                return Ok(batch);
            };
            if let Err(_) = batch.push(piece) {
                return Err(AllocError);
            }
        }
        Ok(batch)
    }

    // What was taken is written, or is not going to be.
    fn let_go(&mut self)
        ensures ring { SamePresenter self.old self.new }
        ensures taken { bytes_taken self.new ≡ bytes_taken self.old }
        ensures seen { seen self.new ≡ seen self.old }
    {
        self.shared.remove(self.taken);
        self.taken = 0;
    }

    // Takes pieces out of the ring, at most the given number, and puts them, unless an earlier one was refused;
    // answers whether there were any, and for all pieces.
    fn step<R: Threads + Sync, K: Sink, P: ScenePainter>(
        &mut self,
        rt: &R,
        state: Result<(), PutFault>,
        most: usize,
        painters: &mut Painters<P>,
        out: &mut K,
    ) -> (bool, Result<(), PutFault>)
        requires { 1 ≤ most }
        ensures ring { SamePresenter self.old self.new }
        ensures none { IsFalse result.0 → seen self.new ≡ [] }
        ensures bytes { Takes state result.1 (K.held out.old) (K.held out.new) (bytes_taken self.old) (bytes_taken self.new) }
        ensures faults { K.faults out.old ≤ K.faults out.new }
        ensures refusals { K.refusals out.old ≤ K.refusals out.new }
        ensures cause { Blames state result.1 (K.faults out.old) (K.faults out.new) }
        ensures place { K.place out.new ≡ K.place out.old }
    {
        match self.take_batch(most) {
            Ok(batch) => {
                let any = !batch.is_empty();
                (any, present(rt, state, batch, painters, out))
            }
            Err(refused) => (true, without_memory(state, refused, out)),
        }
    }

    /// Takes pieces out of the ring, paints their scenes, several at once if several wait, and puts all into
    /// `out` in order, until it has seen the end mark raised and after that found the ring empty. While there is no
    /// piece it sleeps. After a refused put it takes the later pieces and drops them, so that nobody waits for it, and
    /// the ring's sink refuses what is put from then on.
    ///
    /// Ok: `out` gained exactly the pieces that were taken, in order. `Failed` comes only if
    /// the count of faults of `out` rose in this call, or stands at its last value; `Memory` if
    /// `out` or a painter found none. In both `out` gained a prefix of the pieces that were taken. With each answer no
    /// piece is left that was seen in the ring.
    #[tactic(auto, using(crate::proofs::RingGains::served_on))]
    pub fn serve<R: Threads + Wait + Sync, K: Sink, P: ScenePainter>(
        &mut self,
        rt: &R,
        painters: &mut Painters<P>,
        out: &mut K,
    ) -> Result<(), PutFault>
        ensures ring { SamePresenter self.old self.new }
        ensures bytes { Served result (K.held out.old) (K.held out.new) (bytes_taken self.old) (bytes_taken self.new) }
        ensures none { seen self.new ≡ [] }
        ensures faults { K.faults out.old ≤ K.faults out.new }
        ensures refusals { K.refusals out.old ≤ K.refusals out.new }
        ensures cause { WriteCause (K.faults out.old) (K.faults out.new) result }
        ensures place { K.place out.new ≡ K.place out.old }
    {
        let most = painters.most().saturating_mul(DEALT_PIECES).max(1);
        let mut state = Ok(());
        self.shared.serve(true);
        for _ in rt.forever() {
            // Both are read before the ring is looked at: a piece that comes later rings again, and what was
            // put before the mark is then found.
            let pushed = self.shared.pushed();
            let ended = self.shared.is_closed();
            let (any, answer) = self.step(rt, state, most, painters, out);
            state = answer;
            // Told before the ring of `let_go`, so that the one who puts finds it when it wakes up.
            self.shared.tell(&state);
            self.let_go();
            if !any {
                if ended {
                    self.shared.serve(false);
                    return state;
                }
                self.shared.wait_for_pieces(rt, pushed);
            }
        }
        unreachable!()
    }
}
