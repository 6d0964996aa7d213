//! Painters among whom pieces are dealt.

ghost use Rattle.std.specs.Prelude.{◌≡◌, ◌≤◌, ◌++◌, [], max, IfOk, OnOk};
ghost use Rattle.thread_pieces.specs.Shots.{all_due, all_shown, due_of, shown};
ghost use Rattle.byte_io.specs.Pieces.{PutsAll, WriteCause};
ghost use Rattle.thread_pieces.specs.Puts.{PutsBytes};

use crate::hands::{Hand, put_hands};
use crate::scene_painter::ScenePainter;
use crate::shot::Shot;
use byte_io::{PutFault, Sink};
use std::alloc::{AllocError, Global};
use std::marker::Sync;
use std::thread::Threads;

/// Painters that work side by side, each on a run of consecutive pieces.
pub struct Painters<P> {
    alloc: Global,
    /// The hands that have nothing to do.
    idle: Vec<Hand<P>>,
    /// Those that have, in the order of their pieces.
    pub(crate) hands: Vec<Hand<P>>,
    /// How many work side by side at most.
    most: usize,
    ghost some: { 1 ≤ most },
}

// Written out, since a derived drop is proved anew, field by field, in each function that lets one go.
impl<P: Drop> Drop for Painters<P> {
    fn drop(self) {
        let Painters {
            alloc: _,
            idle: _,
            hands: _,
            most: _,
        } = self;
    }
}

impl<P: ScenePainter> Painters<P> {
    /// At most the given number of painters, at least one. Each is made when it is needed.
    pub fn new(alloc: Global, most: usize) -> Painters<P>
        ensures { result.most ≡ max most 1 }
    {
        Painters {
            alloc,
            idle: Vec::new(alloc),
            hands: Vec::new(alloc),
            most: most.max(1),
        }
    }

    /// How many work side by side at most.
    pub fn most(&self) -> usize
        ensures { result ≡ self.now.most }
    {
        self.most
    }

    // A hand with nothing to do.
    fn free_hand(&mut self) -> Result<Hand<P>, AllocError>
        ensures free { IfOk result (λ hand. due_of hand ≡ []) }
        ensures others { self.new.hands ≡ self.old.hands }
        ensures most { self.new.most ≡ self.old.most }
    {
        if let Some(mut hand) = self.idle.pop() {
            hand.due.clear();
            return Ok(hand);
        }
        Ok(Hand {
            alloc: self.alloc,
            painter: P::blank(self.alloc)?,
            due: Vec::new(self.alloc),
            made: Vec::new(self.alloc),
            waits: false,
        })
    }

    // The last hand, out of the others, if it has fewer pieces than its share; else a free one.
    fn next_hand(&mut self, share: usize) -> Result<Hand<P>, AllocError>
        ensures due { IfOk result (λ hand. all_due self.new.hands.items ++ due_of hand ≡ all_due self.old.hands.items) }
        ensures most { self.new.most ≡ self.old.most }
    {
        let has_room = match self.hands.last() {
            Some(hand) => hand.due.len() < share,
            None => false,
        };
        if !has_room {
            return self.free_hand();
        }
        match self.hands.pop() {
            Some(hand) => Ok(hand),
            None => self.free_hand(),
        }
    }

    // Gives a piece to the last hand, or if that has its share, to another.
    #[tactic(auto, using(crate::proofs::Parts::one_more))]
    fn deal_one(&mut self, shot: Shot, share: usize) -> Result<(), AllocError>
        ensures due { OnOk result (all_due self.new.hands.items ≡ all_due self.old.hands.items ++ shown shot) }
        ensures most { self.new.most ≡ self.old.most }
    {
        let mut hand = self.next_hand(share)?;
        hand.due.push(shot)?;
        self.hands.push(hand)?;
        Ok(())
    }

    // Lets all hands go.
    fn rest(&mut self)
        ensures none { self.new.hands.items ≡ [] }
        ensures most { self.new.most ≡ self.old.most }
    {
        while let Some(hand) = self.hands.pop() {
            if self.idle.push(hand).is_err() {
                break;
            }
        }
        self.hands.clear();
    }

    // Deals pieces among the hands: to each a run of consecutive ones.
    #[tactic(auto, using(crate::proofs::Parts::one_more))]
    fn deal(&mut self, shots: Vec<Shot>) -> Result<(), AllocError>
        ensures due { OnOk result (all_due self.new.hands.items ≡ all_shown shots.items) }
        ensures most { self.new.most ≡ self.old.most }
    {
        let share = shots.len().div_ceil(self.most);
        self.rest();
        for shot in shots {
            self.deal_one(shot, share)?;
        }
        Ok(())
    }

    // Paints what was dealt, and puts it.
    fn put_dealt<R: Threads + Sync, K: Sink>(&mut self, rt: &R, out: &mut K) -> Result<(), PutFault>
        ensures put { PutsBytes K.Sink out.old out.new (all_due self.old.hands.items) result }
        ensures most { self.new.most ≡ self.old.most }
    {
        let parts = (self.most / self.hands.len().max(1)).max(1);
        put_hands(rt, self.hands.as_mut_slice(), parts, out)
    }

    /// Paints pieces side by side, and puts them in order. If there are fewer pieces than painters, each scene is
    /// painted in several parts. How many work side by side at most stays the same.
    pub fn put<R: Threads + Sync, K: Sink>(
        &mut self,
        rt: &R,
        shots: Vec<Shot>,
        out: &mut K,
    ) -> Result<(), PutFault>
        ensures bytes { PutsAll (K.held out.old) (K.held out.new) (all_shown shots.items) result }
        ensures grows { K.faults out.old ≤ K.faults out.new }
        ensures refusals { K.refusals out.old ≤ K.refusals out.new }
        ensures cause { WriteCause (K.faults out.old) (K.faults out.new) result }
        ensures place { K.place out.new ≡ K.place out.old }
        ensures most { self.new.most ≡ self.old.most }
    {
        if let Err(refused) = self.deal(shots) {
            return Err(PutFault::Memory(refused));
        }
        let put = self.put_dealt(rt, out);
        self.rest();
        put
    }
}
