//! Painters side by side, each with a run of pieces.
//!
//! # What
//!
//! A [`Hand`] is a painter with the pieces that it is to paint, and what it made of them. [`put_hands`] lets a row of
//! hands work and puts what they made: the sink gained the bytes of all pieces, in the order of the hands; if it failed
//! or memory was refused, a prefix of them. The caller deals the pieces: to each hand a run of consecutive ones, since
//! a painter that has painted the scene before paints only what changed.
//!
//! # How
//!
//! ```text
//!    first hand    paint, put, paint, put ..      -----+
//!    second hand   paint all its pieces, keep     --+  |  join
//!    third hand    paint all its pieces, keep     --+--+--->  put the second's, put the third's ..
//! ```
//!
//! The first hand puts each piece as soon as it is painted, the pixels from where they were painted: nothing is copied,
//! and the sink is busy while the others paint. Each other hand makes one row of bytes, lines and images in turn. Of
//! its last image only the head goes into that row (`waits`): the pixels stay its painter's, and are put from there.
//!
//! Hands work by halves (`join_mut`), each half in a thread of its own if one can be started, else one after the other.
//! The first hand is the second closure of its join, which runs on the calling thread, so a sink need not go to another
//! thread. When all have painted, the rows are put in order.
//!
//! A scene is painted in at most `parts` parts, each in a thread of its own: the caller asks for more than one if there
//! are fewer hands than painters, so that they share a large image.
//!
//! # Cost
//!
//! An image of the first hand is written once, by its painter. Those of the other hands are copied once more, but for
//! the last of each. The bytes of a hand keep their memory for the next run: a thread that hands memory back to the
//! system has every page of it fetched anew. Of n hands n - 1 are given a thread.
//!
//! # Limits
//!
//! What the other hands keep waits in memory until the first one is done: the caller bounds it, by the pieces that it
//! deals. A slow sink holds up the first hand, and then all that is put after it. After a refused put the other hands
//! still paint to their end; what they made is dropped. If one of them finds no memory, nothing of any of them is put.
//! No clause speaks of threads or of time: that anything happens side by side is not claimed.

ghost use Rattle.std.specs.Prelude.{◌≡◌, ◌≤◌, ◌++◌, ◌<◌, ℕ, List, [], Option, Some, length, OnOk};
ghost use Rattle.std.specs.Io.KnownBytes.{Appends};
ghost use Rattle.std.specs.Thread.{IsSync};
ghost use Rattle.thread_pieces.specs.Scenes.{image_if};
ghost use Rattle.thread_pieces.specs.Shots.{all_due, all_made, due_of, made_of, shown};
ghost use Rattle.byte_io.specs.Pieces.{PutsAll, WriteCause};
ghost use Rattle.thread_pieces.specs.Puts.{PutsBytes};

use crate::scene_painter::ScenePainter;
use crate::shot::Shot;
use byte_io::{PutFault, Sink};
use std::alloc::{AllocError, Global};
use std::marker::Sync;
use std::mem;
use std::thread::{Threads, join_mut};
use viz_scene::Scene;

/// A painter with a run of pieces that it is to paint, and what it made of them.
#[derive(Drop)]
pub struct Hand<P> {
    pub(crate) alloc: Global,
    pub(crate) painter: P,
    pub(crate) due: Vec<Shot>,
    /// The bytes of the pieces that it painted last; the memory is taken again for the next ones.
    pub(crate) made: Vec<u8>,
    /// Whether the rows of the painter's image go after these bytes; so they need not be copied.
    pub(crate) waits: bool,
}

impl<P: ScenePainter> Hand<P> {
    // Lets what it made go.
    fn clear(&mut self)
        ensures made { made_of P.rows self.new ≡ [] }
        ensures due { self.new.due ≡ self.old.due }
    {
        self.made.clear();
        self.waits = false;
    }

    // Copies the rows that are the painter's still, as the painter is to paint another image.
    fn copy_rows(&mut self) -> Result<(), AllocError>
        ensures { OnOk result (self.new.made.items ≡ made_of P.rows self.old) }
    {
        if self.waits {
            self.made.extend_from_slice(self.painter.pixels())?;
        }
        Ok(())
    }

    // Paints a scene, and adds the head of its image; the rows wait.
    fn push_scene<R: Threads + Sync>(
        &mut self,
        rt: &R,
        scene: Scene,
        parts: usize,
    ) -> Result<(), AllocError>
        ensures { OnOk result (made_of P.rows self.new ≡ self.old.made.items ++ image_if (Some scene)) }
    {
        self.painter.paint_scene(rt, scene, parts)?;
        self.painter.push_head(&mut self.made)?;
        self.waits = true;
        Ok(())
    }

    // Adds the image of a scene, if there is one.
    fn push_image<R: Threads + Sync>(
        &mut self,
        rt: &R,
        scene: Option<Scene>,
        parts: usize,
    ) -> Result<(), AllocError>
        ensures { OnOk result (made_of P.rows self.new ≡ self.old.made.items ++ image_if scene) }
    {
        match scene {
            Some(scene) => self.push_scene(rt, scene, parts),
            None => {
                self.waits = false;
                Ok(())
            }
        }
    }

    // Paints one piece.
    fn paint<R: Threads + Sync>(
        &mut self,
        rt: &R,
        shot: Shot,
        parts: usize,
    ) -> Result<(), AllocError>
        ensures { OnOk result (made_of P.rows self.new ≡ made_of P.rows self.old ++ shown shot) }
    {
        self.copy_rows()?;
        let Shot { lines, scene, .. } = shot;
        self.made.extend_from_slice(&lines)?;
        self.push_image(rt, scene, parts)
    }

    // Paints the pieces of this hand, each scene in at most the given number of parts.
    #[tactic(auto, using(crate::proofs::Parts::one_more))]
    fn work<R: Threads + Sync>(&mut self, rt: &R, parts: usize) -> Result<(), AllocError>
        ensures { OnOk result (made_of P.rows self.new ≡ due_of self.old) }
    {
        let none = Vec::new(self.alloc);
        let due = mem::replace(&mut self.due, none);
        self.clear();
        for shot in due {
            self.paint(rt, shot, parts)?;
        }
        Ok(())
    }

    // Puts what it made.
    #[tactic(auto, using(byte_io::proofs::Puts::piece_stops, byte_io::proofs::Puts::puts_piece, byte_io::proofs::Puts::piece_cause, crate::proofs::Gains::gains_longer, crate::proofs::Gains::puts_both))]
    fn put<K: Sink>(&self, out: &mut K) -> Result<(), PutFault>
        ensures { PutsBytes K.Sink out.old out.new (made_of P.rows self.now) result }
    {
        if !self.waits {
            return out.put(self.made.as_slice());
        }
        if let Err(fault) = out.put(self.made.as_slice()) {
            return Err(fault);
        }
        out.put(self.painter.pixels())
    }

    // Paints one piece, and puts it.
    fn put_one<R: Threads + Sync, K: Sink>(
        &mut self,
        rt: &R,
        shot: Shot,
        parts: usize,
        out: &mut K,
    ) -> Result<(), PutFault>
        ensures { PutsBytes K.Sink out.old out.new (shown shot) result }
    {
        self.clear();
        match self.paint(rt, shot, parts) {
            Ok(()) => self.put(out),
            Err(refused) => Err(PutFault::Memory(refused)),
        }
    }

    // Paints the pieces of this hand and puts each at once, so that no rows are copied.
    fn put_due<R: Threads + Sync, K: Sink>(
        &mut self,
        rt: &R,
        parts: usize,
        out: &mut K,
    ) -> Result<(), PutFault>
        ensures { PutsBytes K.Sink out.old out.new (due_of self.old) result }
    {
        let none = Vec::new(self.alloc);
        let mut queue = mem::replace(&mut self.due, none).into_iter();
        while let Some(shot) = queue.next() {
            if let Err(fault) = self.put_one(rt, shot, parts, out) {
                return Err(fault);
            }
        }
        Ok(())
    }
}

// A row of one hand or none works.
fn work_few<R: Threads + Sync, P: ScenePainter>(
    rt: &R,
    hands: &mut [Hand<P>],
    parts: usize,
) -> Result<(), AllocError>
    requires { length hands.old < 2 }
    ensures { OnOk result (all_made P.rows hands.new ≡ all_due hands.old) }
{
    match hands {
        [] => Ok(()),
        [hand, ..] => hand.work(rt, parts),
    }
}

// All hands work, side by side.
#[cycle(halves)]
fn work_all<R: Threads + Sync, P: ScenePainter>(
    rt: &R,
    hands: &mut [Hand<P>],
    parts: usize,
) -> Result<(), AllocError>
    requires { IsSync R.row }
    ensures { OnOk result (all_made P.rows hands.new ≡ all_due hands.old) }
{
    if hands.len() < 2 {
        return work_few(rt, hands, parts);
    }
    let (here, there) = hands.split_at_mut(hands.len() / 2);
    work_halves(rt, here, there, parts)
}

// Two rows of hands work, side by side.
#[cycle(halves)]
fn work_halves<R: Threads + Sync, P: ScenePainter>(
    rt: &R,
    here: &mut [Hand<P>],
    there: &mut [Hand<P>],
    parts: usize,
) -> Result<(), AllocError>
    requires sync { IsSync R.row }
    requires some { (1 ≤ length here.old) × (1 ≤ length there.old) }
    ensures { OnOk result ((all_made P.rows here.new ≡ all_due here.old) × (all_made P.rows there.new ≡ all_due there.old)) }
{
    let mut front = || -> Result<(), AllocError>
        requires { IsSync R.row }
        ensures { OnOk result (all_made P.rows here.exit.now ≡ all_due here.entry.now) }
    { work_all(rt, here, parts) };
    let mut back = || -> Result<(), AllocError>
        requires { IsSync R.row }
        ensures { OnOk result (all_made P.rows there.exit.now ≡ all_due there.entry.now) }
    { work_all(rt, there, parts) };
    let (first, second) = join_mut(rt, &mut front, &mut back);
    first?;
    second
}

// Puts what the hands made, in order.
fn put_each<K: Sink, P: ScenePainter>(hands: &[Hand<P>], out: &mut K) -> Result<(), PutFault>
    ensures { PutsBytes K.Sink out.old out.new (all_made P.rows hands.now) result }
{
    for hand in hands {
        if let Err(fault) = hand.put(out) {
            return Err(fault);
        }
    }
    Ok(())
}

// Puts what the hands made after some bytes were put, unless one of them found no memory.
#[tactic(auto, using(crate::proofs::Gains::gains_only, crate::proofs::Gains::puts_both))]
fn put_worked<K: Sink, P: ScenePainter>(
    worked: Result<(), AllocError>,
    hands: &[Hand<P>],
    out: &mut K,
) -> Result<(), PutFault>
    ensures bytes { (start : Option (List ℕ)) (before due : List ℕ) → Appends start (K.held out.old) before → OnOk worked (all_made P.rows hands.now ≡ due) → PutsAll start (K.held out.new) (before ++ due) result }
    ensures grows { K.faults out.old ≤ K.faults out.new }
    ensures refusals { K.refusals out.old ≤ K.refusals out.new }
    ensures cause { WriteCause (K.faults out.old) (K.faults out.new) result }
    ensures place { K.place out.new ≡ K.place out.old }
{
    match worked {
        Ok(()) => put_each(hands, out),
        Err(refused) => Err(PutFault::Memory(refused)),
    }
}

// The same after some bytes were to be put, unless a part of them was refused.
#[tactic(auto, using(crate::proofs::Gains::gains_longer, crate::proofs::Gains::blames_from))]
fn put_others<K: Sink, P: ScenePainter>(
    put: Result<(), PutFault>,
    worked: Result<(), AllocError>,
    hands: &[Hand<P>],
    out: &mut K,
) -> Result<(), PutFault>
    ensures bytes { (start : Option (List ℕ)) (before due : List ℕ) → PutsAll start (K.held out.old) before put → OnOk worked (all_made P.rows hands.now ≡ due) → PutsAll start (K.held out.new) (before ++ due) result }
    ensures grows { K.faults out.old ≤ K.faults out.new }
    ensures refusals { K.refusals out.old ≤ K.refusals out.new }
    ensures cause { (count : ℕ) → count ≤ K.faults out.old → WriteCause count (K.faults out.old) put → WriteCause count (K.faults out.new) result }
    ensures place { K.place out.new ≡ K.place out.old }
{
    match put {
        Ok(()) => put_worked(worked, hands, out),
        Err(fault) => Err(fault),
    }
}

// The first hand paints and puts its pieces, while the others paint theirs.
fn work_beside<R: Threads + Sync, K: Sink, P: ScenePainter>(
    rt: &R,
    first: &mut Hand<P>,
    others: &mut [Hand<P>],
    parts: usize,
    out: &mut K,
) -> (Result<(), AllocError>, Result<(), PutFault>)
    requires { IsSync R.row }
    ensures worked { OnOk result.0 (all_made P.rows others.new ≡ all_due others.old) }
    ensures put { PutsBytes K.Sink out.old out.new (due_of first.old) result.1 }
{
    join_mut(
        rt,
        &mut || -> Result<(), AllocError>
            requires { IsSync R.row }
            ensures { OnOk result (all_made P.rows others.exit.now ≡ all_due others.entry.now) }
        { work_all(rt, others, parts) },
        &mut || first.put_due(rt, parts, out),
    )
}

// The first hand paints and puts its pieces, while the others paint theirs, which are put after them.
fn put_beside<R: Threads + Sync, K: Sink, P: ScenePainter>(
    rt: &R,
    first: &mut Hand<P>,
    others: &mut [Hand<P>],
    parts: usize,
    out: &mut K,
) -> Result<(), PutFault>
    requires { IsSync R.row }
    ensures { PutsBytes K.Sink out.old out.new (due_of first.old ++ all_due others.old) result }
{
    let (worked, put) = work_beside(rt, first, others, parts, out);
    put_others(put, worked, others, out)
}

/// The hands paint their pieces side by side, each in a thread of its own if it can be started, and each scene
/// in at most the given number of parts. The first hand puts each of its pieces at once, and then those of the others are
/// put in order.
#[tactic(auto, using(crate::proofs::Gains::appends_nothing))]
pub(crate) fn put_hands<R: Threads + Sync, K: Sink, P: ScenePainter>(
    rt: &R,
    hands: &mut [Hand<P>],
    parts: usize,
    out: &mut K,
) -> Result<(), PutFault>
    ensures { PutsBytes K.Sink out.old out.new (all_due hands.old) result }
{
    match hands {
        [] => Ok(()),
        [hand] => hand.put_due(rt, parts, out),
        [first, others @ ..] => put_beside(rt, first, others, parts, out),
    }
}
