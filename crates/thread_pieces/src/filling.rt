//! Putting bytes and scenes into a ring, without waiting.
ghost use Rattle.std.specs.Prelude.{Some, [], ◌≡◌, ◌≤◌, ◌<◌, ◌++◌, IsFalse, IsTrue, OnOk, OnErr};
ghost use Rattle.rtrb.specs.Ring.{known_free, sent};
ghost use Rattle.byte_io.specs.Counts.{Rose};
ghost use Rattle.byte_io.specs.Pieces.{NotFailed, PutAppends, PutCause};
ghost use Rattle.byte_io.specs.declared.writing.PutFault.TheVariants.{Memory};
ghost use Rattle.thread_pieces.specs.Scenes.{scene_image};
ghost use Rattle.thread_pieces.specs.Shots.{shown};
ghost use Rattle.thread_pieces.specs.Ring.{HasMovedAll, HasMovedKept, OnlyMoves, SameSink, ring_filled, whole};

use crate::ends::{Label, RingSink};
use crate::limits::GATHERED_LINES;
use crate::{SceneSink, Shot};
use byte_io::{PutFault, Sink};
use std::alloc::AllocError;
use std::mem;
use std::sync::Wait;
use viz_scene::Scene;

impl RingSink {
    /// Moves kept pieces into the ring, oldest first, as far as there is a place, and rings for each.
    fn move_on(&mut self)
        ensures moves { OnlyMoves self.old self.new }
        ensures lines { self.new.lines ≡ self.old.lines }
        ensures moved { HasMovedKept self.new }
    {
        while !self.producer.is_full() {
            let Some(piece) = self.kept.pop_front() else {
                return;
            };
            self.producer.push_reserved(piece);
            self.shared.ring();
        }
    }

    // Takes the lines that were gathered.
    fn take_lines(&mut self) -> Vec<u8>
        ensures ring { SameSink self.old self.new }
        ensures bytes { whole self.new ++ result.items ≡ whole self.old }
        ensures lines { self.new.lines.items ≡ [] }
        ensures ends { (self.new.producer ≡ self.old.producer) × (self.new.kept ≡ self.old.kept) }
        ensures refused { self.new.refused ≡ self.old.refused }
    {
        let none = Vec::new(self.alloc);
        mem::replace(&mut self.lines, none)
    }

    // Pushes a piece into the ring, which has a place for it.
    fn push(&mut self, piece: Shot)
        requires place { 0 < known_free self.old.producer }
        requires lines { self.old.lines.items ≡ [] }
        requires kept { self.old.kept.items ≡ [] }
        ensures ring { SameSink self.old self.new }
        ensures bytes { whole self.new ≡ whole self.old ++ shown piece }
        ensures left { (self.new.kept ≡ self.old.kept) × (self.new.lines ≡ self.old.lines) }
        ensures refused { self.new.refused ≡ self.old.refused }
    {
        self.shared.add(piece.bytes());
        self.producer.push_reserved(piece);
        self.shared.ring();
    }

    // Whether nothing is kept and the ring has a place.
    fn has_place(&mut self) -> bool
        ensures ring { SameSink self.old self.new }
        ensures same { (sent self.new.producer ≡ sent self.old.producer) × (self.new.kept ≡ self.old.kept) × (self.new.lines ≡ self.old.lines) }
        ensures yes { IsTrue result → (self.new.kept.items ≡ []) × (0 < known_free self.new.producer) }
        ensures no { IsFalse result → HasMovedKept self.old → known_free self.new.producer ≡ 0 }
        ensures refused { self.new.refused ≡ self.old.refused }
    {
        self.kept.is_empty() && !self.producer.is_full()
    }

    // Moves the lines that were gathered into the ring as a piece, if nothing is kept and there is a place.
    fn move_lines(&mut self)
        ensures moves { OnlyMoves self.old self.new }
        ensures moved { HasMovedKept self.old → HasMovedAll self.new }
    {
        if self.lines.is_empty() || !self.has_place() {
            return;
        }
        let lines = self.take_lines();
        self.push(Shot::new(lines, None));
    }

    // Moves all on, as far as there is a place.
    fn move_all(&mut self)
        ensures moves { OnlyMoves self.old self.new }
        ensures moved { HasMovedAll self.new }
    {
        self.move_on();
        self.move_lines();
    }

    /// A put is refused for lack of memory.
    fn refuse(&mut self, error: AllocError) -> PutFault
        ensures ring { SameSink self.old self.new }
        ensures bytes { whole self.new ≡ whole self.old }
        ensures fault { result ≡ Memory error }
        ensures refused { self.old.refused ≤ self.new.refused }
        ensures cause { Rose self.old.refused self.new.refused }
    {
        self.refused = self.refused.saturating_add(1);
        PutFault::Memory(error)
    }

    // Takes in a piece: into the ring, or after the kept ones. If memory is refused, its lines stay.
    fn take_in(&mut self, piece: Shot) -> Result<(), PutFault>
        requires { self.old.lines.items ≡ [] }
        ensures ring { SameSink self.old self.new }
        ensures ok { OnOk result (whole self.new ≡ whole self.old ++ shown piece) }
        ensures err { OnErr result (whole self.new ≡ whole self.old ++ piece.lines.items) }
        ensures refused { self.old.refused ≤ self.new.refused }
        ensures cause { PutCause 0 0 self.old.refused self.new.refused result }
        ensures answers { NotFailed result }
    {
        let bytes = piece.bytes();
        if self.kept.is_empty() && !self.producer.is_full() {
            self.push(piece);
            return Ok(());
        }
        match self.kept.push_back(piece) {
            Ok(()) => {
                self.shared.add(bytes);
                Ok(())
            }
            Err(refused) => {
                self.lines = refused.value.lines;
                Err(self.refuse(AllocError))
            }
        }
    }

    // Whether at most this many bytes wait to be written, and at most this many pieces are kept.
    fn has_few(&self, bytes: u64, pieces: usize) -> bool {
        let waiting = self
            .shared
            .waiting()
            .saturating_add(self.lines.len() as u64);
        waiting <= bytes && self.kept.len() <= pieces
    }

    // Moves kept pieces on, and waits while more bytes wait or more pieces are kept than may, and somebody takes them.
    // Lines are moved on only if it waits.
    fn wait_until<R: Wait>(&mut self, rt: &R, bytes: u64, pieces: usize)
        ensures moves { OnlyMoves self.old self.new }
        ensures moved { HasMovedKept self.new }
    {
        for _ in rt.forever() {
            // Read before the look: what is written later rings again.
            let written = self.shared.written();
            self.move_on();
            if self.has_few(bytes, pieces) || !self.shared.is_serving() {
                return;
            }
            self.move_lines();
            self.shared.wait_for_space(rt, written);
        }
        unreachable!()
    }

    /// Moves kept pieces into the ring as far as there is a place, and waits until it keeps none, if a presenter is
    /// serving. What was put stays the same.
    pub fn drain<R: Wait>(&mut self, rt: &R)
        ensures ring { SameSink self.old self.new }
        ensures bytes { whole self.new ≡ whole self.old }
        ensures moved { HasMovedKept self.new }
        ensures refused { self.new.refused ≡ self.old.refused }
    {
        self.wait_until(rt, u64::MAX, 0);
    }

    /// Moves what was put into the ring as far as there is a place, keeps the rest, and then raises
    /// the end mark. What was put stays the same. It never waits and takes no memory.
    ///
    /// A second call changes nothing, and what is put later is still found by
    /// [`finish`](crate::finish).
    pub fn end(&mut self)
        ensures ring { SameSink self.old self.new }
        ensures bytes { whole self.new ≡ whole self.old }
        ensures moved { HasMovedAll self.new }
        ensures refused { self.new.refused ≡ self.old.refused }
    {
        self.move_all();
        self.shared.close();
    }
}

impl Sink for RingSink {
    type Place = Label;

    ghost held = { λ s. Some (whole s) };

    ghost faults = { λ _. 0 };

    ghost refusals = { λ s. s.refused };

    ghost place = { ring_filled };

    /// Never waits and never answers `Failed`. The bytes are gathered; if they are many, they become a piece. Once the
    /// presenter was refused a put, nothing will take them: they are refused as if there were no memory for them, so
    /// that the one who puts can stop. Why the presenter was refused is what `serve` answers.
    fn put(&mut self, piece: &[u8]) -> Result<(), PutFault>
        ensures bytes { PutAppends (Some (whole self.old)) (Some (whole self.new)) piece.now result }
        ensures grows { 0 ≤ 0 }
        ensures refused { self.old.refused ≤ self.new.refused }
        ensures cause { PutCause 0 0 self.old.refused self.new.refused result }
        ensures place { SameSink self.old self.new }
        ensures answers { NotFailed result }
    {
        if self.shared.is_refused() {
            return Err(self.refuse(AllocError));
        }
        match self.lines.extend_from_slice(piece) {
            Ok(()) => {
                if self.lines.len() >= GATHERED_LINES {
                    self.move_all();
                }
                Ok(())
            }
            Err(error) => Err(self.refuse(error)),
        }
    }
}

impl SceneSink for RingSink {
    /// Never waits and never answers `Failed`. The scene becomes a piece with the bytes that were gathered; if the
    /// ring has no place for it, it is kept, and goes before any later piece.
    fn put_scene(&mut self, scene: Scene) -> Result<(), PutFault>
        ensures bytes { PutAppends (Some (whole self.old)) (Some (whole self.new)) (scene_image scene) result }
        ensures grows { 0 ≤ 0 }
        ensures refused { self.old.refused ≤ self.new.refused }
        ensures cause { PutCause 0 0 self.old.refused self.new.refused result }
        ensures place { SameSink self.old self.new }
        ensures answers { NotFailed result }
    {
        self.move_on();
        let lines = self.take_lines();
        self.take_in(Shot::new(lines, Some(scene)))
    }

    /// Moves what was gathered and kept into the ring as far as there is a place.
    fn pass_on(&mut self)
        ensures bytes { Some (whole self.new) ≡ Some (whole self.old) }
        ensures place { SameSink self.old self.new }
        ensures moved { HasMovedAll self.new }
    {
        self.move_all();
    }

    /// Moves kept pieces into the ring as far as there is a place, and waits while more bytes wait to be written than
    /// may, and a presenter is serving.
    fn wait_for_space<R: Wait>(&mut self, rt: &R)
        ensures bytes { Some (whole self.new) ≡ Some (whole self.old) }
        ensures place { SameSink self.old self.new }
        ensures moved { HasMovedKept self.new }
    {
        let most = self.most_waiting;
        self.wait_until(rt, most, usize::MAX);
    }
}
