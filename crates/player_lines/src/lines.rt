//! Lines, as they come, and their answers.

ghost use Rattle.std.specs.Prelude.{◌≡◌, ◌≤◌, ℕ, List, [], ◌∷◌, ◌++◌, Option, None, false, OnOk, OnErr, length, vec_len, IfOk};
ghost use Rattle.player_lines.specs.Sessions.{AtOnce, Has, HasFailed, IsNew};
ghost use Rattle.player_lines.specs.inner.Pasts.{Answered};
ghost use Rattle.player_lines.specs.inner.Reading.{Keeps, IsLeft, LeftLast, Feeds, GoesOn, Ends, Fits, IsNext, ClientCause, has_begun_by};

use crate::answering::{Answerer, Stop, Unkept};
use crate::client::{Client, Failed};
use crate::session::Session;
use std::alloc::{AllocError, Global};
use std::thread::Threads;

// How many bytes are asked for at a time.
const PIECE: usize = 65536;

// The line that has begun, and how many came before it.
#[derive(Drop)]
struct Begun {
    line: Vec<u8>,
    // Why the line is not kept, if it is not.
    lost: Option<Unkept>,
    number: u64,
}

// A buffer for what comes.
fn blank(alloc: Global) -> Result<Vec<u8>, AllocError>
    ensures { IfOk result (λ buffer. vec_len buffer ≡ 65536) }
{
    vec![in alloc; 0u8; PIECE]
}

impl Begun {
    // Adds a byte to the line, as long as it is kept.
    fn add(&mut self, byte: u8, most: usize)
        requires { Fits most self.old.line.items self.old.lost }
        ensures kept { (line : List ℕ) → Keeps most self.old.line.items self.old.lost line → Keeps most self.new.line.items self.new.lost (line ++ byte ∷ []) }
        ensures fits { Fits most self.new.line.items self.new.lost }
        ensures number { self.new.number ≡ self.old.number }
    {
        if self.lost.is_some() {
            return;
        }
        if self.line.len() >= most {
            self.lost = Some(Unkept::TooLong);
        } else if self.line.push(byte).is_err() {
            self.lost = Some(Unkept::Memory);
        }
    }

    // Answers the line, which has come whole.
    fn give_answer<R: Threads + Sync, C: Client, A: Answerer>(
        &self,
        rt: &R,
        answerer: &A,
        session: &mut Session<C>,
    ) -> Result<(), Failed>
        requires whole { session.old.torn ≡ false }
        requires fits { Fits (A.most answerer.now) self.now.line.items self.now.lost }
        ensures answered { (line : List ℕ) → Keeps (A.most answerer.now) self.now.line.items self.now.lost line → Answered (A.answers answerer.now self.now.number line) (C.past session.old.client) (C.past session.new.client) result }
        ensures whole { OnOk result (session.new.torn ≡ false) }
        ensures grows { C.put_faults session.old.client ≤ C.put_faults session.new.client }
        ensures cause { OnErr result (HasFailed (C.put_faults session.old.client) (C.put_faults session.new.client) session.new.torn) }
    {
        match self.lost {
            None => answerer.answer(rt, session, self.number, &self.line),
            Some(why) => answerer.refuse(session, self.number, why),
        }
    }

    // Begins the next line.
    fn begin_next(&mut self) -> Result<(), Stop>
        ensures { IsNext self.old.number self.new.number self.new.line.items self.new.lost result }
    {
        let Some(next) = self.number.checked_add(1) else {
            return Err(Stop::Memory);
        };
        self.line.clear();
        self.lost = None;
        self.number = next;
        Ok(())
    }

    // Answers the line, which has come whole, and begins the next one.
    #[tactic(auto, using(crate::proofs::Cuts::line_next, crate::proofs::Cuts::line_torn, crate::proofs::Cuts::next_fits))]
    fn end_line<R: Threads + Sync, C: Client, A: Answerer>(
        &mut self,
        rt: &R,
        answerer: &A,
        session: &mut Session<C>,
    ) -> Result<(), Stop>
        requires whole { session.old.torn ≡ false }
        requires fits { Fits (A.most answerer.now) self.old.line.items self.old.lost }
        ensures feeds { (after : List ℕ) → Has (IsLeft (A.answers answerer.now) (A.most answerer.now) self.old.number self.old.line.items self.old.lost (10 ∷ after)) (C.past session.old.client) → Feeds (IsLeft (A.answers answerer.now) (A.most answerer.now) self.new.number self.new.line.items self.new.lost after) (A.answers answerer.now) (C.past session.new.client) result }
        ensures whole { OnOk result (session.new.torn ≡ false) }
        ensures fits { OnOk result (Fits (A.most answerer.now) self.new.line.items self.new.lost) }
        ensures grows { C.put_faults session.old.client ≤ C.put_faults session.new.client }
        ensures cause { ClientCause (C.put_faults session.old.client) (C.put_faults session.new.client) session.new.torn (C.has_failed session.new.client) result }
    {
        match self.give_answer(rt, answerer, session) {
            Ok(()) => self.begin_next(),
            Err(_) => Err(Stop::Write),
        }
    }

    // Looks at a byte that came.
    #[tactic(auto, using(crate::proofs::Cuts::byte_more, crate::proofs::Cuts::is_ten))]
    fn take_byte<R: Threads + Sync, C: Client, A: Answerer>(
        &mut self,
        rt: &R,
        answerer: &A,
        session: &mut Session<C>,
        most: usize,
        byte: u8,
    ) -> Result<(), Stop>
        requires most { most ≡ A.most answerer.now }
        requires whole { session.old.torn ≡ false }
        requires fits { Fits (A.most answerer.now) self.old.line.items self.old.lost }
        ensures feeds { (after : List ℕ) → Has (IsLeft (A.answers answerer.now) (A.most answerer.now) self.old.number self.old.line.items self.old.lost (byte ∷ after)) (C.past session.old.client) → Feeds (IsLeft (A.answers answerer.now) (A.most answerer.now) self.new.number self.new.line.items self.new.lost after) (A.answers answerer.now) (C.past session.new.client) result }
        ensures whole { OnOk result (session.new.torn ≡ false) }
        ensures fits { OnOk result (Fits (A.most answerer.now) self.new.line.items self.new.lost) }
        ensures grows { C.put_faults session.old.client ≤ C.put_faults session.new.client }
        ensures cause { ClientCause (C.put_faults session.old.client) (C.put_faults session.new.client) session.new.torn (C.has_failed session.new.client) result }
    {
        if byte == b'\n' {
            self.end_line(rt, answerer, session)
        } else {
            self.add(byte, most);
            Ok(())
        }
    }

    // Looks at bytes that came.
    #[tactic(auto, using(crate::proofs::Cuts::cause_later))]
    fn feed<R: Threads + Sync, C: Client, A: Answerer>(
        &mut self,
        rt: &R,
        answerer: &A,
        session: &mut Session<C>,
        bytes: &[u8],
    ) -> Result<(), Stop>
        requires whole { session.old.torn ≡ false }
        requires fits { Fits (A.most answerer.now) self.old.line.items self.old.lost }
        ensures feeds { Has (IsLeft (A.answers answerer.now) (A.most answerer.now) self.old.number self.old.line.items self.old.lost bytes.now) (C.past session.old.client) → Feeds (IsLeft (A.answers answerer.now) (A.most answerer.now) self.new.number self.new.line.items self.new.lost []) (A.answers answerer.now) (C.past session.new.client) result }
        ensures whole { OnOk result (session.new.torn ≡ false) }
        ensures fits { OnOk result (Fits (A.most answerer.now) self.new.line.items self.new.lost) }
        ensures grows { C.put_faults session.old.client ≤ C.put_faults session.new.client }
        ensures cause { ClientCause (C.put_faults session.old.client) (C.put_faults session.new.client) session.new.torn (C.has_failed session.new.client) result }
    {
        let most = answerer.most();
        let mut rest = bytes;
        while let Some((byte, after)) = rest.split_first() {
            if let Err(stop) = self.take_byte(rt, answerer, session, most, *byte) {
                return Err(stop);
            }
            rest = after;
        }
        Ok(())
    }

    // Reads what comes next, and answers its lines. Whether there was something.
    #[tactic(auto, using(crate::proofs::Cuts::read_more, crate::proofs::Cuts::read_none, crate::proofs::Cuts::read_failed, crate::proofs::Cuts::cause_later))]
    fn turn<R: Threads + Sync, C: Client, A: Answerer>(
        &mut self,
        rt: &R,
        answerer: &A,
        session: &mut Session<C>,
        buffer: &mut [u8],
    ) -> Result<bool, Stop>
        requires room { 1 ≤ length buffer.old }
        requires whole { session.old.torn ≡ false }
        requires fits { Fits (A.most answerer.now) self.old.line.items self.old.lost }
        ensures feeds { Has (IsLeft (A.answers answerer.now) (A.most answerer.now) self.old.number self.old.line.items self.old.lost []) (C.past session.old.client) → GoesOn (IsLeft (A.answers answerer.now) (A.most answerer.now) self.new.number self.new.line.items self.new.lost []) (A.answers answerer.now) (C.past session.new.client) result }
        ensures whole { OnOk result (session.new.torn ≡ false) }
        ensures fits { OnOk result (Fits (A.most answerer.now) self.new.line.items self.new.lost) }
        ensures grows { C.put_faults session.old.client ≤ C.put_faults session.new.client }
        ensures cause { ClientCause (C.put_faults session.old.client) (C.put_faults session.new.client) session.new.torn (C.has_failed session.new.client) result }
    {
        match session.read(buffer) {
            Ok(0) => Ok(false),
            Ok(count) => {
                self.feed(rt, answerer, session, &buffer[..count])?;
                Ok(true)
            }
            Err(_) => Err(Stop::Read),
        }
    }

    // Reads to the end of the input, and answers all lines that end by a newline.
    #[tactic(auto, using(crate::proofs::Cuts::left_stops, crate::proofs::Cuts::cause_later))]
    fn read_on<R: Threads + Sync, C: Client, A: Answerer>(
        &mut self,
        rt: &R,
        answerer: &A,
        session: &mut Session<C>,
        buffer: &mut [u8],
    ) -> Result<(), Stop>
        requires room { 1 ≤ length buffer.old }
        requires whole { session.old.torn ≡ false }
        requires fits { Fits (A.most answerer.now) self.old.line.items self.old.lost }
        ensures feeds { Has (IsLeft (A.answers answerer.now) (A.most answerer.now) self.old.number self.old.line.items self.old.lost []) (C.past session.old.client) → Feeds (LeftLast (IsLeft (A.answers answerer.now) (A.most answerer.now) self.new.number self.new.line.items self.new.lost [])) (A.answers answerer.now) (C.past session.new.client) result }
        ensures whole { OnOk result (session.new.torn ≡ false) }
        ensures fits { OnOk result (Fits (A.most answerer.now) self.new.line.items self.new.lost) }
        ensures grows { C.put_faults session.old.client ≤ C.put_faults session.new.client }
        ensures cause { ClientCause (C.put_faults session.old.client) (C.put_faults session.new.client) session.new.torn (C.has_failed session.new.client) result }
    {
        for _ in 0..u64::MAX {
            match self.turn(rt, answerer, session, buffer) {
                Ok(true) => {}
                Ok(false) => return Ok(()),
                Err(stop) => return Err(stop),
            }
        }
        Err(Stop::Memory)
    }

    // Whether a byte of the line has come.
    fn has_begun(&self) -> bool
        ensures { result ≡ has_begun_by self.now.line.items self.now.lost }
    {
        self.lost.is_some() || !self.line.is_empty()
    }

    // Answers a last line without its newline, if there is one.
    #[tactic(auto, using(crate::proofs::Cuts::none_left, crate::proofs::Cuts::last_ended, crate::proofs::Cuts::last_torn))]
    fn end<R: Threads + Sync, C: Client, A: Answerer>(
        &self,
        rt: &R,
        answerer: &A,
        session: &mut Session<C>,
    ) -> Result<(), Stop>
        requires whole { session.old.torn ≡ false }
        requires fits { Fits (A.most answerer.now) self.now.line.items self.now.lost }
        ensures ends { Has (LeftLast (IsLeft (A.answers answerer.now) (A.most answerer.now) self.now.number self.now.line.items self.now.lost [])) (C.past session.old.client) → Has (λ h. AtOnce (A.answers answerer.now) h × Ends (A.answers answerer.now) result h) (C.past session.new.client) }
        ensures grows { C.put_faults session.old.client ≤ C.put_faults session.new.client }
        ensures cause { ClientCause (C.put_faults session.old.client) (C.put_faults session.new.client) session.new.torn (C.has_failed session.new.client) result }
    {
        if !self.has_begun() {
            return Ok(());
        }
        match self.give_answer(rt, answerer, session) {
            Ok(()) => Ok(()),
            Err(_) => Err(Stop::Write),
        }
    }
}

/// Answers each line of the client as soon as it has come, to the end of its input; a last one without its newline
/// counts.
///
/// If nothing had passed before: whenever bytes were asked for, all lines that had come were answered. At the end
/// the client has no more bytes, and all lines are answered, each by an answer that this line may have, whatever the
/// other lines are. If the client
/// could not be read, the lines that had come whole are; if it took no more, what went is a prefix of the answers.
#[tactic(auto, using(crate::proofs::Cuts::at_first, crate::proofs::Cuts::ends_once, crate::proofs::Cuts::stops_once, crate::proofs::Cuts::cause_later))]
pub fn serve<R: Threads + Sync, C: Client, A: Answerer>(
    rt: &R,
    alloc: Global,
    answerer: &A,
    session: &mut Session<C>,
) -> Result<(), Stop>
    requires { session.old.torn ≡ false }
    ensures at_once { IsNew (C.past session.old.client) → Has (AtOnce (A.answers answerer.now)) (C.past session.new.client) }
    ensures ends { IsNew (C.past session.old.client) → Has (Ends (A.answers answerer.now) result) (C.past session.new.client) }
    ensures grows { C.put_faults session.old.client ≤ C.put_faults session.new.client }
    ensures cause { ClientCause (C.put_faults session.old.client) (C.put_faults session.new.client) session.new.torn (C.has_failed session.new.client) result }
{
    let Ok(mut buffer) = blank(alloc) else {
        return Err(Stop::Memory);
    };
    let mut begun = Begun {
        line: Vec::new(alloc),
        lost: None,
        number: 0,
    };
    match begun.read_on(rt, answerer, session, &mut buffer) {
        Ok(()) => begun.end(rt, answerer, session),
        Err(stop) => Err(stop),
    }
}
