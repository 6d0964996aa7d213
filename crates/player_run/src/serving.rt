//! A session of scripts: each line is a whole script, and is answered before more is read.

ghost use Rattle.std.specs.Prelude.{◌≡◌, ◌≤◌, ℕ, List, false, OnOk, OnErr, length};
ghost use Rattle.model_history.specs.Accepted.{IsAccepted};
ghost use Rattle.script_json.specs.Causes.{IsScriptText};
ghost use Rattle.player_lines.specs.Sessions.{HasFailed};
ghost use Rattle.player_lines.specs.inner.Pasts.{Answered};
ghost use Rattle.player_uses.specs.Refusals.{script_limit};
ghost use Rattle.player_uses.specs.Answers.{AnswersSession};
ghost use Rattle.player_run.specs.Served.{IsLineAnswer, Serves, ServeCause};

use crate::line_player::LinePlayer;
use crate::step::play_lockstep;
use model_history::Script;
use player_lines::{Answerer, Client, Failed, Session, Stop, Unkept};
use player_uses::{Outcome, SCRIPT_LIMIT, put_verdict, script_in};
use std::alloc::Global;
use std::sync::Arc;
use std::thread::Threads;

impl LinePlayer {
    // Plays the script of the line of a number, and answers with its recording.
    #[tactic(auto, using(player_uses::proofs::Answered::fault_rose))]
    fn play_line<R: Threads + Sync, C: Client>(
        &self,
        rt: &R,
        session: &mut Session<C>,
        number: u64,
        script: Arc<Script>,
    ) -> Result<(), Failed>
        requires { session.old.torn ≡ false }
        ensures answered { (line : List ℕ) → length line ≤ script_limit → IsScriptText line script.value → IsAccepted script.value → Answered (IsLineAnswer self.now.workers number line) (C.past session.old.client) (C.past session.new.client) result }
        ensures whole { OnOk result (session.new.torn ≡ false) }
        ensures grows { C.put_faults session.old.client ≤ C.put_faults session.new.client }
        ensures cause { OnErr result (HasFailed (C.put_faults session.old.client) (C.put_faults session.new.client) session.new.torn) }
    {
        let outcome = play_lockstep(rt, self.alloc, script, self.workers, session);
        if session.is_torn() {
            return Err(Failed);
        }
        if outcome.is_write_fault() {
            return Err(Failed);
        }
        put_verdict(session, number, outcome)
    }
}

impl Answerer for LinePlayer {
    ghost answers = { λ s. IsLineAnswer s.workers };

    ghost most = { λ _. script_limit };

    fn most(&self) -> usize {
        SCRIPT_LIMIT
    }

    fn answer<R: Threads + Sync, C: Client>(
        &self,
        rt: &R,
        session: &mut Session<C>,
        number: u64,
        line: &[u8],
    ) -> Result<(), Failed> {
        match script_in(self.alloc, line) {
            Ok(script) => self.play_line(rt, session, number, script),
            Err(outcome) => put_verdict(session, number, outcome),
        }
    }

    fn refuse<C: Client>(
        &self,
        session: &mut Session<C>,
        number: u64,
        why: Unkept,
    ) -> Result<(), Failed> {
        match why {
            Unkept::TooLong => put_verdict(session, number, Outcome::TooLong { limit: 16777216 }),
            Unkept::Memory => put_verdict(session, number, Outcome::Memory),
        }
    }
}

/// Serves a client: each line that comes is a whole script, is played as `step N` plays its source, with the given
/// number of raster workers, and is answered before more is read. Lines are counted from 0; a last one without its
/// newline counts, and one of more than 16,777,216 bytes is skipped to its end.
///
/// An answer is the recording, or what was written of it, in pieces, each after a line `data B` with the number of
/// its bytes; then a line `ok K` for line K, or `no K S: ` with the status of `step N` and its line for the notes.
/// One answer never depends on another line. `Done` comes at the end of the input.
pub fn serve<R: Threads + Sync, C: Client>(
    rt: &R,
    alloc: Global,
    workers: u32,
    session: &mut Session<C>,
) -> Outcome
    requires { (1 ≤ workers) × (workers ≤ 16) }
    ensures serves { Serves workers (C.past session.old.client) (C.past session.new.client) result }
    ensures answers { AnswersSession result }
    ensures grows { C.put_faults session.old.client ≤ C.put_faults session.new.client }
    ensures cause { ServeCause (C.has_failed session.new.client) (C.put_faults session.old.client) (C.put_faults session.new.client) session.new.torn result }
{
    if session.is_torn() {
        return Outcome::WriteFault;
    }
    let player = LinePlayer { alloc, workers };
    match player_lines::serve(rt, alloc, &player, session) {
        Ok(()) => Outcome::Done,
        Err(Stop::Read) => Outcome::ReadFault,
        Err(Stop::Write) => Outcome::WriteFault,
        Err(Stop::Memory) => Outcome::Memory,
    }
}
