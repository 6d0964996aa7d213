//! The words, the input and the output of one run.

ghost use Rattle.std.specs.Prelude.{◌≡◌, true, Ok, is_none, IfNone, IfSome, map, string_bytes};
ghost use Rattle.player_uses.specs.Words.{IsFew, asks_play, is_play, use_of as use_in};
ghost use Rattle.player_run.specs.Ran.{Did, Passes, Ran};

use crate::demo::run_demo;
use crate::filmed::run_film;
use crate::play::run_play;
use crate::serving::serve;
use crate::shot::run_shot;
use crate::step::run_step;
use crate::streams::Streams;
use byte_io::{Gate, Sink, Source};
use player_lines::{Client, Session};
use player_uses::{Outcome, Use, players, run_check, run_frames, run_gen, tell, use_of};
use std::alloc::Global;
use std::marker::Send;
use std::sync::Wait;
use std::thread::Threads;

// Does a use, but for the line to the notes. None if it is `play N`; then nothing was read and nothing written.
fn run_use<R: Threads + Sync, S: Source, K: Sink, C: Client>(
    rt: &R,
    alloc: Global,
    wanted: Use,
    source: &mut S,
    out: &mut K,
    session: &mut Session<C>,
) -> Option<Outcome>
    requires { IsFew wanted }
    ensures did { IfSome result (Did S.Source K.Sink (Ok wanted) source.old source.new out.old out.new) }
    ensures serves { IfSome result (Passes C.Client (Ok wanted) session.old session.new) }
    ensures none { is_none result ≡ is_play wanted }
    ensures idle { IfNone result ((source.new ≡ source.old) × (out.new ≡ out.old) × (session.new ≡ session.old)) }
{
    match wanted {
        Use::Step { workers } => Some(run_step(rt, alloc, workers, source, out)),
        Use::Play { .. } => None,
        Use::Gen { number } => Some(run_gen(alloc, number, out)),
        Use::Demo { number } => Some(run_demo(rt, alloc, number, out)),
        Use::Film { workers } => Some(run_film(rt, alloc, workers, source, out)),
        Use::Shot { workers } => Some(run_shot(rt, alloc, workers, source, out)),
        Use::Frames => Some(run_frames(alloc, source, out)),
        Use::Check => Some(run_check(alloc, source)),
        Use::Serve { workers } => Some(serve(rt, alloc, workers, session)),
    }
}

/// Runs the program for all words but `play N`, with all that [`run`] promises. It may start threads, but is given
/// nothing by which it could wait without end: it returns if the source, the sinks, the client and the threads that it
/// starts do.
///
/// None if the words are `play N`; then nothing was read and nothing was written, to the notes and the client neither.
pub fn run_alone<R: Threads + Sync, S: Source, K: Sink, E: Sink, C: Client>(
    rt: &R,
    alloc: Global,
    words: &[String],
    streams: &mut Streams<S, K, E, C>,
) -> Option<Outcome>
    ensures none { is_none result ≡ asks_play (use_in (map string_bytes words.now)) }
    ensures idle { IfNone result (streams.new ≡ streams.old) }
    ensures ran { IfSome result (Ran S.Source K.Sink E.Sink C.Client (use_in (map string_bytes words.now)) streams.old streams.new) }
{
    match use_of(words) {
        Err(word) => {
            let outcome = Outcome::Usage { word };
            tell(&mut streams.notes, outcome);
            Some(outcome)
        }
        Ok(wanted) => match run_use(
            rt,
            alloc,
            wanted,
            &mut streams.source,
            &mut streams.out,
            &mut streams.session,
        ) {
            Some(outcome) => {
                tell(&mut streams.notes, outcome);
                Some(outcome)
            }
            None => None,
        },
    }
}

/// Runs the program for `play N`, with all that [`run`] promises: by actors on threads, so it may wait.
pub fn run_played<
    R: Threads + Wait + Sync,
    S: Source,
    K: Sink + Send,
    E: Sink,
    C: Client,
    G: Gate + Sync,
>(rt: &R, alloc: Global, words: &[String], streams: &mut Streams<S, K, E, C>, gate: &G) -> Outcome
    requires { asks_play (use_in (map string_bytes words.now)) ≡ true }
    ensures { Ran S.Source K.Sink E.Sink C.Client (use_in (map string_bytes words.now)) streams.old streams.new result }
{
    let Some(workers) = players(words) else {
        unreachable!()
    };
    let outcome = run_play(
        rt,
        alloc,
        workers,
        &mut streams.source,
        &mut streams.out,
        gate,
    );
    tell(&mut streams.notes, outcome);
    outcome
}

/// Runs the program: does what the words ask with the bytes of the source, writes to the sink `out`, and tells
/// the notes how it ended.
///
/// The words are those after the program's name. `step N`, where N is 1 to 16, reads a script, plays it in
/// lockstep with N raster workers and writes its recording, which is the same for every N. `play N` plays it
/// by actors on threads of their own, N raster workers among them, and writes its recording; if a thread
/// cannot be started, it does as `step N`. `film N` plays a script as `step N` does and writes the images of its
/// recording alone, one after another. `shot N` does so too and writes the picture of its last draw as a PNG file;
/// a script without inputs is played with an await of its last main frame, a settle and a draw. `serve N` answers each
/// line of the session's client, a whole script, as [`serve`] says, and reads and writes nothing else. `frames` reads a
/// recording and writes its images; `check` reads one and judges it without the core and what draws, and writes
/// nothing. `gen NUMBER` reads nothing and writes the canonical text of a number's script and a newline; `demo NUMBER`
/// plays that script and writes a line that sums up its recording. NUMBER is a plain decimal below 2^64.
///
/// The source is read to its end, or to one byte beyond the limit: 16,777,216 bytes of a script,
/// 268,435,456 of a recording. Refusals come in this order: the words (nothing is read then), the source,
/// the limit, and what the bytes are: JSON, a script, one whose commands are all taken; or a recording.
/// Before any of them nothing is written to `out`. The outcome's line goes to the notes; what they
/// answer changes no outcome. The raster workers of `play` pass `gate` between the start of a tile and its end.
/// For `play N`, done by [`run_played`], it may wait; all other words are done by [`run_alone`], which can't.
pub fn run<R: Threads + Wait + Sync, S: Source, K: Sink + Send, E: Sink, C: Client, G: Gate + Sync>(
    rt: &R,
    alloc: Global,
    words: &[String],
    streams: &mut Streams<S, K, E, C>,
    gate: &G,
) -> Outcome
    ensures { Ran S.Source K.Sink E.Sink C.Client (use_in (map string_bytes words.now)) streams.old streams.new result }
{
    match run_alone(rt, alloc, words, streams) {
        Some(outcome) => outcome,
        None => run_played(rt, alloc, words, streams, gate),
    }
}
