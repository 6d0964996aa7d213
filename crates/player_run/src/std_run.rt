//! A run over readers and writers of std.

ghost use Rattle.std.specs.Prelude.{◌≡◌, ℕ, [], Ok, Some, IfNone, IfOk, IfSome, is_none, map, string_bytes};
ghost use Rattle.byte_io.specs.Logs.{since};
ghost use Rattle.player_lines.specs.Passings.{acts};
ghost use Rattle.player_lines.specs.Sessions.{AtOnce};
ghost use Rattle.player_uses.specs.Outcomes.{Told, line_of};
ghost use Rattle.player_uses.specs.Reading.{ReadToEnd};
ghost use Rattle.player_uses.specs.Words.{asks_play, use_of as use_in};
ghost use Rattle.player_uses.specs.declared.words.Use.TheVariants.{Serve};
ghost use Rattle.player_run.specs.Runs.{CauseFrom, Writes};
ghost use Rattle.player_run.specs.Served.{AnsweredTo, IsLineAnswer};

use crate::program::run_alone;
use crate::streams::Streams;
use byte_io::{StdSink, StdSource};
use player_lines::Ends;
use player_uses::Outcome;
use std::alloc::Global;
use std::io::{Read, Write};
use std::thread::Threads;

/// Runs the program as [`run_alone`] does, over any readers and writers, whatever these tell of their bytes: standard
/// input and output tell nothing. The clauses speak of the bytes that the reader answered it gave, that the writers
/// answered they took, and that passed with the client.
pub fn run_std<R: Threads + Sync, I: Read, O: Write, N: Write, J: Read, P: Write>(
    rt: &R,
    alloc: Global,
    words: &[String],
    streams: &mut Streams<StdSource<I>, StdSink<O>, StdSink<N>, Ends<StdSource<J>, StdSink<P>>>,
) -> Option<Outcome>
    ensures none { is_none result ≡ asks_play (use_in (map string_bytes words.now)) }
    ensures idle { IfNone result (streams.new ≡ streams.old) }
    ensures input { IfSome result (λ outcome. IfOk (use_in (map string_bytes words.now)) (λ wanted. CauseFrom wanted (since streams.old.source.given.items streams.new.source.given.items) outcome)) }
    ensures end { IfSome result (λ outcome. IfOk (use_in (map string_bytes words.now)) (λ wanted. ReadToEnd wanted streams.new.source.ended outcome)) }
    ensures output { IfSome result (λ outcome. IfOk (use_in (map string_bytes words.now)) (λ wanted. Writes wanted (since streams.old.source.given.items streams.new.source.given.items) (Some streams.old.out.taken.items) (Some streams.new.out.taken.items) outcome)) }
    ensures serves { IfSome result (λ outcome. (workers : ℕ) → use_in (map string_bytes words.now) ≡ Ok (Serve workers) → streams.old.session.client.passed.items ≡ [] → AtOnce (IsLineAnswer workers) (acts streams.new.session.client.passed.items) × AnsweredTo workers outcome (acts streams.new.session.client.passed.items)) }
    ensures told { IfSome result (λ outcome. Told (Some streams.old.notes.taken.items) (Some streams.new.notes.taken.items) streams.old.notes.faults streams.new.notes.faults 0 0 (line_of outcome)) }
{
    match run_alone(rt, alloc, words, streams) {
        Some(outcome) => Some(outcome),
        None => None,
    }
}
