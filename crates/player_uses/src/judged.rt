//! The recording in the source, judged.

ghost use Rattle.std.specs.Prelude.{◌≡◌, ℕ, ◌≤◌, Bool, length, Ok};
ghost use Rattle.byte_io.specs.Logs.{since};
ghost use Rattle.player_uses.specs.Answers.{AnswersJudged, MayAnswer, TellsMisfit};
ghost use Rattle.player_uses.specs.Faults.{Causes, StopsAtFault, IsSilent};
ghost use Rattle.player_uses.specs.Reading.{ReadToEnd, Reads};
ghost use Rattle.player_uses.specs.Refusals.{recording_limit, ExplainsJudgement};
ghost use Rattle.player_uses.specs.inner.Judged.{IsJudgement};

use crate::Use;
use crate::input::{RECORDING_LIMIT, read_all};
use crate::outcome::Outcome;
use byte_io::Source;
use recording_check::{RecordingFault, Verdict, check};
use std::alloc::Global;

// What is said of the bytes of a recording.
fn outcome_of(alloc: Global, bytes: &[u8]) -> Outcome
    requires { length bytes.now ≤ recording_limit }
    ensures judged { IsJudgement bytes.now result }
    ensures answers { AnswersJudged result }
    ensures stops { (before after : ℕ) (failed : Bool) → after ≡ before → StopsAtFault before after failed result }
{
    match check(alloc, bytes) {
        Ok(Verdict::Good) => Outcome::Done,
        Ok(Verdict::No { event }) => Outcome::No { event },
        Err(RecordingFault::Bad { place }) => Outcome::BadRecording { place },
        Err(RecordingFault::Memory(_)) => Outcome::Memory,
    }
}

/// Reads the source to its end, and judges the recording in it without the core and what draws. Nothing is written.
#[tactic(auto, using(crate::proofs::JudgedInputs::judged_input, crate::proofs::JudgedInputs::judged_words, crate::proofs::JudgedInputs::judged_silent, crate::proofs::JudgedInputs::judged_causes, crate::proofs::JudgedInputs::judged_end, crate::proofs::StoppedReads::unjudged_words, crate::proofs::StoppedReads::unjudged_input, crate::proofs::StoppedReads::unjudged_end, crate::proofs::StoppedReads::unjudged_silent, crate::proofs::StoppedReads::unjudged_causes, crate::proofs::StoppedReads::unjudged_answers))]
pub fn run_check<S: Source>(alloc: Global, source: &mut S) -> Outcome
    ensures words { TellsMisfit (Ok Use.Check) result }
    ensures input { ExplainsJudgement (since (S.given source.old) (S.given source.new)) result }
    ensures reads { Reads Use.Check (S.given source.old) (S.given source.new) }
    ensures end { ReadToEnd Use.Check (S.has_ended source.new) result }
    ensures grows { S.faults source.old ≤ S.faults source.new }
    ensures silent { IsSilent result }
    ensures cause { (p q : ℕ) → Causes (S.faults source.old) (S.faults source.new) p q result }
    ensures answers { MayAnswer Use.Check result }
    ensures stops { StopsAtFault (S.faults source.old) (S.faults source.new) (S.has_failed source.new) result }
{
    match read_all(alloc, source, RECORDING_LIMIT) {
        Ok(bytes) => outcome_of(alloc, bytes.as_slice()),
        Err(outcome) => outcome,
    }
}
