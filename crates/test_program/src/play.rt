//! The runs of a case.

use byte_io::{MemSink, MemSource};
use player_lines::{Ends, Session};
use player_run::{Streams, run, run_alone};
use std::alloc::{AllocError, Global};
use std::sync::Wait;
use std::thread::Threads;
use test_cases::{
    Call, Case, Gathering, Meeting, MeetingGate, ProgramRowFault, RunOutput, WaitingSink,
};

/// Where a run reads and writes, all in memory, and where its workers pass.
#[derive(Drop)]
struct Stage<'a> {
    streams: Streams<MemSource, WaitingSink<'a>, MemSink, Ends<MemSource, MemSink>>,
    gate: MeetingGate<'a>,
}

/// A source that gives nothing.
fn no_source(alloc: Global) -> MemSource {
    MemSource::new(Vec::new(alloc), 1, Vec::new(alloc))
}

/// A session with a client that says nothing.
fn silent(alloc: Global) -> Session<Ends<MemSource, MemSink>> {
    Session::new(Ends::new(no_source(alloc), MemSink::endless(alloc)))
}

impl<'a> Stage<'a> {
    /// Makes a run by this call. Answers the status that it ended with; None if `run_alone` answers so. No other
    /// function calls the program: each that does is proved with its whole contract.
    fn run<R: Threads + Wait + Sync>(
        &mut self,
        rt: &R,
        alloc: Global,
        call: Call,
        words: &[String],
    ) -> Option<u8> {
        let outcome = match call {
            Call::Run => Some(run(rt, alloc, words, &mut self.streams, &self.gate)),
            Call::Alone | Call::Declined => run_alone(rt, alloc, words, &mut self.streams),
        };
        match outcome {
            Some(outcome) => Some(outcome.status()),
            None => None,
        }
    }

    /// What was written, or what the client of the session took, if that is asked for; and the notes.
    fn into_outs(self, is_served: bool) -> (MemSink, MemSink) {
        let Stage { streams, .. } = self;
        let Streams {
            out,
            notes,
            session,
            ..
        } = streams;
        if is_served {
            return (session.into_client().into_out(), notes);
        }
        (out.into_out(), notes)
    }
}

/// What a run with this word answers to a recording, and what it writes.
fn run_over<R: Threads + Wait + Sync>(
    rt: &R,
    alloc: Global,
    word: &str,
    recording: &[u8],
) -> Result<(Option<u8>, MemSink), AllocError> {
    let words = [word.to_string(alloc)?];
    let recording = Vec::from_slice(alloc, recording)?;
    let meeting = Meeting::new();
    let streams = Streams {
        source: MemSource::new(recording, 4096, Vec::new(alloc)),
        out: WaitingSink::new(MemSink::endless(alloc), &meeting, None),
        notes: MemSink::endless(alloc),
        session: silent(alloc),
    };
    let gate = MeetingGate {
        meeting: &meeting,
        gathering: Gathering::Nobody,
    };
    let mut stage = Stage { streams, gate };
    let status = stage.run(rt, alloc, Call::Run, &words);
    let (out, _) = stage.into_outs(false);
    Ok((status, out))
}

/// The pictures of a recording; None if it is not legal.
fn pictures_of<R: Threads + Wait + Sync>(
    rt: &R,
    alloc: Global,
    recording: &[u8],
) -> Result<Option<MemSink>, AllocError> {
    let (judged, _) = run_over(rt, alloc, "check", recording)?;
    if judged != Some(0) {
        return Ok(None);
    }
    let (_, pictures) = run_over(rt, alloc, "frames", recording)?;
    Ok(Some(pictures))
}

/// What the run of this number is given. A session has a client that gives what the source gives, and takes what the sink
/// takes; then the source and the sink of the run are empty, and have to stay so.
fn stage_of<'a>(
    alloc: Global,
    case: &'a Case,
    meeting: &'a Meeting,
    number: u64,
) -> Result<Stage<'a>, ProgramRowFault> {
    let source = case.source(alloc, number)?;
    let out = case.sink(alloc, number)?;
    let notes = case.notes(alloc);
    let gate = MeetingGate {
        meeting,
        gathering: case.gathering,
    };
    if case.is_served() {
        let streams = Streams {
            source: no_source(alloc),
            out: WaitingSink::new(MemSink::new(alloc, 0, Vec::new(alloc)), meeting, None),
            notes,
            session: Session::new(Ends::new(source, out)),
        };
        return Ok(Stage { streams, gate });
    }
    let streams = Streams {
        source,
        out: WaitingSink::new(out, meeting, case.sink_wait.as_ref()),
        notes,
        session: silent(alloc),
    };
    Ok(Stage { streams, gate })
}

/// The run of this number.
fn play<R: Threads + Wait + Sync>(
    rt: &R,
    alloc: Global,
    case: &Case,
    number: u64,
) -> Result<RunOutput, ProgramRowFault> {
    let meeting = Meeting::new();
    let mut stage = stage_of(alloc, case, &meeting, number)?;
    let status = stage.run(rt, alloc, case.call, case.words.as_slice());
    let (mut out, notes) = stage.into_outs(case.is_served());
    let mut accepted = true;
    if case.recording {
        match pictures_of(rt, alloc, out.bytes())? {
            Some(pictures) => out = pictures,
            None => accepted = false,
        }
    }
    Ok(RunOutput {
        status,
        out,
        notes,
        accepted,
        given_up: meeting.given_up(),
    })
}

/// Plays the runs of a case up to the first that is wrong, which is printed, and counts them. Answers whether all are
/// right.
pub fn play_all<R: Threads + Wait + Sync + Print>(
    rt: &R,
    alloc: Global,
    case: &Case,
    runs: &mut u64,
) -> Result<bool, ProgramRowFault> {
    for number in case.numbers.start..case.numbers.end {
        let left = play(rt, alloc, case, number)?;
        *runs = runs.saturating_add(1);
        if let Some(told) = case.complaint(alloc, number, &left)? {
            let _ = rt.println(told.as_str());
            return Ok(false);
        }
    }
    Ok(true)
}
