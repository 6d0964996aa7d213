//! The lines of the table: `NAME: => right COUNT`, where NAME is a case of this crate.

use crate::cases::Cases;
use crate::{bells, locks, rings, slow_sink, stops, streams};
use std::alloc::Global;
use std::sync::Wait;
use std::thread::Threads;
use test_table::{Answer, LineFault, Subject};

/// Tries the cases about locks.
fn try_locks<R: Threads + Wait + Sync>(
    rt: &R,
    alloc: Global,
    cases: &mut Cases,
) -> Result<(), LineFault> {
    locks::fourth_pass_of_three(rt, alloc, cases)?;
    locks::entry_shows_to_the_next(rt, alloc, cases)?;
    locks::taken_turn_is_busy(rt, alloc, cases)?;
    locks::two_threads_write(rt, alloc, cases)?;
    locks::sixteen_threads_write(rt, alloc, cases)
}

/// Tries the cases about bells.
fn try_bells<R: Threads + Wait + Sync>(rt: &R, cases: &mut Cases) {
    bells::ring_before_a_sleep(rt, cases);
    bells::each_post_has_its_count(rt, cases);
    bells::sleeper_hears_the_close(rt, cases);
    bells::two_threads_ring_in_turn(rt, cases);
}

/// Tries the cases about rings.
fn try_rings<R: Threads + Wait + Sync>(
    rt: &R,
    alloc: Global,
    cases: &mut Cases,
) -> Result<(), LineFault> {
    rings::five_pieces_in_order(rt, alloc, cases)?;
    rings::served_before_the_end(rt, alloc, cases)?;
    rings::owned_pieces_in_their_turn(rt, alloc, cases)?;
    rings::refused_after_the_presenter(rt, alloc, cases)?;
    rings::thousand_pieces(rt, alloc, cases)?;
    rings::sink_fails_at_any_piece(rt, alloc, cases)?;
    slow_sink::slow_sink_holds_up(rt, alloc, cases)
}

/// Tries the cases about sources and sinks, and an open gate.
fn try_streams(alloc: Global, cases: &mut Cases) -> Result<(), LineFault> {
    streams::open_gate(cases);
    streams::memory_gives_in_steps(alloc, cases)?;
    streams::memory_takes_up_to_its_limit(alloc, cases)?;
    streams::adapters_go_on(alloc, cases)
}

/// Tries the cases about stops.
fn try_stops<R: Threads + Wait + Sync>(
    rt: &R,
    alloc: Global,
    cases: &mut Cases,
) -> Result<(), LineFault> {
    stops::stop_ends_all_turns(rt, alloc, cases)?;
    stops::failed_put_stops_the_run(rt, alloc, cases)
}

/// Tries all cases.
fn try_all<R: Threads + Wait + Sync>(
    rt: &R,
    alloc: Global,
    cases: &mut Cases,
) -> Result<(), LineFault> {
    try_bells(rt, cases);
    try_locks(rt, alloc, cases)?;
    try_rings(rt, alloc, cases)?;
    try_streams(alloc, cases)?;
    try_stops(rt, alloc, cases)
}

/// What is asked about: the cases, all of which were tried beforehand, since they start threads.
#[derive(Drop)]
pub struct Channels {
    cases: Cases,
}

impl Channels {
    /// Tries all cases.
    pub fn new<R: Threads + Wait + Sync>(rt: &R, alloc: Global) -> Result<Channels, LineFault> {
        let mut cases = Cases::new(alloc);
        match try_all(rt, alloc, &mut cases) {
            Ok(()) => Ok(Channels { cases }),
            Err(fault) => Err(fault),
        }
    }
}

impl Subject for Channels {
    fn ask(&self, kind: &str, _question: &str, answer: &mut Answer) -> Result<(), LineFault> {
        self.cases.say(kind, answer)
    }
}
