//! A ring whose sink is slow.

use crate::cases::Cases;
use crate::rings::{Refuser, large};
use byte_io::{MemSink, PutFault, Sink};
use std::alloc::{AllocError, Global};
use std::marker::Send;
use std::sync::Wait;
use std::sync::atomic::{AtomicU64, Ordering};
use std::thread::{Threads, join_mut, yield_now};
use test_table::LineFault;
use thread_pieces::{Painters, RingSink, SceneSink, ring_within};

/// How often a wait looks before it is given up, and after how many looks it lets another thread run.
const PATIENCE: u64 = 200_000_000;

const STRIDE: u64 = 4096;

// Waits until a count is reached, or gives up.
fn wait_for(count: &AtomicU64, wanted: u64) {
    for look in 0..PATIENCE {
        if count.load(Ordering::SeqCst) >= wanted {
            return;
        }
        if look % STRIDE == 0 {
            yield_now();
        }
    }
}

/// How many bytes were put into a ring, and how many of them its slow sink holds.
#[derive(Drop)]
struct Flow {
    put: AtomicU64,
    held: AtomicU64,
    /// How many puts of the slow sink have begun
    begun: AtomicU64,
}

/// A sink in memory that waits at each put until more than a million bytes were put into the ring.
#[derive(Drop)]
struct SlowSink<'a> {
    out: MemSink,
    flow: &'a Flow,
}

impl<'a> Sink for SlowSink<'a> {
    type Place = ();

    ghost faults = { λ s. s.out.faults };

    ghost refusals = { λ s. s.out.refusals };

    ghost place = { λ _. tt };

    fn put(&mut self, piece: &[u8]) -> Result<(), PutFault> {
        self.flow.begun.fetch_add(1, Ordering::SeqCst);
        wait_for(&self.flow.put, 1_000_001);
        let answer = self.out.put(piece);
        let held = self.out.bytes().len() as u64;
        self.flow.held.store(held, Ordering::SeqCst);
        answer
    }
}

// Puts a piece a hundred times, waiting for space after each, and ends. Answers how many bytes at most were put and
// not held by the slow sink after such a wait.
fn fill<R: Wait>(rt: &R, piece: &[u8], sink: &mut RingSink, flow: &Flow) -> u64 {
    let mut most: u64 = 0;
    for _ in 0..100 {
        if sink.put(piece).is_ok() {
            flow.put.fetch_add(piece.len() as u64, Ordering::SeqCst);
        }
        // The presenter serves from here on.
        wait_for(&flow.begun, 1);
        sink.wait_for_space(rt);
        let put = flow.put.load(Ordering::SeqCst);
        most = most.max(put.saturating_sub(flow.held.load(Ordering::SeqCst)));
    }
    sink.drain(rt);
    sink.end();
    most
}

// A hundred pieces through a ring in which a million bytes may wait: what `serve` answers, and how many bytes waited
// at most.
fn flow_through<R: Threads + Wait + Sync, K: Sink + Send>(
    rt: &R,
    alloc: Global,
    piece: &[u8],
    flow: &Flow,
    out: &mut K,
) -> Result<(Result<(), PutFault>, u64), AllocError> {
    let (sink, presenter) = ring_within(alloc, 1_000_000)?;
    let mut sink = sink;
    let mut presenter = presenter;
    let mut painters: Painters<Refuser> = Painters::new(alloc, 2);
    Ok(join_mut(
        rt,
        &mut || presenter.serve(rt, &mut painters, out),
        &mut || fill(rt, piece, &mut sink, flow),
    ))
}

/// A slow sink holds up who puts.
pub fn slow_sink_holds_up<R: Threads + Wait + Sync>(
    rt: &R,
    alloc: Global,
    cases: &mut Cases,
) -> Result<(), LineFault> {
    cases.begin("slow sink");
    let piece = large(alloc, 7)?;
    let flow = Flow {
        put: AtomicU64::new(0),
        held: AtomicU64::new(0),
        begun: AtomicU64::new(0),
    };
    let mut out = SlowSink {
        out: MemSink::endless(alloc),
        flow: &flow,
    };
    let (answer, most) = flow_through(rt, alloc, &piece, &flow, &mut out)?;
    cases.holds("a million bytes wait at most", most <= 1_000_000);
    cases.same("all", &answer, &Ok(()));
    cases.same("each byte", &out.out.bytes().len(), &7_000_000);
    Ok(())
}
