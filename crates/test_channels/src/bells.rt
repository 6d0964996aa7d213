//! Bells worked by hand.

use crate::cases::Cases;
use std::sync::Wait;
use std::sync::atomic::{AtomicU64, Ordering};
use std::thread::{Threads, join};
use thread_bell::{Bell, Post};

/// How often two threads wake each other up.
const BOUNCES: u64 = 10_000;

/// A ring since the count was read is not slept over.
pub fn ring_before_a_sleep<R: Wait>(rt: &R, cases: &mut Cases) {
    cases.begin("ring before a sleep");
    let bell = Bell::new();
    let rung = bell.rung(Post::Compositor);
    bell.ring(Post::Compositor);
    let since = bell.wait(rt, rung);
    cases.holds("the ring is counted", since != rung);
    cases.holds("once", since == bell.rung(Post::Compositor));
    cases.holds("it is not closed", !bell.is_closed());
}

/// Each post has a count of its own.
pub fn each_post_has_its_count<R: Wait>(rt: &R, cases: &mut Cases) {
    cases.begin("posts");
    let bell = Bell::new();
    let compositor = bell.rung(Post::Compositor);
    let main_side = bell.rung(Post::MainSide);
    let workers = bell.rung(Post::Workers);
    let presenter = bell.rung(Post::Presenter);
    bell.ring(Post::Workers);
    bell.wait(rt, workers);
    cases.holds(
        "not the compositor",
        bell.rung(Post::Compositor) == compositor,
    );
    cases.holds("not the main side", bell.rung(Post::MainSide) == main_side);
    cases.holds("not the presenter", bell.rung(Post::Presenter) == presenter);
    bell.close();
    bell.wait(rt, compositor);
    bell.wait(rt, main_side);
    bell.wait(rt, presenter);
    cases.holds("closing rings all", bell.is_closed());
}

/// A sleeper hears that the bell is closed.
pub fn sleeper_hears_the_close<R: Threads + Wait + Sync>(rt: &R, cases: &mut Cases) {
    cases.begin("closed bell");
    let bell = Bell::new();
    let (heard, _) = join(
        rt,
        || {
            for _ in rt.forever() {
                let rung = bell.rung(Post::Workers);
                if bell.is_closed() {
                    return true;
                }
                bell.wait(rt, rung);
            }
            false
        },
        || bell.close(),
    );
    cases.holds("it was heard", heard);
}

// Counts on when it is the turn of the one who sleeps at `own`, even or odd, and rings for the other; sleeps else.
fn bounce<R: Wait>(rt: &R, bell: &Bell, count: &AtomicU64, parity: u64, own: Post, other: Post) {
    for _ in rt.forever() {
        let rung = bell.rung(own);
        let counted = count.load(Ordering::SeqCst);
        if counted >= BOUNCES {
            return;
        }
        if counted % 2 == parity {
            count.fetch_add(1, Ordering::SeqCst);
            bell.ring(other);
        } else {
            bell.wait(rt, rung);
        }
    }
}

/// Two threads wake each other up in turn. If one ring were lost, both would sleep for ever.
pub fn two_threads_ring_in_turn<R: Threads + Wait + Sync>(rt: &R, cases: &mut Cases) {
    cases.begin("rings in turn");
    let bell = Bell::new();
    let count = AtomicU64::new(0);
    join(
        rt,
        || bounce(rt, &bell, &count, 0, Post::MainSide, Post::Workers),
        || bounce(rt, &bell, &count, 1, Post::Workers, Post::MainSide),
    );
    cases.same("all", &count.load(Ordering::SeqCst), &BOUNCES);
}
