//! What the sink and the gate of a run tell each other.

use std::sync::atomic::{AtomicU64, Ordering};
use std::thread::yield_now;

/// How often a wait looks before it is given up.
const PATIENCE: u64 = 500_000_000;

/// After how many looks a wait lets another thread run.
const STRIDE: u64 = 65536;

/// How far the sink and the gate of a run are.
#[derive(Drop)]
pub struct Meeting {
    /// How many workers have come to the gate.
    come: AtomicU64,
    /// How often the sink told that it holds what the workers wait for.
    taken: AtomicU64,
    /// How many waits were given up.
    given_up: AtomicU64,
}

impl Meeting {
    /// Nobody is there yet.
    pub fn new() -> Meeting {
        Meeting {
            come: AtomicU64::new(0),
            taken: AtomicU64::new(0),
            given_up: AtomicU64::new(0),
        }
    }

    /// A worker has come to the gate; answers how many had come before.
    pub fn comes(&self) -> u64 {
        self.come.fetch_add(1, Ordering::SeqCst)
    }

    /// The sink holds what the workers wait for.
    pub fn takes(&self) {
        self.taken.fetch_add(1, Ordering::SeqCst);
    }

    /// Waits until the given number of workers have come to the gate.
    pub fn wait_for_workers(&self, count: u64) {
        self.wait(&self.come, count);
    }

    /// Waits until the sink holds what the workers wait for.
    pub fn wait_for_sink(&self) {
        self.wait(&self.taken, 1);
    }

    /// How many waits were given up.
    pub fn given_up(&self) -> u64 {
        self.given_up.load(Ordering::SeqCst)
    }

    // Waits until a count is reached, or gives up and notes so.
    fn wait(&self, count: &AtomicU64, wanted: u64) {
        for look in 0..PATIENCE {
            if count.load(Ordering::SeqCst) >= wanted {
                return;
            }
            if look % STRIDE == 0 {
                yield_now();
            }
        }
        self.given_up.fetch_add(1, Ordering::SeqCst);
    }
}
