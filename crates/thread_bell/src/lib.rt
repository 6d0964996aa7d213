//! A bell, by which threads that have nothing to do hear that there may be something.
//!
//! A bell has four places to sleep, one for each kind of actor ([`Post`]), and is rung at one of them, so that nobody
//! wakes up who could do nothing. An actor sleeps by three steps: it reads how often its post was rung
//! ([`Bell::rung`]), looks for work, and if it finds none, waits with what it read ([`Bell::wait`]). An actor that has
//! changed something rings after it ([`Bell::ring`]). So no ring is lost: a change before the look was seen by it, and a
//! change after the look is rung after the count was read, so the wait returns.
//!
//! An actor that rings can also say whether there is work at all ([`Bell::tell_work`]), for those to whom a look for
//! work costs more than this question. A bell that is closed stays closed: there will be nothing to do again.
//!
//! docs/BELL.md has the protocol: who rings whom in a run, and why nobody sleeps over a ring.
#![tactic(auto)]

ghost use Rattle.std.specs.Prelude.{◌≡◌, ◌≢◌};

use std::sync::Wait;
use std::sync::atomic::{AtomicBool, AtomicU64, Ordering};

/// Who sleeps at a post. A ring at it wakes all who sleep there.
#[derive(Clone, Copy, Debug, Drop, PartialEq)]
pub enum Post {
    /// The compositor: while it may enter nothing, and while too much that it has put waits to be written.
    Compositor,
    /// The main side: while no main frame is in flight.
    MainSide,
    /// All raster workers: while no tile may start.
    Workers,
    /// The presenter: while no piece is in its ring.
    Presenter,
}

/// How often a bell was rung at a post, modulo 2^32, when this was read.
#[derive(Clone, Copy, Debug, Drop, PartialEq)]
pub struct Rung {
    post: Post,
    count: u32,
}

// What is counted at a post.
#[derive(Drop)]
struct Counts {
    rings: AtomicU64,
    // How many threads sleep there, or are about to.
    sleepers: AtomicU64,
}

impl Counts {
    // No rings, and nobody sleeps.
    fn new() -> Counts {
        Counts {
            rings: AtomicU64::new(0),
            sleepers: AtomicU64::new(0),
        }
    }

    // Counts a ring, and wakes all who sleep there. The system is called only if somebody does.
    fn ring(&self) {
        self.rings.fetch_add(1, Ordering::SeqCst);
        if self.sleepers.load(Ordering::SeqCst) > 0 {
            self.rings.wake_all();
        }
    }

    // The count of rings, modulo 2^32.
    fn count(&self) -> u32 {
        (self.rings.load(Ordering::SeqCst) % (1 << 32)) as u32
    }

    // Sleeps while the count of rings is this one, or returns for no reason.
    fn sleep<R: Wait>(&self, rt: &R, count: u32) {
        self.sleepers.fetch_add(1, Ordering::SeqCst);
        self.rings.park(rt, count);
        self.sleepers.fetch_sub(1, Ordering::SeqCst);
    }
}

/// Counts for each post, at which threads sleep.
#[derive(Drop)]
pub struct Bell {
    compositor: Counts,
    main_side: Counts,
    workers: Counts,
    presenter: Counts,
    work: AtomicBool,
    closed: AtomicBool,
}

impl Bell {
    /// A bell that was not rung, and is open. It tells of no work.
    pub fn new() -> Bell {
        Bell {
            compositor: Counts::new(),
            main_side: Counts::new(),
            workers: Counts::new(),
            presenter: Counts::new(),
            work: AtomicBool::new(false),
            closed: AtomicBool::new(false),
        }
    }

    // What is counted at a post.
    fn counts(&self, post: Post) -> &Counts {
        match post {
            Post::Compositor => &self.compositor,
            Post::MainSide => &self.main_side,
            Post::Workers => &self.workers,
            Post::Presenter => &self.presenter,
        }
    }

    /// How often this post was rung. It is read before the look for work.
    pub fn rung(&self, post: Post) -> Rung
        ensures { result.post ≡ post }
    {
        Rung {
            post,
            count: self.counts(post).count(),
        }
    }

    /// Rings at this post, after what was changed: all who sleep there wake up.
    pub fn ring(&self, post: Post) {
        self.counts(post).ring();
    }

    /// Sleeps until the post of `rung` was rung since that was read, and answers how often it was rung then. Just 2^32
    /// rings since then would be slept over, but no look for work takes that long.
    pub fn wait<R: Wait>(&self, rt: &R, rung: Rung) -> Rung
        ensures post { result.post ≡ rung.post }
        ensures moved { result.count ≢ rung.count }
    {
        for _ in rt.forever() {
            let now = self.rung(rung.post);
            if now.count != rung.count {
                return now;
            }
            self.counts(rung.post).sleep(rt, rung.count);
        }
        unreachable!()
    }

    /// Says whether there is work to look for. If there is, ring after it.
    pub fn tell_work(&self, there: bool) {
        self.work.store(there, Ordering::SeqCst);
    }

    /// Whether there was work to look for when this was said last.
    pub fn has_work(&self) -> bool {
        self.work.load(Ordering::SeqCst)
    }

    /// Rings at each post.
    pub fn ring_all(&self) {
        self.ring(Post::Compositor);
        self.ring(Post::MainSide);
        self.ring(Post::Workers);
        self.ring(Post::Presenter);
    }

    /// Closes the bell, and rings at each post.
    pub fn close(&self) {
        self.closed.store(true, Ordering::SeqCst);
        self.ring_all();
    }

    /// Whether the bell was closed. An actor that has found it closed sees what was done before.
    pub fn is_closed(&self) -> bool {
        self.closed.load(Ordering::SeqCst)
    }
}
