//! What the two ends of a ring share.

use byte_io::PutFault;
use std::alloc::{AllocError, Global};
use std::sync::atomic::{AtomicBool, AtomicU64, Ordering};
use std::sync::{Arc, Wait};
use thread_bell::{Bell, Post, Rung};

/// The bell of a ring, and what its ends tell each other of the pieces that wait. No clause says anything of it.
#[derive(Drop)]
pub(crate) struct Shared {
    /// Rung for the presenter after a piece was pushed, and for the compositor, which puts, after pieces were written.
    /// It is closed as the end mark.
    bell: Arc<Bell, Global>,
    /// How many bytes the pieces are counted with that were put and not written yet.
    waiting: AtomicU64,
    /// Whether the presenter is taking pieces.
    serving: AtomicBool,
    /// Whether the presenter was refused a put, and drops what comes later.
    refused: AtomicBool,
}

impl Shared {
    /// Nothing waits, nobody serves, and the end mark is not raised.
    pub(crate) fn new(bell: Arc<Bell, Global>) -> Shared {
        Shared {
            bell,
            waiting: AtomicU64::new(0),
            serving: AtomicBool::new(false),
            refused: AtomicBool::new(false),
        }
    }

    /// The bell, for those that ring it or sleep at it too.
    pub(crate) fn bell(&self) -> Result<Arc<Bell, Global>, AllocError> {
        Arc::try_clone(&self.bell)
    }

    /// This many bytes of pieces wait more.
    pub(crate) fn add(&self, bytes: u64) {
        self.waiting.fetch_add(bytes, Ordering::SeqCst);
    }

    /// A piece was pushed: the presenter wakes up.
    pub(crate) fn ring(&self) {
        self.bell.ring(Post::Presenter);
    }

    /// This many bytes of pieces were written, or are not going to be. The one who puts wakes up: there is space, and the
    /// ring has places for what is kept.
    pub(crate) fn remove(&self, bytes: u64) {
        self.waiting.fetch_sub(bytes, Ordering::SeqCst);
        self.bell.ring(Post::Compositor);
    }

    /// How many bytes of pieces wait.
    pub(crate) fn waiting(&self) -> u64 {
        self.waiting.load(Ordering::SeqCst)
    }

    /// The presenter begins to take pieces, or has ended.
    pub(crate) fn serve(&self, serving: bool) {
        self.serving.store(serving, Ordering::SeqCst);
        self.bell.ring(Post::Compositor);
    }

    /// Whether the presenter is taking pieces. If it is not, nobody would make space.
    pub(crate) fn is_serving(&self) -> bool {
        self.serving.load(Ordering::SeqCst)
    }

    /// The presenter tells what became of the pieces so far. The one who puts reads it after the next ring.
    pub(crate) fn tell(&self, answer: &Result<(), PutFault>) {
        if answer.is_err() {
            self.refused.store(true, Ordering::SeqCst);
        }
    }

    /// Whether the presenter was refused a put.
    pub(crate) fn is_refused(&self) -> bool {
        self.refused.load(Ordering::SeqCst)
    }

    /// Raises the end mark.
    pub(crate) fn close(&self) {
        self.bell.close();
    }

    /// Whether the end mark is raised.
    pub(crate) fn is_closed(&self) -> bool {
        self.bell.is_closed()
    }

    /// What the presenter reads before it looks for pieces.
    pub(crate) fn pushed(&self) -> Rung {
        self.bell.rung(Post::Presenter)
    }

    /// Sleeps until a piece is pushed, unless one was since `pushed` was read.
    pub(crate) fn wait_for_pieces<R: Wait>(&self, rt: &R, pushed: Rung) {
        self.bell.wait(rt, pushed);
    }

    /// What the sink's end reads before it looks for space.
    pub(crate) fn written(&self) -> Rung {
        self.bell.rung(Post::Compositor)
    }

    /// Sleeps until pieces are written, or another rings for the one who puts, unless somebody did since `written` was
    /// read.
    pub(crate) fn wait_for_space<R: Wait>(&self, rt: &R, written: Rung) {
        self.bell.wait(rt, written);
    }
}
