//! The two ends of a ring.
ghost use Rattle.std.specs.Prelude.{◌≡◌, [], IfOk};
ghost use Rattle.rtrb.specs.Ring.{producer_capacity};
ghost use Rattle.thread_pieces.specs.Ring.{OneRing, bytes_taken, whole};

use crate::Shot;
use crate::shared::Shared;
use rtrb::{Consumer, Producer, RingBuffer};
use std::alloc::{AllocError, Global};
use std::collections::VecDeque;
use std::sync::Arc;
use thread_bell::Bell;

/// How many pieces the ring has place for.
const PLACES: usize = 64;

// How many bytes of pieces may wait before the one who puts them waits.
const MOST_WAITING: u64 = 256 * 1024 * 1024;

/// The end of a ring that takes bytes and scenes. A put never waits.
#[derive(Drop)]
pub struct RingSink {
    pub(crate) producer: Producer<Shot>,
    /// The pieces that the ring had no place for, oldest first. They go before any later piece.
    pub(crate) kept: VecDeque<Shot>,
    /// The bytes that were put after the last piece. They are of the next one.
    pub(crate) lines: Vec<u8>,
    pub(crate) shared: Arc<Shared, Global>,
    pub(crate) alloc: Global,
    /// How many bytes may wait to be written before the one who puts waits for space.
    pub(crate) most_waiting: u64,
    /// How many puts were refused for lack of memory.
    pub(crate) refused: u64,
}

impl RingSink {
    /// The bell at which the one who puts sleeps at [`Post::Compositor`](thread_bell::Post), while too much waits, and at
    /// which it may wait for others too: the presenter rings there after it has written.
    pub fn bell(&self) -> Result<Arc<Bell, Global>, AllocError> {
        self.shared.bell()
    }
}

/// The end of a ring that hands the pieces on.
#[derive(Drop)]
pub struct Presenter {
    pub(crate) consumer: Consumer<Shot>,
    pub(crate) shared: Arc<Shared, Global>,
    pub(crate) alloc: Global,
    /// How many bytes the pieces are that were taken and not written yet.
    pub(crate) taken: u64,
}

/// Which ring an end belongs to. Clauses alone speak of it, and no value of it is made.
pub struct Label {
    words: *mut u64,
    slots: *mut Shot,
    names: (u64, (u64, u64)),
    heap: Global,
}

/// The two ends of a new ring of 64 places, each for one piece. Nothing was put into it, nothing
/// was taken out of it, and its end mark is not raised. The one who puts waits for space if more than 256 MiB wait.
pub fn ring(alloc: Global) -> Result<(RingSink, Presenter), AllocError>
    ensures pair { IfOk result (λ r. OneRing r.0 r.1) }
    ensures empty { IfOk result (λ r. (whole r.0 ≡ []) × (bytes_taken r.1 ≡ [])) }
    ensures places { IfOk result (λ r. (producer_capacity r.0.producer ≡ 64) × (r.0.refused ≡ 0)) }
{
    ring_within(alloc, MOST_WAITING)
}

/// The same, if the one who puts waits for space once more than this many bytes wait.
pub fn ring_within(alloc: Global, most_waiting: u64) -> Result<(RingSink, Presenter), AllocError>
    ensures pair { IfOk result (λ r. OneRing r.0 r.1) }
    ensures empty { IfOk result (λ r. (whole r.0 ≡ []) × (bytes_taken r.1 ≡ [])) }
    ensures places { IfOk result (λ r. (producer_capacity r.0.producer ≡ 64) × (r.0.refused ≡ 0)) }
{
    let (producer, consumer) = RingBuffer::new(alloc, PLACES)?;
    let bell = Arc::new(alloc, Bell::new())?;
    let shared = Arc::new(alloc, Shared::new(bell))?;
    let sink = RingSink {
        producer,
        kept: VecDeque::new(alloc),
        lines: Vec::new(alloc),
        shared: Arc::try_clone(&shared)?,
        alloc,
        most_waiting,
        refused: 0,
    };
    let presenter = Presenter {
        consumer,
        shared,
        alloc,
        taken: 0,
    };
    Ok((sink, presenter))
}
