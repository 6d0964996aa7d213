//! The raster queue beside the plain choice that it represents: steps of a table, random steps, and times.

mod agreement;
mod checked_queue;
mod checks;
mod dice;
mod times;
mod trial;
mod words;

pub(crate) use agreement::agrees;
pub(crate) use checked_queue::CheckedQueue;
pub(crate) use times::{LOOKS, Order, queue_times};
pub(crate) use trial::try_steps;
pub(crate) use words::{answer, key_of, queue_of, ready_of};
