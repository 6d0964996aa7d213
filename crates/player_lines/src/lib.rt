//! A session of lines: each line that comes is answered before more is read.
//!
//! In: a [`Client`], which gives bytes and takes bytes, and an [`Answerer`], which answers a line. Out: whenever bytes
//! were asked for, all lines that had come were answered, each by an answer of its own. So a client that waits for
//! each answer before it writes its next line never waits for ever.
//!
//! A line that is longer than the answerer takes is not kept: it is skipped to its end, and refused. An answer is
//! written as it is made, in pieces of data, so no answer is kept either.
#![tactic(auto)]

mod answering;
mod client;
mod ends;
mod lines;
mod passed;
mod session;

pub use answering::{Answerer, Stop, Unkept};
pub use client::{Client, Failed};
pub use ends::{Ends, put_frame};
pub use lines::serve;
pub use passed::Passed;
pub use session::Session;
