//! A lock around one value with which actors of several threads take turns, and whose history counts afterwards.
//!
//! Each actor has a [`Pass`], with a number of its own. It takes the turn and then has the value ([`HeldTurn`]), takes the value out ([`Empty`]), and puts it back with one entry of its own, or none.
//! At the end [`TurnLock::close`] gives the value back against all passes. What each pass saw is then where the value's history begins, what each made is exactly what the history has under its number, and nobody else is in it.
//! It costs one exchange to enter, and no memory once the lock is made.
//! It is no lock for values without a history, or for readers beside one another: only one pass has the turn.
//!
//! `docs/LOCK.md` explains the words, the life of a pass, and why no entry is lost.
#![tactic(auto)]

mod board;
mod close;
mod journal;
mod lock;
mod pass;
mod plays;
mod turn;

pub use board::{Key, Law, Old, PassView};
pub use close::PassesOut;
pub use journal::{Journal, write_all, write_both, write_note};
pub use lock::TurnLock;
pub use pass::{Busy, Empty, HeldTurn, Pass, SplitFault};
pub use turn::Turn;
