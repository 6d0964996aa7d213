//! What each step on the table tells.
use crate::board::PassView;
use crate::turn::Turn;
use atomic_table::{Join, Play, Split};

/// An exchange that takes the turn if it is free.
pub(crate) struct Try;

impl<T: Turn> Play<Option<T>, PassView<T::Stem, T::Entry>> for Try {
    ghost use Rattle.thread_lock.specs.inner.Steps.{tried};

    ghost then = { tried T.stem T.history };
}

/// The holder counts the entry that it made.
pub(crate) struct Stamp;

impl<T: Turn> Play<Option<T>, PassView<T::Stem, T::Entry>> for Stamp {
    ghost use Rattle.thread_lock.specs.inner.Steps.{stamped};

    ghost then = { stamped T.history };
}

/// The holder brings the value back and frees the turn.
pub(crate) struct Release;

impl<T: Turn> Play<Option<T>, PassView<T::Stem, T::Entry>> for Release {
    ghost use Rattle.thread_lock.specs.inner.Steps.{released};

    ghost then = { released };
}

/// An exchange that draws the next number for a pass.
pub(crate) struct Draw;

impl<T: Turn> Play<Option<T>, PassView<T::Stem, T::Entry>> for Draw {
    ghost use Rattle.thread_lock.specs.inner.Steps.{drawn};

    ghost then = { drawn };
}

/// A load that learns how many numbers were given.
pub(crate) struct Learn;

impl<T: Turn> Play<Option<T>, PassView<T::Stem, T::Entry>> for Learn {
    ghost use Rattle.thread_lock.specs.inner.Steps.{learned};

    ghost then = { learned };
}

/// A pass is made of another.
pub(crate) struct SplitOff;

impl<M, E> Split<PassView<M, E>> for SplitOff {
    ghost use Rattle.thread_lock.specs.inner.Steps.{newcomer};

    ghost left = { λ v. v };

    ghost right = { newcomer };
}

/// A pass takes in another.
pub(crate) struct TakeIn;

impl<M, E> Join<PassView<M, E>> for TakeIn {
    ghost use Rattle.thread_lock.specs.inner.Steps.{absorbed, spent_view};

    ghost both = { absorbed };

    ghost spent = { spent_view };
}
