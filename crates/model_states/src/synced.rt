//! The scroll values of one scroller along one axis, as the compositor keeps them.
//!
//! The compositor scrolls at once, while the main thread hears of a scroll only at its next main frame.
//! So each offset is kept as a base, which the main thread has committed, and a delta, which the
//! compositor has added since. A pull reports the delta to the main thread; a commit brings back the main
//! thread's value as the pending base; an activation makes that base the active one and takes out of the
//! delta what it already contains.
//!
//! The idea of bases and deltas that are reported back is that of Chromium's `cc/base/synced_property.h`.
//! The numbers after an abort, and while a commit is pending, are this project's own.

ghost use Rattle.std.specs.Prelude.{◌≡◌, pos};
ghost use Rattle.model_states.specs.Table.{active_value, pending_value, pull_answer, clobber_answer, pulled, pushed, activated, aborted, added, clobbered};
ghost use Rattle.model_states.specs.Bounds.{IsBounded, IsBoundedNumber};

/// The scroll values of one scroller along one axis, in pixels.
#[derive(Clone, Copy, PartialEq, Eq, Debug)]
pub struct Synced {
    /// The offset of the active commit.
    pub active_base: i64,
    /// What was scrolled beyond the active base.
    pub active_delta: i64,
    /// The offset of the pending commit, or of the active one if no commit is pending.
    pub pending_base: i64,
    /// The part of the delta that the main frame in flight was told of.
    pub reflected_main: i64,
    /// The part of the delta that the pending base already contains.
    pub reflected_pending: i64,
}

impl Synced {
    /// A scroller that has not moved and that no commit has brought yet.
    pub const ZERO: Synced = Synced {
        active_base: 0,
        active_delta: 0,
        pending_base: 0,
        reflected_main: 0,
        reflected_pending: 0,
    };

    /// Hands the main thread the part of the delta that it has not heard of yet, and answers it.
    pub fn pull(&mut self) -> i64
        requires bounded { IsBounded self.old }
        requires none_in_flight { self.old.reflected_main ≡ pos 0 }
        ensures answer { result ≡ pull_answer self.old }
        ensures values { self.new ≡ pulled self.old }
    {
        self.reflected_main = self.active_delta - self.reflected_pending;
        self.reflected_main
    }

    /// Takes the main thread's value `value` as the pending base. It contains what the main thread was told of.
    pub fn push_main(&mut self, value: i64)
        requires bounded { IsBounded self.old }
        requires value_bounded { IsBoundedNumber value }
        requires none_pending { self.old.reflected_pending ≡ pos 0 }
        ensures { self.new ≡ pushed value self.old }
    {
        self.reflected_pending = self.reflected_main;
        self.reflected_main = 0;
        self.pending_base = value;
    }

    /// Makes the pending base the active one, and takes out of the delta what it contains.
    pub fn activate(&mut self)
        requires { IsBounded self.old }
        ensures { self.new ≡ activated self.old }
    {
        self.active_base = self.pending_base;
        self.active_delta -= self.reflected_pending;
        self.reflected_pending = 0;
    }

    /// Moves what the main thread was told of from the delta into both bases: the main frame ended with no
    /// commit, and the main thread keeps the scroll that it received.
    pub fn abort(&mut self)
        requires { IsBounded self.old }
        ensures { self.new ≡ aborted self.old }
    {
        self.pending_base += self.reflected_main;
        self.active_base += self.reflected_main;
        self.active_delta -= self.reflected_main;
        self.reflected_main = 0;
    }

    /// Scrolls by `by`.
    pub fn add(&mut self, by: i64)
        requires bounded { IsBounded self.old }
        requires by_bounded { IsBoundedNumber by }
        ensures { self.new ≡ added by self.old }
    {
        self.active_delta += by;
    }

    /// The offset at which the active tree stands.
    pub fn active(&self) -> i64
        requires { IsBounded self.now }
        ensures { result ≡ active_value self.now }
    {
        self.active_base + self.active_delta
    }

    /// The offset at which the pending tree stands: the one that the active tree has once it is activated.
    pub fn pending(&self) -> i64
        requires { IsBounded self.now }
        ensures { result ≡ pending_value self.now }
    {
        self.pending_base + self.active_delta - self.reflected_pending
    }

    /// Drops the delta, so that the active value is the active base, and answers the move that this was.
    /// It is called after `activate`, if the commit sets the offset outright.
    pub fn clobber(&mut self) -> i64
        requires { IsBounded self.old }
        ensures answer { result ≡ clobber_answer self.old }
        ensures values { self.new ≡ clobbered self.old }
    {
        let by = -self.active_delta;
        self.active_delta = 0;
        by
    }
}
