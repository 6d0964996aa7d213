//! The keys that the pending tree needs.

ghost use Rattle.std.specs.Prelude.{◌≡◌};
ghost use Rattle.impl_core.specs.inner.Needed.{no_needs, after_evicting};

use geom::Keys;

/// What is known of the visible keys of the pending tree, all of which must be ready for its activation.
pub(crate) struct Needs {
    /// The keys, once they were asked for.
    pub(crate) keys: Option<Keys>,
    /// Whether all of them are known to be ready.
    pub(crate) all_ready: bool,
    /// The place of a key that was not ready when they were asked for last. Nothing rests on it: it tells with which
    /// key the next question begins.
    pub(crate) waits_at: usize,
}

// Written out, since a derived drop is proved anew, field by field, in each function that lets one go.
impl Drop for Needs {
    fn drop(self) {
        let Needs {
            keys: _,
            all_ready: _,
            waits_at: _,
        } = self;
    }
}

impl Needs {
    /// Nothing is known.
    pub(crate) fn new() -> Needs
        ensures { result ≡ no_needs }
    {
        Needs {
            keys: None,
            all_ready: false,
            waits_at: 0,
        }
    }

    /// Forgets what is known, as the pending tree is another one.
    pub(crate) fn forget(&mut self)
        ensures { self.new ≡ no_needs }
    {
        self.keys = None;
        self.all_ready = false;
        self.waits_at = 0;
    }

    /// These keys are evicted: if there are any, it is no longer known whether all are ready.
    pub(crate) fn evict(&mut self, evicted: &Keys)
        ensures { self.new ≡ after_evicting self.old evicted.now }
    {
        self.all_ready = self.all_ready && evicted.len() == 0;
    }
}
