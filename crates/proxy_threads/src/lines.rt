//! The lines of what others and the compositor entered.

ghost use Rattle.std.specs.Prelude.{◌≡◌, ◌≤◌, OnOk};
ghost use Rattle.proxy_threads.specs.inner.Steps.{GathersAll};

use crate::wakes::Wakes;
use impl_log::KeptHistory;
use recording_text::push_event;
use std::alloc::{AllocError, Global};

/// The lines that are to be written next, and how many entries have had their lines.
#[derive(Drop)]
pub struct Lines {
    pub(crate) text: Vec<u8>,
    pub(crate) written: usize,
    /// Whether the run was played to its end, when the compositor last held it.
    pub(crate) over: bool,
    /// Whom the compositor wakes up after that.
    pub(crate) wakes: Wakes,
}

impl Lines {
    /// No entry has had its line.
    pub(crate) fn new(alloc: Global) -> Lines
        ensures { result.written ≡ 0 }
    {
        Lines {
            text: Vec::new(alloc),
            written: 0,
            over: false,
            wakes: Wakes::new(),
        }
    }

    /// Takes the lines of the entries that have had none yet, of which none is forgotten. An error means out of
    /// memory.
    pub(crate) fn gather(&mut self, history: &KeptHistory) -> Result<(), AllocError>
        requires { history.now.first ≤ self.old.written }
        ensures lines { OnOk result (GathersAll self.old.written history.now.entries self.new) }
        ensures over { self.new.over ≡ self.old.over }
    {
        let from = self.written;
        self.text.clear();
        for at in from..history.len() {
            let entry = history.entry(at);
            push_event(&mut self.text, &entry.event)?;
        }
        self.written = history.len();
        Ok(())
    }
}
