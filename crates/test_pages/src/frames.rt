//! The main frames of a script, one after another.

ghost use Rattle.model_history.specs.Ended.{AreBounded};

use main_host::{MainEnd, MainHost};
use model_history::{Moves, Script};
use std::alloc::{AllocError, Global};
use std::marker::Model;
use std::sync::Arc;
use test_table::LineFault;

/// The main frames of a script.
pub struct Frames {
    alloc: Global,
    host: MainHost,
    /// How many the script has.
    count: usize,
}

impl Model for Frames {
    ghost use Rattle.std.specs.Prelude.{◌≡◌, length};
    ghost use Rattle.main_host.specs.Hosts.{MainHostModel};

    ghost Value = { MainHostModel };

    ghost view = { λ f. f.host };

    ghost invariant = { λ f. f.count ≡ length f.host.script.main };
}

// Written out, since a derived drop is proved anew, field by field, in each function that lets one go.
impl Drop for Frames {
    fn drop(self) {
        let Frames {
            alloc: _,
            host: _,
            count: _,
        } = self;
    }
}

impl Frames {
    /// Before the first main frame of a script.
    pub fn new(alloc: Global, script: Script) -> Result<Frames, AllocError> {
        let count = script.main().len();
        match Arc::new(alloc, script) {
            Ok(script) => Ok(Frames {
                alloc,
                host: MainHost::new(alloc, script),
                count,
            }),
            Err(_) => Err(AllocError),
        }
    }

    /// The number of the next main frame.
    pub fn next_frame(&self) -> u32 {
        self.host.next_frame()
    }

    /// Ends the next main frame with these pulls.
    pub fn end_next(&mut self, pulls: &Moves) -> Result<MainEnd, LineFault>
        requires { AreBounded pulls.now }
    {
        if self.host.next_frame() as usize >= self.count {
            return Err(LineFault::NoFrame);
        }
        Ok(self.host.begin(pulls)?)
    }

    /// Ends the next main frame without pulls.
    pub fn end_plain(&mut self) -> Result<MainEnd, LineFault> {
        let none = Moves::new(self.alloc);
        self.end_next(&none)
    }
}
