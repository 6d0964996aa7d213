//! Whom the compositor wakes up.

ghost use Rattle.std.specs.Prelude.{◌≡◌};

use crate::playing::Played;
use impl_core::Core;

/// Whom the compositor wakes up after its turn, and what it knew when it did so before.
#[derive(Clone, Copy, Drop)]
pub(crate) struct Wakes {
    /// The main side.
    pub(crate) main: bool,
    /// The workers.
    pub(crate) workers: bool,
    /// Whether a tile may start, as far as is known: it was asked, and nothing but draws was played since.
    pub(crate) may_start: bool,
    /// How many main frames were sent then.
    sends: u32,
    /// The draw that was begun last then.
    begun: Option<u32>,
    /// How many entries there were when it was asked last whether a tile may start.
    asked: usize,
}

impl Wakes {
    /// Nobody: nothing was entered yet.
    pub(crate) fn new() -> Wakes {
        Wakes {
            main: false,
            workers: false,
            may_start: false,
            sends: 0,
            begun: None,
            asked: 0,
        }
    }

    /// Finds out whom to wake up after what was played: the main side if a main frame was sent, the workers if
    /// a draw was begun or nothing may be entered, and a tile may start; and all if the run has ended. Most
    /// scrolls are followed by another, which changes again what may start, and whoever asks then has all tiles
    /// ranked anew while the others wait for the turn: so after those nobody asks, no worker either.
    pub(crate) fn renew(&mut self, played: &Played, core: &mut Core)
        ensures { core.new ≡ core.old }
    {
        self.main = false;
        self.workers = false;
        match played {
            Played::Plain => self.heed(core),
            Played::Blocked => self.workers = self.ask(core),
            Played::Ended | Played::Shown(_) | Played::Memory => {}
        }
    }

    // The same after an event that shows nothing.
    fn heed(&mut self, core: &mut Core)
        ensures { core.new ≡ core.old }
    {
        let progress = core.progress();
        let begins = progress.begun != self.begun;
        self.main = progress.has_ended || progress.sends != self.sends;
        self.may_start = false;
        self.workers = progress.has_ended || begins && self.ask(core);
        self.sends = progress.sends;
        self.begun = progress.begun;
    }

    // Asks whether a tile may start, if anything was entered, by whomever, since this was asked last, and answers
    // whether one may. If memory is refused, one may.
    fn ask(&mut self, core: &mut Core) -> bool
        ensures { core.new ≡ core.old }
    {
        let entries = core.history().len();
        if entries == self.asked {
            return false;
        }
        self.asked = entries;
        self.may_start = !matches!(core.next_start(), Ok(None));
        self.may_start
    }
}
