//! Where the last two milestones of a run stand.

ghost use Rattle.std.specs.Prelude.{◌≡◌};
ghost use Rattle.impl_log.specs.Kept.{milestones};
ghost use Rattle.impl_log.specs.inner.Steps.{placed};

use model_history::Event;

/// The places of the last two milestones of a history, entries that use an input or begin an impl frame for no draw;
/// 0 if there is none.
#[derive(Clone, Copy)]
pub(crate) struct Milestones {
    /// The newest of them.
    pub(crate) newest: usize,
    /// The one before it.
    pub(crate) older: usize,
}

impl Milestones {
    /// Before anything was entered.
    pub(crate) const START: Milestones = Milestones {
        newest: 0,
        older: 0,
    };

    /// The places after one event more, which stands at this place.
    pub(crate) fn after(self, event: &Event, at: usize) -> Milestones
        ensures { result ≡ placed (milestones event.now) at self }
    {
        match event {
            Event::Begin { .. }
            | Event::BeginPlain
            | Event::Scroll { .. }
            | Event::Wheel { .. }
            | Event::Await { .. }
            | Event::Settle { .. } => Milestones {
                newest: at,
                older: self.newest,
            },
            _ => self,
        }
    }
}
