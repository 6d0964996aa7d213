//! Events after which the scrollers stand elsewhere.

ghost use Rattle.std.specs.Prelude.{◌≡◌, OnOk, OnErr};
ghost use Rattle.impl_log.specs.Runs.{with_entry};
ghost use Rattle.impl_core.specs.inner.Moving.{ComesMoving};

use crate::core_state::Core;
use crate::drawn::Drawn;
use impl_scroll::Standing;
use model_history::Event;
use std::alloc::AllocError;

impl Core {
    /// Enters a scroll, a wheel or an abort that may come now, and lets the scrollers stand where they stand after it.
    /// What there is to choose from is forgotten, since tiles have other ranks then. An error means out of memory,
    /// and nothing was entered.
    pub(crate) fn enter_moving(
        &mut self,
        actor: u32,
        event: Event,
        standing: Standing,
    ) -> Result<(), AllocError>
        requires { ComesMoving self.old actor event standing }
        ensures ok { OnOk result (self.new ≡ with_entry self.old actor event) }
        ensures err { OnErr result (self.new ≡ self.old) }
    {
        self.log.enter(actor, event)?;
        self.host.stand(standing);
        self.tiles.forget();
        self.required.forget();
        self.drawn = Drawn::Nothing;
        Ok(())
    }
}
