//! A compositor on one thread as the loops of lockstep see it.

ghost use Rattle.proxy_single_thread.specs.Singles.{walk_of};

use crate::single::SingleThread;
use model_lockstep::{Compositor, EnterFault};
use model_states::Kind;
use std::alloc::AllocError;
use std::thread::Threads;

impl Compositor for SingleThread {
    ghost run = { λ t. walk_of t };

    fn enter(&mut self, kind: Kind, actor: u32) -> Result<(), EnterFault> {
        self.has_worker();
        SingleThread::enter(self, kind, actor)
    }

    fn can_activate(&mut self) -> Result<bool, AllocError> {
        self.core.may(Kind::Activate)
    }

    fn can_await(&self) -> bool {
        self.core.may_plain(Kind::Await)
    }

    fn waits(&self) -> bool {
        self.core.progress().pending.is_some()
    }

    fn has_first(&mut self) -> Result<bool, AllocError> {
        Ok(self.core.first()?.is_some())
    }

    fn is_left(&self) -> bool {
        self.core.is_left()
    }

    fn is_active(&self) -> bool {
        self.core.progress().active.is_some()
    }

    fn raster_per_frame(&self) -> u32 {
        self.core.plan().raster_per_frame()
    }

    fn changes(&mut self) -> Result<bool, AllocError> {
        self.core.is_legal();
        self.main.run(&self.core)?;
        Ok(self.main.changed)
    }

    fn make_ahead<R: Threads + Sync>(&mut self, rt: &R) {
        // If memory is refused, each tile is made when its end is asked for.
        let _made = self.prepare(rt);
    }
}
