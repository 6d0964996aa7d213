//! Entering an event by its kind and its actor.

ghost use Rattle.std.specs.Prelude.{◌≡◌, ◌+◌, ◌≤◌, ◌<◌, true};
ghost use Rattle.model_states.specs.declared.kind.Kind.TheVariants as kind;
ghost use Rattle.impl_core.specs.Replies.{is_own};
ghost use Rattle.proxy_single_thread.specs.Singles.{SingleEnters, HasKind};

use crate::single::SingleThread;
use model_lockstep::EnterFault;
use model_states::Kind;

impl SingleThread {
    /// Enters the event of this kind and actor, if it may come now. The actor is one that has such events:
    /// 0 is the compositor, 1 the main side (`Ready` and `Abort`), `2 + w` the worker w (`Start` and `Done`);
    /// each of them has a `Stop`. `NotNow` comes exactly if none may come; on an error nothing was entered.
    pub fn enter(&mut self, kind: Kind, actor: u32) -> Result<(), EnterFault>
        requires { HasKind self.old.run.workers kind actor }
        ensures answer { SingleEnters self.old.run kind actor self.new.run result }
        ensures written { self.new.written ≡ self.old.written }
    {
        match kind {
            Kind::Ready => self.enter_ready(),
            Kind::Abort => self.enter_abort(),
            Kind::Start => self.enter_start(actor),
            Kind::Done => self.enter_done(actor),
            Kind::Stop => self.enter_stop(actor),
            _ => self.enter_own(kind),
        }
    }

    // The main side is ready with the frame in flight.
    fn enter_ready(&mut self) -> Result<(), EnterFault>
        ensures answer { SingleEnters self.old.run kind.Ready 1 self.new.run result }
        ensures written { self.new.written ≡ self.old.written }
    {
        self.main.ready(&mut self.core)
    }

    // The main side has changed nothing in the frame in flight.
    fn enter_abort(&mut self) -> Result<(), EnterFault>
        ensures answer { SingleEnters self.old.run kind.Abort 1 self.new.run result }
        ensures written { self.new.written ≡ self.old.written }
    {
        self.main.abort(&mut self.core)
    }

    // A worker starts the next tile.
    fn enter_start(&mut self, actor: u32) -> Result<(), EnterFault>
        requires { (2 ≤ actor) × (actor < 2 + self.old.run.workers) }
        ensures answer { SingleEnters self.old.run kind.Start actor self.new.run result }
        ensures written { self.new.written ≡ self.old.written }
    {
        let answer = self.workers.start(&mut self.core, actor - 2);
        self.core.is_legal();
        answer
    }

    // A worker is done with its tile.
    fn enter_done(&mut self, actor: u32) -> Result<(), EnterFault>
        requires { (2 ≤ actor) × (actor < 2 + self.old.run.workers) }
        ensures answer { SingleEnters self.old.run kind.Done actor self.new.run result }
        ensures written { self.new.written ≡ self.old.written }
    {
        let answer = self.workers.done(&mut self.core, actor - 2);
        self.core.is_legal();
        answer
    }

    // An actor stops, if the run has not ended.
    fn enter_stop(&mut self, actor: u32) -> Result<(), EnterFault>
        requires { actor < 2 + self.old.run.workers }
        ensures answer { SingleEnters self.old.run kind.Stop actor self.new.run result }
        ensures written { self.new.written ≡ self.old.written }
    {
        if self.core.ended() {
            return Err(EnterFault::NotNow);
        }
        self.core.stop(actor);
        self.core.is_legal();
        Ok(())
    }

    // The compositor does something itself.
    fn enter_own(&mut self, kind: Kind) -> Result<(), EnterFault>
        requires { is_own kind ≡ true }
        ensures answer { SingleEnters self.old.run kind 0 self.new.run result }
        ensures written { self.new.written ≡ self.old.written }
    {
        let answer = self.shown.play(&mut self.core, kind);
        self.core.is_legal();
        self.workers
            .prepared
            .follow(kind, self.core.plan().raster_per_frame());
        answer
    }
}
