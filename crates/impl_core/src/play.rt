//! What the compositor does, by the kind of its event.

ghost use Rattle.std.specs.Prelude.{◌≡◌, true, false, is_some, IfOk, OnErr};
ghost use Rattle.model_states.specs.declared.kind.Kind.TheVariants as kind;
ghost use Rattle.impl_log.specs.Runs.{now, Plays};
ghost use Rattle.impl_core.specs.Replies.{is_own, is_draw_kind, IsReply};

use crate::core_state::Core;
use crate::reply::{CoreFault, Reply};
use model_states::Kind;
use std::alloc::AllocError;

impl Core {
    // Plays an event that shows nothing, if one may come now, and answers whether there was one.
    fn play_unseen(&mut self, kind: Kind) -> Result<bool, AllocError>
        requires own { is_own kind ≡ true }
        requires unseen { is_draw_kind kind ≡ false }
        ensures plays { IfOk result (λ played. Plays self.old kind 0 self.new played) }
        ensures err { OnErr result (self.new ≡ self.old) }
    {
        match kind {
            Kind::Send => self.send(),
            Kind::Commit => self.commit(),
            Kind::Activate => self.activate(),
            Kind::Scroll => self.scroll(),
            Kind::Wheel => self.wheel(),
            Kind::Settle => self.settle(),
            _ => self.play_plain(kind),
        }
    }

    // The same with the cause if there was none.
    fn reply_unseen(&mut self, kind: Kind) -> Result<Reply, CoreFault>
        requires own { is_own kind ≡ true }
        requires unseen { is_draw_kind kind ≡ false }
        ensures { IsReply self.old kind self.new result }
    {
        let sched = self.log.progress().sched;
        match self.play_unseen(kind) {
            Ok(true) => Ok(Reply::Plain),
            Ok(false) => Err(CoreFault::NotNow { sched, kind }),
            Err(refused) => Err(CoreFault::Memory(refused)),
        }
    }

    // A draw with its scene, or with the cause if there was none.
    fn reply_drawn(&mut self) -> Result<Reply, CoreFault>
        ensures { IsReply self.old kind.Draw self.new result }
    {
        let sched = self.log.progress().sched;
        match self.draw() {
            Ok(Some(scene)) => Ok(Reply::Scene(scene)),
            Ok(None) => Err(CoreFault::NotNow {
                sched,
                kind: Kind::Draw,
            }),
            Err(refused) => Err(CoreFault::Memory(refused)),
        }
    }

    /// Enters the one event of this kind of the compositor that may come now. A draw answers the scene whose
    /// pixels are the painting at this point. `NotNow` comes exactly if no event of the kind may come, with
    /// the present state of the scheduler; on an error nothing was entered.
    pub fn play(&mut self, kind: Kind) -> Result<Reply, CoreFault>
        requires { is_own kind ≡ true }
        ensures { IsReply self.old kind self.new result }
    {
        match kind {
            Kind::Draw => self.reply_drawn(),
            _ => self.reply_unseen(kind),
        }
    }

    /// Whether an event of this kind of the compositor may come now. An error means out of memory; the run stays
    /// in any case.
    pub fn may(&mut self, kind: Kind) -> Result<bool, AllocError>
        requires { is_own kind ≡ true }
        ensures may { IfOk result (λ may. may ≡ is_some (now self.old kind 0)) }
        ensures same { self.new ≡ self.old }
    {
        match kind {
            Kind::Send => Ok(self.may_send()),
            Kind::Commit => Ok(self.commit_now().is_some()),
            Kind::Activate => self.may_activate(),
            Kind::Scroll => Ok(self.may_scroll()),
            Kind::Wheel => Ok(self.may_wheel()),
            Kind::Draw => Ok(self.draw_now().is_some()),
            Kind::Settle => self.may_settle(),
            _ => Ok(self.may_plain(kind)),
        }
    }
}
