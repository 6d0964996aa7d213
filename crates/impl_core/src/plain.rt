//! The events that follow from the inputs, the main frames and the states alone, and the end of a settle.

ghost use Rattle.std.specs.Prelude.{◌≡◌, true, is_some, IfOk, OnErr};
ghost use Rattle.model_states.specs.declared.kind.Kind.TheVariants as kind;
ghost use Rattle.impl_log.specs.Runs.{now, is_plain_kind, Plays};

use crate::core_state::Core;
use model_history::{Event, Input};
use model_states::Kind;
use std::alloc::AllocError;

impl Core {
    /// Enters the event of a plain kind, if one may come now, and answers whether there was one. An error
    /// means out of memory, and nothing was entered.
    pub fn play_plain(&mut self, kind: Kind) -> Result<bool, AllocError>
        requires { is_plain_kind kind ≡ true }
        ensures plays { IfOk result (λ played. Plays self.old kind 0 self.new played) }
        ensures err { OnErr result (self.new ≡ self.old) }
    {
        self.log.enter_plain(kind)
    }

    /// Whether an event of a plain kind may come now.
    pub fn may_plain(&self, kind: Kind) -> bool
        requires { is_plain_kind kind ≡ true }
        ensures { result ≡ is_some (now self.now kind 0) }
    {
        self.log.plain_now(kind).is_some()
    }

    /// Whether the end of a settle may come now. An error means out of memory; the run stays in any case.
    pub(crate) fn may_settle(&mut self) -> Result<bool, AllocError>
        ensures may { IfOk result (λ may. may ≡ is_some (now self.old kind.Settle 0)) }
        ensures same { self.new ≡ self.old }
    {
        let open = self.log.is_open(Kind::Settle);
        let asked = self.log.input_now() == Some(Input::Settle);
        let landed = self.log.progress().in_flight == 0;
        if open && asked && landed {
            Ok(self.first()?.is_none())
        } else {
            Ok(false)
        }
    }

    /// Enters the end of a settle, if the next input is one and no tile is left to make, and answers
    /// whether it was. An error means out of memory, and nothing was entered.
    pub fn settle(&mut self) -> Result<bool, AllocError>
        ensures plays { IfOk result (λ played. Plays self.old kind.Settle 0 self.new played) }
        ensures err { OnErr result (self.new ≡ self.old) }
    {
        if self.may_settle()? {
            let input = self.log.next_input();
            self.log.enter(0, Event::Settle { input })?;
            Ok(true)
        } else {
            Ok(false)
        }
    }
}
