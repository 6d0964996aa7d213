//! A scroll is accepted.

ghost use Rattle.std.specs.Prelude.{◌≡◌, true, Some, is_some, IfOk, OnOk, OnErr};
ghost use Rattle.model_states.specs.declared.kind.Kind.TheVariants as kind;
ghost use Rattle.model_history.specs.declared.input.Input.TheVariants as input;
ghost use Rattle.model_history.specs.Due.{input_now};
ghost use Rattle.model_history.specs.Legal as legal;
ghost use Rattle.impl_log.specs.Runs.{past, now, Entered, Plays};

use crate::core_state::Core;
use model_history::{Event, Input};
use model_states::Kind;
use page_layers::Move;
use std::alloc::AllocError;

impl Core {
    /// Whether a scroll may be accepted now: the next input is one, and the scheduler's state allows it.
    pub(crate) fn may_scroll(&self) -> bool
        ensures { result ≡ is_some (now self.now kind.Scroll 0) }
    {
        let open = self.log.is_open(Kind::Scroll);
        match self.log.input_now() {
            Some(Input::Scroll { .. }) => open,
            _ => false,
        }
    }

    // Enters the scroll that is the next input.
    fn enter_scroll(&mut self, scroller: u32, dx: i32, dy: i32) -> Result<(), AllocError>
        requires is_open { legal.is_open (past self.old) kind.Scroll ≡ true }
        requires asked { input_now self.old.script (past self.old) ≡ Some (input.Scroll scroller dx dy) }
        ensures ok { OnOk result (Entered self.old kind.Scroll 0 self.new) }
        ensures err { OnErr result (self.new ≡ self.old) }
    {
        self.log.is_legal();
        let pages = self.host.pages();
        let taken = self
            .host
            .standing()
            .accepted(pages.active, scroller, dx, dy);
        let moves = [Move::by(scroller, taken)];
        let standing = self.host.standing().moved(self.alloc, pages, &moves)?;
        let input = self.log.next_input();
        self.enter_moving(0, Event::scroll(input, taken), standing)
    }

    /// Accepts the scroll that is the next input, as far as the active range allows, if one may be
    /// accepted now, and answers whether it was. An error means out of memory, and nothing was entered.
    pub fn scroll(&mut self) -> Result<bool, AllocError>
        ensures plays { IfOk result (λ played. Plays self.old kind.Scroll 0 self.new played) }
        ensures err { OnErr result (self.new ≡ self.old) }
    {
        let open = self.log.is_open(Kind::Scroll);
        match self.log.input_now() {
            Some(Input::Scroll { scroller, dx, dy }) => {
                if open {
                    self.enter_scroll(scroller, dx, dy)?;
                    Ok(true)
                } else {
                    Ok(false)
                }
            }
            _ => Ok(false),
        }
    }
}
