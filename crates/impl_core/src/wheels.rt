//! A wheel is turned.

ghost use Rattle.std.specs.Prelude.{◌≡◌, true, Some, is_some, IfOk, OnOk, OnErr};
ghost use Rattle.model_states.specs.declared.kind.Kind.TheVariants as kind;
ghost use Rattle.model_history.specs.declared.input.Input.TheVariants as input;
ghost use Rattle.model_history.specs.Due.{input_now};
ghost use Rattle.model_history.specs.Legal as legal;
ghost use Rattle.impl_log.specs.Runs.{past, now, Entered, Plays};

use crate::core_state::Core;
use impl_scroll::moves_of;
use model_history::{Event, Input};
use model_states::Kind;
use std::alloc::AllocError;

impl Core {
    /// Whether a wheel may be turned now: the next input is one, and the scheduler's state allows it.
    pub(crate) fn may_wheel(&self) -> bool
        ensures { result ≡ is_some (now self.now kind.Wheel 0) }
    {
        let open = self.log.is_open(Kind::Wheel);
        match self.log.input_now() {
            Some(Input::Wheel { .. }) => open,
            _ => false,
        }
    }

    // Enters the wheel that is the next input.
    fn enter_wheel(&mut self, x: u32, y: u32, dx: i32, dy: i32) -> Result<(), AllocError>
        requires is_open { legal.is_open (past self.old) kind.Wheel ≡ true }
        requires asked { input_now self.old.script (past self.old) ≡ Some (input.Wheel x y dx dy) }
        ensures ok { OnOk result (Entered self.old kind.Wheel 0 self.new) }
        ensures err { OnErr result (self.new ≡ self.old) }
    {
        self.log.is_legal();
        let pages = self.host.pages();
        let wheel = self
            .host
            .standing()
            .wheel(self.alloc, pages.active, x, y, dx, dy)?;
        let moves = moves_of(self.alloc, &wheel.parts)?;
        let standing = self
            .host
            .standing()
            .moved(self.alloc, pages, moves.as_slice())?;
        let input = self.log.next_input();
        let event = Event::wheel(input, wheel.target, wheel.rest, moves);
        self.enter_moving(0, event, standing)
    }

    /// Turns the wheel that is the next input, if one may be turned now, and answers whether it was. An
    /// error means out of memory, and nothing was entered.
    pub fn wheel(&mut self) -> Result<bool, AllocError>
        ensures plays { IfOk result (λ played. Plays self.old kind.Wheel 0 self.new played) }
        ensures err { OnErr result (self.new ≡ self.old) }
    {
        let open = self.log.is_open(Kind::Wheel);
        match self.log.input_now() {
            Some(Input::Wheel { x, y, dx, dy }) => {
                if open {
                    self.enter_wheel(x, y, dx, dy)?;
                    Ok(true)
                } else {
                    Ok(false)
                }
            }
            _ => Ok(false),
        }
    }
}
