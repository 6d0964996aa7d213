//! The inputs that a host tells: ticks, scrolls and wheels.

ghost use Rattle.std.specs.Prelude.{◌≡◌, ◌<◌, ◌≤◌, Some, None, true, false, is_some, length, IsTrue, OnOk, OnErr};
ghost use Rattle.model_states.specs.Kinds.{may};
ghost use Rattle.model_history.specs.Legal.{Legal, sched};
ghost use Rattle.model_history.specs.Ranges.{input_in_range};
ghost use Rattle.model_history.specs.declared.input.Input.TheVariants as input;
ghost use Rattle.impl_core.specs.Replies.{is_own};
ghost use Rattle.impl_log.specs.Runs.{now, past, Entered};
ghost use Rattle.cc_live.specs.Lives.{Uses, with_told};
ghost use Rattle.cc_live.specs.Calls.{UsesInput, Tells, most_told, kind_using, is_for_host};

use crate::fault::LiveFault;
use crate::live::Live;
use impl_core::{Core, CoreFault};
use model_history::Input;
use model_states::Kind;
use std::alloc::AllocError;

/// How many inputs, and how many main frames, are told at most.
pub(crate) const MOST_TOLD: u32 = 4_294_967_294;

// The kind of the event that uses an input.
fn kind_of(input: Input) -> Kind
    ensures { result ≡ kind_using input }
{
    match input {
        Input::Scroll { .. } => Kind::Scroll,
        Input::Wheel { .. } => Kind::Wheel,
        Input::Draw => Kind::BeginDraw,
        Input::Await { .. } => Kind::Await,
        Input::Settle => Kind::Settle,
    }
}

// Whether two inputs are one.
fn are_same(a: Input, b: Input) -> bool
    ensures same { IsTrue result → a ≡ b }
    ensures equal { a ≡ b → IsTrue result }
{
    a == b
}

// Plays an event of the compositor that may come now.
pub(crate) fn play_next(core: &mut Core, kind: Kind) -> Result<(), AllocError>
    requires own { is_own kind ≡ true }
    requires may { is_some (now core.old kind 0) ≡ true }
    ensures ok { OnOk result (Entered core.old kind 0 core.new) }
    ensures legal { OnOk result (Legal core.new.script core.new.workers (past core.new)) }
    ensures err { OnErr result (core.new ≡ core.old) }
{
    match core.play(kind) {
        Ok(_) => {
            core.is_legal();
            Ok(())
        }
        Err(CoreFault::Memory(refused)) => Err(refused),
        Err(CoreFault::NotNow { .. }) => unreachable!(),
    }
}

impl Live {
    // Whether the script takes another input, while none waits.
    fn has_room(&self) -> bool
        requires { self.now.waits ≡ None }
        ensures room { IsTrue result → length self.now.run.script.inputs < most_told }
        ensures worn { result ≡ false → most_told ≤ length self.now.run.script.inputs }
    {
        self.core.progress().inputs < MOST_TOLD
    }

    // Tells the run an input, while none waits and the script has room for it.
    fn add_told(&mut self, input: Input)
        requires host { is_for_host input ≡ true }
        requires fits { input_in_range 0 input ≡ true }
        requires free { self.old.waits ≡ None }
        requires room { length self.old.run.script.inputs < most_told }
        ensures { self.new ≡ with_told self.old input }
    {
        self.core.is_legal();
        self.core.add_input(input);
        self.waits = Some(input);
    }

    // Tells the run an input, while none waits.
    fn tell_now(&mut self, input: Input) -> Result<(), LiveFault>
        requires host { is_for_host input ≡ true }
        requires fits { input_in_range 0 input ≡ true }
        requires free { self.old.waits ≡ None }
        ensures tells { Tells self.old input self.new result }
        ensures entries { self.new.run.entries ≡ self.old.run.entries }
    {
        if self.has_room() {
            self.add_told(input);
            Ok(())
        } else {
            Err(LiveFault::Worn)
        }
    }

    // Tells the run an input, unless it waits already.
    fn tell(&mut self, input: Input) -> Result<(), LiveFault>
        requires host { is_for_host input ≡ true }
        requires fits { input_in_range 0 input ≡ true }
        ensures tells { Tells self.old input self.new result }
        ensures entries { self.new.run.entries ≡ self.old.run.entries }
    {
        match self.waits {
            None => self.tell_now(input),
            Some(waiting) => {
                if are_same(waiting, input) {
                    Ok(())
                } else {
                    Err(LiveFault::NotNow)
                }
            }
        }
    }

    // Uses the input that waits.
    fn use_told(&mut self, input: Input) -> Result<(), AllocError>
        requires host { is_for_host input ≡ true }
        requires waits { self.old.waits ≡ Some input }
        requires may { may (sched (past self.old.run)) (kind_using input) ≡ true }
        ensures ok { OnOk result (Uses self.old (kind_using input) self.new) }
        ensures err { OnErr result (self.new ≡ self.old) }
    {
        play_next(&mut self.core, kind_of(input))?;
        self.waits = None;
        Ok(())
    }

    // Tells an input and uses it.
    fn use_input(&mut self, input: Input) -> Result<(), LiveFault>
        requires host { is_for_host input ≡ true }
        requires fits { input_in_range 0 input ≡ true }
        ensures { UsesInput self.old input self.new result }
    {
        if !self.core.progress().sched.may(kind_of(input)) {
            return Err(LiveFault::NotNow);
        }
        if let Err(fault) = self.tell(input) {
            return Err(fault);
        }
        match self.use_told(input) {
            Ok(()) => Ok(()),
            Err(refused) => Err(LiveFault::Memory(refused)),
        }
    }

    // Tells an input and uses it, if its numbers are in their ranges.
    fn use_in_range(&mut self, input: Input) -> Result<(), LiveFault>
        requires host { is_for_host input ≡ true }
        ensures { UsesInput self.old input self.new result }
    {
        if !input.is_in_range(0) {
            return Err(LiveFault::OutOfRange);
        }
        self.use_input(input)
    }

    /// Begins an impl frame, which is to be drawn. `NotNow` comes if one is open or another input waits, `Worn` after
    /// 2^32 - 2 inputs.
    ///
    /// If memory is refused, the tick is told: it waits, and the call is to be made again before any other input is
    /// told.
    pub fn tick(&mut self) -> Result<(), LiveFault>
        ensures { UsesInput self.old input.Draw self.new result }
    {
        self.use_input(Input::Draw)
    }

    /// Scrolls a scroller of the active page by `dx` and `dy` pixels, as far as its range allows: the newest event
    /// then says how far. `OutOfRange` comes unless the scroller is 1 to 65535 and both amounts are at most 1,048,576
    /// either way, `NotNow` if an impl frame was drawn and is not finished or another input waits, `Worn` after
    /// 2^32 - 2 inputs.
    ///
    /// If memory is refused, the scroll is told: it waits, and the call is to be made again before any other input is
    /// told.
    pub fn scroll(&mut self, scroller: u32, dx: i32, dy: i32) -> Result<(), LiveFault>
        ensures { UsesInput self.old (input.Scroll scroller dx dy) self.new result }
    {
        self.use_in_range(Input::Scroll { scroller, dx, dy })
    }

    /// Turns the wheel at a point of the screen: it scrolls what lies there, and what that leaves goes to the
    /// scrollers around it. The newest event then says what was moved. `OutOfRange` comes unless the point's
    /// coordinates are 0 to 2047 and both amounts at most 1,048,576 either way; the other faults are those of
    /// `scroll`.
    pub fn wheel(&mut self, x: u32, y: u32, dx: i32, dy: i32) -> Result<(), LiveFault>
        ensures { UsesInput self.old (input.Wheel x y dx dy) self.new result }
    {
        self.use_in_range(Input::Wheel { x, y, dx, dy })
    }
}
