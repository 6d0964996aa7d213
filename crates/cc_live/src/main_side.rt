//! The main thread's calls: its page is edited command by command while a main frame is in flight.

ghost use Rattle.std.specs.Prelude.{◌≡◌, true, false, Some, None, is_some, IfOk, OnOk, OnErr};
ghost use Rattle.model_history.specs.Ranges.{command_in_range};
ghost use Rattle.model_history.specs.Frames.{changes, commands_of, pulls_of};
ghost use Rattle.model_history.specs.declared.event.Event.TheVariants as event;
ghost use Rattle.impl_log.specs.Runs.{past};
ghost use Rattle.cc_live.specs.MainSide.{Opens, OpensPage, Edits, Ends, Answers, AnswersBy, IsMade, Makes, MakesFrame, told_run};
ghost use Rattle.cc_live.specs.Lives.{OpenModel};

use crate::command_numbers::are_in_range;
use crate::live::Live;
use crate::main_edits::{edit_frame, made_of, opened_with};
use crate::main_fault::{Ended, MainFault};
use crate::open_frame::OpenFrame;
use impl_core::Handed;
use model_history::{Moves, changes_something};
use page_layers::{Command, LayerTree};
use std::alloc::AllocError;
use std::sync::Arc;

impl Live {
    /// The page after the main frames that were answered.
    pub fn main_page(&self) -> &LayerTree
        ensures { result.now ≡ self.now.main }
    {
        &self.main
    }

    // The page after the pulls of the main frame in flight, and these pulls.
    fn opened(&self) -> Result<(LayerTree, Moves), MainFault>
        ensures { OpensPage self.now result }
    {
        self.core.is_legal();
        match self.core.in_flight() {
            None => Err(MainFault::NotNow),
            Some((_, pulls)) => match opened_with(self.alloc, &self.main, pulls) {
                Ok(opened) => Ok(opened),
                Err(refused) => Err(MainFault::Memory(refused)),
            },
        }
    }

    /// Opens the main frame in flight, and answers what was scrolled since the one before it was asked for, each with
    /// its scroller: the page takes these moves, and then the commands of `edit`. A main frame that is open already
    /// begins anew. `NotNow` comes exactly if none is in flight: `ask` sends one. An error leaves all as it was.
    pub fn main_begin(&mut self) -> Result<Moves, MainFault>
        ensures { Opens self.old self.new result }
    {
        match self.opened() {
            Ok((page, pulls)) => {
                let commands = Vec::new(self.alloc);
                self.open_frame = Some(OpenFrame { page, commands });
                Ok(pulls)
            }
            Err(fault) => Err(fault),
        }
    }

    // Applies a command to the page of the main frame that is open.
    fn edit_open(&mut self, command: Command) -> Result<(), MainFault>
        requires open_frame { is_some self.old.open_frame ≡ true }
        requires fits { command_in_range 2 command ≡ true }
        ensures { Edits self.old command self.new result }
    {
        match &mut self.open_frame {
            None => unreachable!(),
            Some(edited) => edit_frame(edited, command),
        }
    }

    /// Applies a command to the page of the open main frame. `Refused` comes with the first fault that the command has
    /// in that page, `NotNow` if no main frame is open, `Worn` after 2^32 - 1 commands. An error leaves all as it was.
    pub fn edit(&mut self, command: Command) -> Result<(), MainFault>
        ensures { Edits self.old command self.new result }
    {
        if self.open_frame.is_none() {
            return Err(MainFault::NotNow);
        }
        are_in_range(&command);
        self.edit_open(command)
    }

    // What the open main frame makes of the page before it.
    fn made(&self) -> Result<(u32, Handed), MainFault>
        ensures { MakesFrame self.now result }
    {
        self.core.is_legal();
        match self.core.in_flight() {
            None => Err(MainFault::NotNow),
            Some((frame, pulls)) => match &self.open_frame {
                None => Err(MainFault::NotNow),
                Some(edited) => match made_of(
                    self.alloc,
                    &self.main,
                    pulls.as_slice(),
                    edited.commands.as_slice(),
                ) {
                    Ok(handed) => Ok((frame, handed)),
                    Err(refused) => Err(MainFault::Memory(refused)),
                },
            },
        }
    }

    // Tells the run the commands of the open main frame, which is closed, and answers them.
    fn tell_commands(&mut self, frame: u32, handed: &Handed) -> Vec<Command>
        requires { Makes self.old frame handed.now }
        ensures told { (edited : OpenModel) → self.old.open_frame ≡ Some edited → self.new ≡ record self.old { run = told_run self.old.run edited.commands; open_frame = None } }
        ensures made { IsMade self.new frame handed.now }
        ensures commands { commands_of self.new.run.script frame ≡ result.items }
    {
        // The contract alone speaks of what was made.
        let _ = frame;
        let _ = handed;
        self.core.is_legal();
        match self.open_frame.take() {
            None => unreachable!(),
            Some(edited) => {
                self.core.end_frame(&edited.commands);
                edited.commands
            }
        }
    }

    // Whether the main frame in flight, which has these commands, changes something.
    fn changes(&self, frame: u32, handed: &Handed, commands: &[Command]) -> bool
        requires made { IsMade self.now frame handed.now }
        requires commands { commands_of self.now.run.script frame ≡ commands.now }
        ensures { result ≡ changes self.now.run.script (pulls_of (past self.now.run)) frame }
    {
        // The contract alone speaks of its number.
        let _ = frame;
        self.core.is_legal();
        match self.core.in_flight() {
            None => unreachable!(),
            Some((_, pulls)) => {
                changes_something(commands, pulls.as_slice(), &self.main, &handed.tree)
            }
        }
    }

    // Answers the main frame in flight by its commit.
    fn hand_over(&mut self, frame: u32, handed: Handed) -> Result<(), AllocError>
        requires made { IsMade self.old frame handed }
        requires changes { changes self.old.run.script (pulls_of (past self.old.run)) frame ≡ true }
        ensures ok { OnOk result (AnswersBy self.old self.new (event.Ready frame)) }
        ensures err { OnErr result (self.new ≡ self.old) }
    {
        self.core.is_legal();
        let page = Arc::try_clone(&handed.tree)?;
        match self.core.ready_with(frame, handed) {
            Ok(()) => {
                self.main = page;
                Ok(())
            }
            Err((refused, _)) => Err(refused),
        }
    }

    // Answers the main frame in flight, which changed nothing.
    fn give_up(&mut self, frame: u32, handed: Handed) -> Result<(), AllocError>
        requires made { IsMade self.old frame handed }
        requires changes { changes self.old.run.script (pulls_of (past self.old.run)) frame ≡ false }
        ensures ok { OnOk result (AnswersBy self.old self.new (event.Abort frame)) }
        ensures err { OnErr result (self.new ≡ self.old) }
    {
        self.core.is_legal();
        self.core.abort(frame)?;
        self.main = handed.tree;
        Ok(())
    }

    // Answers the main frame in flight, which was told these commands.
    fn answer(
        &mut self,
        frame: u32,
        handed: Handed,
        commands: &[Command],
    ) -> Result<Ended, AllocError>
        requires made { IsMade self.old frame handed }
        requires commands { commands_of self.old.run.script frame ≡ commands.now }
        ensures ok { IfOk result (λ ended. Answers self.old frame self.new ended) }
        ensures err { OnErr result (self.new ≡ self.old) }
    {
        if self.changes(frame, &handed, commands) {
            self.hand_over(frame, handed)?;
            Ok(Ended::Ready)
        } else {
            self.give_up(frame, handed)?;
            Ok(Ended::Unchanged)
        }
    }

    /// Ends the open main frame: its commands are told, and the frame in flight is answered, by a commit exactly if it
    /// changes something. It has commands then, or its scrollers moved by more or less than the pulls, as where a
    /// range cuts one. `NotNow` comes if no main frame is open or none is in flight, and changes nothing. If memory is
    /// refused, the open main frame may be given up with its commands: `main_begin` begins it again.
    ///
    /// The commands are applied once more to the page before the frame.
    pub fn main_end(&mut self) -> Result<Ended, MainFault>
        ensures { Ends self.old self.new result }
    {
        let (frame, handed) = match self.made() {
            Ok(made) => made,
            Err(fault) => return Err(fault),
        };
        let commands = self.tell_commands(frame, &handed);
        match self.answer(frame, handed, commands.as_slice()) {
            Ok(ended) => Ok(ended),
            Err(refused) => Err(MainFault::Memory(refused)),
        }
    }
}
