//! The script of a log is told while it is played.

ghost use Rattle.std.specs.Prelude.{◌≡◌, true, false, None};
ghost use Rattle.model_states.specs.Kinds.{is_sent};
ghost use Rattle.model_history.specs.Accepted.{IsPlayable};
ghost use Rattle.model_history.specs.Due.{input_now};
ghost use Rattle.model_history.specs.Growth.{with_input, with_main_frame, with_commands, has_looked_ahead};
ghost use Rattle.model_history.specs.Legal.{sched};
ghost use Rattle.impl_log.specs.Runs.{past, with_script};

use crate::known_inputs::KnownInputs;
use crate::log::Log;
use model_history::Input;
use page_layers::Command;
use std::alloc::Global;

impl Log {
    /// Tells an input of the script, after the others, all of which are used. The history must hold no end and no impl
    /// frame for a main frame alone, since these come only if something is not said. Takes no memory.
    pub fn add_input(&mut self, input: Input)
        requires playable { IsPlayable (with_input self.old.script input) }
        requires looked { has_looked_ahead (past self.old) ≡ false }
        requires none { input_now self.old.script (past self.old) ≡ None }
        ensures { self.new ≡ with_script self.old (with_input self.old.script input) }
    {
        self.plan.add_input(input);
        self.known = KnownInputs::Next(Some(input));
    }

    /// Tells a main frame of the script, after the others, which has no commands yet. The history must hold no end and
    /// no impl frame for a main frame alone. Takes no memory.
    pub fn add_frame(&mut self, alloc: Global)
        requires playable { IsPlayable (with_main_frame self.old.script) }
        requires looked { has_looked_ahead (past self.old) ≡ false }
        ensures { self.new ≡ with_script self.old (with_main_frame self.old.script) }
    {
        self.plan.add_frame(alloc);
    }

    /// Tells the commands of the last main frame of the script, in place of those that it had, while a main frame is
    /// sent and waits for its answer. The history must hold no end and no impl frame for a main frame alone. Takes no
    /// memory.
    pub fn end_frame(&mut self, commands: &Vec<Command>)
        requires playable { IsPlayable (with_commands self.old.script commands.now.items) }
        requires looked { has_looked_ahead (past self.old) ≡ false }
        requires sent { is_sent (sched (past self.old)).main_state ≡ true }
        ensures { self.new ≡ with_script self.old (with_commands self.old.script commands.now.items) }
    {
        self.plan.end_frame(commands);
    }
}
