//! What the compositor side keeps of a script.

ghost use Rattle.std.specs.Prelude.{◌≡◌, length};
ghost use Rattle.model_history.specs.Accepted.{IsPlayable};
ghost use Rattle.model_history.specs.Growth.{with_input, with_main_frame, with_commands};

use crate::input::Input;
use crate::plan_parts::PlanParts;
use crate::script::Script;
use ghost_list::GhostList;
use page_layers::Command;
use pixel::Colour;
use std::alloc::Global;
use std::marker::Model;
use tile_priority::TreePriority;

/// What the compositor side keeps of a script that can be played: the numbers that hold for the whole run, and how many
/// main frames and inputs there are. What these say is for clauses alone, so that a plan takes the same memory however
/// much is told.
///
/// Contracts see the script.
pub struct Plan {
    parts: PlanParts,
}

impl Model for Plan {
    ghost use Rattle.std.specs.Prelude.{◌≡◌, length};
    ghost use Rattle.model_history.specs.Scripts.{ScriptModel};
    ghost use Rattle.model_history.specs.Accepted.{IsPlayable};
    ghost use Rattle.model_history.specs.inner.Plans.{planned};

    ghost Value = { ScriptModel };

    ghost view = { λ p. planned p.parts };

    ghost invariant = { λ p. IsPlayable (planned p.parts) × (p.parts.frame_count ≡ length p.parts.main.items) × (p.parts.input_count ≡ length p.parts.inputs.items) };
}

// Written out, since a derived drop is proved anew, field by field, in each function that lets one go.
impl Drop for Plan {
    fn drop(self) {
        let Plan { parts: _ } = self;
    }
}

impl Plan {
    /// The plan of a script.
    pub fn of(script: &Script) -> Plan
        ensures { result ≡ script.now }
    {
        script.is_accepted();
        let parts = script.parts();
        Plan {
            parts: PlanParts {
                version: parts.version,
                viewport_w: parts.viewport_w,
                viewport_h: parts.viewport_h,
                tile: parts.tile,
                background: parts.background,
                budget: parts.budget,
                raster_per_frame: parts.raster_per_frame,
                soon: parts.soon,
                eventually: parts.eventually,
                priority: parts.priority,
                frame_count: parts.main.len() as u32,
                main: GhostList::of(parts.main.as_slice()),
                input_count: parts.inputs.len() as u32,
                inputs: GhostList::of(parts.inputs.as_slice()),
            },
        }
    }

    /// Tells an input more, after the others. Takes no memory.
    pub fn add_input(&mut self, input: Input)
        requires { IsPlayable (with_input self.old input) }
        ensures { self.new ≡ with_input self.old input }
    {
        self.parts.inputs = self.parts.inputs.and(&input);
        self.parts.input_count += 1;
    }

    /// Tells a main frame more, after the others, which has no commands yet. Takes no memory.
    pub fn add_frame(&mut self, alloc: Global)
        requires { IsPlayable (with_main_frame self.old) }
        ensures { self.new ≡ with_main_frame self.old }
    {
        self.parts.main = self.parts.main.and(&Vec::new(alloc));
        self.parts.frame_count += 1;
    }

    /// Tells the commands of the last main frame, in place of those that it had. A plan without main frames stays as
    /// it was. Takes no memory.
    pub fn end_frame(&mut self, commands: &Vec<Command>)
        requires { IsPlayable (with_commands self.old commands.now.items) }
        ensures { self.new ≡ with_commands self.old commands.now.items }
    {
        if self.parts.frame_count > 0 {
            self.parts.main = self.parts.main.with_last(commands);
        }
    }

    /// What the root is painted over.
    pub fn background(&self) -> Colour
        ensures { result ≡ self.now.background }
    {
        self.parts.background
    }

    /// How many tiles may be kept and made at once.
    pub fn budget(&self) -> u32
        ensures { result ≡ self.now.budget }
    {
        self.parts.budget
    }

    /// How many tiles one drawn frame may make in lockstep.
    pub fn raster_per_frame(&self) -> u32
        ensures { result ≡ self.now.raster_per_frame }
    {
        self.parts.raster_per_frame
    }

    /// How far from the viewport, in pixels, tiles come soon.
    pub fn soon(&self) -> u32
        ensures { result ≡ self.now.soon }
    {
        self.parts.soon
    }

    /// How far from the viewport, in pixels, tiles come eventually.
    pub fn eventually(&self) -> u32
        ensures { result ≡ self.now.eventually }
    {
        self.parts.eventually
    }

    /// Whose tiles come first while two trees stand.
    pub fn priority(&self) -> TreePriority
        ensures { result ≡ self.now.priority }
    {
        self.parts.priority
    }

    /// How many main frames there are.
    pub fn frame_count(&self) -> u32
        ensures { result ≡ length self.now.main }
    {
        self.parts.frame_count
    }

    /// How many inputs there are.
    pub fn input_count(&self) -> u32
        ensures { result ≡ length self.now.inputs }
    {
        self.parts.input_count
    }

    /// The script can be played. A law that does nothing when it runs.
    pub fn is_playable(&self)
        ensures { IsPlayable self.now }
    {
        // This read tells the proof what the type keeps; it does nothing when it runs.
        let _ = &self.parts;
    }
}
