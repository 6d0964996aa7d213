//! Accepted scripts.

ghost use Rattle.std.specs.Prelude.{◌≡◌, true, map, IfOk};
ghost use Rattle.model_history.specs.Scripts.{script_of};
ghost use Rattle.model_history.specs.Ranges.{is_in_ranges, are_short};
ghost use Rattle.model_history.specs.Accepted.{IsAccepted, IsPlayable};
ghost use Rattle.model_history.specs.Frames.{blank, commands_of};
ghost use Rattle.model_history.specs.Judging.{Judged, framed};

use crate::applying::apply_frames;
use crate::input::Input;
use crate::script_error::ScriptError;
use crate::script_parts::ScriptParts;
use page_layers::{Command, LayerTree, View};
use pixel::Colour;
use std::alloc::{AllocError, Global};
use std::marker::Model;
use tile_priority::TreePriority;

/// A script whose commands are all taken, one main frame after another, by a page that is blank at
/// first.
pub struct Script {
    parts: ScriptParts,
}

impl Model for Script {
    ghost use Rattle.std.specs.Prelude.{◌≡◌, true};
    ghost use Rattle.model_history.specs.Scripts.{ScriptModel, script_of};
    ghost use Rattle.model_history.specs.Ranges.{are_short};
    ghost use Rattle.model_history.specs.Accepted.{IsAccepted};

    ghost Value = { ScriptModel };

    ghost view = { λ s. script_of s.parts };

    ghost invariant = { λ s. IsAccepted (script_of s.parts) × (are_short (script_of s.parts).main ≡ true) };
}

// Written out, since a derived drop is proved anew, field by field, in each function that lets one go.
impl Drop for Script {
    fn drop(self) {
        let Script { parts: _ } = self;
    }
}

// The page before all frames: the script's view, and nothing in it.
fn blank_page(alloc: Global, parts: &ScriptParts) -> LayerTree
    requires { is_in_ranges (script_of parts.now) ≡ true }
    ensures { result ≡ blank (script_of parts.now) }
{
    LayerTree::new(
        alloc,
        View {
            w: parts.viewport_w,
            h: parts.viewport_h,
            tile: parts.tile,
        },
    )
}

impl Script {
    /// The script of these parts, whose numbers are in their ranges. Its commands are applied in order
    /// from a blank page on, without pulls; `Command` tells the first that is refused.
    pub fn new(alloc: Global, parts: ScriptParts) -> Result<Script, ScriptError>
        requires ranges { is_in_ranges (script_of parts) ≡ true }
        requires short { are_short (script_of parts).main ≡ true }
        ensures { Judged (script_of parts) result }
    {
        let mut tree = blank_page(alloc, &parts);
        apply_frames(&mut tree, parts.main.as_slice())?;
        Ok(Script { parts })
    }

    /// The page after all main frames, if none is sent any scroll of the compositor side.
    pub fn page(&self, alloc: Global) -> Result<LayerTree, AllocError>
        ensures { IfOk result (λ page. page ≡ framed self.now.main (blank self.now)) }
    {
        let mut tree = blank_page(alloc, &self.parts);
        match apply_frames(&mut tree, self.parts.main.as_slice()) {
            Ok(()) => Ok(tree),
            Err(ScriptError::Memory(refused)) => Err(refused),
            Err(ScriptError::Command { .. }) => unreachable!(),
        }
    }

    /// The page before all main frames: the script's view, and nothing in it.
    pub fn first_page(&self, alloc: Global) -> LayerTree
        ensures { result ≡ blank self.now }
    {
        blank_page(alloc, &self.parts)
    }

    /// The parts that it was made of.
    pub fn parts(&self) -> &ScriptParts
        ensures { script_of result.now ≡ self.now }
    {
        &self.parts
    }

    /// The format's version, 1 or 2.
    pub fn version(&self) -> u32
        ensures { result ≡ self.now.version }
    {
        self.parts.version
    }

    /// The viewport's width in pixels, before any frame changes it.
    pub fn viewport_w(&self) -> u32
        ensures { result ≡ self.now.viewport_w }
    {
        self.parts.viewport_w
    }

    /// The viewport's height in pixels, before any frame changes it.
    pub fn viewport_h(&self) -> u32
        ensures { result ≡ self.now.viewport_h }
    {
        self.parts.viewport_h
    }

    /// The side of a tile in pixels, before any frame changes it.
    pub fn tile(&self) -> u32
        ensures { result ≡ self.now.tile }
    {
        self.parts.tile
    }

    /// What the root is painted over.
    pub fn background(&self) -> Colour
        ensures { result ≡ self.now.background }
    {
        self.parts.background
    }

    /// How many tiles may be kept and made at once.
    pub fn budget(&self) -> u32
        ensures { result ≡ self.now.budget }
    {
        self.parts.budget
    }

    /// How many tiles one drawn frame may make in lockstep.
    pub fn raster_per_frame(&self) -> u32
        ensures { result ≡ self.now.raster_per_frame }
    {
        self.parts.raster_per_frame
    }

    /// How far from the viewport, in pixels, tiles come soon.
    pub fn soon(&self) -> u32
        ensures { result ≡ self.now.soon }
    {
        self.parts.soon
    }

    /// How far from the viewport, in pixels, tiles come eventually.
    pub fn eventually(&self) -> u32
        ensures { result ≡ self.now.eventually }
    {
        self.parts.eventually
    }

    /// Whose tiles come first while two trees stand.
    pub fn priority(&self) -> TreePriority
        ensures { result ≡ self.now.priority }
    {
        self.parts.priority
    }

    /// The commands of each main frame, frame 0 first.
    pub fn main(&self) -> &[Vec<Command>]
        ensures { map (λ frame. frame.items) result.now ≡ self.now.main }
    {
        self.parts.main.as_slice()
    }

    /// The commands of a main frame, counted from 0; none if there is no such frame.
    pub fn commands(&self, frame: u32) -> &[Command]
        ensures { result.now ≡ commands_of self.now frame }
    {
        match self.main().get(frame as usize) {
            Some(commands) => commands.as_slice(),
            None => &[],
        }
    }

    /// What the compositor side is to do, in order.
    pub fn inputs(&self) -> &[Input]
        ensures { result.now ≡ self.now.inputs }
    {
        self.parts.inputs.as_slice()
    }

    /// Its numbers are in their ranges, and its commands are taken; so it can be played. A law that does
    /// nothing when it runs.
    pub fn is_accepted(&self)
        ensures accepted { IsAccepted self.now }
        ensures playable { IsPlayable self.now }
        ensures short { are_short self.now.main ≡ true }
    {
        // This read tells the proof what the type keeps; it does nothing when it runs.
        let _ = &self.parts;
    }
}
