//! The scroll values of all scrollers.

ghost use Rattle.std.specs.Prelude.{◌≡◌, ℕ, [], cond, pos, IfOk, OnOk, OnErr};
ghost use Rattle.model_states.specs.Bounds.{IsBounded, IsBoundedNumber};
ghost use Rattle.model_states.specs.Table.{pull_answer, pulled, pushed, activated, aborted, added};
ghost use Rattle.page_properties.specs.OffsetMap.{offset_at, AreOffsets};
ghost use Rattle.page_layers.specs.Axes.{Axis, across, down, amount_in};
ghost use Rattle.page_layers.specs.Scrolls.{IsInRange};
ghost use Rattle.page_layers.specs.Scrollers.{has_scroller, main_value, most, offsets_in, amount_taken};
ghost use Rattle.model_history.specs.ScrollLaws.{AreRising};
ghost use Rattle.model_steps.specs.Standing.{active_at, pending_at, clamped_by};
ghost use Rattle.impl_scroll.specs.Rows as spec;
ghost use Rattle.impl_scroll.specs.Rows.{row_value, has_number};

use crate::cover::{cover_all, scrollers_named, scrollers_of};
use crate::listing::{clamp_moves, unheard_moves};
use crate::offsets::{Stage, offsets_of};
use crate::row::{Row, row_of};
use crate::steps::{ValueStep, step_all};
use crate::taking::taken_by;
use geom::Point;
use model_history::Moves;
use page_layers::{LayerTree, Move};
use page_properties::Offsets;
use std::alloc::{AllocError, Global};
use std::marker::Model;

/// The scroll values of all scrollers. Those that no row names are 0.
pub struct ScrollValues {
    // By rising scroller, each once.
    rows: Vec<Row>,
}

impl Model for ScrollValues {
    ghost use Rattle.std.specs.Prelude.{List};
    ghost use Rattle.impl_scroll.specs.declared.row.Row.{Row};
    ghost use Rattle.impl_scroll.specs.inner.Steps.{AreRising};

    ghost Value = { List Row };

    ghost view = { λ r. r.rows.items };

    ghost invariant = { λ r. AreRising r.rows.items };
}

// Written out, since a derived drop is proved anew, field by field, in each function that lets one go.
impl Drop for ScrollValues {
    fn drop(self) {
        let ScrollValues { rows: _ } = self;
    }
}

impl ScrollValues {
    /// No scroller has moved.
    pub fn new(alloc: Global) -> ScrollValues
        ensures { result ≡ [] }
    {
        ScrollValues {
            rows: Vec::new(alloc),
        }
    }

    /// A copy of the values. An error means out of memory.
    pub fn copy(&self) -> Result<ScrollValues, AllocError>
        ensures { IfOk result (λ rows. rows ≡ self.now) }
    {
        Ok(ScrollValues {
            rows: self.rows.clone()?,
        })
    }

    /// The values of a scroller along both axes.
    pub fn row(&self, scroller: u32) -> Row
        ensures { result ≡ spec.row_at self.now scroller }
    {
        row_of(self.rows.as_slice(), scroller)
    }

    /// What the main side has not heard of each scroller, by rising scroller; what is (0, 0) is left out.
    /// An error means out of memory.
    pub fn unheard(&self, alloc: Global) -> Result<Moves, AllocError>
        requires { (sc : ℕ) (ax : Axis) → IsBounded (row_value self.now sc ax) }
        ensures rising { IfOk result (λ moves. AreRising moves) }
        ensures amounts { IfOk result (λ moves. (sc : ℕ) (ax : Axis) → amount_in sc ax moves ≡ pull_answer (row_value self.now sc ax)) }
    {
        unheard_moves(alloc, self.rows.as_slice())
    }

    /// The main side is told of what it has not heard of. No main frame is in flight.
    pub fn pull(&mut self)
        requires bounded { (sc : ℕ) (ax : Axis) → IsBounded (row_value self.old sc ax) }
        requires none_in_flight { (sc : ℕ) (ax : Axis) → (row_value self.old sc ax).reflected_main ≡ pos 0 }
        ensures { (sc : ℕ) (ax : Axis) → row_value self.new sc ax ≡ pulled (row_value self.old sc ax) }
    {
        step_all(&mut self.rows, ValueStep::Pull);
    }

    /// The main values of a page become the pending bases. No commit is pending. An error means out of
    /// memory, and all values are as they were.
    pub fn push(&mut self, alloc: Global, page: &LayerTree) -> Result<(), AllocError>
        requires bounded { (sc : ℕ) (ax : Axis) → IsBounded (row_value self.old sc ax) }
        requires none_pending { (sc : ℕ) (ax : Axis) → (row_value self.old sc ax).reflected_pending ≡ pos 0 }
        ensures ok { OnOk result ((sc : ℕ) (ax : Axis) → row_value self.new sc ax ≡ pushed (main_value page.now sc ax) (row_value self.old sc ax)) }
        ensures err { OnErr result ((sc : ℕ) (ax : Axis) → row_value self.new sc ax ≡ row_value self.old sc ax) }
    {
        page.is_page();
        let scrollers = scrollers_of(alloc, page)?;
        cover_all(&mut self.rows, scrollers.as_slice())?;
        step_all(&mut self.rows, ValueStep::Push(page));
        Ok(())
    }

    /// The pending bases become the active ones.
    pub fn activate(&mut self)
        requires { (sc : ℕ) (ax : Axis) → IsBounded (row_value self.old sc ax) }
        ensures { (sc : ℕ) (ax : Axis) → row_value self.new sc ax ≡ activated (row_value self.old sc ax) }
    {
        step_all(&mut self.rows, ValueStep::Activate);
    }

    /// What the main side was told of comes into both bases.
    pub fn abort(&mut self)
        requires { (sc : ℕ) (ax : Axis) → IsBounded (row_value self.old sc ax) }
        ensures { (sc : ℕ) (ax : Axis) → row_value self.new sc ax ≡ aborted (row_value self.old sc ax) }
    {
        step_all(&mut self.rows, ValueStep::Abort);
    }

    /// Adds the first move of each scroller. An error means out of memory, and all values are as they were.
    pub fn add(&mut self, alloc: Global, moves: &[Move]) -> Result<(), AllocError>
        requires bounded { (sc : ℕ) (ax : Axis) → IsBounded (row_value self.old sc ax) }
        requires amounts { (sc : ℕ) (ax : Axis) → IsBoundedNumber (amount_in sc ax moves.now) }
        ensures ok { OnOk result ((sc : ℕ) (ax : Axis) → row_value self.new sc ax ≡ added (amount_in sc ax moves.now) (row_value self.old sc ax)) }
        ensures err { OnErr result ((sc : ℕ) (ax : Axis) → row_value self.new sc ax ≡ row_value self.old sc ax) }
    {
        let scrollers = scrollers_named(alloc, moves)?;
        cover_all(&mut self.rows, scrollers.as_slice())?;
        step_all(&mut self.rows, ValueStep::Add(moves));
        Ok(())
    }

    /// The offsets of the active page, each in its range there. An error means out of memory.
    pub fn active_offsets(&self, alloc: Global, page: &LayerTree) -> Result<Offsets, AllocError>
        requires bounded { (sc : ℕ) (ax : Axis) → IsBounded (row_value self.now sc ax) }
        requires in_range { (sc : ℕ) (ax : Axis) → IsInRange (most page.now sc ax) (active_at (row_value self.now) sc ax) }
        ensures value { IfOk result (λ offsets. (sc : ℕ) → offset_at offsets sc ≡ offsets_in page.now (active_at (row_value self.now)) sc) }
        ensures in_range { IfOk result (λ offsets. AreOffsets (offset_at offsets)) }
    {
        offsets_of(alloc, Stage::Active, page, self.rows.as_slice())
    }

    /// The offsets of the pending page, each in its range there, if its commit sets these scrollers
    /// outright. An error means out of memory.
    pub fn pending_offsets(
        &self,
        alloc: Global,
        page: &LayerTree,
        outright: &[u32],
    ) -> Result<Offsets, AllocError>
        requires bounded { (sc : ℕ) (ax : Axis) → IsBounded (row_value self.now sc ax) }
        requires in_range { (sc : ℕ) (ax : Axis) → IsInRange (most page.now sc ax) (pending_at (has_number outright.now) page.now (row_value self.now) sc ax) }
        ensures value { IfOk result (λ offsets. (sc : ℕ) → offset_at offsets sc ≡ offsets_in page.now (pending_at (has_number outright.now) page.now (row_value self.now)) sc) }
        ensures in_range { IfOk result (λ offsets. AreOffsets (offset_at offsets)) }
    {
        offsets_of(alloc, Stage::Pending(outright), page, self.rows.as_slice())
    }

    /// How far an activation of the pending page moves each of its scrollers, if its commit sets these
    /// outright; by rising scroller, and what is (0, 0) is left out. An error means out of memory.
    pub fn clamps(
        &self,
        alloc: Global,
        page: &LayerTree,
        outright: &[u32],
    ) -> Result<Moves, AllocError>
        requires { (sc : ℕ) (ax : Axis) → IsBounded (row_value self.now sc ax) }
        ensures rising { IfOk result (λ moves. AreRising moves) }
        ensures amounts { IfOk result (λ moves. (sc : ℕ) (ax : Axis) → amount_in sc ax moves ≡ cond (has_scroller page.now sc) (clamped_by (has_number outright.now) page.now (row_value self.now) sc ax) (pos 0)) }
    {
        clamp_moves(alloc, outright, page, self.rows.as_slice())
    }

    /// What is accepted of a scroll by at most 2^20 pixels either way: as far as the range in the active
    /// page allows.
    pub fn accepted(&self, page: &LayerTree, scroller: u32, dx: i32, dy: i32) -> Point
        requires bounded { (sc : ℕ) (ax : Axis) → IsBounded (row_value self.now sc ax) }
        requires in_range { (sc : ℕ) (ax : Axis) → IsInRange (most page.now sc ax) (active_at (row_value self.now) sc ax) }
        ensures x { result.x ≡ amount_taken page.now (active_at (row_value self.now)) scroller across dx }
        ensures y { result.y ≡ amount_taken page.now (active_at (row_value self.now)) scroller down dy }
    {
        let row = row_of(self.rows.as_slice(), scroller);
        taken_by(page, &row, dx, dy)
    }
}
