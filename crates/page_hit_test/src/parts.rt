//! What each scroller takes of a wheel.

ghost use Rattle.std.specs.Prelude.{◌≡◌, ◌∷◌, ◌++◌, [], cond, length, slice_get, OnOk, OnErr, IfOk, IfErr, option_copied};
ghost use Rattle.page_layers.specs.Axes.{is_still};
ghost use Rattle.page_hit_test.specs.Wheels.{part_move, wheel_part};

use geom::Point;
use std::alloc::{AllocError, Global};
use std::marker::Model;

/// How far a wheel moves one scroller.
#[derive(Clone, Copy, PartialEq, Eq, Debug)]
pub struct WheelPart {
    /// The scroller's number.
    pub scroller: u32,
    /// How far it moves, in pixels.
    pub by: Point,
}

/// A list of parts, which contracts see as the list of its elements.
pub struct WheelParts {
    items: Vec<WheelPart>,
}

impl Model for WheelParts {
    ghost use Rattle.std.specs.Prelude.{List};
    ghost use Rattle.page_hit_test.specs.declared.parts.WheelPart.{WheelPart};

    ghost Value = { List WheelPart };

    ghost view = { λ p. p.items.items };
}

// Written out, since a derived drop is proved anew, field by field, in each function that lets one go.
impl Drop for WheelParts {
    fn drop(self) {
        let WheelParts { items: _ } = self;
    }
}

impl WheelParts {
    /// An empty list, which takes its memory from `alloc`.
    pub fn new(alloc: Global) -> WheelParts
        ensures { result ≡ [] }
    {
        WheelParts {
            items: Vec::new(alloc),
        }
    }

    /// Appends a part. An error means out of memory: it gives the part back, and the list is as it was.
    pub fn push(&mut self, part: WheelPart) -> Result<(), (AllocError, WheelPart)>
        ensures ok { OnOk result (self.new ≡ self.old ++ part ∷ []) }
        ensures err { OnErr result (self.new ≡ self.old) }
        ensures given_back { IfErr result (λ e. e.1 ≡ part) }
    {
        match self.items.push(part) {
            Ok(()) => Ok(()),
            Err(_) => Err((AllocError, part)),
        }
    }

    /// A list of the same parts. An error means out of memory.
    pub fn copy(&self) -> Result<WheelParts, AllocError>
        ensures { IfOk result (λ parts. parts ≡ self.now) }
    {
        let items = self.items.clone()?;
        Ok(WheelParts { items })
    }

    /// How many parts there are.
    pub fn len(&self) -> usize
        ensures { result ≡ length self.now }
    {
        self.items.len()
    }

    /// The part at place `i`, counted from 0; None exactly if `i` is not below `len`.
    pub fn at(&self, i: usize) -> Option<&WheelPart>
        ensures { option_copied result ≡ slice_get self.now i }
    {
        self.items.get(i)
    }

    /// The parts, the first of them first.
    pub fn as_slice(&self) -> &[WheelPart]
        ensures { result.now ≡ self.now }
    {
        self.items.as_slice()
    }
}

// Whether a part is one of (0, 0).
fn is_still_part(scroller: u32, dx: i32, dy: i32) -> bool
    ensures { result ≡ is_still (part_move (wheel_part scroller dx dy)) }
{
    dx == 0 && dy == 0
}

/// Appends what a scroller takes, if that is not (0, 0). An error means out of memory.
pub(crate) fn push_moving(
    parts: &mut WheelParts,
    scroller: u32,
    dx: i32,
    dy: i32,
) -> Result<(), AllocError>
    ensures { OnOk result (parts.new ≡ parts.old ++ cond (is_still (part_move (wheel_part scroller dx dy))) [] (wheel_part scroller dx dy ∷ [])) }
{
    if is_still_part(scroller, dx, dy) {
        return Ok(());
    }
    let by = Point { x: dx, y: dy };
    match parts.push(WheelPart { scroller, by }) {
        Ok(()) => Ok(()),
        Err(refused) => Err(refused.0),
    }
}
