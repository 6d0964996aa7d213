//! Why numbers mean no command.

ghost use Rattle.std.specs.Prelude.{◌≡◌, ◌≤◌, length, Some};
ghost use Rattle.cc_c.specs.BadNumbers as spec;

use page_display_list::BitmapCause;
use page_layers::command::Op;

/// Why numbers mean no command.
#[derive(Clone, Copy)]
pub enum BadNumbers {
    /// No command has this number.
    NoCommand {
        /// The number.
        op: u32,
    },
    /// There are too few or too many fields.
    Count {
        /// How many were given.
        given: usize,
        /// How many the command takes.
        wanted: usize,
    },
    /// This field is the first that may not be below 0, and is.
    BelowZero {
        /// Its place, from 0.
        field: u32,
        /// The number there.
        value: i32,
    },
    /// The colour is not premultiplied.
    Colour,
    /// The pixels are no bitmap of their rect.
    Bitmap(BitmapCause),
}

// Of each field of a command, whether it may not be below 0.
fn wholes_of(op: Op) -> &'static [bool]
    ensures each { result.now ≡ spec.wholes_of op }
    ensures few { length result.now ≤ 7 }
{
    match op {
        Op::AddTransform => &[true, true, false, false, true],
        Op::SetTransform => &[true, false, false],
        Op::AddClip => &[true, true, true, false, false, false, false],
        Op::SetClip => &[true, false, false, false, false],
        Op::AddEffect => &[true, true, true],
        Op::SetOpacity => &[true, true],
        Op::AddScroller => &[true, true, true, true],
        Op::SetRange => &[true, true, true],
        Op::ScrollBy => &[true, false, false],
        Op::ScrollTo => &[true, true, true],
        Op::AddLayer => &[true, true, true, true, true, true, true],
        Op::RemoveLayer => &[true],
        Op::ResizeLayer => &[true, true, true],
        Op::SetColour => &[true],
        Op::InsertItem => &[true, true, false, false, false, false],
        Op::RemoveItem => &[true, true],
        Op::ReplaceItem => &[true, true, false, false, false, false],
        Op::MoveLayer => &[true, true],
        Op::SetView => &[true, true, true],
    }
}

// Whether a number is below 0 though it may not be.
#[tactic(auto, unfolding(crate::specs::BadNumbers::is_below))]
fn is_below(whole: bool, number: i32) -> bool
    ensures { result ≡ spec.is_below whole number }
{
    whole && number < 0
}

// The first of some numbers that is below 0 though it may not be, as a cause.
#[tactic(auto, using(crate::proofs::BelowSteps::below_here, crate::proofs::BelowSteps::below_next, crate::proofs::BelowSteps::below_none))]
fn first_below(wholes: &[bool], numbers: &[i32]) -> Option<BadNumbers>
    requires few { length wholes.now ≤ 7 }
    requires same { length numbers.now ≡ length wholes.now }
    ensures { result ≡ spec.first_below 0 wholes.now numbers.now }
{
    for at in 0..wholes.len() {
        if is_below(wholes[at], numbers[at]) {
            return Some(BadNumbers::BelowZero {
                field: at as u32,
                value: numbers[at],
            });
        }
    }
    None
}

/// Why numbers with a colour mean no command whose fields are these.
fn numbers_cause(wholes: &[bool], numbers: &[i32]) -> BadNumbers
    requires few { length wholes.now ≤ 7 }
    ensures { result ≡ spec.numbers_cause wholes.now numbers.now }
{
    if numbers.len() != wholes.len() {
        return BadNumbers::Count {
            given: numbers.len(),
            wanted: wholes.len(),
        };
    }
    match first_below(wholes, numbers) {
        Some(cause) => cause,
        None => BadNumbers::Colour,
    }
}

/// Why numbers mean no command that takes no pixels, if they mean none.
pub(crate) fn plain_cause(op: u32, numbers: &[i32]) -> BadNumbers
    ensures { result ≡ spec.plain_cause op numbers.now }
{
    match Op::numbered(op) {
        Some(named) => numbers_cause(wholes_of(named), numbers),
        None => BadNumbers::NoCommand { op },
    }
}

/// Why numbers name no place of an item, if they name none.
pub(crate) fn place_cause(numbers: &[i32]) -> BadNumbers
    ensures { result ≡ spec.place_cause numbers.now }
{
    numbers_cause(wholes_of(Op::InsertItem), numbers)
}
