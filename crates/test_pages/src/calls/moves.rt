//! Moves and pulls as the table writes them.

ghost use Rattle.std.specs.Prelude.{IsTrue, IfOk};
ghost use Rattle.model_states.specs.Bounds.{IsBoundedNumber};

use page_layers::Move;
use test_table::{LineFault, numbers, whole};

/// Both parts of a pull lie below this bound in absolute value.
const PULL_BOUND: i64 = 288230376151711744;

/// Whether a part of a pull is within its bound.
fn is_bounded(part: i64) -> bool
    ensures { IsTrue result → IsBoundedNumber part }
{
    -PULL_BOUND < part && part < PULL_BOUND
}

/// A move, as `1 10 -4`: the scroller, and how far across and down.
pub fn move_of(text: &str) -> Result<Move, LineFault> {
    let [scroller, dx, dy] = numbers::<3>(text)?;
    let scroller = whole(scroller)?;
    Ok(Move { scroller, dx, dy })
}

/// A pull of scroller 1, as `10 -4`.
pub fn pull_of(text: &str) -> Result<Move, LineFault>
    ensures { IfOk result (λ m. IsBoundedNumber m.dx × IsBoundedNumber m.dy) }
{
    let [dx, dy] = numbers::<2>(text)?;
    let across = is_bounded(dx);
    let down = is_bounded(dy);
    if across && down {
        return Ok(Move {
            scroller: 1,
            dx,
            dy,
        });
    }
    Err(LineFault::NoNumber)
}
