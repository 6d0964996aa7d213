//! The moves that the parts of a wheel are.

ghost use Rattle.std.specs.Prelude.{◌≡◌, ◌++◌, ◌∷◌, [], map, IfOk, OnOk};
ghost use Rattle.page_hit_test.specs.Wheels.{part_move};

use model_history::Moves;
use page_hit_test::{WheelPart, WheelParts};
use page_layers::Move;
use std::alloc::{AllocError, Global};

// A part as a move.
fn move_of(part: WheelPart) -> Move
    ensures { result ≡ part_move part }
{
    Move {
        scroller: part.scroller,
        dx: part.by.x as i64,
        dy: part.by.y as i64,
    }
}

// Adds a part at the end of some moves. An error means out of memory.
fn push_part(moves: &mut Moves, part: WheelPart) -> Result<(), AllocError>
    ensures { OnOk result (moves.new ≡ moves.old ++ part_move part ∷ []) }
{
    match moves.push(move_of(part)) {
        Ok(()) => Ok(()),
        Err(refused) => Err(refused.0),
    }
}

// The moves that some parts are.
fn moves_in(alloc: Global, parts: &[WheelPart]) -> Result<Moves, AllocError>
    ensures { IfOk result (λ moves. moves ≡ map part_move parts.now) }
{
    let mut moves = Moves::new(alloc);
    for part in parts {
        push_part(&mut moves, *part)?;
    }
    Ok(moves)
}

/// The moves that the parts of a wheel are, in their order. An error means out of memory.
pub fn moves_of(alloc: Global, parts: &WheelParts) -> Result<Moves, AllocError>
    ensures { IfOk result (λ moves. moves ≡ map part_move parts.now) }
{
    moves_in(alloc, parts.as_slice())
}
