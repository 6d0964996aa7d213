//! What is asked of points with tiles missing.

ghost use Rattle.std.specs.Prelude.{IsTrue, IfOk};
ghost use Rattle.page_layers.specs.Paintings.{IsScreenPoint};

use geom::{Keys, Point, TileKey};
use page_layers::{LayerTree, main_offsets, paint_at};
use pixel::Colour;
use std::alloc::Global;
use test_table::{Answer, LineFault, numbers, signed, wholes};

/// A key, as `1 0 2 0`: the layer, the column, the row and the stamp.
fn key_of(text: &str) -> Result<TileKey, LineFault> {
    let [layer, x, y, stamp] = wholes::<4>(text, ' ')?;
    Ok(TileKey { layer, x, y, stamp })
}

/// Adds a key.
fn add_key(keys: &mut Keys, text: &str) -> Result<(), LineFault> {
    match keys.push(key_of(text)?) {
        Ok(()) => Ok(()),
        Err((refused, _)) => Err(LineFault::Memory(refused)),
    }
}

/// Adds the keys of a text.
fn add_keys(keys: &mut Keys, text: &str) -> Result<(), LineFault> {
    for one in text.split("; ") {
        add_key(keys, one)?;
    }
    Ok(())
}

/// Whether a point is one of the largest screen.
fn is_on_screen(x: i32, y: i32) -> bool
    ensures { IsTrue result → IsScreenPoint x y }
{
    let across = 0 <= x && x < 2048;
    let down = 0 <= y && y < 2048;
    across && down
}

/// A point of the largest screen.
fn on_screen(at: [i64; 2]) -> Result<Point, LineFault>
    ensures { IfOk result (λ p. IsScreenPoint p.x p.y) }
{
    let [x, y] = at;
    let x = signed(x)?;
    let y = signed(y)?;
    if is_on_screen(x, y) {
        return Ok(Point { x, y });
    }
    Err(LineFault::NoNumber)
}

/// Says which colour a point of the page, as `10 4`, has with these tiles missing, over black.
fn say_pixel(
    alloc: Global,
    tree: &LayerTree,
    missing: &[TileKey],
    at: &str,
    answer: &mut Answer,
) -> Result<(), LineFault> {
    let at = on_screen(numbers::<2>(at)?)?;
    let offsets = main_offsets(alloc, tree)?;
    let black = Colour::new(0, 0, 0, 255).unwrap_or(Colour::CLEAR);
    let colour = paint_at(alloc, tree, &offsets, missing, black, at.x, at.y)?;
    answer.say_colour("colour", colour);
    Ok(())
}

/// Says which colours points of the page have with these tiles missing.
fn say_pixels(
    alloc: Global,
    tree: &LayerTree,
    missing: &[TileKey],
    points: &str,
    answer: &mut Answer,
) -> Result<(), LineFault> {
    for at in points.split("; ") {
        say_pixel(alloc, tree, missing, at, answer)?;
    }
    Ok(())
}

/// Says which colours points of a page have with tiles missing: `KEYS | POINTS`.
pub fn missing(
    alloc: Global,
    tree: &LayerTree,
    question: &str,
    answer: &mut Answer,
) -> Result<(), LineFault> {
    let Some((keys, points)) = question.split_once(" | ") else {
        return Err(LineFault::NoForm);
    };
    let mut missing = Keys::new(alloc);
    add_keys(&mut missing, keys)?;
    say_pixels(alloc, tree, missing.as_slice(), points, answer)
}
