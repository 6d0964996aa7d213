//! What the hit test says of a page whose scrollers stand at their main values.

ghost use Rattle.std.specs.Prelude.{IsTrue, IfOk};
ghost use Rattle.page_properties.specs.OffsetMap.{offset_at, AreOffsets};
ghost use Rattle.page_hit_test.specs.Wheels.{IsAmount, AreWithinRanges};

use geom::Point;
use page_hit_test::{Wheel, WheelPart, WheelParts, main_values_are_within_ranges};
use page_layers::{LayerTree, main_offsets};
use page_properties::Offsets;
use std::alloc::{AllocError, Global};
use test_table::{LineFault, numbers, push_word, signed, wholes};

// Whether this much may be asked along an axis.
fn is_amount(z: i32) -> bool
    ensures { IsTrue result → IsAmount z }
{
    -1048576 <= z && z <= 1048576
}

// The offsets of a page whose scrollers stand at their main values.
fn offsets_of(alloc: Global, tree: &LayerTree) -> Result<Offsets, AllocError>
    ensures in_range { IfOk result (λ offsets. AreOffsets (offset_at offsets)) }
    ensures within { IfOk result (λ offsets. AreWithinRanges tree.now (offset_at offsets)) }
{
    tree.is_page();
    main_values_are_within_ranges();
    main_offsets(alloc, tree)
}

// A point of two numbers.
fn point(x: i64, y: i64) -> Result<Point, LineFault> {
    let x = signed(x)?;
    let y = signed(y)?;
    Ok(Point { x, y })
}

// Which layer a point hits, as `X Y`; 0 if it hits none.
fn target_text(alloc: Global, tree: &LayerTree, words: &str) -> Result<String, LineFault> {
    let [x, y] = numbers::<2>(words)?;
    let at = point(x, y)?;
    let offsets = offsets_of(alloc, tree)?;
    let target = page_hit_test::target(tree, &offsets, at);
    Ok(target.to_string(alloc)?)
}

// Adds a scroller of a chain.
fn push_scroller(alloc: Global, scroller: u32, text: &mut String) -> Result<(), AllocError> {
    let word = scroller.to_string(alloc)?;
    push_word(text, word.as_str())
}

// The scrollers of a chain; `-` if there is none.
fn text_of(alloc: Global, chain: &[u32]) -> Result<String, AllocError> {
    if chain.is_empty() {
        return "-".to_string(alloc);
    }
    let mut text = String::new(alloc);
    for scroller in chain {
        push_scroller(alloc, *scroller, &mut text)?;
    }
    Ok(text)
}

// Which scrollers take a wheel over a layer, as `LAYER`.
fn chain_text(alloc: Global, tree: &LayerTree, words: &str) -> Result<String, LineFault> {
    let [layer] = wholes::<1>(words, ' ')?;
    let chain = page_hit_test::chain(alloc, tree, layer)?;
    Ok(text_of(alloc, chain.as_slice())?)
}

// What a wheel of this much at a point does.
fn wheel(alloc: Global, tree: &LayerTree, at: Point, asked: Point) -> Result<Wheel, LineFault> {
    let across = is_amount(asked.x);
    let down = is_amount(asked.y);
    if !across || !down {
        return Err(LineFault::TooFar);
    }
    let offsets = offsets_of(alloc, tree)?;
    Ok(page_hit_test::wheel_parts(alloc, tree, &offsets, at, asked)?)
}

// Adds a part of a wheel: the scroller, and how far it moves.
fn push_part(alloc: Global, part: &WheelPart, text: &mut String) -> Result<(), AllocError> {
    let word = format!(in alloc; "{}:{},{}", part.scroller, part.by.x, part.by.y)?;
    push_word(text, word.as_str())
}

// Adds the parts of a wheel, which are read from a copy of the list, element by element.
fn push_parts(alloc: Global, parts: &WheelParts, text: &mut String) -> Result<(), AllocError> {
    let copy = parts.copy()?;
    for place in 0..copy.len() {
        if let Some(part) = copy.at(place) {
            push_part(alloc, part, text)?;
        }
    }
    Ok(())
}

// What a wheel did: the layer that it hits, the rest, and the parts.
fn told_wheel(alloc: Global, wheel: &Wheel) -> Result<String, AllocError> {
    let mut text = format!(in alloc; "{} {},{}", wheel.target, wheel.rest.x, wheel.rest.y)?;
    push_parts(alloc, &wheel.parts, &mut text)?;
    Ok(text)
}

// What a wheel does, as `X Y DX DY`.
fn wheel_text(alloc: Global, tree: &LayerTree, words: &str) -> Result<String, LineFault> {
    let [x, y, dx, dy] = numbers::<4>(words)?;
    let at = point(x, y)?;
    let asked = point(dx, dy)?;
    let wheel = wheel(alloc, tree, at, asked)?;
    Ok(told_wheel(alloc, &wheel)?)
}

/// The answer to a question about a page, as the table writes it: `target X Y`, `chain LAYER` or `wheel X Y DX DY`.
pub fn answer(alloc: Global, tree: &LayerTree, question: &str) -> Result<String, LineFault> {
    match question.split_once(' ') {
        Some(("target", words)) => target_text(alloc, tree, words),
        Some(("chain", words)) => chain_text(alloc, tree, words),
        Some(("wheel", words)) => wheel_text(alloc, tree, words),
        _ => Err(LineFault::NoForm),
    }
}
