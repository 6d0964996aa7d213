//! The numbers of a line, and what is made of them.

ghost use Rattle.std.specs.Prelude.{◌≡◌, true, false, take, drop, Option, Some, None, IfOk};
ghost use Rattle.recording_text.specs.Numbers as spec;
ghost use Rattle.recording_text.specs.Gathering.{Gathers};

use geom::{Keys, TileKey};
use model_history::Moves;
use page_layers::Move;
use std::alloc::{AllocError, Global};

/// The greatest number to which a digit can be added.
const LONGEST: u64 = 922337203685477580;

/// A sign and a size as a number, if it fits.
fn signed(negative: bool, size: u64) -> Option<i64>
    ensures { result ≡ spec.signed negative size }
{
    if negative {
        0i64.checked_sub_unsigned(size)
    } else {
        0i64.checked_add_unsigned(size)
    }
}

/// Adds the numbers of a line, up to its newline; false if one does not fit or there is no newline.
#[tactic(auto, unfolding(crate::specs::Numbers::numbers))]
pub fn read_numbers(bytes: &[u8], found: &mut Vec<i64>) -> Result<bool, AllocError>
    ensures { IfOk result (λ all. Gathers (spec.numbers false 0 bytes.now) found.old.items all found.new.items) }
{
    let mut rest = bytes;
    let mut negative = false;
    let mut size = 0u64;
    while let [c, after @ ..] = rest {
        rest = after;
        if c.is_ascii_digit() {
            if size > LONGEST {
                return Ok(false);
            }
            size = size * 10 + u64::from(*c - b'0');
        } else if *c == b'-' {
            negative = true;
        } else {
            let Some(number) = signed(negative, size) else {
                return Ok(false);
            };
            found.push(number)?;
            if *c == b'\n' {
                return Ok(true);
            }
            negative = false;
            size = 0;
        }
    }
    Ok(false)
}

/// A number as an unsigned one of 32 bits.
pub fn to_u32(number: i64) -> Option<u32>
    ensures { result ≡ spec.u32_of number }
{
    u32::try_from(number).ok()
}

/// A number as a signed one of 32 bits.
pub fn to_i32(number: i64) -> Option<i32>
    ensures { result ≡ spec.i32_of number }
{
    i32::try_from(number).ok()
}

/// The first of these numbers, at most the given number.
pub fn first(numbers: &[i64], count: usize) -> &[i64]
    ensures { result.now ≡ take count numbers.now }
{
    if count <= numbers.len() {
        &numbers[..count]
    } else {
        numbers
    }
}

/// The numbers after the first ones; none if there are not that many.
pub fn behind(numbers: &[i64], count: usize) -> &[i64]
    ensures { result.now ≡ drop count numbers.now }
{
    if count <= numbers.len() {
        &numbers[count..]
    } else {
        &[]
    }
}

/// Four numbers as a key.
#[tactic(auto, unfolding(crate::specs::Numbers::key_from))]
fn key_of(layer: i64, x: i64, y: i64, stamp: i64) -> Option<TileKey>
    ensures { result ≡ spec.key_from layer x y stamp }
{
    let layer = to_u32(layer)?;
    let x = to_u32(x)?;
    let y = to_u32(y)?;
    let stamp = to_u32(stamp)?;
    Some(TileKey { layer, x, y, stamp })
}

/// Numbers as a key; None if they are not four that fit.
#[tactic(auto, unfolding(crate::specs::Numbers::key_in))]
pub fn to_key(numbers: &[i64]) -> Option<TileKey>
    ensures { result ≡ spec.key_in numbers.now }
{
    match numbers {
        [layer, x, y, stamp] => key_of(*layer, *x, *y, *stamp),
        _ => None,
    }
}

/// Keys of four numbers each.
#[tactic(auto, using(crate::proofs::ListSteps::keys_more, crate::proofs::ListSteps::keys_none, crate::proofs::ListSteps::keys_end))]
pub fn to_keys(alloc: Global, numbers: &[i64]) -> Result<Option<Keys>, AllocError>
    ensures { IfOk result (λ keys. keys ≡ spec.keys_from numbers.now) }
{
    let mut keys = Keys::new(alloc);
    let mut rest = numbers;
    while !rest.is_empty() {
        let Some(key) = to_key(first(rest, 4)) else {
            return Ok(None);
        };
        if let Err((refused, _)) = keys.push(key) {
            return Err(refused);
        }
        rest = behind(rest, 4);
    }
    Ok(Some(keys))
}

/// Numbers as a move; None if they are not three that fit.
#[tactic(auto, unfolding(crate::specs::Numbers::move_in, crate::specs::Numbers::move_from))]
fn to_move(numbers: &[i64]) -> Option<Move>
    ensures { result ≡ spec.move_in numbers.now }
{
    match numbers {
        [scroller, dx, dy] => {
            let scroller = to_u32(*scroller)?;
            Some(Move {
                scroller,
                dx: *dx,
                dy: *dy,
            })
        }
        _ => None,
    }
}

/// Moves of three numbers each.
#[tactic(auto, using(crate::proofs::ListSteps::moves_more, crate::proofs::ListSteps::moves_none, crate::proofs::ListSteps::moves_end))]
pub fn to_moves(alloc: Global, numbers: &[i64]) -> Result<Option<Moves>, AllocError>
    ensures { IfOk result (λ moves. moves ≡ spec.moves_of numbers.now) }
{
    let mut moves = Moves::new(alloc);
    let mut rest = numbers;
    while !rest.is_empty() {
        let Some(one) = to_move(first(rest, 3)) else {
            return Ok(None);
        };
        if let Err((refused, _)) = moves.push(one) {
            return Err(refused);
        }
        rest = behind(rest, 3);
    }
    Ok(Some(moves))
}
