//! Bytes and colours as hexadecimal digits in lower case.

ghost use Rattle.std.specs.Prelude.{◌≡◌, ◌<◌, ◌≤◌, ◌+◌, ◌*◌, ℕ, length, map, drop, slice_index, Some, IsTrue, IfSome, IfOk, option_map};
ghost use Rattle.pixel.specs.LaneBytes.{IsBytes};
ghost use Rattle.script_fields.specs.Hex.{digit_value, byte_of, bytes_of, colour_of_six, colour_of_eight};
ghost use Rattle.script_fields.specs.inner.Fronts.{after};
ghost use Rattle.script_fields.specs.inner.Lanes.{lane_value, AreBytesAt};

use pixel::Colour;
use std::alloc::{AllocError, Global};
use std::simd::prelude::*;

// The value of a digit `0` to `9` or `a` to `f`.
#[tactic(auto, unfolding(crate::specs::Hex::digit_value))]
fn digit(c: u8) -> Option<u8>
    ensures value { result ≡ digit_value c }
    ensures small { IfSome result (λ d. d < 16) }
{
    match c {
        48..=57 => Some(c - 48),
        97..=102 => Some(c - 87),
        _ => None,
    }
}

// The byte of two digits.
#[tactic(auto, unfolding(crate::specs::Hex::byte_of))]
fn byte(high: u8, low: u8) -> Option<u8>
    ensures { result ≡ byte_of high low }
{
    let high = digit(high)?;
    let low = digit(low)?;
    Some(16 * high + low)
}

/// The colour of eight digits: red, green, blue, alpha.
#[tactic(auto, unfolding(crate::specs::Hex::colour_of_eight))]
pub fn eight(text: &[u8]) -> Option<Colour>
    ensures { result ≡ colour_of_eight text.now }
{
    let [a, b, c, d, e, f, g, h] = text else {
        return None;
    };
    let red = byte(*a, *b)?;
    let green = byte(*c, *d)?;
    let blue = byte(*e, *f)?;
    let alpha = byte(*g, *h)?;
    Colour::new(red, green, blue, alpha)
}

/// The opaque colour of six digits: red, green, blue.
#[tactic(auto, unfolding(crate::specs::Hex::colour_of_six))]
pub fn six(text: &[u8]) -> Option<Colour>
    ensures { result ≡ colour_of_six text.now }
{
    let [a, b, c, d, e, f] = text else {
        return None;
    };
    let red = byte(*a, *b)?;
    let green = byte(*c, *d)?;
    let blue = byte(*e, *f)?;
    Colour::new(red, green, blue, 255)
}

// The values of sixteen digits; a lane is 255 if the character is no digit.
#[inline(always)]
fn values(digits: u8x16) -> u8x16
    requires { IsBytes digits }
    ensures { result ≡ map lane_value digits }
{
    let numerals = digits - u8x16::splat(48);
    let letters = digits - u8x16::splat(97);
    let others = letters
        .simd_lt(u8x16::splat(6))
        .select(letters + u8x16::splat(10), u8x16::splat(255));
    numerals.simd_lt(u8x16::splat(10)).select(numerals, others)
}

// Whether sixteen numbers are all below 16.
#[inline(always)]
fn are_values(values: u8x16) -> bool
    requires { length values ≡ 16 }
    ensures { IsTrue result → (i : ℕ) → i < 16 → slice_index values i < 16 }
{
    values.simd_gt(u8x16::splat(15)).to_bitmask() == 0
}

// The bytes whose upper and lower halves are sixteen numbers below 16 in turn.
#[inline(always)]
fn joined(values: u8x16) -> [u8; 8]
    requires size { length values ≡ 16 }
    requires low { (i : ℕ) → i < 16 → slice_index values i < 16 }
    ensures size { length result ≡ 8 }
    ensures bytes { (j : ℕ) → j < 8 → slice_index result j ≡ 16 * slice_index values (2 * j) + slice_index values (2 * j + 1) }
{
    let high = values.swizzle([0, 2, 4, 6, 8, 10, 12, 14]);
    let low = values.swizzle([1, 3, 5, 7, 9, 11, 13, 15]);
    (high * u8x8::splat(16) + low).to_array()
}

// The bytes of the sixteen digits from a place on; None if one of them is no digit.
#[inline(always)]
fn eight_at(text: &[u8], at: usize) -> Option<[u8; 8]>
    requires { at + 16 ≤ length text.now }
    ensures { IfSome result (λ bytes. AreBytesAt text.now at bytes) }
{
    let values = values(u8x16::from_slice(&text[at..]));
    if are_values(values) {
        Some(joined(values))
    } else {
        None
    }
}

// Adds the bytes of digits, of sixteen at a time, and tells the place of the digits that are left over.
fn push_eights(bytes: &mut Vec<u8>, text: &[u8]) -> Result<usize, AllocError>
    ensures inside { IfOk result (λ at. at ≤ length text.now) }
    ensures read { IfOk result (λ at. after bytes.new.items (bytes_of (drop at text.now)) ≡ after bytes.old.items (bytes_of text.now)) }
{
    let mut at = 0;
    while at + 16 <= text.len() {
        let Some(eight) = eight_at(text, at) else {
            return Ok(at);
        };
        bytes.extend_from_slice(&eight)?;
        at += 16;
    }
    Ok(at)
}

/// The bytes of a text of digits, two digits a byte.
pub fn bytes(alloc: Global, text: &[u8]) -> Result<Option<Vec<u8>>, AllocError>
    ensures { IfOk result (λ o. option_map (λ v. v.items) o ≡ bytes_of text.now) }
{
    let mut bytes = Vec::with_capacity(alloc, text.len() / 2)?;
    let start = push_eights(&mut bytes, text)?;
    let mut rest = &text[start..];
    while let [high, low, after @ ..] = rest {
        let Some(b) = byte(*high, *low) else {
            return Ok(None);
        };
        bytes.push(b)?;
        rest = after;
    }
    if rest.is_empty() {
        Ok(Some(bytes))
    } else {
        Ok(None)
    }
}
