//! The digits of bytes and colours, added to a text.

ghost use Rattle.std.specs.Prelude.{◌≡◌, ◌++◌, ◌+◌, ◌*◌, ◌/◌, ◌%◌, ◌<◌, ◌≤◌, ℕ, length, map, slice_index, drop, OnOk, IfOk};
ghost use Rattle.json.specs.Print.{escape};
ghost use Rattle.script_fields.specs.Hex.{digit_of, byte_digits, bytes_digits, six_digits, eight_digits};

use pixel::Colour;
use std::alloc::AllocError;
use std::simd::prelude::*;

// The digit of a number below 16.
#[tactic(auto, unfolding(crate::specs::Hex::digit_of))]
fn digit_of(n: u8) -> u8
    requires { n < 16 }
    ensures { result ≡ digit_of n }
{
    if n < 10 { 48 + n } else { 87 + n }
}

// Adds the two digits of a byte. A digit needs no escape.
#[tactic(auto, using(crate::proofs::Quoted::byte_plain))]
fn push_byte(text: &mut Vec<u8>, byte: u8) -> Result<(), AllocError>
    ensures { OnOk result (text.new.items ≡ text.old.items ++ escape (byte_digits byte)) }
{
    text.extend_from_slice(&[digit_of(byte / 16), digit_of(byte % 16)])
}

/// Adds the six digits of a colour's red, green and blue. A digit needs no escape.
pub(crate) fn push_six(text: &mut Vec<u8>, colour: Colour) -> Result<(), AllocError>
    ensures { OnOk result (text.new.items ≡ text.old.items ++ escape (six_digits colour)) }
{
    push_byte(text, colour.r())?;
    push_byte(text, colour.g())?;
    push_byte(text, colour.b())
}

/// Adds the eight digits of a colour. A digit needs no escape.
pub(crate) fn push_eight(text: &mut Vec<u8>, colour: Colour) -> Result<(), AllocError>
    ensures { OnOk result (text.new.items ≡ text.old.items ++ escape (eight_digits colour)) }
{
    push_six(text, colour)?;
    push_byte(text, colour.a())
}

// The digits of eight numbers below 16.
#[inline(always)]
fn digit_lanes(numbers: u8x8) -> u8x8
    requires { (length numbers ≡ 8) × ((i : ℕ) → i < 8 → slice_index numbers i < 16) }
    ensures { result ≡ map digit_of numbers }
{
    numbers
        .simd_lt(u8x8::splat(10))
        .select(numbers + u8x8::splat(48), numbers + u8x8::splat(87))
}

// The digits of eight bytes.
#[inline(always)]
fn sixteen_of(bytes: u8x8) -> [u8; 16]
    requires { (length bytes ≡ 8) × ((i : ℕ) → i < 8 → slice_index bytes i < 256) }
    ensures size { length result ≡ 16 }
    ensures high { (j : ℕ) → j < 8 → slice_index result (2 * j) ≡ digit_of (slice_index bytes j / 16) }
    ensures low { (j : ℕ) → j < 8 → slice_index result (2 * j + 1) ≡ digit_of (slice_index bytes j % 16) }
{
    let high = digit_lanes(bytes >> u8x8::splat(4));
    let low = digit_lanes(bytes & u8x8::splat(15));
    high.shuffle(low, [0, 8, 1, 9, 2, 10, 3, 11, 4, 12, 5, 13, 6, 14, 7, 15])
        .to_array()
}

// Adds the digits of bytes, of eight at a time, and tells the place of the bytes that are left over.
fn push_sixteens(digits: &mut Vec<u8>, bytes: &[u8]) -> Result<usize, AllocError>
    ensures inside { IfOk result (λ at. at ≤ length bytes.now) }
    ensures written { IfOk result (λ at. digits.new.items ++ bytes_digits (drop at bytes.now) ≡ digits.old.items ++ bytes_digits bytes.now) }
{
    let mut at = 0;
    while at + 8 <= bytes.len() {
        digits.extend_from_slice(&sixteen_of(u8x8::from_slice(&bytes[at..])))?;
        at += 8;
    }
    Ok(at)
}

// Adds the digits of bytes, of one at a time.
fn push_each(digits: &mut Vec<u8>, bytes: &[u8]) -> Result<(), AllocError>
    ensures { OnOk result (digits.new.items ≡ digits.old.items ++ bytes_digits bytes.now) }
{
    for byte in bytes {
        digits.extend_from_slice(&[digit_of(*byte / 16), digit_of(*byte % 16)])?;
    }
    Ok(())
}

// The digits of bytes need no escape.
fn are_plain(_bytes: &[u8])
    ensures { escape (bytes_digits _bytes.now) ≡ bytes_digits _bytes.now }
{}

/// Adds the digits of bytes, two a byte. A digit needs no escape.
pub(crate) fn push_bytes(text: &mut Vec<u8>, bytes: &[u8]) -> Result<(), AllocError>
    ensures { OnOk result (text.new.items ≡ text.old.items ++ escape (bytes_digits bytes.now)) }
{
    are_plain(bytes);
    let start = push_sixteens(text, bytes)?;
    push_each(text, &bytes[start..])
}
