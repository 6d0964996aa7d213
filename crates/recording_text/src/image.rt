//! The images of a recording: raw portable pixmaps.

ghost use Rattle.std.specs.Prelude.{◌≡◌, ℕ, ◌+◌, ◌*◌, ◌<◌, ◌≤◌, List, ◌++◌, length, decimal, option_copied, MatchOption, IfSome, IfOk, OnOk, OnErr};
ghost use Rattle.std.specs.Io.{StartsWith};
ghost use Rattle.model_history.specs.Recordings.{image_head, rgb};
ghost use Rattle.recording_text.specs.Images as images;

use itoa::Buffer;
use pixel::Colour;
use std::alloc::{AllocError, Global};

/// Adds a number in plain decimal.
fn push_number(text: &mut Vec<u8>, number: u32) -> Result<(), AllocError>
    ensures text { OnOk result (text.new.items ≡ text.old.items ++ decimal number) }
    ensures same { OnErr result (text.new.items ≡ text.old.items) }
{
    let mut buffer = Buffer::new();
    text.extend_from_slice(buffer.format(number).as_bytes())
}

/// Adds the parts of a head one after another.
#[tactic(auto, unfolding(model_history::specs::Recordings::image_head), using(crate::proofs::Kept::kept_before))]
fn push_head(text: &mut Vec<u8>, w: u32, h: u32) -> Result<(), AllocError>
    ensures text { OnOk result (text.new.items ≡ text.old.items ++ image_head w h) }
    ensures kept { OnErr result (StartsWith text.new.items text.old.items) }
{
    text.extend_from_slice(b"P6\n")?;
    push_number(text, w)?;
    text.push(b' ')?;
    push_number(text, h)?;
    text.extend_from_slice(b"\n255\n")?;
    Ok(())
}

/// Adds the head of an image of this width and height: its kind, its size and the greatest component.
/// If there is no memory, the text stays as it is.
pub fn push_image_head(text: &mut Vec<u8>, w: u32, h: u32) -> Result<(), AllocError>
    ensures text { OnOk result (text.new.items ≡ text.old.items ++ image_head w h) }
    ensures same { OnErr result (text.new.items ≡ text.old.items) }
{
    let before = text.len();
    if let Err(refused) = push_head(text, w, h) {
        text.truncate(before);
        return Err(refused);
    }
    Ok(())
}

/// Adds a pixel: red, green and blue, a byte each. If there is no memory, the text stays as it is.
pub fn push_rgb(text: &mut Vec<u8>, colour: Colour) -> Result<(), AllocError>
    ensures text { OnOk result (text.new.items ≡ text.old.items ++ rgb colour) }
    ensures same { OnErr result (text.new.items ≡ text.old.items) }
{
    text.extend_from_slice(&[colour.r(), colour.g(), colour.b()])
}

/// Adds red, green and blue of pixels of four bytes each.
fn push_pixels(text: &mut Vec<u8>, rgba: &[u8]) -> Result<(), AllocError>
    ensures { OnOk result (text.new.items ≡ text.old.items ++ images.rgb_of rgba.now) }
{
    let mut rest = rgba;
    while let [r, g, b, _, after @ ..] = rest {
        text.extend_from_slice(&[*r, *g, *b])?;
        rest = after;
    }
    Ok(())
}

/// The image of this width and height whose pixels are these, four bytes each (red, green, blue and
/// alpha), in rows from the top.
pub fn p6(alloc: Global, w: u32, h: u32, rgba: &[u8]) -> Result<Vec<u8>, AllocError>
    requires { length rgba.now ≡ 4 * (w * h) }
    ensures { IfOk result (λ image. image.items ≡ image_head w h ++ images.rgb_of rgba.now) }
{
    let mut text = Vec::with_capacity(alloc, rgba.len() / 4 * 3 + 32)?;
    push_image_head(&mut text, w, h)?;
    push_pixels(&mut text, rgba)?;
    Ok(text)
}

/// What stands after a prefix; None if the bytes do not begin with it.
#[tactic(auto, unfolding(crate::specs::Images::after_front))]
pub fn after_front<'a>(front: &[u8], bytes: &'a [u8]) -> Option<&'a [u8]>
    ensures rest { option_copied result ≡ images.after_front front.now bytes.now }
    ensures short { IfSome result (λ rest. length rest.now ≤ length bytes.now) }
{
    if bytes.starts_with(front) {
        Some(&bytes[front.len()..])
    } else {
        None
    }
}

/// What stands after a number in plain decimal.
fn after_number(number: u32, bytes: &[u8]) -> Option<&[u8]>
    ensures rest { option_copied result ≡ images.after_front (decimal number) bytes.now }
    ensures short { IfSome result (λ rest. length rest.now ≤ length bytes.now) }
{
    let mut buffer = Buffer::new();
    after_front(buffer.format(number).as_bytes(), bytes)
}

/// What stands after the head of an image of this size.
#[tactic(auto, unfolding(crate::specs::Images::behind_head))]
fn behind_head(w: u32, h: u32, bytes: &[u8]) -> Option<&[u8]>
    ensures rest { option_copied result ≡ images.behind_head w h bytes.now }
    ensures short { IfSome result (λ rest. length rest.now ≤ length bytes.now) }
{
    let kind = after_front(b"P6\n", bytes)?;
    let width = after_number(w, kind)?;
    let space = after_front(b" ", width)?;
    let height = after_number(h, space)?;
    after_front(b"\n255\n", height)
}

/// The first bytes of an image's pixels; None if there are fewer.
#[tactic(auto, unfolding(crate::specs::Images::first_bytes))]
fn first_pixels(w: u32, h: u32, bytes: &[u8]) -> Option<&[u8]>
    ensures { option_copied result ≡ images.first_bytes (images.picture_size w h) bytes.now }
{
    let pixels = u64::from(w) * u64::from(h);
    if pixels <= bytes.len() as u64 / 3 {
        Some(&bytes[..3 * pixels as usize])
    } else {
        None
    }
}

/// The pixels of the image of this size at the start of the bytes.
#[tactic(auto, unfolding(crate::specs::Images::picture_at))]
fn picture_at(w: u32, h: u32, bytes: &[u8]) -> Option<&[u8]>
    ensures { option_copied result ≡ images.picture_at w h bytes.now }
{
    first_pixels(w, h, behind_head(w, h, bytes)?)
}

/// The `3 * w * h` bytes of the pixels of an image of this width and height; None exactly if the
/// bytes do not begin with an image of this size.
pub fn read_p6(bytes: &[u8], w: u32, h: u32) -> Option<&[u8]>
    ensures { MatchOption result ((picture : List ℕ) → images.BeginsWithImage bytes.now w h picture → ⊥) (λ picture. images.BeginsWithImage bytes.now w h picture.now) }
{
    picture_at(w, h, bytes)
}

/// The length of an image of this width and height, its head among it; None exactly if the bytes do
/// not begin with an image of this size.
#[tactic(auto, using(crate::proofs::ImageLaws::length_is, crate::proofs::ImageLaws::length_within, crate::proofs::ImageLaws::no_head, crate::proofs::ImageLaws::no_pixels))]
pub fn image_length(bytes: &[u8], w: u32, h: u32) -> Option<usize>
    ensures length { result ≡ images.image_length w h bytes.now }
    ensures within { IfSome result (λ n. n ≤ length bytes.now) }
{
    let Some(rest) = behind_head(w, h, bytes) else {
        return None;
    };
    let Some(picture) = first_pixels(w, h, rest) else {
        return None;
    };
    Some(bytes.len() - rest.len() + picture.len())
}
