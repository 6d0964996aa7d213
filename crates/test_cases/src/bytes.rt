//! Bytes and pictures as the table writes them.

use crate::fault::ProgramRowFault;
use crate::numbers::number;
use std::alloc::Global;

/// The bytes of hexadecimal digits, in groups with blanks between.
pub(crate) fn bytes_of(alloc: Global, text: &str) -> Result<Vec<u8>, ProgramRowFault> {
    let mut bytes = Vec::new(alloc);
    for group in text.split_whitespace() {
        let Ok(more) = hex::decode(alloc, group) else {
            return Err(ProgramRowFault::NoHex);
        };
        bytes.extend_from_slice(more.as_slice())?;
    }
    Ok(bytes)
}

/// The two texts before a third, with a blank after each.
pub(crate) fn three_parts(text: &str) -> Option<(&str, &str, &str)> {
    let Some((first, rest)) = text.split_once(' ') else {
        return None;
    };
    match rest.split_once(' ') {
        Some((second, third)) => Some((first, second, third)),
        None => None,
    }
}

/// Adds the bytes of pixels: six digits for one of a colour, `N*COLOUR` for that many of it.
fn add_pixels(alloc: Global, image: &mut Vec<u8>, group: &str) -> Result<(), ProgramRowFault> {
    let (count, colour) = group.split_once('*').unwrap_or(("1", group));
    let colour = bytes_of(alloc, colour)?;
    for _ in 0..number::<u32>(count)? {
        image.extend_from_slice(colour.as_slice())?;
    }
    Ok(())
}

/// The image of a picture: its width, its height, and the colours of its pixels.
pub(crate) fn image_of(alloc: Global, text: &str) -> Result<Vec<u8>, ProgramRowFault> {
    let Some((width, height, colours)) = three_parts(text) else {
        return Err(ProgramRowFault::NoImage);
    };
    let (across, down): (u32, u32) = (number(width)?, number(height)?);
    let mut image = format!(in alloc; "P6\n{across} {down}\n255\n")?.into_bytes();
    let pixels = u64::from(across).saturating_mul(u64::from(down));
    let size = pixels.saturating_mul(3).saturating_add(image.len() as u64);
    for group in colours.split_whitespace() {
        add_pixels(alloc, &mut image, group)?;
    }
    if image.len() as u64 != size {
        return Err(ProgramRowFault::NoImage);
    }
    Ok(image)
}

/// The bytes with one part, which stands in them once, changed.
pub(crate) fn changed(
    alloc: Global,
    bytes: &[u8],
    old: &[u8],
    new: &[u8],
) -> Result<Vec<u8>, ProgramRowFault> {
    match around(bytes, old) {
        Some((before, after)) => Ok([before, new, after].concat(alloc)?),
        None => Err(ProgramRowFault::NotOnce),
    }
}

/// The bytes before and after a part, which stands in them once.
fn around<'a>(bytes: &'a [u8], part: &[u8]) -> Option<(&'a [u8], &'a [u8])> {
    let at = place_of(bytes, part)?;
    let (before, rest) = bytes.split_at(at.min(bytes.len()));
    let after = rest.strip_prefix(part)?;
    match place_of(after, part) {
        Some(_) => None,
        None => Some((before, after)),
    }
}

/// Where a part stands first.
fn place_of(bytes: &[u8], part: &[u8]) -> Option<usize> {
    let mut rest = bytes;
    for at in 0..bytes.len() {
        if rest.starts_with(part) {
            return Some(at);
        }
        match rest.split_first() {
            Some((_, after)) => rest = after,
            None => break,
        }
    }
    None
}
