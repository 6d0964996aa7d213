//! What stands after a prefix of bytes.

ghost use Rattle.std.specs.Prelude.{◌≡◌, [], ◌∷◌, option_copied};
ghost use Rattle.model_history.specs.Recordings.{rgb};
ghost use Rattle.recording_check.specs.inner.Behind.{behind};

use pixel::Colour;

// What stands after a byte; None if the bytes do not begin with it.
fn behind_byte(byte: u8, bytes: &[u8]) -> Option<&[u8]>
    ensures { option_copied result ≡ behind (byte ∷ []) bytes.now }
{
    match bytes.split_first() {
        None => None,
        Some((first, rest)) => { if byte == *first { Some(rest) } else { None } }
    }
}

/// What stands after a prefix; None if the bytes do not begin with it.
pub(crate) fn behind_front<'a>(front: &[u8], bytes: &'a [u8]) -> Option<&'a [u8]>
    ensures { option_copied result ≡ behind front.now bytes.now }
{
    let mut left = front;
    let mut rest = bytes;
    while let Some((byte, others)) = left.split_first() {
        match behind_byte(*byte, rest) {
            None => return None,
            Some(next) => {
                rest = next;
                left = others;
            }
        }
    }
    Some(rest)
}

/// What stands after a pixel of this colour; None if the bytes do not begin with one.
pub(crate) fn behind_pixel(colour: Colour, bytes: &[u8]) -> Option<&[u8]>
    ensures { option_copied result ≡ behind (rgb colour) bytes.now }
{
    behind_front(&[colour.r(), colour.g(), colour.b()], bytes)
}
