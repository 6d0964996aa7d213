//! Pixel formats.

ghost use Rattle.std.specs.Prelude.{◌≡◌, ℕ, ◌*◌, ◌/◌, ◌%◌, ◌<◌, ◌≤◌, List, length};
ghost use Rattle.pixel.specs.Colours.{Parts};
ghost use Rattle.pixel.specs.Rows.{pixel};
ghost use Rattle.viz_canvas.specs.Formats.{bytes_at};

/// The bytes of a pixel, as the reader of a picture wants them.
pub trait PixelFormat {
    /// How many bytes a pixel has.
    ghost DEPTH: { ℕ };
    /// The bytes of a premultiplied colour.
    ghost bytes_of: { Parts → List ℕ };

    /// How many bytes a pixel has: 1 to 4.
    const DEPTH: usize;

    /// Writes the pixels of a row, of which each has red, green, blue and alpha, over the bytes of as many.
    fn write_row(bytes: &mut [u8], drawn: &[u8])
        requires whole { length drawn.now % 4 ≡ 0 }
        requires room { length bytes.old ≡ DEPTH * (length drawn.now / 4) }
        ensures { (k : ℕ) → k < length drawn.now / 4 → bytes_at DEPTH bytes.new k ≡ bytes_of (pixel drawn.now k) };

    ghost some: { 1 ≤ DEPTH };

    ghost few: { DEPTH ≤ 4 };
}
