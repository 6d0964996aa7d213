//! Copying bytes to another place of the same list.

ghost use Rattle.std.specs.Prelude.{◌≡◌, ◌+◌, ◌<◌, ◌≤◌, length};
ghost use Rattle.viz_canvas.specs.inner.Copies.{AreCopied};

/// Gives `len` bytes from byte `to` on those that stand from byte `from` on, as [`slice::copy_within`] does. They may
/// overlap. Blocks that do not overlap are copied one after another, since a copy of those is faster.
pub(crate) fn copy_bytes(bytes: &mut [u8], from: usize, to: usize, len: usize)
    requires given { from + len ≤ length bytes.old }
    requires there { to + len ≤ length bytes.old }
    ensures size { length bytes.new ≡ length bytes.old }
    ensures copied { AreCopied from to len bytes.old bytes.new }
{
    if to < from {
        copy_to_before(bytes, from, to, len);
    } else if from < to {
        copy_to_after(bytes, from, to, len);
    }
}

// Copies bytes to before where they stand, the first block first.
fn copy_to_before(bytes: &mut [u8], from: usize, to: usize, len: usize)
    requires given { from + len ≤ length bytes.old }
    requires order { to < from }
    ensures size { length bytes.new ≡ length bytes.old }
    ensures copied { AreCopied from to len bytes.old bytes.new }
{
    let gap = from - to;
    let mut done = 0;
    while done < len {
        let block = gap.min(len - done);
        copy_block_to_before(bytes, from + done, to + done, block);
        done += block;
    }
}

// Copies bytes to after where they stand, the last block first.
fn copy_to_after(bytes: &mut [u8], from: usize, to: usize, len: usize)
    requires there { to + len ≤ length bytes.old }
    requires order { from < to }
    ensures size { length bytes.new ≡ length bytes.old }
    ensures copied { AreCopied from to len bytes.old bytes.new }
{
    let gap = to - from;
    let mut left = len;
    while left > 0 {
        let block = gap.min(left);
        left -= block;
        copy_block_to_after(bytes, from + left, to + left, block);
    }
}

// Copies bytes to before where they stand, which do not overlap with those there.
fn copy_block_to_before(bytes: &mut [u8], from: usize, to: usize, len: usize)
    requires given { from + len ≤ length bytes.old }
    requires apart { to + len ≤ from }
    ensures size { length bytes.new ≡ length bytes.old }
    ensures copied { AreCopied from to len bytes.old bytes.new }
{
    let (above, below) = bytes.split_at_mut(from);
    above[to..to + len].copy_from_slice(&below[..len]);
}

// Copies bytes to after where they stand, which do not overlap with those there.
fn copy_block_to_after(bytes: &mut [u8], from: usize, to: usize, len: usize)
    requires there { to + len ≤ length bytes.old }
    requires apart { from + len ≤ to }
    ensures size { length bytes.new ≡ length bytes.old }
    ensures copied { AreCopied from to len bytes.old bytes.new }
{
    let (above, below) = bytes.split_at_mut(to);
    below[..len].copy_from_slice(&above[from..from + len]);
}
