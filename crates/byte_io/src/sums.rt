//! Bytes, summed up.

ghost use Rattle.std.specs.Prelude.{◌≡◌, ◌+◌, ◌%◌, ◌^◌};
ghost use Rattle.byte_io.specs.Sums.{byte_sum};

/// A sum with that of some bytes, modulo 2^64.
pub(crate) fn sum_behind(before: u64, bytes: &[u8]) -> u64
    ensures { result ≡ (before + byte_sum bytes.now) % 2 ^ 64 }
{
    let mut sum = before;
    let mut rest = bytes;
    while let [byte, after @ ..] = rest {
        sum = sum.wrapping_add(u64::from(*byte));
        rest = after;
    }
    sum
}
