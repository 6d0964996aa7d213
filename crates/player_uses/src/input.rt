//! The source, read to its end.

ghost use Rattle.std.specs.Prelude.{◌≡◌, ◌+◌, ◌-◌, ◌<◌, ◌≤◌, ◌^◌, length, vec_len, IfOk, MatchResult};
ghost use Rattle.player_uses.specs.Faults.{RefusedAtFault, RefusedBy};
ghost use Rattle.player_uses.specs.Reading.{GivenAtMost};
ghost use Rattle.player_uses.specs.inner.Inputs.{IsFailedRead, ReadMore, ReadWhole, StoppedAt};

use crate::outcome::Outcome;
use byte_io::Source;
use std::alloc::{AllocError, Global};

/// The greatest number of bytes of a recording.
pub const RECORDING_LIMIT: usize = 268435456;

// How many bytes one call of the source is asked for at most.
const PIECE: usize = 65536;

// A buffer of this many bytes.
fn blank(alloc: Global, length: usize) -> Result<Vec<u8>, AllocError>
    ensures { IfOk result (λ buffer. vec_len buffer ≡ length) }
{
    vec![in alloc; 0u8; length]
}

// Reads one piece, at most as long as the buffer, and adds it to the bytes; answers its length. Fails by `ReadFault` or
// `Memory`.
#[tactic(auto, using(crate::proofs::Told::gave_nothing, crate::proofs::Told::gave_front))]
fn read_piece<S: Source>(
    source: &mut S,
    buffer: &mut [u8],
    bytes: &mut Vec<u8>,
) -> Result<usize, Outcome>
    ensures bytes { MatchResult result (ReadMore (S.given source.old) (S.given source.new) (S.has_ended source.new) (length buffer.old) bytes.old.items bytes.new.items) IsFailedRead }
    ensures reads { GivenAtMost (length buffer.old) (S.given source.old) (S.given source.new) }
    ensures grows { S.faults source.old ≤ S.faults source.new }
    ensures cause { RefusedBy (S.faults source.old) (S.faults source.new) result }
    ensures stops { RefusedAtFault (S.faults source.old) (S.faults source.new) (S.has_failed source.new) result }
{
    let taken = match source.read(buffer) {
        Ok(taken) => taken,
        Err(_) => return Err(Outcome::ReadFault),
    };
    match bytes.extend_from_slice(&buffer[..taken]) {
        Ok(()) => Ok(taken),
        Err(_) => Err(Outcome::Memory),
    }
}

/// All bytes that a source gives to its end; or how a run ends that can't have them: `TooLong` if there are more than
/// `limit`, `ReadFault` if the source failed, and `Memory`.
///
/// At most one byte more than `limit` is read, and after a failed read the source is not called again.
#[tactic(auto, using(crate::proofs::Told::gave_nothing, crate::proofs::Told::gave_more, crate::proofs::Told::whole_given, crate::proofs::StoppedReads::failed_stops))]
pub fn read_all<S: Source>(alloc: Global, source: &mut S, limit: usize) -> Result<Vec<u8>, Outcome>
    requires { limit < 2 ^ 32 }
    ensures bytes { MatchResult result (λ v. ReadWhole limit (S.given source.old) (S.given source.new) (S.has_ended source.new) v.items) (StoppedAt limit (S.given source.old) (S.given source.new)) }
    ensures reads { GivenAtMost (limit + 1) (S.given source.old) (S.given source.new) }
    ensures grows { S.faults source.old ≤ S.faults source.new }
    ensures cause { RefusedBy (S.faults source.old) (S.faults source.new) result }
    ensures stops { RefusedAtFault (S.faults source.old) (S.faults source.new) (S.has_failed source.new) result }
{
    let mut bytes = Vec::new(alloc);
    let mut buffer = match blank(alloc, PIECE) {
        Ok(buffer) => buffer,
        Err(_) => return Err(Outcome::Memory),
    };
    while bytes.len() <= limit {
        let room = (limit - bytes.len() + 1).min(PIECE);
        let taken = read_piece(source, &mut buffer[..room], &mut bytes)?;
        if taken == 0 {
            return Ok(bytes);
        }
    }
    Err(Outcome::TooLong {
        limit: limit as u64,
    })
}
