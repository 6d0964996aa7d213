//! Where a key stands in chunks.

ghost use Rattle.std.specs.Prelude.{◌≡◌, ◌<◌, ◌+◌, true, false, [], length, take, drop, get_or, All, IfOk, IfErr, IfSome};
ghost use Rattle.impl_tiles.specs.inner.Chunked.{flat, BeginsAbove, BeginsBy, HasKeyAt, HasGapAt};
ghost use Rattle.impl_tiles.specs.inner.TileTables.{Rises, Before, After};

use crate::chunk::{Chunk, MOST};
use crate::held::{KeyedPlace, Spot};
use crate::search::{is_gap, search};
use geom::TileKey;
use std::cmp::Ordering;

/// More numbers than a chunk has spots: the spot after its last key has one of its own.
const NUMBERS: usize = 2 * MOST;

// Whether a chunk begins above a key.
fn begins_above(chunk: &Chunk, key: TileKey) -> bool
    ensures above { result ≡ true → BeginsAbove key chunk.now }
    ensures by { result ≡ false → BeginsBy key chunk.now }
{
    match chunk.as_slice().first() {
        Some(one) => key.cmp(&one.key) == Ordering::Less,
        None => false,
    }
}

// The chunk of a key: the last one that begins at or below it, or the first one.
fn chunk_for(chunks: &[Chunk], key: TileKey) -> usize
    requires some { 0 < length chunks.now }
    requires full { All (λ c. 0 < length c) chunks.now }
    requires rises { Rises (flat chunks.now) }
    ensures bound { result < length chunks.now }
    ensures before { Before key (flat (take result chunks.now)) }
    ensures after { After key (flat (drop (result + 1) chunks.now)) }
{
    let mut low = 0;
    let mut high = chunks.len();
    while high - low > 1 {
        let middle = low + (high - low) / 2;
        if begins_above(&chunks[middle], key) {
            high = middle;
        } else {
            low = middle;
        }
    }
    low
}

/// The spot of a key; an error is where it would go.
pub(crate) fn find(chunks: &[Chunk], key: TileKey) -> Result<Spot, Spot>
    requires full { All (λ c. 0 < length c) chunks.now }
    requires rises { Rises (flat chunks.now) }
    ensures found { IfOk result (HasKeyAt chunks.now key) }
    ensures absent { IfErr result (HasGapAt chunks.now key) }
{
    if chunks.is_empty() {
        return Err(Spot { chunk: 0, at: 0 });
    }
    let chunk = chunk_for(chunks, key);
    match search(chunks[chunk].as_slice(), key) {
        Ok(at) => Ok(Spot { chunk, at }),
        Err(at) => Err(Spot { chunk, at }),
    }
}

/// The number of a spot.
pub(crate) fn number_of(spot: Spot) -> usize {
    spot.chunk.wrapping_mul(NUMBERS).wrapping_add(spot.at)
}

/// The spot of a number.
pub(crate) fn spot_of(number: usize) -> Spot {
    Spot {
        chunk: number / NUMBERS,
        at: number % NUMBERS,
    }
}

/// The key at a spot with its place, if this key stands there.
pub(crate) fn one_at(chunks: &[Chunk], spot: Spot, key: TileKey) -> Option<KeyedPlace>
    requires { Rises (flat chunks.now) }
    ensures stands { IfSome result (λ one. HasKeyAt chunks.now key spot) }
    ensures value { IfSome result (λ one. one ≡ get_or (get_or chunks.now spot.chunk []) spot.at one) }
{
    let held = chunks.get(spot.chunk)?.as_slice();
    let one = held.get(spot.at)?;
    if one.key == key { Some(*one) } else { None }
}

// Whether no key stands before a spot but those of its chunk, or some of these do.
fn begins(spot: Spot) -> bool
    ensures { result ≡ true → spot.at ≡ 0 → spot.chunk ≡ 0 }
{
    spot.at > 0 || spot.chunk == 0
}

// Whether the keys of the chunks from this one on are above the key, which the first of them tells.
fn are_above_from(chunks: &[Chunk], chunk: usize, key: TileKey) -> bool
    requires full { All (λ c. 0 < length c) chunks.now }
    requires rises { Rises (flat chunks.now) }
    ensures { result ≡ true → After key (flat (drop chunk chunks.now)) }
{
    match chunks.get(chunk) {
        Some(first) => begins_above(first, key),
        None => true,
    }
}

// Whether the key is seen to be missing: it would go to this spot.
fn is_gap_at(chunks: &[Chunk], spot: Spot, key: TileKey) -> bool
    requires full { All (λ c. 0 < length c) chunks.now }
    requires rises { Rises (flat chunks.now) }
    ensures { result ≡ true → HasGapAt chunks.now key spot }
{
    let Some(chunk) = chunks.get(spot.chunk) else {
        return false;
    };
    let held = chunk.as_slice();
    if !begins(spot) || !is_gap(held, spot.at, key) {
        return false;
    }
    spot.at < held.len() || are_above_from(chunks, spot.chunk + 1, key)
}

/// The same as `find`; a key that would go to this spot, or is the first of the next chunk, is found without a search.
pub(crate) fn find_near(chunks: &[Chunk], spot: Spot, key: TileKey) -> Result<Spot, Spot>
    requires full { All (λ c. 0 < length c) chunks.now }
    requires rises { Rises (flat chunks.now) }
    ensures found { IfOk result (HasKeyAt chunks.now key) }
    ensures absent { IfErr result (HasGapAt chunks.now key) }
{
    if is_gap_at(chunks, spot, key) {
        return Err(spot);
    }
    let next = Spot {
        chunk: spot.chunk.wrapping_add(1),
        at: 0,
    };
    if one_at(chunks, next, key).is_some() {
        return Ok(next);
    }
    find(chunks, key)
}
