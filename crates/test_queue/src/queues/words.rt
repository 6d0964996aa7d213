//! Keys, ranks and tiles as words, and what a queue answers.
//!
//! A key is `LAYER/X/Y/STAMP`, a rank `KEY:BIN` with the bin `now`, `soon` or `eventually`, and a tile a rank
//! or a key without rank, with `!` after it if it is pinned.

use crate::choice::PlainChoice;
use geom::TileKey;
use std::alloc::{AllocError, Global};
use test_table::{LineFault, keys_text, wholes};
use tile_priority::{Bin, Rank, ReadyTile};
use tile_queue::RasterQueue;

/// The key of a word.
pub(crate) fn key_of(word: &str) -> Result<TileKey, LineFault> {
    let [layer, x, y, stamp] = wholes::<4>(word, '/')?;
    Ok(TileKey { layer, x, y, stamp })
}

/// The bin of a word.
fn bin_of(word: &str) -> Result<Bin, LineFault> {
    match word {
        "now" => Ok(Bin::Now),
        "soon" => Ok(Bin::Soon),
        "eventually" => Ok(Bin::Eventually),
        _ => Err(LineFault::NoForm),
    }
}

/// The rank of a word, in tree 0 at distance 0.
fn rank_of(word: &str) -> Result<Rank, LineFault> {
    let Some((key, bin)) = word.split_once(':') else {
        return Err(LineFault::NoForm);
    };
    Ok(Rank {
        bin: bin_of(bin)?,
        tree: 0,
        distance: 0,
        key: key_of(key)?,
    })
}

/// The tile of a rank or of a key without one.
fn tile_of(word: &str, pinned: bool) -> Result<ReadyTile, LineFault> {
    if !word.contains(':') {
        return Ok(ReadyTile {
            key: key_of(word)?,
            rank: None,
            pinned,
        });
    }
    let rank = rank_of(word)?;
    Ok(ReadyTile {
        key: rank.key,
        rank: Some(rank),
        pinned,
    })
}

/// The tile of a word.
pub(crate) fn ready_of(word: &str) -> Result<ReadyTile, LineFault> {
    match word.strip_suffix('!') {
        Some(word) => tile_of(word, true),
        None => tile_of(word, false),
    }
}

/// The ranks of words.
fn ranks_of(alloc: Global, words: &str) -> Result<Vec<Rank>, LineFault> {
    let mut ranks = Vec::new(alloc);
    for word in words.split_whitespace() {
        ranks.push(rank_of(word)?)?;
    }
    Ok(ranks)
}

/// The tiles of words.
fn tiles_of(alloc: Global, words: &str) -> Result<Vec<ReadyTile>, LineFault> {
    let mut tiles = Vec::new(alloc);
    for word in words.split_whitespace() {
        tiles.push(ready_of(word)?)?;
    }
    Ok(tiles)
}

/// The choice of `BUDGET IN_FLIGHT wanted RANK .. ready TILE ..`.
pub(crate) fn queue_of(alloc: Global, row: &str) -> Result<PlainChoice, LineFault> {
    let Some((head, lists)) = row.split_once(" wanted") else {
        return Err(LineFault::NoForm);
    };
    let Some((ranks, tiles)) = lists.split_once(" ready") else {
        return Err(LineFault::NoForm);
    };
    let [budget, in_flight] = wholes::<2>(head, ' ')?;
    let wanted = ranks_of(alloc, ranks)?;
    let ready = tiles_of(alloc, tiles)?;
    Ok(PlainChoice::new(wanted, ready, in_flight as usize, budget))
}

/// The key that starts first.
fn first_text(alloc: Global, queue: &RasterQueue) -> Result<String, AllocError> {
    match queue.first() {
        Some(key) => keys_text(alloc, &[key]),
        None => keys_text(alloc, &[]),
    }
}

/// The keys that are evicted for a key.
fn evicted_text(alloc: Global, queue: &RasterQueue, key: TileKey) -> Result<String, AllocError> {
    let keys = queue.evicted(key)?;
    keys_text(alloc, keys.as_slice())
}

/// The answer to `first`, the key that starts first, or to `evicted KEY`, the keys that are evicted for it.
pub(crate) fn answer(
    alloc: Global,
    queue: &RasterQueue,
    question: &str,
) -> Result<String, LineFault> {
    match question.strip_prefix("evicted ") {
        Some(word) => Ok(evicted_text(alloc, queue, key_of(word)?)?),
        None if question == "first" => Ok(first_text(alloc, queue)?),
        None => Err(LineFault::NoForm),
    }
}
