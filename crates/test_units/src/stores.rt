//! Steps of a store beside a plain list of keys.

ghost use Rattle.std.specs.Prelude.{◌≡◌, true, false, IfOk};
ghost use Rattle.geom.specs.declared.tile.TileKey.{TileKey};

use geom::{Keys, Rect, TileKey};
use impl_tiles::TileStore;
use page_display_list::DisplayList;
use std::alloc::{AllocError, Global};
use std::sync::Arc;
use test_table::{Checks, LineFault};
use tile_raster::{Job, TileImage};

/// One tile is started, and done.
pub fn one_tile_is_started_and_done(alloc: Global, checks: &mut Checks) -> Result<(), LineFault> {
    let mut store = TileStore::new(alloc);
    start(alloc, &mut store, key(1))?;
    checks.holds("it is in flight", store.in_flight(key(1)));
    checks.holds("it is not ready", store.ready(key(1)).is_none());
    done(alloc, &mut store, key(1), true)?;
    let ready = store.ready_keys()?;
    checks.same("ready", &ready.as_slice(), &[key(1)].as_slice());
    let image = store.ready(key(1)).map(|image| image.key());
    checks.same("its image", &image, &Some(key(1)));
    checks.same("one is used", &store.used(), &1);
    checks.holds("none is in flight", !store.in_flight(key(1)));
    Ok(())
}

/// Takes a step with a key: it starts, is done, or, if it is ready, thirds of the keys are given up at times.
fn take_step(
    alloc: Global,
    store: &mut TileStore,
    plain: &mut Vec<(TileKey, bool)>,
    step: u32,
) -> Result<(), LineFault> {
    let one = key(step.wrapping_mul(7) % 23);
    match state(plain, one) {
        Some(true) if step % 5 == 0 => give_up_thirds(alloc, store, plain)?,
        Some(true) => {}
        Some(false) => {
            done(alloc, store, one, step % 3 != 0)?;
            forget(plain, one);
            if step % 3 != 0 {
                plain.push((one, true))?;
            }
        }
        None => start_next(alloc, store, plain, one, step % 2 == 0)?,
    }
    Ok(())
}

/// Each of 600 steps agrees with a plain list.
pub fn steps_agree_with_a_plain_list(alloc: Global, checks: &mut Checks) -> Result<(), LineFault> {
    let mut store = TileStore::new(alloc);
    let mut plain: Vec<(TileKey, bool)> = Vec::new(alloc);
    for step in 0..600u32 {
        take_step(alloc, &mut store, &mut plain, step)?;
        checks.holds("a step", agree(&store, &plain)?);
    }
    Ok(())
}

/// Whether the store and the list hold the same keys, ready and in flight.
fn agree(store: &TileStore, plain: &[(TileKey, bool)]) -> Result<bool, AllocError> {
    let ready = store.ready_keys()?;
    let mut count = 0usize;
    let mut agrees = store.used() as usize == plain.len();
    for n in 0..23u32 {
        let one = key(n);
        let held = state(plain, one);
        agrees &= store.ready(one).is_some() == (held == Some(true));
        agrees &= store.in_flight(one) == (held == Some(false));
        if held == Some(true) {
            agrees &= ready.at(count) == Some(&one);
            count = count.saturating_add(1);
        }
    }
    Ok(agrees && ready.len() == count)
}

/// Gives up the ready keys whose number is a multiple of 3.
fn give_up_thirds(
    alloc: Global,
    store: &mut TileStore,
    plain: &mut Vec<(TileKey, bool)>,
) -> Result<(), AllocError> {
    let dead = keys(
        alloc,
        &[
            key(21),
            key(18),
            key(15),
            key(12),
            key(9),
            key(6),
            key(3),
            key(0),
        ],
    )?;
    store.give_up(&dead);
    plain.retain(|one| !one.1 || one.0.x % 3 != 0);
    Ok(())
}

/// Starts a key, over the first ready one if asked.
fn start_next(
    alloc: Global,
    store: &mut TileStore,
    plain: &mut Vec<(TileKey, bool)>,
    key: TileKey,
    over: bool,
) -> Result<(), LineFault> {
    match first_ready(plain) {
        Some(old) if over => {
            start_over(alloc, store, key, old)?;
            forget(plain, old);
        }
        _ => start(alloc, store, key)?,
    }
    Ok(plain.push((key, false))?)
}

/// The first ready key of a list.
fn first_ready(plain: &[(TileKey, bool)]) -> Option<TileKey> {
    for one in plain {
        if one.1 {
            return Some(one.0);
        }
    }
    None
}

/// Whether a list has the key ready, or in flight; None if it has neither.
fn state(plain: &[(TileKey, bool)], key: TileKey) -> Option<bool> {
    for one in plain {
        if one.0 == key {
            return Some(one.1);
        }
    }
    None
}

/// Takes a key out of a list.
fn forget(plain: &mut Vec<(TileKey, bool)>, key: TileKey) {
    plain.retain(|one| one.0 != key);
}

/// Starts a key that the store lacks.
fn start(alloc: Global, store: &mut TileStore, key: TileKey) -> Result<(), LineFault> {
    store.reserve()?;
    if store.ready(key).is_some() || store.in_flight(key) {
        return Err(LineFault::CaseRefused);
    }
    store.start(key, &Keys::new(alloc));
    Ok(())
}

/// Starts a key that the store lacks, over a ready one.
fn start_over(
    alloc: Global,
    store: &mut TileStore,
    key: TileKey,
    old: TileKey,
) -> Result<(), LineFault> {
    store.reserve()?;
    let mut evicted = Keys::new(alloc);
    if let Err((full, _)) = evicted.push(old) {
        return Err(LineFault::Memory(full));
    }
    if store.ready(key).is_some() || store.in_flight(key) || store.ready(old).is_none() {
        return Err(LineFault::CaseRefused);
    }
    store.start(key, &evicted);
    Ok(())
}

/// Makes a tile in flight, which is still wanted or not.
fn done(alloc: Global, store: &mut TileStore, key: TileKey, live: bool) -> Result<(), LineFault> {
    let image = image_of(alloc, key)?;
    if !store.in_flight(key) {
        return Err(LineFault::CaseRefused);
    }
    store.done(image, live);
    Ok(())
}

/// A picture of one pixel.
fn image_of(alloc: Global, key: TileKey) -> Result<Arc<TileImage>, AllocError>
    ensures { IfOk result (λ image. image.value.key ≡ key) }
{
    let list = match Arc::new(alloc, DisplayList::new(alloc)) {
        Ok(list) => list,
        Err(_) => return Err(AllocError),
    };
    let rect = Rect {
        x: 0,
        y: 0,
        w: 1,
        h: 1,
    };
    match (Job { key, list, rect }).run(alloc) {
        Ok(image) => Ok(image),
        Err((full, _)) => Err(full),
    }
}

/// These keys as a list.
fn keys(alloc: Global, list: &[TileKey]) -> Result<Keys, AllocError> {
    let mut keys = Keys::new(alloc);
    for key in list {
        if let Err((full, _)) = keys.push(*key) {
            return Err(full);
        }
    }
    Ok(keys)
}

/// Key number n of a row of a layer.
fn key(n: u32) -> TileKey {
    TileKey {
        layer: 1,
        x: n,
        y: 0,
        stamp: 0,
    }
}
