//! Whether a key is one of a list in key order.

ghost use Rattle.std.specs.Prelude.{◌≡◌, ◌≤◌, ◌<◌, ℕ, true, false, length, get_or};
ghost use Rattle.std.specs.declared.cmp.Ordering.TheVariants.{Less, Equal, Greater};
ghost use Rattle.std.specs.List.Sorted.{IsSorted};
ghost use Rattle.geom.specs.declared.tile.TileKey.{TileKey as Key};
ghost use Rattle.geom.specs.KeyLists.{has_key};
ghost use Rattle.geom.specs.KeyOrder.{key_cmp};
ghost use Rattle.impl_tiles.specs.Passed.{AreLessBefore};

use geom::TileKey;
use std::cmp::Ordering;

/// How many keys in a row are passed before the next one is searched for.
const STEPS: usize = 8;

// The order of the key at this place to another; past the end every key is greater.
fn order_at(keys: &[TileKey], at: usize, key: TileKey) -> Ordering
    ensures there { (d : Key) → at < length keys.now → key_cmp (get_or keys.now at d) key ≡ result }
    ensures end { length keys.now ≤ at → result ≡ Greater }
{
    match keys.get(at) {
        Some(one) => one.cmp(&key),
        None => Ordering::Greater,
    }
}

// A place at `near` or a few after it: those between are of keys that are less.
fn passed(keys: &[TileKey], near: usize, key: TileKey) -> usize {
    let mut at = near;
    for _ in 0..STEPS {
        if order_at(keys, at, key) != Ordering::Less {
            break;
        }
        at = at.wrapping_add(1);
    }
    at
}

// Whether the keys before this place are less, which the last of them tells.
fn are_less_before(keys: &[TileKey], at: usize, key: TileKey) -> bool
    requires { IsSorted key_cmp keys.now }
    ensures bound { result ≡ true → at ≤ length keys.now }
    ensures less { result ≡ true → (i : ℕ) (d : Key) → i < at → key_cmp (get_or keys.now i d) key ≡ Less }
{
    if at == 0 {
        return true;
    }
    order_at(keys, at - 1, key) == Ordering::Less
}

// Whether the keys from this place on are greater, which the first of them tells.
fn are_greater_from(keys: &[TileKey], at: usize, key: TileKey) -> bool
    requires { IsSorted key_cmp keys.now }
    ensures { result ≡ true → (i : ℕ) (d : Key) → at ≤ i → i < length keys.now → key_cmp (get_or keys.now i d) key ≡ Greater }
{
    order_at(keys, at, key) == Ordering::Greater
}

// Whether the key is seen to be missing: it would stand at this place.
fn is_missing_at(keys: &[TileKey], at: usize, key: TileKey) -> bool
    requires { IsSorted key_cmp keys.now }
    ensures { result ≡ true → has_key keys.now key ≡ false }
{
    let before = are_less_before(keys, at, key);
    let after = are_greater_from(keys, at, key);
    before && after
}

// Whether the key stands at this place.
fn is_at(keys: &[TileKey], at: usize, key: TileKey) -> bool
    ensures there { result ≡ true → has_key keys.now key ≡ true }
    ensures other { result ≡ false → (d : Key) → at < length keys.now → key_cmp (get_or keys.now at d) key ≡ Equal → ⊥ }
{
    match keys.get(at) {
        Some(one) => *one == key,
        None => false,
    }
}

// The same as `has_near`, by a search.
fn has_searched(keys: &[TileKey], near: &mut usize, key: TileKey) -> bool
    requires { IsSorted key_cmp keys.now }
    ensures { result ≡ has_key keys.now key }
{
    match keys.binary_search(&key) {
        Ok(at) => {
            *near = at.wrapping_add(1);
            true
        }
        Err(at) => {
            *near = at;
            false
        }
    }
}

// The same as `has_near`, for a key that is not the one at `near`.
fn has_behind(keys: &[TileKey], near: &mut usize, key: TileKey) -> bool
    requires { IsSorted key_cmp keys.now }
    ensures { result ≡ has_key keys.now key }
{
    let at = passed(keys, *near, key);
    if is_at(keys, at, key) {
        *near = at.wrapping_add(1);
        return true;
    }
    if is_missing_at(keys, at, key) {
        *near = at;
        return false;
    }
    has_searched(keys, near, key)
}

// The first place from `near` on whose key is not less; the end if there is none.
fn not_less_from(keys: &[TileKey], near: usize, key: TileKey) -> usize
    ensures passed { AreLessBefore keys.now near key → AreLessBefore keys.now result key }
    ensures stops { (d : Key) → result < length keys.now → key_cmp (get_or keys.now result d) key ≡ Less → ⊥ }
{
    for at in near..keys.len() {
        if order_at(keys, at, key) != Ordering::Less {
            return at;
        }
    }
    keys.len()
}

/// Whether the first of these keys from `near` on that is not less than a key is that key; `near` is set to its place.
/// If both these keys and those that are asked for stand in key order, that is whether it is one of them.
pub fn is_next(keys: &[TileKey], near: &mut usize, key: TileKey) -> bool
    ensures has { result ≡ true → has_key keys.now key ≡ true }
    ensures exact { IsSorted key_cmp keys.now → AreLessBefore keys.now near.old key → result ≡ has_key keys.now key }
    ensures passed { AreLessBefore keys.now near.old key → AreLessBefore keys.now near.new key }
{
    let at = not_less_from(keys, *near, key);
    *near = at;
    is_at(keys, at, key)
}

/// Whether a key is one of these, which stand in key order. If keys are asked for in their order, `near`
/// carries the place from one question to the next: a key that would stand next to the one before it, or a
/// few after it, is found or missed without a search. The answer doesn't depend on it; 0 is as good a
/// beginning as any.
pub fn has_near(keys: &[TileKey], near: &mut usize, key: TileKey) -> bool
    requires { IsSorted key_cmp keys.now }
    ensures { result ≡ has_key keys.now key }
{
    if is_at(keys, *near, key) {
        *near = near.wrapping_add(1);
        return true;
    }
    if is_missing_at(keys, *near, key) {
        return false;
    }
    has_behind(keys, near, key)
}
