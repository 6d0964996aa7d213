//! Tables of what was found of nodes. The chains of layers share most of their nodes, and a node of which
//! a table tells is not walked up from again.
//!
//! A table has 256 entries, each an id and what was found of it; at first each is the root's, which is a free one. Entries
//! stand by rising id, the free ones after them, so that an id is found by halving; that they do is not claimed, and no
//! answer rests on it. A page has at most 256 nodes of a kind, so there is room for all.

ghost use Rattle.std.specs.Prelude.{◌≡◌, ◌<◌, ℕ, Bool, true, length, IfSome};
ghost use Rattle.geom.specs.declared.rect.Point.{Point as Place};
ghost use Rattle.page_properties.specs.OffsetMap.{origin};
ghost use Rattle.page_properties.specs.inner.Tables.{IsTable};

use geom::Point;

/// A table that knows the translation of the root alone.
pub(crate) fn root_place() -> [(u32, Point); 256]
    ensures { (f : ℕ → Place) → f 0 ≡ origin → IsTable f result }
{
    [(0, Point { x: 0, y: 0 }); 256]
}

/// A table that knows of the root alone, of which all is true.
pub(crate) fn root_holds() -> [(u32, bool); 256]
    ensures { (f : ℕ → Bool) → f 0 ≡ true → IsTable f result }
{
    [(0, true); 256]
}

// Whether an entry of one id stands before that of another: the root's stands after all others.
fn stands_before(id: u32, other: u32) -> bool {
    id.wrapping_sub(1) < other.wrapping_sub(1)
}

// The place of an id in a table: after the entries that stand before it. The last place if all do.
fn place_of<V: Copy>(table: &[(u32, V)], id: u32) -> usize
    requires { length table.now ≡ 256 }
    ensures { result < 256 }
{
    let mut low = 0usize;
    let mut step = 128usize;
    for _ in 0..8 {
        let end = low.wrapping_add(step);
        if stands_before(table[end.wrapping_sub(1) % 256].0, id) {
            low = end;
        }
        step /= 2;
    }
    low % 256
}

// Moves the entries from a place on by one, if the entry of an id is not there.
fn open_place<V: Copy>(table: &mut [(u32, V)], place: usize, id: u32)
    requires room { length table.old ≡ 256 }
    requires place { place < 256 }
    ensures table { (f : ℕ → V) → IsTable f table.old → IsTable f table.new }
    ensures room { length table.new ≡ 256 }
{
    if table[place].0 == id {
        return;
    }
    let free = place_of(table, 0);
    make_room(table, place, free);
}

// Moves the entries from place `at` on by one, up to place `free`, whose entry goes.
fn make_room<V: Copy>(table: &mut [(u32, V)], at: usize, free: usize)
    requires room { length table.old ≡ 256 }
    requires free { free < 256 }
    ensures table { (f : ℕ → V) → IsTable f table.old → IsTable f table.new }
    ensures room { length table.new ≡ 256 }
{
    for moved in 0..free.saturating_sub(at) {
        move_on(table, free - moved);
    }
}

// Moves the entry before a place there.
fn move_on<V: Copy>(table: &mut [(u32, V)], place: usize)
    requires room { length table.old ≡ 256 }
    requires some { 0 < place }
    requires inside { place < 256 }
    ensures table { (f : ℕ → V) → IsTable f table.old → IsTable f table.new }
    ensures room { length table.new ≡ 256 }
{
    table[place] = table[place - 1];
}

/// What was found of an id, if the table tells.
pub(crate) fn found<V: Copy>(table: &[(u32, V)], id: u32) -> Option<V>
    requires { length table.now ≡ 256 }
    ensures { (f : ℕ → V) → IsTable f table.now → IfSome result (λ v. v ≡ f id) }
{
    let entry = table[place_of(table, id)];
    if entry.0 == id { Some(entry.1) } else { None }
}

/// Notes what was found of an id.
pub(crate) fn keep<V: Copy>(table: &mut [(u32, V)], id: u32, value: V)
    requires { length table.old ≡ 256 }
    ensures { (f : ℕ → V) → IsTable f table.old → value ≡ f id → IsTable f table.new }
{
    let place = place_of(table, id);
    open_place(table, place, id);
    put(table, place, id, value);
}

// Puts an entry at a place.
fn put<V: Copy>(table: &mut [(u32, V)], place: usize, id: u32, value: V)
    requires { place < length table.old }
    ensures { (f : ℕ → V) → IsTable f table.old → value ≡ f id → IsTable f table.new }
{
    table[place] = (id, value);
}
