//! The main scroll values.

ghost use Rattle.std.specs.Prelude.{◌≡◌, ◌≤◌, ◌<◌};
ghost use Rattle.page_properties.specs.Entries.{find, with_node_changed};
ghost use Rattle.page_layers.specs.Scrolls as spec;

use geom::Point;

/// A number clamped to a scroll range from 0 to its end.
#[tactic(auto, unfolding(crate::specs::Scrolls::clamp_to))]
pub(crate) fn clamp_to(most: u32, value: i64) -> i32
    requires { most ≤ 1048576 }
    ensures { result ≡ spec.clamp_to most value }
{
    value.min(most as i64).max(0) as i32
}

/// The value of a scroller; (0, 0) if there is none.
pub(crate) fn value_in(values: &[(u32, Point)], id: u32) -> Point
    ensures { result ≡ spec.or_origin (find id values.now) }
{
    for value in values {
        if value.0 == id {
            return value.1;
        }
    }
    Point { x: 0, y: 0 }
}

// Sets the value of a scroller in a slice.
fn set_in(values: &mut [(u32, Point)], id: u32, at: Point)
    ensures { values.new ≡ with_node_changed id (λ _. at) values.old }
{
    for value in values.iter_mut() {
        if value.0 == id {
            value.1 = at;
            return;
        }
    }
}

/// Sets the value of a scroller.
pub(crate) fn set_value(values: &mut Vec<(u32, Point)>, id: u32, at: Point)
    ensures { values.new.items ≡ with_node_changed id (λ _. at) values.old.items }
{
    set_in(values, id, at);
}
