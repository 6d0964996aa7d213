//! Which events are draws, and the scene of each.

ghost use Rattle.std.specs.Prelude.{◌≡◌, length};
ghost use Rattle.std.specs.Vec.Iter.{into_iter_items, into_iter_len};
ghost use Rattle.recording_writer.specs.Scenes.{is_draw as is_draw_of, left_behind, scene_of};

use model_history::Event;
use std::alloc::Global;
use std::vec::IntoIter;
use viz_scene::Scene;

// Whether the event shows a picture.
fn is_draw(event: &Event) -> bool
    ensures { result ≡ is_draw_of event.now }
{
    matches!(event, Event::Draw { .. })
}

/// The scene of an event, if it is a draw.
pub(crate) fn next_scene(event: &Event, scenes: &mut IntoIter<Scene, Global>) -> Option<Scene>
    requires { into_iter_len scenes.old ≡ length (into_iter_items scenes.old) }
    ensures scene { result ≡ scene_of event.now (into_iter_items scenes.old) }
    ensures left { into_iter_items scenes.new ≡ left_behind event.now (into_iter_items scenes.old) }
    ensures count { into_iter_len scenes.new ≡ length (into_iter_items scenes.new) }
{
    if is_draw(event) { scenes.next() } else { None }
}
