//! A piece of a recording.

ghost use Rattle.std.specs.Prelude.{◌≡◌};

use viz_scene::Scene;

/// Some lines, and the image of a scene after them, if there is one.
#[derive(Drop)]
pub struct Shot {
    pub(crate) lines: Vec<u8>,
    pub(crate) scene: Option<Scene>,
    /// How many bytes it is counted with while it waits.
    bytes: u64,
}

// How many bytes a scene is counted with: red, green and blue of each pixel of its image, and what it keeps.
fn scene_bytes(scene: &Scene) -> u64 {
    let image = 3 * (scene.w() as u64 * scene.h() as u64);
    image.saturating_add(scene.held_bytes())
}

impl Shot {
    /// These lines, and the image of this scene after them.
    pub fn new(lines: Vec<u8>, scene: Option<Scene>) -> Shot
        ensures lines { result.lines ≡ lines }
        ensures scene { result.scene ≡ scene }
    {
        let image = match &scene {
            Some(scene) => scene_bytes(scene),
            None => 0,
        };
        let bytes = image.saturating_add(lines.len() as u64);
        Shot {
            lines,
            scene,
            bytes,
        }
    }

    /// How many bytes it is counted with while it waits, at most 2^64 - 1: its lines, red, green and blue of each
    /// pixel of its image, and what its scene keeps.
    pub fn bytes(&self) -> u64 {
        self.bytes
    }
}
