//! Sinks that take scenes.

ghost use Rattle.std.specs.Prelude.{◌≡◌, ◌≤◌};
ghost use Rattle.byte_io.specs.Pieces.{PutAppends, PutCause};
ghost use Rattle.thread_pieces.specs.Scenes.{scene_image};

use byte_io::{PutFault, Sink};
use std::sync::Wait;
use viz_scene::Scene;

/// A sink that takes scenes beside bytes, and appends their images. It may gather what it takes.
pub trait SceneSink: Sink {
    /// Appends the image of a scene. The answers are those of `put`.
    fn put_scene(&mut self, scene: Scene) -> Result<(), PutFault>
        ensures bytes { PutAppends (Self.held self.old) (Self.held self.new) (scene_image scene) result }
        ensures grows { Self.faults self.old ≤ Self.faults self.new }
        ensures refused { Self.refusals self.old ≤ Self.refusals self.new }
        ensures cause { PutCause (Self.faults self.old) (Self.faults self.new) (Self.refusals self.old) (Self.refusals self.new) result }
        ensures place { Self.place self.new ≡ Self.place self.old };

    /// Passes on what was gathered. It is called before the caller waits for others, so that no reader waits for these
    /// bytes meanwhile. What it holds stays the same.
    fn pass_on(&mut self)
        ensures bytes { Self.held self.new ≡ Self.held self.old }
        ensures faults { Self.faults self.new ≡ Self.faults self.old }
        ensures place { Self.place self.new ≡ Self.place self.old };

    /// Waits while too much was taken that nobody has written yet. What it holds stays the same.
    fn wait_for_space<R: Wait>(&mut self, rt: &R)
        ensures bytes { Self.held self.new ≡ Self.held self.old }
        ensures faults { Self.faults self.new ≡ Self.faults self.old }
        ensures place { Self.place self.new ≡ Self.place self.old };
}
