//! Who paints scenes.

ghost use Rattle.std.specs.Prelude.{◌≡◌, ◌++◌, ℕ, List, OnOk};
ghost use Rattle.std.specs.Thread.{IsSync};
ghost use Rattle.thread_pieces.specs.Scenes.{scene_image};

use std::alloc::{AllocError, Global};
use std::marker::{Send, Sync};
use std::thread::Threads;
use viz_scene::Scene;

/// A painter of scenes. It has the image of the scene that it painted last, of which it may make the next one faster.
///
/// For clauses it tells the head of that image, and the rows of its pixels after it.
pub trait ScenePainter: Drop + Send {
    ghost head: { Self → List ℕ };

    ghost rows: { Self → List ℕ };

    /// A painter that has painted nothing yet. An error means out of memory.
    fn blank(alloc: Global) -> Result<Self, AllocError>;

    /// Paints a scene, of which it then has the image. It is made in at most the given number of parts, each by a
    /// thread of its own if it can be started; if there is one part, none is started. An error means out of
    /// memory.
    fn paint_scene<R: Threads + Sync>(
        &mut self,
        rt: &R,
        scene: Scene,
        parts: usize,
    ) -> Result<(), AllocError>
        requires { IsSync R.row }
        ensures { OnOk result (Self.head self.new ++ Self.rows self.new ≡ scene_image scene) };

    /// Adds the head of its image to some bytes. An error means out of memory.
    fn push_head(&self, bytes: &mut Vec<u8>) -> Result<(), AllocError>
        ensures { OnOk result (bytes.new.items ≡ bytes.old.items ++ Self.head self.now) };

    /// The pixels of its image, row by row, which go after the head.
    fn pixels(&self) -> &[u8]
        ensures { result.now ≡ Self.rows self.now };
}
