//! A sink for lines alone.

use byte_io::{MemSink, PutFault, Sink};
use std::sync::Wait;
use thread_pieces::SceneSink;
use viz_scene::Scene;

/// A sink in memory for a compositor that draws nothing: of a scene it takes no byte.
#[derive(Drop)]
pub struct LinesSink {
    pub out: MemSink,
}

impl Sink for LinesSink {
    type Place = ();

    ghost faults = { λ s. s.out.faults };

    ghost refusals = { λ s. s.out.refusals };

    ghost place = { λ _. tt };

    fn put(&mut self, piece: &[u8]) -> Result<(), PutFault> {
        self.out.put(piece)
    }
}

impl SceneSink for LinesSink {
    fn put_scene(&mut self, _scene: Scene) -> Result<(), PutFault> {
        self.out.put(b"")
    }

    fn pass_on(&mut self) {}

    fn wait_for_space<R: Wait>(&mut self, _rt: &R) {}
}
