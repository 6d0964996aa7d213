//! A gate at which workers wait, or are counted.

use crate::meeting::Meeting;
use byte_io::Gate;

/// Which workers come to a gate.
#[derive(Clone, Copy)]
pub enum Gathering {
    /// None of them.
    Nobody,
    /// Each of them. The first two wait for each other, and then for the sink.
    Pair,
    /// Those that make this tile, which go on at once.
    Tile {
        /// Its layer.
        layer: u32,
        /// Its column.
        column: u32,
        /// Its row.
        row: u32,
    },
}

/// A gate of a meeting.
#[derive(Drop)]
pub struct MeetingGate<'a> {
    /// Where those that come are counted.
    pub meeting: &'a Meeting,
    /// Who they are.
    pub gathering: Gathering,
}

impl<'a> Gate for MeetingGate<'a> {
    fn between(&self, _worker: u32, layer: u32, x: u32, y: u32) {
        match self.gathering {
            Gathering::Nobody => {}
            Gathering::Pair => {
                if self.meeting.comes() < 2 {
                    self.meeting.wait_for_workers(2);
                    self.meeting.wait_for_sink();
                }
            }
            Gathering::Tile {
                layer: its_layer,
                column,
                row,
            } => {
                if (layer, x, y) == (its_layer, column, row) {
                    self.meeting.comes();
                }
            }
        }
    }
}
