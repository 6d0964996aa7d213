//! The atomic steps of a run.

ghost use Rattle.std.specs.Prelude.{◌≡◌};
ghost use Rattle.model_history.specs.declared.event.Event.TheVariants as event;

use crate::moves::Moves;
use geom::{Keys, Point, TileKey};

/// One atomic step of a run: a transition of the scheduler, a blocking commit, a scroll, the start or
/// the end of a tile. The names are those of Chromium's compositor thread.
#[derive(Drop)]
pub enum Event {
    /// An impl frame begins, to draw for an input.
    Begin {
        /// The draw's place among the inputs.
        input: u32,
    },
    /// An impl frame begins that will not draw: a main frame is left and no draw is next.
    BeginPlain,
    /// The main side is asked for its next frame, and is told what was scrolled since it was last asked.
    Send {
        /// The main frame's number.
        frame: u32,
        /// The moves since the last `Send`, by rising scroller; none is (0, 0).
        pulls: Moves,
    },
    /// The main frame changed something and may be committed.
    Ready {
        /// The main frame's number.
        frame: u32,
    },
    /// The main frame changed nothing and has ended.
    Abort {
        /// The main frame's number.
        frame: u32,
    },
    /// The main side's page was copied and is the pending tree.
    Commit {
        /// The main frame's number.
        frame: u32,
    },
    /// The pending tree became the active one.
    Activate {
        /// The number of its main frame.
        frame: u32,
        /// How the new ranges and values moved the scrollers, by rising scroller; none is (0, 0).
        clamps: Moves,
    },
    /// A scroll was accepted as far as the range allows.
    Scroll {
        /// The scroll's place among the inputs.
        input: u32,
        /// What was accepted to the right.
        dx: i32,
        /// What was accepted downwards.
        dy: i32,
    },
    /// A wheel was turned.
    Wheel {
        /// The wheel's place among the inputs.
        input: u32,
        /// The layer under the point, or 0.
        target: u32,
        /// What no scroller accepted, to the right.
        rest_x: i32,
        /// What no scroller accepted, downwards.
        rest_y: i32,
        /// What each scroller accepted, the innermost first; none is (0, 0).
        moves: Moves,
    },
    /// A worker began to make a tile.
    Start {
        /// The worker's number, from 0.
        worker: u32,
        /// The tile.
        key: TileKey,
        /// The ready tiles that were evicted for it, the worst first.
        evicted: Keys,
    },
    /// A worker has made its tile.
    DoneTile {
        /// The worker's number, from 0.
        worker: u32,
        /// The tile.
        key: TileKey,
    },
    /// The active tree was drawn.
    Draw {
        /// The draw's place among the inputs.
        input: u32,
        /// The visible tiles that were not ready, in key order.
        missing: Keys,
    },
    /// There was no active tree to draw.
    Skip {
        /// The draw's place among the inputs.
        input: u32,
    },
    /// The frame drew nothing.
    NoDraw,
    /// The impl frame has ended.
    Finish,
    /// What the script waits for has come.
    Await {
        /// The await's place among the inputs.
        input: u32,
    },
    /// No tile is left to make.
    Settle {
        /// The settle's place among the inputs.
        input: u32,
    },
    /// The script has been played to its end.
    End,
    /// An actor gave up, because memory ran out or the output failed.
    Stop {
        /// The actor's number.
        actor: u32,
    },
}

impl Event {
    /// A scroll of which this much was accepted.
    pub fn scroll(input: u32, taken: Point) -> Event
        ensures { result ≡ event.Scroll input taken.x taken.y }
    {
        Event::Scroll {
            input,
            dx: taken.x,
            dy: taken.y,
        }
    }

    /// A wheel over this layer, or over none (0), which moved scrollers so and left a rest.
    pub fn wheel(input: u32, target: u32, rest: Point, moves: Moves) -> Event
        ensures { result ≡ event.Wheel input target rest.x rest.y moves }
    {
        Event::Wheel {
            input,
            target,
            rest_x: rest.x,
            rest_y: rest.y,
            moves,
        }
    }
}
