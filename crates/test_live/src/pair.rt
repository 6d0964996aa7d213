//! The two compositors.

use cc::Compositor;
use cc_live::{Live, LiveFault, MainFault, Settings};
use geom::Rect;
use page_display_list::Item;
use page_layers::View;
use page_layers::command::{
    AddLayer, AddScroller, AddTransform, Command, InsertItem, ScrollTo, SetTransform,
};
use pixel::Colour;
use std::alloc::{AllocError, Global};
use test_table::Dice;
use tile_priority::TreePriority;
use viz_canvas::Rgba;
use viz_painter::Painter;

/// The sides of the viewport, in pixels.
pub(crate) const WIDTH: u32 = 160;

pub(crate) const HEIGHT: u32 = 120;

/// How many layers there are.
pub(crate) const LAYERS: u32 = 4;

/// What went wrong, but for a picture.
#[derive(Clone, Copy, Debug)]
pub(crate) enum Trouble {
    /// A call of the live compositor may not be made now, or a command was refused.
    Refused,
    /// Memory ran out.
    Memory,
}

impl From<AllocError> for Trouble {
    fn from(_: AllocError) -> Trouble {
        Trouble::Memory
    }
}

impl From<LiveFault> for Trouble {
    fn from(fault: LiveFault) -> Trouble {
        match fault {
            LiveFault::Memory(_) => Trouble::Memory,
            _ => Trouble::Refused,
        }
    }
}

impl From<MainFault> for Trouble {
    fn from(fault: MainFault) -> Trouble {
        match fault {
            MainFault::Memory(_) => Trouble::Memory,
            _ => Trouble::Refused,
        }
    }
}

/// A live compositor with a picture of its own, and the one that it is compared with.
#[derive(Drop)]
pub(crate) struct Pair {
    pub(crate) alloc: Global,
    pub(crate) live: Live,
    pub(crate) painter: Painter<Rgba>,
    pub(crate) other: Compositor<Rgba>,
}

// The colour of a number, opaque or half transparent.
fn colour_of(n: u32) -> Colour {
    let part = |shift: u32| ((n >> shift) % 120) as u8;
    let alpha = if n % 3 == 0 { 255 } else { 128 };
    match Colour::new(part(0), part(3), part(6), alpha) {
        Some(colour) => colour,
        None => Colour::CLEAR,
    }
}

impl Pair {
    /// Both with an empty page, and up to so many jobs at once, at most 16.
    pub(crate) fn new(alloc: Global, workers: u32) -> Result<Pair, Trouble> {
        if workers > 16 {
            return Err(Trouble::Refused);
        }
        let background = match Colour::new(250, 250, 250, 255) {
            Some(colour) => colour,
            None => return Err(Trouble::Refused),
        };
        let settings = Settings {
            viewport_w: WIDTH,
            viewport_h: HEIGHT,
            tile: 32,
            background,
            budget: 2_000,
            soon: 64,
            eventually: 128,
            priority: TreePriority::Same,
            workers,
        };
        let view = View {
            w: WIDTH,
            h: HEIGHT,
            tile: 32,
        };
        let live = Live::new(alloc, settings)?;
        let painter = Painter::new(alloc, WIDTH, HEIGHT)?;
        let other = Compositor::new(alloc, view, background, 1_000_000)?;
        Ok(Pair {
            alloc,
            live,
            painter,
            other,
        })
    }

    // Gives both a command.
    fn edit(&mut self, command: Command) -> Result<(), Trouble> {
        let taken = self.other.apply(&command).is_ok();
        match self.live.edit(command) {
            Ok(()) if taken => Ok(()),
            _ => Err(Trouble::Refused),
        }
    }

    // A scroller, a transform on it, and the layers.
    pub(crate) fn add_all(&mut self, dice: &mut Dice) -> Result<(), Trouble> {
        self.edit(Command::AddScroller(AddScroller {
            id: 1,
            parent: 0,
            max_x: 300,
            max_y: 400,
        }))?;
        self.edit(Command::AddTransform(AddTransform {
            id: 1,
            parent: 0,
            x: 0,
            y: 0,
            scroller: 1,
        }))?;
        for n in 0..LAYERS {
            let colour = colour_of(dice.throw());
            self.edit(Command::AddLayer(AddLayer {
                id: n + 1,
                at: n,
                transform: n % 2,
                clip: 0,
                effect: 0,
                w: 200 + 60 * n,
                h: 160 + 70 * n,
                colour,
            }))?;
        }
        Ok(())
    }

    // An item more in some layer, a move of the layers, or one of the scroller.
    pub(crate) fn edit_some(&mut self, dice: &mut Dice) -> Result<(), Trouble> {
        let kind = dice.below(8);
        if kind == 0 {
            let (x, y) = (dice.below(300), dice.below(400));
            return self.edit(Command::ScrollTo(ScrollTo { id: 1, x, y }));
        }
        if kind == 1 {
            let (x, y) = (dice.below(40) as i32, dice.below(40) as i32);
            return self.edit(Command::SetTransform(SetTransform { id: 1, x, y }));
        }
        let rect = Rect {
            x: dice.below(200) as i32,
            y: dice.below(200) as i32,
            w: 1 + dice.below(90) as i32,
            h: 1 + dice.below(90) as i32,
        };
        let colour = colour_of(dice.throw());
        let layer = 1 + dice.below(LAYERS);
        self.edit(Command::InsertItem(InsertItem {
            layer,
            at: 0,
            item: Item::Rect { rect, colour },
        }))
    }
}
