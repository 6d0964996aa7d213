//! Moves of scrollers.

ghost use Rattle.std.specs.Prelude.{◌≡◌, ◌∷◌, [], map, IsTrue};
ghost use Rattle.page_properties.specs.Entries.{knows};
ghost use Rattle.page_layers.specs.Effects.{scrolled_by, page_after_pulls};
ghost use Rattle.page_hit_test.specs.Wheels.{part_move};
ghost use Rattle.cc.specs.KeptTiles.{AreKeptFor, AreCurrent};
ghost use Rattle.cc.specs.Compositors.{amount_scrolled};

use crate::TileCache;
use geom::Point;
use page_hit_test::WheelPart;
use page_layers::LayerTree;

/// Scrolls the active page as far as the scroller's range allows, and tells how far. What is kept for the page
/// stays so.
pub(crate) fn scroll_active(
    active: &mut LayerTree,
    cache: &TileCache,
    id: u32,
    dx: i32,
    dy: i32,
) -> Point
    requires known { IsTrue (knows id active.old.props.scrollers) }
    requires kept { AreKeptFor active.old cache.now }
    ensures page { active.new ≡ scrolled_by active.old id dx dy }
    ensures by { result ≡ amount_scrolled active.old id dx dy }
    ensures kept { AreKeptFor active.new cache.now }
{
    active.pull(id, dx as i64, dy as i64)
}

/// Moves a scroller of the main page as far as its range allows; nothing if the page has no such scroller. What
/// is current stays so.
pub(crate) fn move_main(main: &mut LayerTree, cache: &TileCache, id: u32, dx: i32, dy: i32)
    requires { AreCurrent main.old cache.now }
    ensures page { main.new ≡ page_after_pulls (record { scroller = id; dx = dx; dy = dy } ∷ []) main.old }
    ensures current { AreCurrent main.new cache.now }
{
    move_one(main, id, dx, dy);
}

// Moves a scroller of a page as far as its range allows; nothing if the page has no such scroller.
#[tactic(auto, using(crate::proofs::ScrollSteps::unknown_stays))]
fn move_one(page: &mut LayerTree, id: u32, dx: i32, dy: i32)
    ensures { page.new ≡ page_after_pulls (record { scroller = id; dx = dx; dy = dy } ∷ []) page.old }
{
    page.is_page();
    match page.props().scroller(id) {
        Some(_) => {
            page.pull(id, dx as i64, dy as i64);
        }
        None => (),
    }
}

// Moves the scrollers of some parts.
fn move_parts(page: &mut LayerTree, parts: &[WheelPart])
    ensures { page.new ≡ page_after_pulls (map part_move parts.now) page.old }
{
    let mut rest = parts;
    while let Some((part, after)) = rest.split_first() {
        move_one(page, part.scroller, part.by.x, part.by.y);
        rest = after;
    }
}

/// Moves the scrollers of some parts, in both pages. What is kept and what is current stays so.
pub(crate) fn move_both(
    active: &mut LayerTree,
    main: &mut LayerTree,
    cache: &TileCache,
    parts: &[WheelPart],
)
    requires kept { AreKeptFor active.old cache.now }
    requires current { AreCurrent main.old cache.now }
    ensures active { active.new ≡ page_after_pulls (map part_move parts.now) active.old }
    ensures main { main.new ≡ page_after_pulls (map part_move parts.now) main.old }
    ensures kept { AreKeptFor active.new cache.now }
    ensures current { AreCurrent main.new cache.now }
{
    move_parts(active, parts);
    move_parts(main, parts);
}
