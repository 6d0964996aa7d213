//! Compositors.

ghost use Rattle.std.specs.Prelude.{◌≡◌, [], true, false, IfOk, OnOk, OnErr};
ghost use Rattle.page_layers.specs.Pages.{IsView};
ghost use Rattle.page_layers.specs.Hits as hits;
ghost use Rattle.page_hit_test.specs.Wheels.{IsAmount, IsWheel};
ghost use Rattle.viz_canvas.specs.Canvases.{IsOfSize, EachIs, black};
ghost use Rattle.viz_painter.specs.Painters.{IsKeptOutside};
ghost use Rattle.cc.specs.KeptTiles.{AreKeptFor, AreCurrent};
ghost use Rattle.cc.specs.Compositors.{CompositorView, Applied, AppliedTo, Scrolled, ShowsPage, empty_page, moved, offsets, wheel_moves, AreRowsOf, IsKeptOutsideRows};
ghost use Rattle.cc.specs.inner.Flags.{TellsEdited};

use crate::TileCache;
use crate::damage::{FrameRows, frame_rows, no_rows, paint};
use crate::edits::{known_union, noted};
use crate::moves::{move_both, move_main, scroll_active};
use crate::scenes::{scene_of, target_on, wheel_on};
use crate::shown::{edited_after_moves, is_shown, unshown_after, unshown_after_parts};
use geom::{Point, Rect};
use page_hit_test::Wheel;
use page_layers::{Command, EditError, LayerTree, View};
use pixel::Colour;
use region::Region;
use std::alloc::{AllocError, Global};
use std::marker::Model;
use viz_canvas::{Canvas, PixelFormat};
use viz_painter::Painter;

/// A page that commands change, the page that is shown, and its frame, whose pixels have the bytes of a format.
pub struct Compositor<F: PixelFormat> {
    alloc: Global,
    main: LayerTree,
    // Its main values are where its scrollers stand.
    active: LayerTree,
    background: Colour,
    painter: Painter<F>,
    cache: TileCache,
    // The whole frame, if the last draw was refused and the frame may show anything.
    lost: Option<Rect>,
    // The last draw painted, so its damage is the painter's.
    is_painted: bool,
    // The main page is the active one.
    is_committed: bool,
    // Outside of these rects the main page looks like the active one; None if that is not known.
    edited: Option<Region>,
    // Outside of these rects the frame shows the active page; None if that is not known.
    unshown: Option<Region>,
}

impl<F: PixelFormat> Model for Compositor<F> {
    ghost use Rattle.cc.specs.KeptTiles.{AreKeptFor, AreCurrent};
    ghost use Rattle.cc.specs.Compositors.{CompositorView};
    ghost use Rattle.cc.specs.inner.Flags.{TellsCommitted, TellsEdited, TellsShown, damage_in};

    ghost Value = { CompositorView };

    ghost view = { λ c. record { main = c.main; active = c.active; background = c.background; frame = c.painter.canvas; damage = damage_in c.lost c.is_painted c.painter.damage } };

    ghost invariant = { λ c. AreKeptFor c.active c.cache × AreCurrent c.main c.cache × TellsCommitted c.is_committed c.active c.main × TellsEdited c.edited c.active c.main × TellsShown F.DEPTH F.bytes_of c.unshown c.active c.background c.painter.canvas };
}

// Written out, since a derived drop is proved anew, field by field, in each function that lets one go.
impl<F: PixelFormat> Drop for Compositor<F> {
    fn drop(self) {
        let Compositor {
            alloc: _,
            main: _,
            active: _,
            background: _,
            painter: _,
            cache: _,
            lost: _,
            is_painted: _,
            is_committed: _,
            edited: _,
            unshown: _,
        } = self;
    }
}

impl<F: PixelFormat> Compositor<F> {
    /// A compositor whose pages have this view and no layers, over this colour. Its frame has the view's size, and is
    /// black and opaque until the first draw. The images of tiles that are kept may take `budget` bytes beside those
    /// that the last draw used. An error means out of memory.
    ///
    /// The view's sides are 1 to 2048, and its tiles 16 to 256.
    #[tactic(auto, using(crate::proofs::Pages::kept_none, crate::proofs::Pages::current_none, crate::proofs::Pages::committed_both, crate::proofs::Pages::edited_itself, crate::proofs::Pages::shown_none))]
    pub fn new(
        alloc: Global,
        view: View,
        background: Colour,
        budget: usize,
    ) -> Result<Compositor<F>, AllocError>
        requires { IsView view }
        ensures main { IfOk result (λ c. c.main ≡ empty_page view) }
        ensures active { IfOk result (λ c. c.active ≡ empty_page view) }
        ensures background { IfOk result (λ c. c.background ≡ background) }
        ensures frame { IfOk result (λ c. IsOfSize view.w view.h c.frame) }
        ensures black { IfOk result (λ c. EachIs F.DEPTH (λ x y. F.bytes_of black) c.frame) }
        ensures damage { IfOk result (λ c. c.damage ≡ []) }
    {
        let painter = Painter::new(alloc, view.w, view.h)?;
        Ok(Compositor {
            alloc,
            main: LayerTree::new(alloc, view),
            active: LayerTree::new(alloc, view),
            background,
            painter,
            cache: TileCache::new(alloc, budget),
            lost: None,
            is_painted: false,
            is_committed: true,
            edited: Some(Region::new(alloc)),
            unshown: None,
        })
    }

    /// Starts the main page anew, with this view and no layers, so that all ids are free. The active page stays
    /// until the next commit.
    ///
    /// The view's sides are 1 to 2048, and its tiles 16 to 256.
    #[tactic(auto, using(crate::proofs::Pages::not_committed))]
    pub fn reset(&mut self, view: View)
        requires { IsView view }
        ensures { self.new ≡ record self.old { main = empty_page view } }
    {
        self.main = LayerTree::new(self.alloc, view);
        self.cache.mark_all(&self.active, &self.main);
        self.is_committed = false;
        self.edited = None;
    }

    /// Applies a command to the main page. It is refused with its first fault; after any error all is as it was.
    #[tactic(auto, using(crate::proofs::Applied::lifted, crate::proofs::Pages::not_committed))]
    pub fn apply(&mut self, command: &Command) -> Result<(), EditError>
        ensures { Applied self.old command.now self.new result }
    {
        self.is_committed = false;
        applied(
            self.alloc,
            &self.active,
            &mut self.main,
            &mut self.cache,
            &mut self.edited,
            command,
        )
    }

    /// Shows the main page from now on, whose scrollers stand at their main values. If it is the active page
    /// already, nothing is done. An error means out of memory, and all is as it was.
    #[tactic(auto, using(crate::proofs::Pages::committed_itself, crate::proofs::Pages::committed_now, crate::proofs::Pages::edited_itself, crate::proofs::Pages::shown_committed))]
    pub fn commit(&mut self) -> Result<(), AllocError>
        ensures ok { OnOk result (self.new ≡ record self.old { active = self.old.main }) }
        ensures err { OnErr result (self.new ≡ self.old) }
    {
        if self.is_committed {
            return Ok(());
        }
        let page = self.main.copy()?;
        self.cache.drop_stale(&self.main);
        self.active = page;
        self.is_committed = true;
        self.unshown = known_union(self.unshown.take(), self.edited.take());
        self.edited = Some(Region::new(self.alloc));
        Ok(())
    }

    /// Scrolls the active page as far as the scroller's range allows, and tells how far that was; None if the
    /// page has no such scroller. The main page takes the same move. It takes no memory.
    pub fn scroll(&mut self, id: u32, dx: i32, dy: i32) -> Option<Point>
        ensures { Scrolled self.old id dx dy self.new result }
    {
        self.active.props().scroller(id)?;
        let by = scroll_active(&mut self.active, &self.cache, id, dx, dy);
        move_main(&mut self.main, &self.cache, id, by.x, by.y);
        self.edited = edited_after_moves(self.alloc, self.is_committed);
        self.unshown = unshown_after(self.unshown.take(), by);
        Some(by)
    }

    /// Scrolls the scrollers under a point of the screen, the nearest first, each as far as its range allows, and
    /// tells what each took. At most 1048576 is asked along each axis, in either direction. An error means out of
    /// memory, and all is as it was.
    #[tactic(auto, using(crate::proofs::Pages::committed_moved, crate::proofs::Pages::shown_moved))]
    pub fn wheel(&mut self, at: Point, asked: Point) -> Result<Wheel, AllocError>
        requires across { IsAmount asked.x }
        requires down { IsAmount asked.y }
        ensures wheel { IfOk result (IsWheel self.old.active (offsets self.old) at.x at.y asked.x asked.y) }
        ensures moved { IfOk result (λ w. self.new ≡ moved (wheel_moves w) self.old) }
        ensures err { OnErr result (self.new ≡ self.old) }
    {
        let wheel = wheel_on(self.alloc, &self.active, at, asked)?;
        let parts = wheel.parts.as_slice();
        move_both(&mut self.active, &mut self.main, &self.cache, parts);
        self.edited = edited_after_moves(self.alloc, self.is_committed);
        self.unshown = unshown_after_parts(self.unshown.take(), parts);
        Ok(wheel)
    }

    /// Where a scroller of the active page stands; (0, 0) if there is none.
    pub fn offset(&self, id: u32) -> Point
        ensures { result ≡ offsets self.now id }
    {
        self.active.value(id)
    }

    /// The topmost layer that covers a point of the screen; 0 exactly if none does. An error means out of memory.
    pub fn target(&self, at: Point) -> Result<u32, AllocError>
        ensures { IfOk result (λ id. id ≡ hits.target self.now.active (offsets self.now) at.x at.y) }
    {
        target_on(self.alloc, &self.active, at)
    }

    /// Whether a draw may change the frame. If it may not, the frame shows the active page.
    pub fn is_changed(&self) -> bool
        ensures { result ≡ false → ShowsPage F.DEPTH F.bytes_of self.now.active (offsets self.now) self.now.background self.now.frame }
    {
        !is_shown(&self.unshown)
    }

    /// Draws the active page, and tells the rows outside of which the frame's pixels are those before; `damage`
    /// then tells the rects. The frame has the view's size, and each pixel is the direct painting of the page.
    /// If the frame shows the page already, nothing is done. An error means out of memory: the frame may then
    /// show anything, no tiles are kept that this draw did not use, and the next draw draws the frame whole.
    pub fn draw(&mut self) -> Result<FrameRows, AllocError>
        ensures shown { OnOk result (ShowsPage F.DEPTH F.bytes_of self.new.active (offsets self.new) self.new.background self.new.frame) }
        ensures rows { IfOk result (λ rows. IsKeptOutsideRows F.DEPTH rows self.old.frame self.new.frame) }
        ensures inside { IfOk result (AreRowsOf self.new.frame.h) }
        ensures rects { IsKeptOutside F.DEPTH self.new.damage self.old.frame self.new.frame }
        ensures main { self.new.main ≡ self.old.main }
        ensures active { self.new.active ≡ self.old.active }
        ensures background { self.new.background ≡ self.old.background }
    {
        match self.draw_once() {
            Ok(rows) => Ok(rows),
            Err(refused) => {
                self.trim();
                Err(refused)
            }
        }
    }

    // Draws, and keeps the tiles that this draw did not use even if memory runs out.
    fn draw_once(&mut self) -> Result<FrameRows, AllocError>
        ensures shown { OnOk result (ShowsPage F.DEPTH F.bytes_of self.new.active (offsets self.new) self.new.background self.new.frame) }
        ensures rows { IfOk result (λ rows. IsKeptOutsideRows F.DEPTH rows self.old.frame self.new.frame) }
        ensures inside { IfOk result (AreRowsOf self.new.frame.h) }
        ensures rects { IsKeptOutside F.DEPTH self.new.damage self.old.frame self.new.frame }
        ensures main { self.new.main ≡ self.old.main }
        ensures active { self.new.active ≡ self.old.active }
        ensures background { self.new.background ≡ self.old.background }
    {
        self.lost = None;
        self.is_painted = false;
        if is_shown(&self.unshown) {
            return Ok(no_rows());
        }
        let scene = scene_of(
            self.alloc,
            &self.active,
            &self.main,
            self.background,
            &mut self.cache,
            self.is_committed,
        )?;
        let unshown = self.unshown.take();
        paint(&mut self.painter, &mut self.lost, scene, unshown)?;
        self.is_painted = true;
        self.unshown = Some(Region::new(self.alloc));
        let height = self.painter.canvas().h();
        Ok(frame_rows(self.painter.damage(), height))
    }

    /// Drops the images of tiles that the last draw did not use, which later draws make anew.
    pub fn trim(&mut self)
        ensures { self.new ≡ self.old }
    {
        self.cache.trim(&self.active, &self.main);
    }

    /// The frame: after a draw, what it drew.
    pub fn frame(&self) -> &Canvas<F>
        ensures { result.now ≡ self.now.frame }
    {
        self.painter.canvas()
    }

    /// The rects, in pixels of the frame, outside of which the last draw left it as it was, even if that was out of
    /// memory. They may overlap, and some may be empty or reach beyond the frame.
    pub fn damage(&self) -> &[Rect]
        ensures { result.now ≡ self.now.damage }
    {
        if self.lost.is_some() || !self.is_painted {
            return self.lost.as_slice();
        }
        self.painter.damage()
    }
}

// Whether a command was applied to the main page; the tiles that it changed are marked, and where it shows is noted.
#[tactic(auto, using(crate::proofs::Applied::ok_applied, crate::proofs::Applied::err_applied, crate::proofs::Applied::err_current, crate::proofs::Applied::err_edited))]
fn applied(
    alloc: Global,
    active: &LayerTree,
    main: &mut LayerTree,
    cache: &mut TileCache,
    edited: &mut Option<Region>,
    command: &Command,
) -> Result<(), EditError>
    requires kept { AreKeptFor active.now cache.old }
    requires current { AreCurrent main.old cache.old }
    requires edited { TellsEdited edited.old active.now main.old }
    ensures applied { AppliedTo main.old command.now main.new result }
    ensures kept { AreKeptFor active.now cache.new }
    ensures current { AreCurrent main.new cache.new }
    ensures edited { TellsEdited edited.new active.now main.new }
{
    main.is_page();
    match main.apply(command) {
        Ok(changes) => {
            cache.mark(main, &changes);
            *edited = noted(alloc, edited.take(), command, main, &changes);
            Ok(())
        }
        Err(error) => Err(error),
    }
}
