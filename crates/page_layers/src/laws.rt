//! Laws of pages, handed out as contracts.

ghost use Rattle.page_layers.specs.declared.command.Command.{Command as Edit};
ghost use Rattle.page_layers.specs.Pages.{Page};
ghost use Rattle.page_layers.specs.Sound.{IsPage};
ghost use Rattle.page_layers.specs.Outcomes.{Accepts};
ghost use Rattle.page_layers.specs.Contents.{KeepsTheRest};
ghost use Rattle.std.specs.Prelude.{ℕ, ℤ};
ghost use Rattle.geom.specs.declared.rect.Point.{Point as Offset};
ghost use Rattle.page_layers.specs.Hits.{covers_point, target, IsTopmost};

/// What a command does not list it does not change: outside the listed rects, and in layers that are
/// neither listed nor added or removed, each layer shows what it showed. A resized layer keeps its
/// list, so it shows at each point what it showed.
pub fn commands_keep_the_rest()
    ensures { (p : Page) (c : Edit) → IsPage p → Accepts p c → KeepsTheRest p c }
{}

/// The target of a point is the topmost layer that covers it, or 0 if none does.
pub fn targets_are_topmost()
    ensures { (p : Page) (offset : ℕ → Offset) (x y : ℤ) → IsPage p → IsTopmost (covers_point p offset x y) p.layers (target p offset x y) }
{}
