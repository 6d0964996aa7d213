//! Laws of wheels and of chains, as contracts of functions that do nothing.

ghost use Rattle.std.specs.Prelude.{◌≡◌, ℕ, ℤ, ◌+ℤ◌};
ghost use Rattle.geom.specs.declared.rect.Point.{Point as Place};
ghost use Rattle.page_layers.specs.Axes.{Axis, across, down};
ghost use Rattle.page_layers.specs.Layers.{PageLayer};
ghost use Rattle.page_layers.specs.Pages.{Page};
ghost use Rattle.page_layers.specs.Hits.{chain};
ghost use Rattle.page_layers.specs.Effects.{main_point};
ghost use Rattle.page_layers.specs.Sound.{IsPage};
ghost use Rattle.page_layers.specs.Wheels.{wheel_parts, wheel_rest};
ghost use Rattle.page_properties.specs.Trees.{IsTrees};
ghost use Rattle.page_hit_test.specs.Wheels.{AreWithinRanges};
ghost use Rattle.page_hit_test.specs.Laws.{total_amount, AreDistinctNumbers, AreScrollersOf, TakeInTurn};

/// Along each axis the parts of a wheel and the rest add up to what was asked.
pub fn parts_add_up()
    ensures across { (p : Page) (offset : ℕ → Place) (x y dx dy : ℤ) → total_amount across (wheel_parts p offset x y dx dy) +ℤ wheel_rest p offset x y across dx ≡ dx }
    ensures down { (p : Page) (offset : ℕ → Place) (x y dx dy : ℤ) → total_amount down (wheel_parts p offset x y dx dy) +ℤ wheel_rest p offset x y down dy ≡ dy }
{}

/// A scroller has a part along an axis only if every scroller before it in the chain is then at the
/// end of its range in that direction.
pub fn later_scrollers_take_what_is_left()
    ensures { (p : Page) (offset : ℕ → Place) (ax : Axis) → AreWithinRanges p offset → TakeInTurn p offset ax }
{}

/// No scroller stands twice in a chain, and each of them is one of the tree's.
pub fn chains_are_distinct()
    ensures distinct { (p : Page) (l : PageLayer) → IsTrees p.props → AreDistinctNumbers (chain p l) }
    ensures known { (p : Page) (l : PageLayer) → IsTrees p.props → AreScrollersOf p (chain p l) }
{}

/// The main values of the scrollers of a page are in their ranges, so a wheel may be asked for there.
pub fn main_values_are_within_ranges()
    ensures { (p : Page) → IsPage p → AreWithinRanges p (main_point p) }
{}
