//! The nodes of the four property trees.

ghost use Rattle.std.specs.Prelude.{◌≡◌};

use geom::Rect;

/// Moves what refers to it: the translation of its parent, plus its own, minus the offset of its
/// scroller. Parent 0 is the root, and scroller 0 is none.
#[derive(Clone, Copy, PartialEq, Eq, Debug)]
pub struct TransformNode {
    /// The transform above it.
    pub parent: u32,
    /// How far to the right of its parent, -65536 to 65536 pixels.
    pub x: i32,
    /// How far below its parent, -65536 to 65536 pixels.
    pub y: i32,
    /// The scroller whose offset moves it.
    pub scroller: u32,
}

impl TransformNode {
    /// The same transform at another place.
    pub(crate) fn moved(&self, x: i32, y: i32) -> TransformNode
        ensures { result ≡ record self.now { x = x; y = y } }
    {
        TransformNode { x, y, ..*self }
    }
}

/// Restricts what refers to it to a rect, and to the clip above it.
#[derive(Clone, Copy, PartialEq, Eq, Debug)]
pub struct ClipNode {
    /// The clip above it.
    pub parent: u32,
    /// The transform that moves the rect.
    pub transform: u32,
    /// The rect: x and y from -65536 to 65536, w and h from 0 to 65536.
    pub rect: Rect,
}

impl ClipNode {
    /// The same clip with another rect.
    pub(crate) fn with_rect(&self, rect: Rect) -> ClipNode
        ensures { result ≡ record self.now { rect = rect } }
    {
        ClipNode { rect, ..*self }
    }
}

/// Blends what refers to it as one group.
#[derive(Clone, Copy, PartialEq, Eq, Debug)]
pub struct EffectNode {
    /// The effect above it.
    pub parent: u32,
    /// From 0, which is not drawn, to 255, which is opaque.
    pub opacity: u8,
}

impl EffectNode {
    /// The same effect with another opacity.
    pub(crate) fn with_opacity(&self, opacity: u8) -> EffectNode
        ensures { result ≡ record self.now { opacity = opacity } }
    {
        EffectNode { opacity, ..*self }
    }
}

/// Scrolls the transforms that name it.
#[derive(Clone, Copy, PartialEq, Eq, Debug)]
pub struct ScrollNode {
    /// The scroller that takes over what is left of a scroll.
    pub parent: u32,
    /// The greatest offset to the right, 0 to 1048576 pixels.
    pub max_x: u32,
    /// The greatest offset downwards, 0 to 1048576 pixels.
    pub max_y: u32,
}

impl ScrollNode {
    /// The same scroller with another range.
    pub(crate) fn with_range(&self, max_x: u32, max_y: u32) -> ScrollNode
        ensures { result ≡ record self.now { max_x = max_x; max_y = max_y } }
    {
        ScrollNode {
            max_x,
            max_y,
            ..*self
        }
    }
}
