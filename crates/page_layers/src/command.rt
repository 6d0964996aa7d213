//! The commands of the main thread.

ghost use Rattle.std.specs.Prelude.{◌≡◌};
ghost use Rattle.page_layers.specs.CommandFields.{node_op_named, layer_op_named, op_named, op_numbered};

use geom::Rect;
use page_display_list::Item;
use pixel::Colour;

/// A change to a page. Ids of transforms, clips, effects, scrollers and layers are five separate
/// families; 0 names the root of a family, or no scroller.
#[derive(Drop)]
pub enum Command {
    /// Adds a transform: the translation of its parent, plus `(x, y)`, minus the offset of the
    /// scroller, if it names one.
    AddTransform(AddTransform),
    /// Gives a transform another `(x, y)`.
    SetTransform(SetTransform),
    /// Adds a clip: a rect that stands in the space of a transform, cut by the clips above it.
    AddClip(AddClip),
    /// Gives a clip another rect.
    SetClip(SetClip),
    /// Adds an effect.
    AddEffect(AddEffect),
    /// Gives an effect another opacity.
    SetOpacity(SetOpacity),
    /// Adds a scroller, whose main value is (0, 0).
    AddScroller(AddScroller),
    /// Gives a scroller another range, and clamps its main value to it.
    SetRange(SetRange),
    /// Adds to a scroller's main value, and clamps it to the range.
    ScrollBy(ScrollBy),
    /// Sets a scroller's main value, clamped to the range.
    ScrollTo(ScrollTo),
    /// Adds a layer with an empty display list, so that it has this place.
    AddLayer(AddLayer),
    /// Takes a layer out for good: no later layer has its id.
    RemoveLayer(RemoveLayer),
    /// Gives a layer another size; its display list stays.
    ResizeLayer(ResizeLayer),
    /// Gives a layer another background colour.
    SetColour(SetColour),
    /// Inserts an item into a layer's display list, so that it has this place.
    InsertItem(InsertItem),
    /// Removes an item of a layer's display list.
    RemoveItem(RemoveItem),
    /// Puts another item in the place of one of a layer's display list.
    ReplaceItem(ReplaceItem),
    /// Takes a layer out of the list and inserts it at this place of the others.
    MoveLayer(MoveLayer),
    /// Sets the viewport and the tile size.
    SetView(SetView),
}

/// The fields of `add_transform`.
#[derive(Clone, Copy)]
pub struct AddTransform {
    /// The new id, 1 to 65535.
    pub id: u32,
    /// The transform above it.
    pub parent: u32,
    /// To the right, in pixels, -65536 to 65536.
    pub x: i32,
    /// Downwards, in pixels, -65536 to 65536.
    pub y: i32,
    /// The scroller that moves it, or 0.
    pub scroller: u32,
}

/// The fields of `set_transform`.
#[derive(Clone, Copy)]
pub struct SetTransform {
    /// The transform.
    pub id: u32,
    /// To the right, in pixels, -65536 to 65536.
    pub x: i32,
    /// Downwards, in pixels, -65536 to 65536.
    pub y: i32,
}

/// The fields of `add_clip`.
#[derive(Clone, Copy)]
pub struct AddClip {
    /// The new id, 1 to 65535.
    pub id: u32,
    /// The clip above it.
    pub parent: u32,
    /// The transform in whose space the rect stands.
    pub transform: u32,
    /// What stays visible: x and y -65536 to 65536, w and h 0 to 65536.
    pub rect: Rect,
}

/// The fields of `set_clip`.
#[derive(Clone, Copy)]
pub struct SetClip {
    /// The clip.
    pub id: u32,
    /// What stays visible: x and y -65536 to 65536, w and h 0 to 65536.
    pub rect: Rect,
}

/// The fields of `add_effect`.
#[derive(Clone, Copy)]
pub struct AddEffect {
    /// The new id, 1 to 65535.
    pub id: u32,
    /// The effect above it.
    pub parent: u32,
    /// From 0, transparent, to 255.
    pub opacity: u32,
}

/// The fields of `set_opacity`.
#[derive(Clone, Copy)]
pub struct SetOpacity {
    /// The effect.
    pub id: u32,
    /// From 0, transparent, to 255.
    pub opacity: u32,
}

/// The fields of `add_scroller`.
#[derive(Clone, Copy)]
pub struct AddScroller {
    /// The new id, 1 to 65535.
    pub id: u32,
    /// The scroller to which it hands on what it can't take.
    pub parent: u32,
    /// How far it scrolls to the right, 0 to 1048576 pixels.
    pub max_x: u32,
    /// How far it scrolls downwards, 0 to 1048576 pixels.
    pub max_y: u32,
}

/// The fields of `set_range`.
#[derive(Clone, Copy)]
pub struct SetRange {
    /// The scroller.
    pub id: u32,
    /// How far it scrolls to the right, 0 to 1048576 pixels.
    pub max_x: u32,
    /// How far it scrolls downwards, 0 to 1048576 pixels.
    pub max_y: u32,
}

/// The fields of `scroll_by`.
#[derive(Clone, Copy)]
pub struct ScrollBy {
    /// The scroller.
    pub id: u32,
    /// To the right, in pixels, -1048576 to 1048576.
    pub dx: i32,
    /// Downwards, in pixels, -1048576 to 1048576.
    pub dy: i32,
}

/// The fields of `scroll_to`.
#[derive(Clone, Copy)]
pub struct ScrollTo {
    /// The scroller.
    pub id: u32,
    /// From the left, 0 to 1048576 pixels.
    pub x: u32,
    /// From the top, 0 to 1048576 pixels.
    pub y: u32,
}

/// The fields of `add_layer`.
#[derive(Clone, Copy)]
pub struct AddLayer {
    /// The new id, 1 to 65535, which no layer ever had.
    pub id: u32,
    /// The place in the layer list, from 0; later layers are painted over earlier ones.
    pub at: u32,
    /// The transform that places it.
    pub transform: u32,
    /// The clip that cuts it.
    pub clip: u32,
    /// The effect that it belongs to.
    pub effect: u32,
    /// The width, 1 to 16384 pixels.
    pub w: u32,
    /// The height, 1 to 16384 pixels.
    pub h: u32,
    /// What is drawn if a tile is missing.
    pub colour: Colour,
}

/// The fields of `remove_layer`.
#[derive(Clone, Copy)]
pub struct RemoveLayer {
    /// The layer.
    pub id: u32,
}

/// The fields of `resize_layer`.
#[derive(Clone, Copy)]
pub struct ResizeLayer {
    /// The layer.
    pub id: u32,
    /// The width, 1 to 16384 pixels.
    pub w: u32,
    /// The height, 1 to 16384 pixels.
    pub h: u32,
}

/// The fields of `set_colour`.
#[derive(Clone, Copy)]
pub struct SetColour {
    /// The layer.
    pub id: u32,
    /// What is drawn if a tile is missing.
    pub colour: Colour,
}

/// The fields of `insert_item`.
#[derive(Drop)]
pub struct InsertItem {
    /// The layer.
    pub layer: u32,
    /// The place in the display list, from 0.
    pub at: u32,
    /// The item: its rect's x and y -16384 to 16384, w and h 1 to 16384.
    pub item: Item,
}

/// The fields of `remove_item`.
#[derive(Clone, Copy)]
pub struct RemoveItem {
    /// The layer.
    pub layer: u32,
    /// The place in the display list.
    pub at: u32,
}

/// The fields of `replace_item`.
#[derive(Drop)]
pub struct ReplaceItem {
    /// The layer.
    pub layer: u32,
    /// The place in the display list.
    pub at: u32,
    /// The item: its rect's x and y -16384 to 16384, w and h 1 to 16384.
    pub item: Item,
}

/// The fields of `move_layer`.
#[derive(Clone, Copy)]
pub struct MoveLayer {
    /// The layer.
    pub id: u32,
    /// The place among the other layers, from 0.
    pub at: u32,
}

/// The fields of `set_view`.
#[derive(Clone, Copy)]
pub struct SetView {
    /// The viewport's width, 1 to 2048 pixels.
    pub w: u32,
    /// The viewport's height, 1 to 2048 pixels.
    pub h: u32,
    /// The side of a tile, 16 to 256 pixels.
    pub tile: u32,
}

/// Which command: it has a name in scripts, and a number in the library for C.
#[derive(Clone, Copy)]
pub enum Op {
    /// `add_transform`.
    AddTransform,
    /// `set_transform`.
    SetTransform,
    /// `add_clip`.
    AddClip,
    /// `set_clip`.
    SetClip,
    /// `add_effect`.
    AddEffect,
    /// `set_opacity`.
    SetOpacity,
    /// `add_scroller`.
    AddScroller,
    /// `set_range`.
    SetRange,
    /// `scroll_by`.
    ScrollBy,
    /// `scroll_to`.
    ScrollTo,
    /// `add_layer`.
    AddLayer,
    /// `remove_layer`.
    RemoveLayer,
    /// `resize_layer`.
    ResizeLayer,
    /// `set_colour`.
    SetColour,
    /// `insert_item`.
    InsertItem,
    /// `remove_item`.
    RemoveItem,
    /// `replace_item`.
    ReplaceItem,
    /// `move_layer`.
    MoveLayer,
    /// `set_view`.
    SetView,
}

// The command on the nodes of a page that has this name.
#[tactic(auto, unfolding(crate::specs::CommandFields::node_op_named))]
fn node_op_named(name: &str) -> Option<Op>
    ensures { result ≡ node_op_named name.now }
{
    match name {
        "add_transform" => Some(Op::AddTransform),
        "set_transform" => Some(Op::SetTransform),
        "add_clip" => Some(Op::AddClip),
        "set_clip" => Some(Op::SetClip),
        "add_effect" => Some(Op::AddEffect),
        "set_opacity" => Some(Op::SetOpacity),
        "add_scroller" => Some(Op::AddScroller),
        "set_range" => Some(Op::SetRange),
        "scroll_by" => Some(Op::ScrollBy),
        "scroll_to" => Some(Op::ScrollTo),
        _ => None,
    }
}

// The command on the layers of a page, their items or the view that has this name.
#[tactic(auto, unfolding(crate::specs::CommandFields::layer_op_named))]
fn layer_op_named(name: &str) -> Option<Op>
    ensures { result ≡ layer_op_named name.now }
{
    match name {
        "add_layer" => Some(Op::AddLayer),
        "remove_layer" => Some(Op::RemoveLayer),
        "resize_layer" => Some(Op::ResizeLayer),
        "set_colour" => Some(Op::SetColour),
        "insert_item" => Some(Op::InsertItem),
        "remove_item" => Some(Op::RemoveItem),
        "replace_item" => Some(Op::ReplaceItem),
        "move_layer" => Some(Op::MoveLayer),
        "set_view" => Some(Op::SetView),
        _ => None,
    }
}

impl Op {
    /// The command of this name in scripts.
    #[tactic(auto, unfolding(crate::specs::CommandFields::op_named))]
    pub fn named(name: &str) -> Option<Op>
        ensures { result ≡ op_named name.now }
    {
        match node_op_named(name) {
            Some(op) => Some(op),
            None => layer_op_named(name),
        }
    }

    /// The command of this number in the library for C.
    #[tactic(auto, unfolding(crate::specs::CommandFields::op_numbered))]
    pub fn numbered(number: u32) -> Option<Op>
        ensures { result ≡ op_numbered number }
    {
        match number {
            1 => Some(Op::AddTransform),
            2 => Some(Op::SetTransform),
            3 => Some(Op::AddClip),
            4 => Some(Op::SetClip),
            5 => Some(Op::AddEffect),
            6 => Some(Op::SetOpacity),
            7 => Some(Op::AddScroller),
            8 => Some(Op::SetRange),
            9 => Some(Op::ScrollBy),
            10 => Some(Op::ScrollTo),
            11 => Some(Op::AddLayer),
            12 => Some(Op::RemoveLayer),
            13 => Some(Op::ResizeLayer),
            14 => Some(Op::SetColour),
            15 => Some(Op::MoveLayer),
            16 => Some(Op::SetView),
            17 => Some(Op::RemoveItem),
            18 => Some(Op::InsertItem),
            19 => Some(Op::ReplaceItem),
            _ => None,
        }
    }
}
