//! The property trees: four families of nodes, which are added and changed, never removed.

ghost use Rattle.std.specs.Prelude.{◌≡◌, ◌∷◌, [], if◌then◌else◌, is_ok, IsTrue, IfOk, IfSome, IsSome, ◌↔◌, ◌*◌, length, slice_get, ◌≤◌, ◌^◌};
ghost use Rattle.std.specs.Option.{option_copied};
ghost use Rattle.page_properties.specs.Entries.{with_node_changed, find, ids, is_known, knows, rising};
ghost use Rattle.geom.specs.Covers.{IsSound};
ghost use Rattle.page_properties.specs.Nesting.{AreNested};
ghost use Rattle.page_properties.specs.OffsetMap.{offset_at, AreOffsets};
ghost use Rattle.page_properties.specs.Placement.{clip_of, draws, translation, IsWithin};
ghost use Rattle.page_properties.specs.Trees.{IsTrees, MayJoinTransforms, MayJoinClips, MayJoinEffects, MayJoinScrollers, IsNearParent, IsClipRect};

use crate::family::Family;
use crate::nesting::nested_in;
use crate::nodes::{ClipNode, EffectNode, ScrollNode, TransformNode};
use crate::offsets::Offsets;
use crate::placement::{clip_in, draws_in, translation_in};
use geom::{Point, Rect};
use std::alloc::{AllocError, Global};
use std::marker::Model;

/// The four property trees of a page. Each node has an id of its own in its family, from 1 to 65535,
/// and names its parent by id, which was there before it; 0 is the root. A family has at most 256
/// nodes. Contracts see each family as a list, the newest node first.
pub struct PropertyTrees {
    transforms: Family<TransformNode>,
    clips: Family<ClipNode>,
    effects: Family<EffectNode>,
    scrollers: Family<ScrollNode>,
}

impl Model for PropertyTrees {
    ghost use Rattle.page_properties.specs.Trees.{Trees, IsTrees};

    ghost Value = { Trees };

    ghost view = { λ t. record { transforms = t.transforms; clips = t.clips; effects = t.effects; scrollers = t.scrollers } };

    ghost invariant = { λ t. IsTrees (record { transforms = t.transforms; clips = t.clips; effects = t.effects; scrollers = t.scrollers }) };
}

// Written out, since a derived drop is proved anew, field by field, in each function that lets one go.
impl Drop for PropertyTrees {
    fn drop(self) {
        let PropertyTrees {
            transforms: _,
            clips: _,
            effects: _,
            scrollers: _,
        } = self;
    }
}

impl PropertyTrees {
    /// Trees without nodes, which take their memory from `alloc`.
    pub fn new(alloc: Global) -> PropertyTrees
        ensures { result ≡ record { transforms = []; clips = []; effects = []; scrollers = [] } }
    {
        PropertyTrees {
            transforms: Family::new(alloc),
            clips: Family::new(alloc),
            effects: Family::new(alloc),
            scrollers: Family::new(alloc),
        }
    }

    /// Adds a transform under a new id. An error means out of memory; the trees are then as they were.
    pub fn add_transform(&mut self, id: u32, node: TransformNode) -> Result<(), AllocError>
        requires joins { MayJoinTransforms id node self.old.transforms }
        requires scroller_known { IsTrue (is_known node.scroller self.old.scrollers) }
        ensures { self.new ≡ (if is_ok result then record self.old { transforms = (id, node) ∷ self.old.transforms } else self.old) }
    {
        self.transforms.add(id, node)
    }

    /// Adds a clip under a new id. An error means out of memory; the trees are then as they were.
    pub fn add_clip(&mut self, id: u32, node: ClipNode) -> Result<(), AllocError>
        requires joins { MayJoinClips id node self.old.clips }
        requires transform_known { IsTrue (is_known node.transform self.old.transforms) }
        ensures { self.new ≡ (if is_ok result then record self.old { clips = (id, node) ∷ self.old.clips } else self.old) }
    {
        self.clips.add(id, node)
    }

    /// Adds an effect under a new id. An error means out of memory; the trees are then as they were.
    pub fn add_effect(&mut self, id: u32, node: EffectNode) -> Result<(), AllocError>
        requires { MayJoinEffects id node self.old.effects }
        ensures { self.new ≡ (if is_ok result then record self.old { effects = (id, node) ∷ self.old.effects } else self.old) }
    {
        self.effects.add(id, node)
    }

    /// Adds a scroller under a new id. An error means out of memory; the trees are then as they were.
    pub fn add_scroller(&mut self, id: u32, node: ScrollNode) -> Result<(), AllocError>
        requires { MayJoinScrollers id node self.old.scrollers }
        ensures { self.new ≡ (if is_ok result then record self.old { scrollers = (id, node) ∷ self.old.scrollers } else self.old) }
    {
        self.scrollers.add(id, node)
    }

    /// The transform of an id; None exactly if the id is unknown.
    pub fn transform(&self, id: u32) -> Option<&TransformNode>
        ensures { option_copied result ≡ find id self.now.transforms }
    {
        self.transforms.get(id)
    }

    /// The clip of an id; None exactly if the id is unknown.
    pub fn clip(&self, id: u32) -> Option<&ClipNode>
        ensures { option_copied result ≡ find id self.now.clips }
    {
        self.clips.get(id)
    }

    /// The effect of an id; None exactly if the id is unknown.
    pub fn effect(&self, id: u32) -> Option<&EffectNode>
        ensures { option_copied result ≡ find id self.now.effects }
    {
        self.effects.get(id)
    }

    /// The scroller of an id; None exactly if the id is unknown.
    pub fn scroller(&self, id: u32) -> Option<&ScrollNode>
        ensures { option_copied result ≡ find id self.now.scrollers }
    {
        self.scrollers.get(id)
    }

    /// How many transforms there are.
    pub fn transforms(&self) -> usize
        ensures { result ≡ length self.now.transforms }
    {
        self.transforms.len()
    }

    /// How many clips there are.
    pub fn clips(&self) -> usize
        ensures { result ≡ length self.now.clips }
    {
        self.clips.len()
    }

    /// How many effects there are.
    pub fn effects(&self) -> usize
        ensures { result ≡ length self.now.effects }
    {
        self.effects.len()
    }

    /// How many scrollers there are.
    pub fn scrollers(&self) -> usize
        ensures { result ≡ length self.now.scrollers }
    {
        self.scrollers.len()
    }

    /// The id at place `i` of the scrollers' ids by rising id, counted from 0; None exactly if `i`
    /// is not below `scrollers`.
    pub fn scroller_id(&self, i: usize) -> Option<u32>
        ensures { result ≡ slice_get (rising (ids self.now.scrollers)) i }
    {
        self.scrollers.id_at(i)
    }

    /// Moves a transform to another place, relative to its parent.
    pub fn set_transform(&mut self, id: u32, x: i32, y: i32)
        requires known { IsTrue (knows id self.old.transforms) }
        requires across { IsNearParent x }
        requires down { IsNearParent y }
        ensures { self.new ≡ record self.old { transforms = with_node_changed id (λ n. record n { x = x; y = y }) self.old.transforms } }
    {
        if let Some(node) = self.transforms.get(id) {
            let node = node.moved(x, y);
            self.transforms.set(id, &node);
        }
    }

    /// Gives a clip another rect.
    pub fn set_clip(&mut self, id: u32, rect: Rect)
        requires known { IsTrue (knows id self.old.clips) }
        requires in_range { IsClipRect rect }
        ensures { self.new ≡ record self.old { clips = with_node_changed id (λ n. record n { rect = rect }) self.old.clips } }
    {
        if let Some(node) = self.clips.get(id) {
            let node = node.with_rect(rect);
            self.clips.set(id, &node);
        }
    }

    /// Gives an effect another opacity.
    pub fn set_opacity(&mut self, id: u32, opacity: u8)
        requires { IsTrue (knows id self.old.effects) }
        ensures { self.new ≡ record self.old { effects = with_node_changed id (λ n. record n { opacity = opacity }) self.old.effects } }
    {
        if let Some(node) = self.effects.get(id) {
            let node = node.with_opacity(opacity);
            self.effects.set(id, &node);
        }
    }

    /// Gives a scroller another range.
    pub fn set_range(&mut self, id: u32, max_x: u32, max_y: u32)
        requires known { IsTrue (knows id self.old.scrollers) }
        requires across { max_x ≤ 2 ^ 20 }
        requires down { max_y ≤ 2 ^ 20 }
        ensures { self.new ≡ record self.old { scrollers = with_node_changed id (λ n. record n { max_x = max_x; max_y = max_y }) self.old.scrollers } }
    {
        if let Some(node) = self.scrollers.get(id) {
            let node = node.with_range(max_x, max_y);
            self.scrollers.set(id, &node);
        }
    }

    /// The translation of a transform at these offsets: its parent's, plus its own place, minus the
    /// offset of the scroller that it names, if it names one. Transform 0 is at (0, 0).
    pub fn translation(&self, transform: u32, offsets: &Offsets) -> Point
        requires { AreOffsets (offset_at offsets.now) }
        ensures value { result ≡ translation (offset_at offsets.now) self.now.transforms transform }
        ensures near { IsWithin (256 * 1114112) result }
    {
        translation_in(&self.transforms, transform, offsets)
    }

    /// The clip of a clip node at these offsets: the common part of the rects of its chain up to the
    /// root, each shifted by the translation of its own transform. None, which restricts nothing,
    /// exactly if the id is unknown, as 0 is.
    pub fn clip_of(&self, clip: u32, offsets: &Offsets) -> Option<Rect>
        requires { AreOffsets (offset_at offsets.now) }
        ensures value { result ≡ clip_of (offset_at offsets.now) self.now.transforms self.now.clips clip }
        ensures some { IsSome result ↔ IsTrue (knows clip self.now.clips) }
        ensures sound { IfSome result IsSound }
    {
        clip_in(&self.clips, &self.transforms, clip, offsets)
    }

    /// Whether an effect is drawn: false exactly if it or an effect above it has opacity 0.
    pub fn draws(&self, effect: u32) -> bool
        ensures { result ≡ draws self.now.effects effect }
    {
        draws_in(&self.effects, effect)
    }

    /// Whether layers with these effects, in the order of the list of layers, are nested: the layers
    /// of each effect, with those of the effects below it, stand together. An unknown effect, as the
    /// root, is below none.
    pub fn is_nested(&self, effects: &[u32]) -> bool
        ensures { IsTrue result ↔ AreNested self.now.effects effects.now }
    {
        nested_in(&self.effects, effects)
    }

    /// Each node's parent was there before it, and its values are in their ranges. A law that does
    /// nothing when it runs.
    pub fn are_trees(&self)
        ensures { IsTrees self.now }
    {
        // This read tells the proof what the type keeps; it does nothing when it runs.
        let _ = &self.transforms;
    }

    /// The same trees. An error means out of memory.
    pub fn copy(&self) -> Result<PropertyTrees, AllocError>
        ensures { IfOk result (λ t. t ≡ self.now) }
    {
        let transforms = self.transforms.copy()?;
        let clips = self.clips.copy()?;
        let effects = self.effects.copy()?;
        let scrollers = self.scrollers.copy()?;
        Ok(PropertyTrees {
            transforms,
            clips,
            effects,
            scrollers,
        })
    }
}
