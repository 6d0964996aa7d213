//! Commands on property nodes.

ghost use Rattle.std.specs.Prelude.{◌≡◌};
ghost use Rattle.page_properties.specs.Entries.{is_known};
ghost use Rattle.page_layers.specs.declared.command.Command.TheVariants as command;
ghost use Rattle.page_layers.specs.Refusals.{test_of};
ghost use Rattle.page_layers.specs.inner.Tested.{Tested};

use super::LayerTree;
use crate::command::{AddClip, AddEffect, AddTransform, SetClip, SetOpacity, SetTransform};
use crate::fault::{EditError, EditFault};
use crate::limits::{MAX_NODES, in_range, is_clip_rect, is_id, is_offset, require};
use page_properties::{ClipNode, EffectNode, TransformNode};
use region::Changes;

// The node of a transform.
fn transform_node(parent: u32, x: i32, y: i32, scroller: u32) -> TransformNode
    ensures { result ≡ record { parent = parent; x = x; y = y; scroller = scroller } }
{
    TransformNode {
        parent,
        x,
        y,
        scroller,
    }
}

impl LayerTree {
    // Whether an id is a transform's or 0.
    pub(super) fn is_transform(&self, id: u32) -> bool
        ensures { result ≡ is_known id self.now.props.transforms }
    {
        id == 0 || self.props.transform(id).is_some()
    }

    // Whether an id is a clip's or 0.
    pub(super) fn is_clip(&self, id: u32) -> bool
        ensures { result ≡ is_known id self.now.props.clips }
    {
        id == 0 || self.props.clip(id).is_some()
    }

    // Whether an id is an effect's or 0.
    pub(super) fn is_effect(&self, id: u32) -> bool
        ensures { result ≡ is_known id self.now.props.effects }
    {
        id == 0 || self.props.effect(id).is_some()
    }

    // Whether an id is a scroller's or 0.
    pub(super) fn is_scroller(&self, id: u32) -> bool
        ensures { result ≡ is_known id self.now.props.scrollers }
    {
        id == 0 || self.props.scroller(id).is_some()
    }

    #[tactic(auto, unfolding(crate::specs::Refusals::test_of, crate::specs::Refusals::takes))]
    fn may_add_transform(&self, fields: &AddTransform) -> Result<(), EditFault>
        ensures { result ≡ test_of self.now (command.AddTransform fields.now) }
    {
        let parent_known = self.is_transform(fields.parent);
        let scroller_known = self.is_scroller(fields.scroller);
        require(parent_known && scroller_known, EditFault::UnknownId)?;
        require(self.props.transform(fields.id).is_none(), EditFault::IdUsed)?;
        require(
            self.props.transforms() < MAX_NODES as usize,
            EditFault::TooMany { limit: MAX_NODES },
        )?;
        is_id(fields.id)?;
        is_offset(fields.x, fields.y)
    }

    pub(crate) fn add_transform(&mut self, fields: &AddTransform) -> Result<Changes, EditError>
        ensures { Tested self.old (command.AddTransform fields.now) self.new result }
    {
        self.may_add_transform(fields)?;
        let node = transform_node(fields.parent, fields.x, fields.y, fields.scroller);
        self.props.add_transform(fields.id, node)?;
        Ok(self.unlisted())
    }

    #[tactic(auto, unfolding(crate::specs::Refusals::test_of))]
    fn may_set_transform(&self, fields: &SetTransform) -> Result<(), EditFault>
        ensures { result ≡ test_of self.now (command.SetTransform fields.now) }
    {
        require(
            self.props.transform(fields.id).is_some(),
            EditFault::UnknownId,
        )?;
        is_offset(fields.x, fields.y)
    }

    pub(crate) fn set_transform(&mut self, fields: &SetTransform) -> Result<Changes, EditError>
        ensures { Tested self.old (command.SetTransform fields.now) self.new result }
    {
        self.may_set_transform(fields)?;
        self.props.set_transform(fields.id, fields.x, fields.y);
        Ok(self.unlisted())
    }

    #[tactic(auto, unfolding(crate::specs::Refusals::test_of, crate::specs::Refusals::takes))]
    fn may_add_clip(&self, fields: &AddClip) -> Result<(), EditFault>
        ensures { result ≡ test_of self.now (command.AddClip fields.now) }
    {
        let parent_known = self.is_clip(fields.parent);
        let transform_known = self.is_transform(fields.transform);
        require(parent_known && transform_known, EditFault::UnknownId)?;
        require(self.props.clip(fields.id).is_none(), EditFault::IdUsed)?;
        require(
            self.props.clips() < MAX_NODES as usize,
            EditFault::TooMany { limit: MAX_NODES },
        )?;
        is_id(fields.id)?;
        is_clip_rect(fields.rect)
    }

    pub(crate) fn add_clip(&mut self, fields: &AddClip) -> Result<Changes, EditError>
        ensures { Tested self.old (command.AddClip fields.now) self.new result }
    {
        self.may_add_clip(fields)?;
        self.props.add_clip(
            fields.id,
            ClipNode {
                parent: fields.parent,
                transform: fields.transform,
                rect: fields.rect,
            },
        )?;
        Ok(self.unlisted())
    }

    #[tactic(auto, unfolding(crate::specs::Refusals::test_of))]
    fn may_set_clip(&self, fields: &SetClip) -> Result<(), EditFault>
        ensures { result ≡ test_of self.now (command.SetClip fields.now) }
    {
        require(self.props.clip(fields.id).is_some(), EditFault::UnknownId)?;
        is_clip_rect(fields.rect)
    }

    pub(crate) fn set_clip(&mut self, fields: &SetClip) -> Result<Changes, EditError>
        ensures { Tested self.old (command.SetClip fields.now) self.new result }
    {
        self.may_set_clip(fields)?;
        self.props.set_clip(fields.id, fields.rect);
        Ok(self.unlisted())
    }

    #[tactic(auto, unfolding(crate::specs::Refusals::test_of, crate::specs::Refusals::takes))]
    fn may_add_effect(&self, fields: &AddEffect) -> Result<(), EditFault>
        ensures { result ≡ test_of self.now (command.AddEffect fields.now) }
    {
        require(self.is_effect(fields.parent), EditFault::UnknownId)?;
        require(self.props.effect(fields.id).is_none(), EditFault::IdUsed)?;
        require(
            self.props.effects() < MAX_NODES as usize,
            EditFault::TooMany { limit: MAX_NODES },
        )?;
        is_id(fields.id)?;
        in_range(fields.opacity as i64, 0, 255)
    }

    pub(crate) fn add_effect(&mut self, fields: &AddEffect) -> Result<Changes, EditError>
        ensures { Tested self.old (command.AddEffect fields.now) self.new result }
    {
        self.may_add_effect(fields)?;
        let opacity = fields.opacity as u8;
        self.props.add_effect(
            fields.id,
            EffectNode {
                parent: fields.parent,
                opacity,
            },
        )?;
        Ok(self.unlisted())
    }

    #[tactic(auto, unfolding(crate::specs::Refusals::test_of))]
    fn may_set_opacity(&self, fields: &SetOpacity) -> Result<(), EditFault>
        ensures { result ≡ test_of self.now (command.SetOpacity fields.now) }
    {
        require(self.props.effect(fields.id).is_some(), EditFault::UnknownId)?;
        in_range(fields.opacity as i64, 0, 255)
    }

    pub(crate) fn set_opacity(&mut self, fields: &SetOpacity) -> Result<Changes, EditError>
        ensures { Tested self.old (command.SetOpacity fields.now) self.new result }
    {
        self.may_set_opacity(fields)?;
        self.props.set_opacity(fields.id, fields.opacity as u8);
        Ok(self.unlisted())
    }
}
