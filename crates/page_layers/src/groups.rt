//! The groups that a layer is blended in.

ghost use Rattle.std.specs.Prelude.{◌≡◌, ◌==◌, ◌≤◌, ◌∷◌, cond, map, All, IfOk, OnOk, vec_len};
ghost use Rattle.page_properties.specs.Trees.{IsTrees};
ghost use Rattle.page_layers.specs.TreePainting.{groups_in, opacity_in};

use crate::paint::Group;
use page_properties::PropertyTrees;
use std::alloc::{AllocError, Global};

// Puts an effect before the groups, if it is below 255.
fn put_first(groups: &mut Vec<Group>, effect: u32, opacity: u8) -> Result<(), AllocError>
    ensures { OnOk result (groups.new.items ≡ cond (opacity == 255) groups.old.items (record { effect = effect; opacity = opacity } ∷ groups.old.items)) }
{
    if opacity == 255 {
        return Ok(());
    }
    groups.insert(0, Group { effect, opacity })?;
    Ok(())
}

/// The effects below 255 from this one up to the root, the outermost first, with their opacities. An error
/// means out of memory.
pub fn groups_of(
    alloc: Global,
    props: &PropertyTrees,
    effect: u32,
) -> Result<Vec<Group>, AllocError>
    requires { IsTrees props.now }
    ensures effects { IfOk result (λ groups. map (λ g. g.effect) groups.items ≡ groups_in props.now.effects effect) }
    ensures opacities { IfOk result (λ groups. All (λ g. opacity_in props.now.effects g.effect ≡ g.opacity) groups.items) }
    ensures few { IfOk result (λ groups. vec_len groups ≤ 256) }
{
    let mut groups = Vec::new(alloc);
    let mut id = effect;
    while let Some(node) = props.effect(id) {
        put_first(&mut groups, id, node.opacity)?;
        id = node.parent;
    }
    Ok(groups)
}
