//! Lists of changes made into one.

ghost use Rattle.std.specs.Prelude.{◌≡◌, ◌<◌, ◌≤◌, length, slice_get, OnOk, OnErr, IfOk, IfErr, IfSome, is_ok, if◌then◌else◌, [], ◌∷◌, ◌++◌, take, drop};
ghost use Rattle.region.specs.Lists.{IsRising, IsAboveLast, AreJoined, AllBelow, StartsAbove, without_layer};

use crate::change::LayerChange;
use std::alloc::{AllocError, Global};

/// The list, element for element.
pub(crate) fn copy_of(alloc: Global, list: &[LayerChange]) -> Result<Vec<LayerChange>, AllocError>
    ensures { IfOk result (λ copy. copy.items ≡ list.now) }
{
    let mut copy = Vec::with_capacity(alloc, list.len())?;
    for change in list {
        copy.push(change.copy()?)?;
    }
    Ok(copy)
}

/// Adds the changes of `later` to the list; running out of memory leaves it as it was.
pub(crate) fn join_lists(
    list: &mut Vec<LayerChange>,
    later: &[LayerChange],
) -> Result<(), AllocError>
    requires { IsRising list.old.items }
    ensures ok { OnOk result (AreJoined list.old.items later.now list.new.items) }
    ensures err { OnErr result (list.new.items ≡ list.old.items) }
    ensures rising { IsRising list.new.items }
{
    if later.is_empty() {
        return Ok(());
    }
    if let [change] = later {
        return join_one(list, change);
    }
    let mut joined = copy_of(*list.allocator(), list)?;
    join_each(&mut joined, later)?;
    *list = joined;
    Ok(())
}

// Adds each change in turn; running out of memory leaves a list that is no longer wanted.
fn join_each(list: &mut Vec<LayerChange>, later: &[LayerChange]) -> Result<(), AllocError>
    requires { IsRising list.old.items }
    ensures ok { OnOk result (AreJoined list.old.items later.now list.new.items) }
    ensures rising { IsRising list.new.items }
{
    for change in later {
        join_one(list, change)?;
    }
    Ok(())
}

// Adds one change; running out of memory leaves the list as it was.
fn join_one(list: &mut Vec<LayerChange>, change: &LayerChange) -> Result<(), AllocError>
    requires { IsRising list.old.items }
    ensures ok { OnOk result (AreJoined list.old.items (change.now ∷ []) list.new.items) }
    ensures err { OnErr result (list.new.items ≡ list.old.items) }
    ensures rising { IsRising list.new.items }
{
    match place_of(list, change.layer) {
        Ok(place) => join_at(list, place, change),
        Err(place) => insert_at(list, place, change),
    }
}

// Adds the change to the element of its layer.
fn join_at(
    list: &mut Vec<LayerChange>,
    place: usize,
    change: &LayerChange,
) -> Result<(), AllocError>
    requires rising { IsRising list.old.items }
    requires inside { place < length list.old.items }
    requires layer { IfSome (slice_get list.old.items place) (λ c. c.layer ≡ change.now.layer) }
    ensures ok { OnOk result (AreJoined list.old.items (change.now ∷ []) list.new.items) }
    ensures err { OnErr result (list.new.items ≡ list.old.items) }
    ensures rising { IsRising list.new.items }
{
    list[place].join(change)
}

// Puts a copy of the change between the elements below and above its layer.
fn insert_at(
    list: &mut Vec<LayerChange>,
    place: usize,
    change: &LayerChange,
) -> Result<(), AllocError>
    requires rising { IsRising list.old.items }
    requires inside { place ≤ length list.old.items }
    requires below { AllBelow change.now.layer (take place list.old.items) }
    requires above { StartsAbove change.now.layer (drop place list.old.items) }
    ensures ok { OnOk result (AreJoined list.old.items (change.now ∷ []) list.new.items) }
    ensures err { OnErr result (list.new.items ≡ list.old.items) }
    ensures rising { IsRising list.new.items }
{
    let copy = change.copy()?;
    list.insert(place, copy)?;
    Ok(())
}

// The place of the layer, or if it is not listed, the place at which it would be.
fn place_of(list: &[LayerChange], layer: u32) -> Result<usize, usize>
    ensures found { IfOk result (λ i. (i < length list.now) × IfSome (slice_get list.now i) (λ c. c.layer ≡ layer)) }
    ensures within { IfErr result (λ i. i ≤ length list.now) }
    ensures below { IfErr result (λ i. AllBelow layer (take i list.now)) }
    ensures above { IfErr result (λ i. StartsAbove layer (drop i list.now)) }
{
    for (i, change) in list.iter().enumerate() {
        if change.layer == layer {
            return Ok(i);
        }
        if change.layer > layer {
            return Err(i);
        }
    }
    Err(list.len())
}

/// Appends a change whose layer is above all others.
pub(crate) fn push_change(
    list: &mut Vec<LayerChange>,
    change: LayerChange,
) -> Result<(), (AllocError, LayerChange)>
    requires rising { IsRising list.old.items }
    requires above { IsAboveLast list.old.items change.layer }
    ensures list { list.new.items ≡ (if is_ok result then list.old.items ++ change ∷ [] else list.old.items) }
    ensures given_back { IfErr result (λ e. e.1 ≡ change) }
    ensures rising { IsRising list.new.items }
{
    match list.push(change) {
        Ok(()) => Ok(()),
        Err(full) => Err((AllocError, full.value)),
    }
}

/// Takes the layer out of the list.
pub(crate) fn remove_layer(list: &mut Vec<LayerChange>, layer: u32)
    requires { IsRising list.old.items }
    ensures list { list.new.items ≡ without_layer layer list.old.items }
    ensures rising { IsRising list.new.items }
{
    list.retain(|change| change.layer != layer);
}
