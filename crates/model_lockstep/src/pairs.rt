//! Tiles are started and made, one after another.

ghost use Rattle.std.specs.Prelude.{◌≡◌, Some, OnOk, OnErr};
ghost use Rattle.model_history.specs.Lockstep.{Pair};
ghost use Rattle.model_lockstep.specs.Walks.{CanFollow, Follows, IsOnWay, actor_for, entering, pairs_to_activation, pairs_at_most, all_pairs};

use crate::compositor::{Compositor, EnterFault};
use model_states::Kind;
use std::alloc::AllocError;
use std::thread::Threads;

/// Enters the event of this kind and of its actor, which is possible.
pub(crate) fn enter<C: Compositor>(core: &mut C, kind: Kind, actor: u32) -> Result<(), AllocError>
    requires actor { actor_for kind ≡ Some actor }
    requires can { CanFollow (entering kind actor) (C.run core.old) }
    ensures ok { OnOk result (Follows (entering kind actor) (C.run core.old) (C.run core.new)) }
    ensures err { OnErr result (C.run core.new ≡ C.run core.old) }
{
    match core.enter(kind, actor) {
        Ok(()) => Ok(()),
        Err(EnterFault::NotNow) => unreachable!(),
        Err(EnterFault::Memory(error)) => Err(error),
    }
}

/// Starts and makes the tile that is first.
fn start_and_make<C: Compositor>(core: &mut C) -> Result<(), AllocError>
    requires { CanFollow Pair (C.run core.old) }
    ensures ok { OnOk result (Follows Pair (C.run core.old) (C.run core.new)) }
    ensures err { OnErr result (IsOnWay Pair (C.run core.old) (C.run core.new)) }
{
    enter(core, Kind::Start, 2)?;
    enter(core, Kind::Done, 2)
}

/// Starts and makes the tile that is first, which may be made ahead together with those after it.
pub(crate) fn pair<R: Threads + Sync, C: Compositor>(rt: &R, core: &mut C) -> Result<(), AllocError>
    requires can { CanFollow Pair (C.run core.old) }
    ensures ok { OnOk result (Follows Pair (C.run core.old) (C.run core.new)) }
    ensures err { OnErr result (IsOnWay Pair (C.run core.old) (C.run core.new)) }
{
    core.make_ahead(rt);
    start_and_make(core)
}

/// Makes tiles until the pending commit can be activated.
pub(crate) fn pairs_until_activation<R: Threads + Sync, C: Compositor>(
    rt: &R,
    core: &mut C,
) -> Result<(), AllocError>
    requires can { CanFollow pairs_to_activation (C.run core.old) }
    ensures ok { OnOk result (Follows pairs_to_activation (C.run core.old) (C.run core.new)) }
    ensures err { OnErr result (IsOnWay pairs_to_activation (C.run core.old) (C.run core.new)) }
{
    while !core.can_activate()? {
        pair(rt, core)?;
    }
    Ok(())
}

/// Makes all tiles that may start.
pub(crate) fn make_all<R: Threads + Sync, C: Compositor>(
    rt: &R,
    core: &mut C,
) -> Result<(), AllocError>
    requires can { CanFollow all_pairs (C.run core.old) }
    ensures ok { OnOk result (Follows all_pairs (C.run core.old) (C.run core.new)) }
    ensures err { OnErr result (IsOnWay all_pairs (C.run core.old) (C.run core.new)) }
{
    while core.has_first()? {
        pair(rt, core)?;
    }
    Ok(())
}

/// Makes at most the given number of tiles.
pub(crate) fn make_some<R: Threads + Sync, C: Compositor>(
    rt: &R,
    core: &mut C,
    most: u32,
) -> Result<(), AllocError>
    requires can { CanFollow (pairs_at_most most) (C.run core.old) }
    ensures ok { OnOk result (Follows (pairs_at_most most) (C.run core.old) (C.run core.new)) }
    ensures err { OnErr result (IsOnWay (pairs_at_most most) (C.run core.old) (C.run core.new)) }
{
    let mut left = most;
    while left > 0 && core.has_first()? {
        pair(rt, core)?;
        left -= 1;
    }
    Ok(())
}
