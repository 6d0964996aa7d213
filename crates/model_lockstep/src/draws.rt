//! A draw is played.

ghost use Rattle.std.specs.Prelude.{◌≡◌, OnOk, OnErr};
ghost use Rattle.model_history.specs.Lockstep.{DrawFrame, may_send as main_frame_may};
ghost use Rattle.model_lockstep.specs.Walks.{CanFollow, Follows, IsOnWay, main_part_where, activation_now, draw_or_skip, draw_end, draw_activated, draw_made, draw_rest, pairs_of_draw};

use crate::compositor::Compositor;
use crate::frames::main_part;
use crate::pairs::{enter, make_some};
use model_states::Kind;
use std::alloc::AllocError;
use std::thread::Threads;

/// Whether a main frame is left and no commit is pending.
fn may_send<C: Compositor>(core: &C) -> bool
    ensures { result ≡ main_frame_may (C.run core.now).script (C.run core.now).past }
{
    let left = core.is_left();
    let waits = core.waits();
    left && !waits
}

/// Sends a main frame, if one may be sent.
fn send_where<C: Compositor>(core: &mut C) -> Result<(), AllocError>
    requires { CanFollow main_part_where (C.run core.old) }
    ensures ok { OnOk result (Follows main_part_where (C.run core.old) (C.run core.new)) }
    ensures err { OnErr result (IsOnWay main_part_where (C.run core.old) (C.run core.new)) }
{
    if may_send(core) {
        main_part(core)
    } else {
        Ok(())
    }
}

/// Activates the pending commit, if that is possible without more tiles.
fn activate_where<C: Compositor>(core: &mut C) -> Result<(), AllocError>
    requires { CanFollow activation_now (C.run core.old) }
    ensures ok { OnOk result (Follows activation_now (C.run core.old) (C.run core.new)) }
    ensures err { OnErr result (IsOnWay activation_now (C.run core.old) (C.run core.new)) }
{
    if core.can_activate()? {
        enter(core, Kind::Activate, 0)
    } else {
        Ok(())
    }
}

/// Draws the active tree, or skips the draw if there is none.
fn draw_active<C: Compositor>(core: &mut C) -> Result<(), AllocError>
    requires { CanFollow draw_or_skip (C.run core.old) }
    ensures ok { OnOk result (Follows draw_or_skip (C.run core.old) (C.run core.new)) }
    ensures err { OnErr result (IsOnWay draw_or_skip (C.run core.old) (C.run core.new)) }
{
    if core.is_active() {
        enter(core, Kind::Draw, 0)
    } else {
        enter(core, Kind::Skip, 0)
    }
}

/// Draws, and ends the impl frame.
fn end_draw_frame<C: Compositor>(core: &mut C) -> Result<(), AllocError>
    requires { CanFollow draw_end (C.run core.old) }
    ensures ok { OnOk result (Follows draw_end (C.run core.old) (C.run core.new)) }
    ensures err { OnErr result (IsOnWay draw_end (C.run core.old) (C.run core.new)) }
{
    draw_active(core)?;
    enter(core, Kind::Finish, 0)
}

/// Activates if that is possible, draws, and ends the impl frame.
fn activate_and_draw<C: Compositor>(core: &mut C) -> Result<(), AllocError>
    requires { CanFollow draw_activated (C.run core.old) }
    ensures ok { OnOk result (Follows draw_activated (C.run core.old) (C.run core.new)) }
    ensures err { OnErr result (IsOnWay draw_activated (C.run core.old) (C.run core.new)) }
{
    activate_where(core)?;
    end_draw_frame(core)
}

/// Makes as many tiles as a draw makes at most.
fn make_for_draw<R: Threads + Sync, C: Compositor>(rt: &R, core: &mut C) -> Result<(), AllocError>
    requires can { CanFollow pairs_of_draw (C.run core.old) }
    ensures ok { OnOk result (Follows pairs_of_draw (C.run core.old) (C.run core.new)) }
    ensures err { OnErr result (IsOnWay pairs_of_draw (C.run core.old) (C.run core.new)) }
{
    let most = core.raster_per_frame();
    make_some(rt, core, most)
}

/// Makes the draw's tiles, activates if that is possible, draws, and ends the impl frame.
fn make_and_draw<R: Threads + Sync, C: Compositor>(rt: &R, core: &mut C) -> Result<(), AllocError>
    requires can { CanFollow draw_made (C.run core.old) }
    ensures ok { OnOk result (Follows draw_made (C.run core.old) (C.run core.new)) }
    ensures err { OnErr result (IsOnWay draw_made (C.run core.old) (C.run core.new)) }
{
    make_for_draw(rt, core)?;
    activate_and_draw(core)
}

/// Plays an impl frame for a draw from its beginning on.
fn inside_draw_frame<R: Threads + Sync, C: Compositor>(
    rt: &R,
    core: &mut C,
) -> Result<(), AllocError>
    requires can { CanFollow draw_rest (C.run core.old) }
    ensures ok { OnOk result (Follows draw_rest (C.run core.old) (C.run core.new)) }
    ensures err { OnErr result (IsOnWay draw_rest (C.run core.old) (C.run core.new)) }
{
    send_where(core)?;
    make_and_draw(rt, core)
}

/// Plays an impl frame for a draw.
pub(crate) fn draw_frame<R: Threads + Sync, C: Compositor>(
    rt: &R,
    core: &mut C,
) -> Result<(), AllocError>
    requires can { CanFollow DrawFrame (C.run core.old) }
    ensures ok { OnOk result (Follows DrawFrame (C.run core.old) (C.run core.new)) }
    ensures err { OnErr result (IsOnWay DrawFrame (C.run core.old) (C.run core.new)) }
{
    enter(core, Kind::BeginDraw, 0)?;
    inside_draw_frame(rt, core)
}
