//! Impl frames and main frames are played.

ghost use Rattle.std.specs.Prelude.{◌≡◌, ℕ, Some, OnOk, OnErr};
ghost use Rattle.model_history.specs.EventFields.{sends};
ghost use Rattle.model_history.specs.Scans.{newest};
ghost use Rattle.model_history.specs.Frames.{changes as frame_changes, pulls_of};
ghost use Rattle.model_history.specs.Lockstep.{MainPart, ActivateNow, PlainFrame, Round};
ghost use Rattle.model_lockstep.specs.Walks.{CanFollow, Follows, IsOnWay, commit_made, main_answer, activation_where, no_draw, frame_end, frame_rest};

use crate::compositor::Compositor;
use crate::pairs::{enter, pairs_until_activation};
use model_states::Kind;
use std::alloc::AllocError;
use std::thread::Threads;

/// The main side is ready, and its commit becomes the pending tree.
fn commit<C: Compositor>(core: &mut C) -> Result<(), AllocError>
    requires { CanFollow commit_made (C.run core.old) }
    ensures ok { OnOk result (Follows commit_made (C.run core.old) (C.run core.new)) }
    ensures err { OnErr result (IsOnWay commit_made (C.run core.old) (C.run core.new)) }
{
    enter(core, Kind::Ready, 1)?;
    enter(core, Kind::Commit, 0)
}

/// The main side ends the frame that was sent: by a commit if it changes something, else by an
/// abort.
fn answer_frame<C: Compositor>(core: &mut C, changed: bool) -> Result<(), AllocError>
    requires can { CanFollow main_answer (C.run core.old) }
    requires sent { (k : ℕ) × (newest sends (C.run core.old).past ≡ Some k) }
    requires changed { (k : ℕ) → newest sends (C.run core.old).past ≡ Some k → changed ≡ frame_changes (C.run core.old).script (pulls_of (C.run core.old).past) k }
    ensures ok { OnOk result (Follows main_answer (C.run core.old) (C.run core.new)) }
    ensures err { OnErr result (IsOnWay main_answer (C.run core.old) (C.run core.new)) }
{
    if changed {
        commit(core)
    } else {
        enter(core, Kind::Abort, 1)
    }
}

/// The main side runs the frame that was sent, and ends it.
fn end_main_frame<C: Compositor>(core: &mut C) -> Result<(), AllocError>
    requires can { CanFollow main_answer (C.run core.old) }
    requires sent { (k : ℕ) × (newest sends (C.run core.old).past ≡ Some k) }
    ensures ok { OnOk result (Follows main_answer (C.run core.old) (C.run core.new)) }
    ensures err { OnErr result (IsOnWay main_answer (C.run core.old) (C.run core.new)) }
{
    let changed = core.changes()?;
    answer_frame(core, changed)
}

/// A main frame is sent and ends.
pub(crate) fn main_part<C: Compositor>(core: &mut C) -> Result<(), AllocError>
    requires { CanFollow MainPart (C.run core.old) }
    ensures ok { OnOk result (Follows MainPart (C.run core.old) (C.run core.new)) }
    ensures err { OnErr result (IsOnWay MainPart (C.run core.old) (C.run core.new)) }
{
    enter(core, Kind::Send, 0)?;
    end_main_frame(core)
}

/// Makes the tiles that the pending commit needs, and activates it.
fn activate<R: Threads + Sync, C: Compositor>(rt: &R, core: &mut C) -> Result<(), AllocError>
    requires can { CanFollow ActivateNow (C.run core.old) }
    ensures ok { OnOk result (Follows ActivateNow (C.run core.old) (C.run core.new)) }
    ensures err { OnErr result (IsOnWay ActivateNow (C.run core.old) (C.run core.new)) }
{
    pairs_until_activation(rt, core)?;
    enter(core, Kind::Activate, 0)
}

/// Activates the pending commit, if there is one.
fn activate_pending<R: Threads + Sync, C: Compositor>(
    rt: &R,
    core: &mut C,
) -> Result<(), AllocError>
    requires can { CanFollow activation_where (C.run core.old) }
    ensures ok { OnOk result (Follows activation_where (C.run core.old) (C.run core.new)) }
    ensures err { OnErr result (IsOnWay activation_where (C.run core.old) (C.run core.new)) }
{
    if core.waits() {
        activate(rt, core)
    } else {
        Ok(())
    }
}

/// The impl frame ends without a picture.
fn end_without_picture<C: Compositor>(core: &mut C) -> Result<(), AllocError>
    requires { CanFollow no_draw (C.run core.old) }
    ensures ok { OnOk result (Follows no_draw (C.run core.old) (C.run core.new)) }
    ensures err { OnErr result (IsOnWay no_draw (C.run core.old) (C.run core.new)) }
{
    enter(core, Kind::NoDraw, 0)?;
    enter(core, Kind::Finish, 0)
}

/// Activates what the main frame committed, and ends the impl frame.
fn end_plain_frame<R: Threads + Sync, C: Compositor>(rt: &R, core: &mut C) -> Result<(), AllocError>
    requires can { CanFollow frame_end (C.run core.old) }
    ensures ok { OnOk result (Follows frame_end (C.run core.old) (C.run core.new)) }
    ensures err { OnErr result (IsOnWay frame_end (C.run core.old) (C.run core.new)) }
{
    activate_pending(rt, core)?;
    end_without_picture(core)
}

/// Plays a main frame inside the impl frame that was begun for it, and ends both.
fn inside_plain_frame<R: Threads + Sync, C: Compositor>(
    rt: &R,
    core: &mut C,
) -> Result<(), AllocError>
    requires can { CanFollow frame_rest (C.run core.old) }
    ensures ok { OnOk result (Follows frame_rest (C.run core.old) (C.run core.new)) }
    ensures err { OnErr result (IsOnWay frame_rest (C.run core.old) (C.run core.new)) }
{
    main_part(core)?;
    end_plain_frame(rt, core)
}

/// Plays an impl frame for a main frame alone.
fn plain_frame<R: Threads + Sync, C: Compositor>(rt: &R, core: &mut C) -> Result<(), AllocError>
    requires can { CanFollow PlainFrame (C.run core.old) }
    ensures ok { OnOk result (Follows PlainFrame (C.run core.old) (C.run core.new)) }
    ensures err { OnErr result (IsOnWay PlainFrame (C.run core.old) (C.run core.new)) }
{
    enter(core, Kind::BeginPlain, 0)?;
    inside_plain_frame(rt, core)
}

/// Activates the pending commit, or else plays a main frame.
pub(crate) fn round<R: Threads + Sync, C: Compositor>(
    rt: &R,
    core: &mut C,
) -> Result<(), AllocError>
    requires can { CanFollow Round (C.run core.old) }
    ensures ok { OnOk result (Follows Round (C.run core.old) (C.run core.new)) }
    ensures err { OnErr result (IsOnWay Round (C.run core.old) (C.run core.new)) }
{
    if core.waits() {
        activate(rt, core)
    } else {
        plain_frame(rt, core)
    }
}
