//! What an input brings is played, and the end of a run, part by part: a round of an await, or of the end, is a part of
//! its own, so that it can be taken before the next.

ghost use Rattle.std.specs.Prelude.{◌≡◌, IfOk, OnOk, OnErr};
ghost use Rattle.model_lockstep.specs.Walks.{CanFollow, Follows, IsOnWay, round_where, settled_rest, settled, input_played, rest_played, run_end, has_rounds, is_waited_for, PlaysPart, PlaysEnd};

use crate::compositor::Compositor;
use crate::draws::draw_frame;
use crate::frames::round;
use crate::pairs::{enter, make_all};
use model_history::Input;
use model_states::Kind;
use std::alloc::AllocError;
use std::thread::Threads;

/// Plays a round if a commit is pending.
fn round_if_pending<R: Threads + Sync, C: Compositor>(
    rt: &R,
    core: &mut C,
) -> Result<(), AllocError>
    requires can { CanFollow round_where (C.run core.old) }
    ensures ok { OnOk result (Follows round_where (C.run core.old) (C.run core.new)) }
    ensures err { OnErr result (IsOnWay round_where (C.run core.old) (C.run core.new)) }
{
    if core.waits() {
        round(rt, core)
    } else {
        Ok(())
    }
}

/// Makes all tiles, and the settle is over.
fn make_and_settle<R: Threads + Sync, C: Compositor>(rt: &R, core: &mut C) -> Result<(), AllocError>
    requires can { CanFollow settled_rest (C.run core.old) }
    ensures ok { OnOk result (Follows settled_rest (C.run core.old) (C.run core.new)) }
    ensures err { OnErr result (IsOnWay settled_rest (C.run core.old) (C.run core.new)) }
{
    make_all(rt, core)?;
    enter(core, Kind::Settle, 0)
}

/// Plays what a settle waits for.
fn settle<R: Threads + Sync, C: Compositor>(rt: &R, core: &mut C) -> Result<(), AllocError>
    requires can { CanFollow settled (C.run core.old) }
    ensures ok { OnOk result (Follows settled (C.run core.old) (C.run core.new)) }
    ensures err { OnErr result (IsOnWay settled (C.run core.old) (C.run core.new)) }
{
    round_if_pending(rt, core)?;
    make_and_settle(rt, core)
}

/// Plays what is left of what an input brings that does not have to wait.
fn play_rest<R: Threads + Sync, C: Compositor>(
    rt: &R,
    core: &mut C,
    input: &Input,
) -> Result<(), AllocError>
    requires can { CanFollow (rest_played input.now) (C.run core.old) }
    ensures { OnOk result (Follows (rest_played input.now) (C.run core.old) (C.run core.new)) }
{
    match input {
        Input::Scroll { .. } => enter(core, Kind::Scroll, 0),
        Input::Wheel { .. } => enter(core, Kind::Wheel, 0),
        Input::Draw => draw_frame(rt, core),
        Input::Await { .. } => enter(core, Kind::Await, 0),
        Input::Settle => settle(rt, core),
    }
}

/// Whether the input is an await that is not over.
fn is_held_up<C: Compositor>(core: &C, input: &Input) -> bool
    ensures { result ≡ is_waited_for input.now (C.run core.now) }
{
    match input {
        Input::Await { .. } => !core.can_await(),
        _ => false,
    }
}

/// Plays a part of what an input brings, which the run is to be able to follow: a round of an await that is not over,
/// or all that is left. Answers whether that was all. On an error memory was refused.
pub(crate) fn play_part<R: Threads + Sync, C: Compositor>(
    rt: &R,
    core: &mut C,
    input: &Input,
) -> Result<bool, AllocError>
    requires { CanFollow (input_played input.now) (C.run core.old) }
    ensures { IfOk result (λ over. PlaysPart input.now over (C.run core.old) (C.run core.new)) }
{
    if is_held_up(core, input) {
        round(rt, core)?;
        return Ok(false);
    }
    play_rest(rt, core, input)?;
    Ok(true)
}

/// Whether a main frame is left or a commit is pending.
fn goes_on<C: Compositor>(core: &C) -> bool
    ensures { result ≡ has_rounds (C.run core.now) }
{
    let left = core.is_left();
    let waits = core.waits();
    left || waits
}

/// Plays one of the rounds that are left after all inputs, or ends the run. Answers whether it ended. On an error
/// memory was refused.
pub(crate) fn end_part<R: Threads + Sync, C: Compositor>(
    rt: &R,
    core: &mut C,
) -> Result<bool, AllocError>
    requires { CanFollow run_end (C.run core.old) }
    ensures { IfOk result (λ over. PlaysEnd over (C.run core.old) (C.run core.new)) }
{
    if goes_on(core) {
        round(rt, core)?;
        return Ok(false);
    }
    enter(core, Kind::End, 0)?;
    Ok(true)
}
