//! What the compositor does while it holds the turn.

ghost use Rattle.std.specs.Prelude.{◌≡◌, ◌≤◌, false, length};
ghost use Rattle.model_history.specs.Scans.{has_ended};
ghost use Rattle.impl_log.specs.Kept.{before_newest};
ghost use Rattle.impl_log.specs.Runs.{past};
ghost use Rattle.impl_core.specs.Replies.{is_played};
ghost use Rattle.proxy_threads.specs.Writing.{HasWritten};
ghost use Rattle.proxy_threads.specs.inner.Holdings.{Holding};
ghost use Rattle.proxy_threads.specs.inner.Steps.{AreOwn, Composes, Gathers, Plays, PlaysOf};

use crate::holding::{put_back, take_turn};
use crate::lines::Lines;
use impl_core::{Core, CoreFault, Reply};
use model_states::Kind;
use std::sync::Wait;
use thread_lock::{Pass, TurnLock};
use viz_scene::Scene;

/// What the compositor has done.
#[derive(Drop)]
pub(crate) enum Played {
    /// Nothing: the run has ended.
    Ended,
    /// Nothing: none of its events may come.
    Blocked,
    /// It has entered an event that shows nothing.
    Plain,
    /// It has entered a draw, which shows this.
    Shown(Scene),
    /// Memory was refused.
    Memory,
}

/// The kinds of the compositor, in the order in which they are tried. What the main side has made ready
/// comes first, so that a draw shows the newest page; the next input comes last.
const KINDS: [Kind; 14] = [
    Kind::Finish,
    Kind::Activate,
    Kind::Commit,
    Kind::Send,
    Kind::Draw,
    Kind::Skip,
    Kind::NoDraw,
    Kind::Scroll,
    Kind::Wheel,
    Kind::BeginDraw,
    Kind::BeginPlain,
    Kind::Await,
    Kind::Settle,
    Kind::End,
];

// Enters the event of the first of these kinds of which one may come.
fn play_listed(core: &mut Core, kinds: &[Kind]) -> Played
    requires going { has_ended (past core.old) ≡ false }
    requires own { AreOwn kinds.now }
    ensures { PlaysOf kinds.now core.old core.new result }
{
    let mut rest = kinds;
    while let [kind, after @ ..] = rest {
        match core.play(*kind) {
            Ok(Reply::Plain) => return Played::Plain,
            Ok(Reply::Scene(scene)) => return Played::Shown(scene),
            Err(CoreFault::NotNow { .. }) => {}
            Err(CoreFault::Memory(_)) => return Played::Memory,
        }
        rest = after;
    }
    Played::Blocked
}

// The same, unless the run has ended.
fn play(core: &mut Core) -> Played
    ensures { Plays core.old core.new result }
{
    if core.ended() {
        Played::Ended
    } else {
        play_listed(core, &KINDS)
    }
}

// Plays, and gathers the lines of what was not written. Of that only what is played may be a milestone, so none of it
// is forgotten; what was written long ago is.
fn compose(core: &mut Core, lines: &mut Lines) -> Played
    requires { length (before_newest (past core.old)) ≤ lines.old.written }
    ensures plays { Plays core.old core.new result }
    ensures gathers { Gathers result lines.old.written core.new.entries lines.new }
    ensures over { lines.new.over ≡ is_played core.new.entries }
{
    let played = play(core);
    lines.over = core.is_over();
    lines.wakes.renew(&played, core);
    core.forget();
    match lines.gather(core.history()) {
        Ok(()) => played,
        Err(_) => Played::Memory,
    }
}

/// Takes the turn once, plays, and gathers the lines of what was not written.
pub(crate) fn hold<R: Wait>(
    rt: &R,
    lock: &TurnLock<Core>,
    pass: Pass<Core>,
    lines: &mut Lines,
) -> (Pass<Core>, Played)
    requires lock { pass.lock ≡ lock.now.id }
    requires actor { pass.actor ≡ 0 }
    requires written { HasWritten pass lines.old.written }
    ensures { Holding pass result.0 (Composes lines.old.written lines.new result.1) }
{
    let (mut core, empty) = take_turn(rt, lock, pass);
    let played = compose(&mut core, lines);
    let pass = put_back(lock, empty, core);
    (pass, played)
}
