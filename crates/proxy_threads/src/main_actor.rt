//! The main side.

ghost use Rattle.std.specs.Prelude.{◌≡◌, [], Some, IsSome, false};
ghost use Rattle.model_history.specs.Scans.{has_ended};
ghost use Rattle.impl_log.specs.Runs.{past};
ghost use Rattle.impl_core.specs.Origins.{Origin};
ghost use Rattle.main_host.specs.Hosts.{MainHostModel};
ghost use Rattle.main_host.specs.declared.main_end.MainEnd.TheVariants as end;
ghost use Rattle.proxy_threads.specs.Seats.{Of, OfBoth};
ghost use Rattle.proxy_threads.specs.MainTurns.{MainIsReady, MainTurn};
ghost use Rattle.proxy_threads.specs.inner.Holdings.{Holding};
ghost use Rattle.proxy_threads.specs.inner.Mains.{CanEnd, CanHandOver, Hands, IsHeldBy, IsSentTo, Listens, MainTurns, Tells};

use crate::holding::{put_back, stop, stop_if_failed, take_turn};
use crate::turned::Turned;
use impl_core::Core;
use main_host::{MainEnd, MainHost};
use model_history::{Commit, Moves};
use std::sync::Wait;
use thread_lock::{Pass, TurnLock};

/// The main side: it runs the main frames that are sent, and ends each.
#[derive(Drop)]
pub struct MainActor {
    pub(crate) pass: Option<Pass<Core>>,
    pub(crate) host: MainHost,
}

/// What the main side hears.
#[derive(Drop)]
enum Told {
    /// The run has ended, or all main frames have.
    Ended,
    /// No main frame is in flight.
    Waits,
    /// A main frame is in flight, with these pulls.
    Sent(Moves),
    /// Memory was refused.
    Memory,
}

// What a core tells the main side.
fn listen(core: &Core) -> Told
    ensures { Tells core.now result }
{
    if core.ended() || core.frames_ended() {
        return Told::Ended;
    }
    match core.in_flight() {
        None => Told::Waits,
        Some((_, pulls)) => match pulls.copy() {
            Ok(copy) => Told::Sent(copy),
            Err(_) => Told::Memory,
        },
    }
}

// Takes the turn once, and hears what the core tells.
fn hear<R: Wait>(rt: &R, lock: &TurnLock<Core>, pass: Pass<Core>) -> (Pass<Core>, Told)
    requires { pass.lock ≡ lock.now.id }
    ensures { Holding pass result.0 (Listens result.1) }
{
    let (core, empty) = take_turn(rt, lock, pass);
    let told = listen(&core);
    let pass = put_back(lock, empty, core);
    (pass, told)
}

// Enters that the main side is ready with a frame.
fn enter_ready(core: &mut Core, commit: Commit) -> Turned
    requires going { has_ended (past core.old) ≡ false }
    requires can { CanEnd core.old (end.Ready commit) }
    ensures { Hands (end.Ready commit) result core.old core.new }
{
    match core.ready(commit) {
        Ok(()) => Turned::Went,
        Err(_) => Turned::Memory,
    }
}

// Enters that a frame changed nothing.
fn enter_abort(core: &mut Core, frame: u32) -> Turned
    requires going { has_ended (past core.old) ≡ false }
    requires can { CanEnd core.old (end.Abort frame) }
    ensures { Hands (end.Abort frame) result core.old core.new }
{
    match core.abort(frame) {
        Ok(()) => Turned::Went,
        Err(_) => Turned::Memory,
    }
}

// Enters the end of the frame in flight, unless the run has ended.
fn enter_end(core: &mut Core, end: MainEnd) -> Turned
    requires { CanHandOver core.old end }
    ensures { Hands end result core.old core.new }
{
    if core.ended() {
        return Turned::Ended;
    }
    match end {
        MainEnd::Ready(commit) => enter_ready(core, commit),
        MainEnd::Abort { frame } => enter_abort(core, frame),
    }
}

// Takes the turn once, and enters the end of the frame in flight, unless the run has ended.
fn hand_over<R: Wait>(
    rt: &R,
    lock: &TurnLock<Core>,
    pass: Pass<Core>,
    end: MainEnd,
) -> (Pass<Core>, Turned)
    requires lock { pass.lock ≡ lock.now.id }
    requires held { (host : MainHostModel) × IsHeldBy pass host end }
    ensures { Holding pass result.0 (Hands end result.1) }
{
    let (mut core, empty) = take_turn(rt, lock, pass);
    let answer = enter_end(&mut core, end);
    let pass = put_back(lock, empty, core);
    (pass, answer)
}

// The same, and gives up if memory was refused.
fn finish<R: Wait>(
    rt: &R,
    lock: &TurnLock<Core>,
    pass: Pass<Core>,
    end: MainEnd,
) -> (Pass<Core>, Turned)
    requires lock { pass.lock ≡ lock.now.id }
    requires held { (host : MainHostModel) × IsHeldBy pass host end }
    ensures { (host : MainHostModel) → IsHeldBy pass host end → MainTurns pass result.0 host result.1 }
{
    let (pass, answer) = hand_over(rt, lock, pass, end);
    (stop_if_failed(rt, lock, pass, answer), answer)
}

// Runs the frame in flight outside of any turn, and enters its end.
fn end_frame<R: Wait>(
    rt: &R,
    lock: &TurnLock<Core>,
    pass: Pass<Core>,
    host: &mut MainHost,
    pulls: &Moves,
) -> (Pass<Core>, Turned)
    requires lock { pass.lock ≡ lock.now.id }
    requires sent { IsSentTo pass host.old pulls.now }
    ensures { MainTurns pass result.0 host.new result.1 }
{
    match host.begin(pulls) {
        Ok(end) => finish(rt, lock, pass, end),
        Err(_) => (stop(rt, lock, pass), Turned::Memory),
    }
}

// One turn of the main side.
fn main_turn<R: Wait>(
    rt: &R,
    lock: &TurnLock<Core>,
    pass: Pass<Core>,
    host: &mut MainHost,
) -> (Pass<Core>, Turned)
    requires { MainIsReady lock.now.id host.old pass }
    ensures { MainTurns pass result.0 host.new result.1 }
{
    let (pass, told) = hear(rt, lock, pass);
    match told {
        Told::Ended => (pass, Turned::Ended),
        Told::Waits => (pass, Turned::Blocked),
        Told::Sent(pulls) => end_frame(rt, lock, pass, host, &pulls),
        Told::Memory => (stop(rt, lock, pass), Turned::Memory),
    }
}

impl MainActor {
    /// The main side with a pass of actor 1 that has entered nothing, and with the host of its run's script
    /// before all main frames.
    pub fn new(pass: Pass<Core>, host: MainHost) -> MainActor
        requires actor { pass.actor ≡ 1 }
        requires fresh { pass.mine ≡ [] }
        requires script { (o : Origin) × (pass.stem ≡ Some o) × (host.script ≡ o.script) }
        requires before { host.sends ≡ [] }
        ensures pass { result.pass ≡ Some pass }
        ensures ready { MainIsReady pass.lock result.host pass }
    {
        MainActor {
            pass: Some(pass),
            host,
        }
    }

    /// One turn: hears of the frame in flight, runs it outside of any turn, and enters its end. It waits while
    /// another actor holds the turn.
    pub fn turn<R: Wait>(&mut self, rt: &R, lock: &TurnLock<Core>) -> Turned
        requires { Of self.old.pass (MainIsReady lock.now.id self.old.host) }
        ensures turn { OfBoth self.old.pass self.new.pass (λ p q. MainTurn p q result) }
        ensures ready { Of self.new.pass (MainIsReady lock.now.id self.new.host) }
    {
        let Some(pass) = self.pass.take() else {
            unreachable!()
        };
        let (pass, answer) = main_turn(rt, lock, pass, &mut self.host);
        self.pass = Some(pass);
        answer
    }

    /// The pass.
    pub fn pass(self) -> Pass<Core>
        requires { IsSome self.pass }
        ensures { self.pass ≡ Some result }
    {
        let MainActor { pass, .. } = self;
        let Some(pass) = pass else { unreachable!() };
        pass
    }
}
