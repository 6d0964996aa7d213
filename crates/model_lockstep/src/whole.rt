//! The whole run is played, and taken part by part.

ghost use Rattle.std.specs.Prelude.{◌≡◌, ◌<◌, ◌≤◌, List, [], length, reverse, IfErr, IfOk, OnOk};
ghost use Rattle.model_history.specs.declared.history.Entry.{Entry};
ghost use Rattle.model_history.specs.Lockstep.{IsLockstep};
ghost use Rattle.model_lockstep.specs.Measures.{to_play};
ghost use Rattle.model_lockstep.specs.Walks.{CanFollow, input_played};
ghost use Rattle.model_lockstep.specs.Receivers.{Begins, OnCourse, ReachesEnd, StaysOn, StopsAt, TakesPart};

use crate::compositor::Compositor;
use crate::play::{end_part, play_part};
use crate::receiver::Receiver;
use model_history::Input;
use std::thread::Threads;

// Plays a part of what an input brings, and lets it be taken. Answers whether that was all that the input brings.
fn take_part<R: Threads + Sync, C: Compositor, O, V: Receiver<C, O>>(
    rt: &R,
    core: &mut C,
    input: &Input,
    receiver: &mut V,
    out: &mut O,
) -> Result<bool, V::Fault>
    requires can { CanFollow (input_played input.now) (C.run core.old) }
    requires all { (C.run core.old).written ≡ length (C.run core.old).past }
    requires has { (start : V.Start) × V.has start (C.run core.old).script (C.run core.old).past receiver.old out.old }
    ensures taken { IfOk result (λ over. TakesPart input.now over (C.run core.old) (C.run core.new)) }
    ensures has { (start : V.Start) → V.has start (C.run core.old).script (C.run core.old).past receiver.old out.old → OnOk result (V.has start (C.run core.old).script (C.run core.new).past receiver.new out.new) }
    ensures stopped { (start : V.Start) → V.has start (C.run core.old).script (C.run core.old).past receiver.old out.old → IfErr result (λ fault. (past : List Entry) × Begins (input_played input.now) (C.run core.old) past × V.stopped start (C.run core.old).script past fault receiver.new out.new) }
{
    match play_part(rt, core, input) {
        Ok(over) => match receiver.take(rt, core, out) {
            Ok(()) => Ok(over),
            Err(fault) => Err(fault),
        },
        Err(error) => Err(V::refused(error)),
    }
}

// Plays a part of what the first of these inputs brings, and lets it be taken. The inputs that are left: all but the
// first if that was all that it brings.
fn take_first<'i, R: Threads + Sync, C: Compositor, O, V: Receiver<C, O>>(
    rt: &R,
    core: &mut C,
    inputs: &'i [Input],
    receiver: &mut V,
    out: &mut O,
) -> Result<&'i [Input], V::Fault>
    requires course { OnCourse inputs.now (C.run core.old) }
    requires has { (start : V.Start) × V.has start (C.run core.old).script (C.run core.old).past receiver.old out.old }
    ensures course { IfOk result (λ left. StaysOn left.now (C.run core.old) (C.run core.new)) }
    ensures has { (start : V.Start) → V.has start (C.run core.old).script (C.run core.old).past receiver.old out.old → OnOk result (V.has start (C.run core.old).script (C.run core.new).past receiver.new out.new) }
    ensures stopped { (start : V.Start) → V.has start (C.run core.old).script (C.run core.old).past receiver.old out.old → IfErr result (λ fault. StopsAt (C.run core.old).script (λ past. V.stopped start (C.run core.old).script past fault receiver.new out.new)) }
    ensures nearer { 1 ≤ length inputs.now → IfOk result (λ left. to_play left.now (C.run core.new) < to_play inputs.now (C.run core.old)) }
{
    match inputs.split_first() {
        Some((input, after)) => match take_part(rt, core, input, receiver, out) {
            Ok(true) => Ok(after),
            Ok(false) => Ok(inputs),
            Err(fault) => Err(fault),
        },
        None => Ok(inputs),
    }
}

/// Plays inputs, part by part, and lets the receiver take each part, until it is full. The inputs that are left; of
/// the first of them, if it is an await, some rounds may have been played.
pub fn play_some<'i, R: Threads + Sync, C: Compositor, O, V: Receiver<C, O>>(
    rt: &R,
    core: &mut C,
    inputs: &'i [Input],
    receiver: &mut V,
    out: &mut O,
) -> Result<&'i [Input], V::Fault>
    requires course { OnCourse inputs.now (C.run core.old) }
    requires has { (start : V.Start) × V.has start (C.run core.old).script (C.run core.old).past receiver.old out.old }
    ensures course { IfOk result (λ left. StaysOn left.now (C.run core.old) (C.run core.new)) }
    ensures has { (start : V.Start) → V.has start (C.run core.old).script (C.run core.old).past receiver.old out.old → OnOk result (V.has start (C.run core.old).script (C.run core.new).past receiver.new out.new) }
    ensures stopped { (start : V.Start) → V.has start (C.run core.old).script (C.run core.old).past receiver.old out.old → IfErr result (λ fault. StopsAt (C.run core.old).script (λ past. V.stopped start (C.run core.old).script past fault receiver.new out.new)) }
    ensures nearer { 1 ≤ length inputs.now → IfOk result (λ left. to_play left.now (C.run core.new) < to_play inputs.now (C.run core.old)) }
{
    let mut rest = inputs;
    'parts: while !rest.is_empty() {
        match take_first(rt, core, rest, receiver, out) {
            Ok(left) => rest = left,
            Err(fault) => return Err(fault),
        }
        if receiver.is_full() {
            return Ok(rest);
        }
    }
    Ok(rest)
}

// Plays a part of what is left after all inputs, and lets it be taken. Answers whether it was the end of the run.
fn take_end_part<R: Threads + Sync, C: Compositor, O, V: Receiver<C, O>>(
    rt: &R,
    core: &mut C,
    receiver: &mut V,
    out: &mut O,
) -> Result<bool, V::Fault>
    requires course { OnCourse [] (C.run core.old) }
    requires has { (start : V.Start) × V.has start (C.run core.old).script (C.run core.old).past receiver.old out.old }
    ensures reaches { IfOk result (λ over. ReachesEnd over (C.run core.old) (C.run core.new)) }
    ensures has { (start : V.Start) → V.has start (C.run core.old).script (C.run core.old).past receiver.old out.old → OnOk result (V.has start (C.run core.old).script (C.run core.new).past receiver.new out.new) }
    ensures stopped { (start : V.Start) → V.has start (C.run core.old).script (C.run core.old).past receiver.old out.old → IfErr result (λ fault. StopsAt (C.run core.old).script (λ past. V.stopped start (C.run core.old).script past fault receiver.new out.new)) }
{
    match end_part(rt, core) {
        Ok(over) => match receiver.take(rt, core, out) {
            Ok(()) => Ok(over),
            Err(fault) => Err(fault),
        },
        Err(error) => Err(V::refused(error)),
    }
}

/// Plays what is left after all inputs, round by round, and lets the receiver take each, until it is full. Answers
/// whether the run has ended.
pub fn play_end<R: Threads + Sync, C: Compositor, O, V: Receiver<C, O>>(
    rt: &R,
    core: &mut C,
    receiver: &mut V,
    out: &mut O,
) -> Result<bool, V::Fault>
    requires course { OnCourse [] (C.run core.old) }
    requires has { (start : V.Start) × V.has start (C.run core.old).script (C.run core.old).past receiver.old out.old }
    ensures reaches { IfOk result (λ over. ReachesEnd over (C.run core.old) (C.run core.new)) }
    ensures has { (start : V.Start) → V.has start (C.run core.old).script (C.run core.old).past receiver.old out.old → OnOk result (V.has start (C.run core.old).script (C.run core.new).past receiver.new out.new) }
    ensures stopped { (start : V.Start) → V.has start (C.run core.old).script (C.run core.old).past receiver.old out.old → IfErr result (λ fault. StopsAt (C.run core.old).script (λ past. V.stopped start (C.run core.old).script past fault receiver.new out.new)) }
{
    'rounds: loop {
        match take_end_part(rt, core, receiver, out) {
            Ok(true) => return Ok(true),
            Ok(false) => {}
            Err(fault) => return Err(fault),
        }
        if receiver.is_full() {
            return Ok(false);
        }
    }
}

// Plays all that is left after all inputs, and lets the receiver take it, part by part.
fn play_to_end<R: Threads + Sync, C: Compositor, O, V: Receiver<C, O>>(
    rt: &R,
    core: &mut C,
    receiver: &mut V,
    out: &mut O,
) -> Result<(), V::Fault>
    requires course { OnCourse [] (C.run core.old) }
    requires has { (start : V.Start) × V.has start (C.run core.old).script (C.run core.old).past receiver.old out.old }
    ensures lockstep { OnOk result (IsLockstep (C.run core.old).script (reverse (C.run core.new).past)) }
    ensures has { (start : V.Start) → V.has start (C.run core.old).script (C.run core.old).past receiver.old out.old → OnOk result (V.has start (C.run core.old).script (C.run core.new).past receiver.new out.new) }
    ensures stopped { (start : V.Start) → V.has start (C.run core.old).script (C.run core.old).past receiver.old out.old → IfErr result (λ fault. StopsAt (C.run core.old).script (λ past. V.stopped start (C.run core.old).script past fault receiver.new out.new)) }
{
    'rounds: loop {
        match play_end(rt, core, receiver, out) {
            Ok(true) => return Ok(()),
            Ok(false) => {}
            Err(fault) => return Err(fault),
        }
    }
}

/// Plays what these inputs bring, which are left of a script, and the end of its run, and lets the receiver take what
/// was entered, part by part.
///
/// Ok: what was played is the script's lockstep history, and the receiver has all of it. On a fault what was played
/// is a prefix of that history, and the receiver stopped there.
pub fn play_all<R: Threads + Sync, C: Compositor, O, V: Receiver<C, O>>(
    rt: &R,
    core: &mut C,
    inputs: &[Input],
    receiver: &mut V,
    out: &mut O,
) -> Result<(), V::Fault>
    requires course { OnCourse inputs.now (C.run core.old) }
    requires has { (start : V.Start) × V.has start (C.run core.old).script (C.run core.old).past receiver.old out.old }
    ensures lockstep { OnOk result (IsLockstep (C.run core.old).script (reverse (C.run core.new).past)) }
    ensures has { (start : V.Start) → V.has start (C.run core.old).script (C.run core.old).past receiver.old out.old → OnOk result (V.has start (C.run core.old).script (C.run core.new).past receiver.new out.new) }
    ensures stopped { (start : V.Start) → V.has start (C.run core.old).script (C.run core.old).past receiver.old out.old → IfErr result (λ fault. StopsAt (C.run core.old).script (λ past. V.stopped start (C.run core.old).script past fault receiver.new out.new)) }
{
    let mut rest = inputs;
    'inputs: while !rest.is_empty() {
        match play_some(rt, core, rest, receiver, out) {
            Ok(left) => rest = left,
            Err(fault) => return Err(fault),
        }
    }
    play_to_end(rt, core, receiver, out)
}
