//! Whether two events are one.

ghost use Rattle.std.specs.Prelude.{◌≡◌};
ghost use Rattle.std.specs.Bool.{Decides};
ghost use Rattle.model_history.specs.declared.event.Event.TheVariants as kind;

use geom::{Keys, TileKey};
use model_history::{Event, Moves};
use page_layers::Move;

// Whether two lists have the same keys in the same order.
fn same_keys(keys: &[TileKey], others: &[TileKey]) -> bool
    ensures { Decides result (keys.now ≡ others.now) }
{
    let mut rest = keys;
    let mut left = others;
    while let Some((key, more)) = rest.split_first() {
        match left.split_first() {
            Some((other, after)) if *key == *other => {
                rest = more;
                left = after;
            }
            _ => return false,
        }
    }
    left.is_empty()
}

// Whether two lists have the same moves in the same order.
fn same_moves(moves: &[Move], others: &[Move]) -> bool
    ensures { Decides result (moves.now ≡ others.now) }
{
    let mut rest = moves;
    let mut left = others;
    while let Some((step, more)) = rest.split_first() {
        match left.split_first() {
            Some((other, after)) if *step == *other => {
                rest = more;
                left = after;
            }
            _ => return false,
        }
    }
    left.is_empty()
}

// Whether an event is a begin for this input.
fn is_begin(event: &Event, input: u32) -> bool
    ensures { Decides result (kind.Begin input ≡ event.now) }
{
    match event {
        Event::Begin { input: other_input } => input == *other_input,
        _ => false,
    }
}

// Whether an event is a send of this frame with these pulls.
fn is_send(event: &Event, frame: u32, pulls: &Moves) -> bool
    ensures { Decides result (kind.Send frame pulls.now ≡ event.now) }
{
    match event {
        Event::Send {
            frame: other_frame,
            pulls: other_pulls,
        } => frame == *other_frame && same_moves(pulls.as_slice(), other_pulls.as_slice()),
        _ => false,
    }
}

// Whether an event is a ready of this frame.
fn is_ready(event: &Event, frame: u32) -> bool
    ensures { Decides result (kind.Ready frame ≡ event.now) }
{
    match event {
        Event::Ready { frame: other_frame } => frame == *other_frame,
        _ => false,
    }
}

// Whether an event is an abort of this frame.
fn is_abort(event: &Event, frame: u32) -> bool
    ensures { Decides result (kind.Abort frame ≡ event.now) }
{
    match event {
        Event::Abort { frame: other_frame } => frame == *other_frame,
        _ => false,
    }
}

// Whether an event is a commit of this frame.
fn is_commit(event: &Event, frame: u32) -> bool
    ensures { Decides result (kind.Commit frame ≡ event.now) }
{
    match event {
        Event::Commit { frame: other_frame } => frame == *other_frame,
        _ => false,
    }
}

// Whether an event is an activation of this frame with these moves.
fn is_activate(event: &Event, frame: u32, clamps: &Moves) -> bool
    ensures { Decides result (kind.Activate frame clamps.now ≡ event.now) }
{
    match event {
        Event::Activate {
            frame: other_frame,
            clamps: other_clamps,
        } => frame == *other_frame && same_moves(clamps.as_slice(), other_clamps.as_slice()),
        _ => false,
    }
}

// Whether an event is a scroll by this much.
fn is_scroll(event: &Event, input: u32, dx: i32, dy: i32) -> bool
    ensures { Decides result (kind.Scroll input dx dy ≡ event.now) }
{
    match event {
        Event::Scroll {
            input: other_input,
            dx: other_dx,
            dy: other_dy,
        } => input == *other_input && dx == *other_dx && dy == *other_dy,
        _ => false,
    }
}

// Whether an event is a wheel at this target, of which this is left and these are the parts.
fn is_wheel(event: &Event, input: u32, target: u32, rest: (i32, i32), parts: &Moves) -> bool
    ensures { Decides result (kind.Wheel input target rest.0 rest.1 parts.now ≡ event.now) }
{
    match event {
        Event::Wheel {
            input: for_input,
            target: layer,
            rest_x,
            rest_y,
            moves,
        } => {
            let place = *for_input == input && *layer == target;
            let left = *rest_x == rest.0 && *rest_y == rest.1;
            place && left && same_moves(parts.as_slice(), moves.as_slice())
        }
        _ => false,
    }
}

// Whether an event is a start of this tile.
fn is_start(event: &Event, worker: u32, key: TileKey, evicted: &Keys) -> bool
    ensures { Decides result (kind.Start worker key evicted.now ≡ event.now) }
{
    match event {
        Event::Start {
            worker: other_worker,
            key: other_key,
            evicted: other_evicted,
        } => worker == *other_worker
            && key == *other_key
            && same_keys(evicted.as_slice(), other_evicted.as_slice()),
        _ => false,
    }
}

// Whether an event is the end of this tile.
fn is_done(event: &Event, worker: u32, key: TileKey) -> bool
    ensures { Decides result (kind.DoneTile worker key ≡ event.now) }
{
    match event {
        Event::DoneTile {
            worker: other_worker,
            key: other_key,
        } => worker == *other_worker && key == *other_key,
        _ => false,
    }
}

// Whether an event is a draw without these tiles.
fn is_draw(event: &Event, input: u32, missing: &Keys) -> bool
    ensures { Decides result (kind.Draw input missing.now ≡ event.now) }
{
    match event {
        Event::Draw {
            input: other_input,
            missing: other_missing,
        } => input == *other_input && same_keys(missing.as_slice(), other_missing.as_slice()),
        _ => false,
    }
}

// Whether an event is a skip for this input.
fn is_skip(event: &Event, input: u32) -> bool
    ensures { Decides result (kind.Skip input ≡ event.now) }
{
    match event {
        Event::Skip { input: other_input } => input == *other_input,
        _ => false,
    }
}

// Whether an event is the end of this await.
fn is_await(event: &Event, input: u32) -> bool
    ensures { Decides result (kind.Await input ≡ event.now) }
{
    match event {
        Event::Await { input: other_input } => input == *other_input,
        _ => false,
    }
}

// Whether an event is the end of this settle.
fn is_settle(event: &Event, input: u32) -> bool
    ensures { Decides result (kind.Settle input ≡ event.now) }
{
    match event {
        Event::Settle { input: other_input } => input == *other_input,
        _ => false,
    }
}

// Whether an event is a stop of this actor.
fn is_stop(event: &Event, actor: u32) -> bool
    ensures { Decides result (kind.Stop actor ≡ event.now) }
{
    match event {
        Event::Stop { actor: other_actor } => actor == *other_actor,
        _ => false,
    }
}

/// Whether two events are one.
pub fn same_event(one: &Event, other: &Event) -> bool
    ensures { Decides result (one.now ≡ other.now) }
{
    match one {
        Event::Begin { input } => is_begin(other, *input),
        Event::BeginPlain => matches!(other, Event::BeginPlain),
        Event::Send { frame, pulls } => is_send(other, *frame, pulls),
        Event::Ready { frame } => is_ready(other, *frame),
        Event::Abort { frame } => is_abort(other, *frame),
        Event::Commit { frame } => is_commit(other, *frame),
        Event::Activate { frame, clamps } => is_activate(other, *frame, clamps),
        Event::Scroll { input, dx, dy } => is_scroll(other, *input, *dx, *dy),
        Event::Wheel {
            input,
            target,
            rest_x,
            rest_y,
            moves,
        } => is_wheel(other, *input, *target, (*rest_x, *rest_y), moves),
        Event::Start {
            worker,
            key,
            evicted,
        } => is_start(other, *worker, *key, evicted),
        Event::DoneTile { worker, key } => is_done(other, *worker, *key),
        Event::Draw { input, missing } => is_draw(other, *input, missing),
        Event::Skip { input } => is_skip(other, *input),
        Event::NoDraw => matches!(other, Event::NoDraw),
        Event::Finish => matches!(other, Event::Finish),
        Event::Await { input } => is_await(other, *input),
        Event::Settle { input } => is_settle(other, *input),
        Event::End => matches!(other, Event::End),
        Event::Stop { actor } => is_stop(other, *actor),
    }
}
