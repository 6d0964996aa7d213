//! The line of an event.

ghost use Rattle.std.specs.Prelude.{◌≡◌, ◌++◌, flat_map, codes, OnOk, OnErr, IfOk};
ghost use Rattle.std.specs.Io.{StartsWith};
ghost use Rattle.model_history.specs.Texts.{field, field_text, fields_text, spaced, pair_fields, key_fields, move_fields, event_text, event_line as line_of};

use geom::{Keys, TileKey};
use itoa::Buffer;
use model_history::{Event, Moves};
use page_layers::Move;
use std::alloc::{AllocError, Global};

/// Adds a byte and a number after it.
fn push_field(text: &mut Vec<u8>, before: u8, number: i64) -> Result<(), AllocError>
    ensures text { OnOk result (text.new.items ≡ text.old.items ++ field_text (field before number)) }
    ensures kept { OnErr result (StartsWith text.new.items text.old.items) }
{
    text.push(before)?;
    let mut buffer = Buffer::new();
    text.extend_from_slice(buffer.format(number).as_bytes())
}

/// Adds a word, a space and a number.
fn push_numbered(text: &mut Vec<u8>, word: &[u8], number: u32) -> Result<(), AllocError>
    ensures text { OnOk result (text.new.items ≡ text.old.items ++ (word.now ++ fields_text (spaced number))) }
    ensures kept { OnErr result (StartsWith text.new.items text.old.items) }
{
    text.extend_from_slice(word)?;
    push_field(text, b' ', i64::from(number))
}

/// Adds a space and two numbers with a comma between them.
fn push_pair(text: &mut Vec<u8>, x: &i32, y: &i32) -> Result<(), AllocError>
    ensures text { OnOk result (text.new.items ≡ text.old.items ++ fields_text (pair_fields x.now y.now)) }
    ensures kept { OnErr result (StartsWith text.new.items text.old.items) }
{
    push_field(text, b' ', i64::from(*x))?;
    push_field(text, b',', i64::from(*y))
}

/// Adds a space and a tile's key.
fn push_key(text: &mut Vec<u8>, key: &TileKey) -> Result<(), AllocError>
    ensures text { OnOk result (text.new.items ≡ text.old.items ++ fields_text (key_fields key.now)) }
    ensures kept { OnErr result (StartsWith text.new.items text.old.items) }
{
    push_field(text, b' ', i64::from(key.layer))?;
    push_field(text, b'/', i64::from(key.x))?;
    push_field(text, b'/', i64::from(key.y))?;
    push_field(text, b'/', i64::from(key.stamp))
}

/// Adds a list of keys, each with a space before it.
#[tactic(auto, using(crate::proofs::Kept::kept_before))]
fn push_keys(text: &mut Vec<u8>, keys: &Keys) -> Result<(), AllocError>
    ensures text { OnOk result (text.new.items ≡ text.old.items ++ fields_text (flat_map key_fields keys.now)) }
    ensures kept { OnErr result (StartsWith text.new.items text.old.items) }
{
    for key in keys.as_slice() {
        push_key(text, key)?;
    }
    Ok(())
}

/// Adds a space and a move.
fn push_move(text: &mut Vec<u8>, one: &Move) -> Result<(), AllocError>
    ensures text { OnOk result (text.new.items ≡ text.old.items ++ fields_text (move_fields one.now)) }
    ensures kept { OnErr result (StartsWith text.new.items text.old.items) }
{
    push_field(text, b' ', i64::from(one.scroller))?;
    push_field(text, b':', one.dx)?;
    push_field(text, b',', one.dy)
}

/// Adds a list of moves, each with a space before it.
#[tactic(auto, using(crate::proofs::Kept::kept_before))]
fn push_moves(text: &mut Vec<u8>, moves: &Moves) -> Result<(), AllocError>
    ensures text { OnOk result (text.new.items ≡ text.old.items ++ fields_text (flat_map move_fields moves.now)) }
    ensures kept { OnErr result (StartsWith text.new.items text.old.items) }
{
    for one in moves.as_slice() {
        push_move(text, one)?;
    }
    Ok(())
}

/// Adds a word, a number and a list of moves.
fn push_moved(text: &mut Vec<u8>, word: &[u8], number: u32, moves: &Moves) -> Result<(), AllocError>
    ensures text { OnOk result (text.new.items ≡ text.old.items ++ (word.now ++ fields_text (spaced number ++ flat_map move_fields moves.now))) }
    ensures kept { OnErr result (StartsWith text.new.items text.old.items) }
{
    push_numbered(text, word, number)?;
    push_moves(text, moves)
}

/// Adds a word, a number and a list of keys.
fn push_keyed(text: &mut Vec<u8>, word: &[u8], number: u32, keys: &Keys) -> Result<(), AllocError>
    ensures text { OnOk result (text.new.items ≡ text.old.items ++ (word.now ++ fields_text (spaced number ++ flat_map key_fields keys.now))) }
    ensures kept { OnErr result (StartsWith text.new.items text.old.items) }
{
    push_numbered(text, word, number)?;
    push_keys(text, keys)
}

/// Adds the text of a scroll.
fn push_scroll(text: &mut Vec<u8>, input: u32, dx: &i32, dy: &i32) -> Result<(), AllocError>
    ensures text { OnOk result (text.new.items ≡ text.old.items ++ (codes "scroll" ++ fields_text (spaced input ++ pair_fields dx.now dy.now))) }
    ensures kept { OnErr result (StartsWith text.new.items text.old.items) }
{
    push_numbered(text, b"scroll", input)?;
    push_pair(text, dx, dy)
}

/// Adds the number of a wheel and of its target.
fn push_target(text: &mut Vec<u8>, input: u32, target: u32) -> Result<(), AllocError>
    ensures text { OnOk result (text.new.items ≡ text.old.items ++ (codes "wheel" ++ fields_text (spaced input ++ spaced target))) }
    ensures kept { OnErr result (StartsWith text.new.items text.old.items) }
{
    push_numbered(text, b"wheel", input)?;
    push_field(text, b' ', i64::from(target))
}

/// Adds the number of a wheel and of its target, and what was left over.
fn push_turned(
    text: &mut Vec<u8>,
    input: u32,
    target: u32,
    rest_x: &i32,
    rest_y: &i32,
) -> Result<(), AllocError>
    ensures text { OnOk result (text.new.items ≡ text.old.items ++ (codes "wheel" ++ fields_text ((spaced input ++ spaced target) ++ pair_fields rest_x.now rest_y.now))) }
    ensures kept { OnErr result (StartsWith text.new.items text.old.items) }
{
    push_target(text, input, target)?;
    push_pair(text, rest_x, rest_y)
}

/// Adds the text of a wheel.
fn push_wheel(
    text: &mut Vec<u8>,
    input: u32,
    target: u32,
    rest_x: &i32,
    rest_y: &i32,
    moves: &Moves,
) -> Result<(), AllocError>
    ensures text { OnOk result (text.new.items ≡ text.old.items ++ (codes "wheel" ++ fields_text ((spaced input ++ spaced target) ++ pair_fields rest_x.now rest_y.now ++ flat_map move_fields moves.now))) }
    ensures kept { OnErr result (StartsWith text.new.items text.old.items) }
{
    push_turned(text, input, target, rest_x, rest_y)?;
    push_moves(text, moves)
}

/// Adds the text of a start or an end of a tile, up to its key.
fn push_tile(text: &mut Vec<u8>, word: &[u8], worker: u32, key: &TileKey) -> Result<(), AllocError>
    ensures text { OnOk result (text.new.items ≡ text.old.items ++ (word.now ++ fields_text (spaced worker ++ key_fields key.now))) }
    ensures kept { OnErr result (StartsWith text.new.items text.old.items) }
{
    push_numbered(text, word, worker)?;
    push_key(text, key)
}

/// Adds the text of an event.
#[tactic(auto, unfolding(model_history::specs::Texts::event_text))]
fn push_text(text: &mut Vec<u8>, event: &Event) -> Result<(), AllocError>
    ensures text { OnOk result (text.new.items ≡ text.old.items ++ event_text event.now) }
    ensures kept { OnErr result (StartsWith text.new.items text.old.items) }
{
    match event {
        Event::Begin { input } => push_numbered(text, b"begin", *input),
        Event::BeginPlain => text.extend_from_slice(b"begin -"),
        Event::Send { frame, pulls } => push_moved(text, b"send", *frame, pulls),
        Event::Ready { frame } => push_numbered(text, b"ready", *frame),
        Event::Abort { frame } => push_numbered(text, b"abort", *frame),
        Event::Commit { frame } => push_numbered(text, b"commit", *frame),
        Event::Activate { frame, clamps } => push_moved(text, b"activate", *frame, clamps),
        Event::Scroll { input, dx, dy } => push_scroll(text, *input, dx, dy),
        Event::Wheel {
            input,
            target,
            rest_x,
            rest_y,
            moves,
        } => { push_wheel(text, *input, *target, rest_x, rest_y, moves) }
        Event::Start {
            worker,
            key,
            evicted,
        } => {
            push_tile(text, b"start", *worker, key)?;
            push_keys(text, evicted)
        }
        Event::DoneTile { worker, key } => push_tile(text, b"done", *worker, key),
        Event::Draw { input, missing } => push_keyed(text, b"draw", *input, missing),
        Event::Skip { input } => push_numbered(text, b"skip", *input),
        Event::NoDraw => text.extend_from_slice(b"nodraw"),
        Event::Finish => text.extend_from_slice(b"finish"),
        Event::Await { input } => push_numbered(text, b"await", *input),
        Event::Settle { input } => push_numbered(text, b"settle", *input),
        Event::End => text.extend_from_slice(b"end"),
        Event::Stop { actor } => push_numbered(text, b"stop", *actor),
    }
}

/// Adds the text of an event and a newline.
#[tactic(auto, unfolding(model_history::specs::Texts::event_line))]
fn push_line(text: &mut Vec<u8>, event: &Event) -> Result<(), AllocError>
    ensures text { OnOk result (text.new.items ≡ text.old.items ++ line_of event.now) }
    ensures kept { OnErr result (StartsWith text.new.items text.old.items) }
{
    push_text(text, event)?;
    text.push(b'\n')?;
    Ok(())
}

/// Adds the line of an event: its text and a newline. If there is no memory, the text stays as it is.
pub fn push_event(text: &mut Vec<u8>, event: &Event) -> Result<(), AllocError>
    ensures text { OnOk result (text.new.items ≡ text.old.items ++ line_of event.now) }
    ensures same { OnErr result (text.new.items ≡ text.old.items) }
{
    let before = text.len();
    if let Err(refused) = push_line(text, event) {
        text.truncate(before);
        return Err(refused);
    }
    Ok(())
}

/// The line of an event.
pub fn event_line(alloc: Global, event: &Event) -> Result<Vec<u8>, AllocError>
    ensures { IfOk result (λ line. line.items ≡ line_of event.now) }
{
    let mut line = Vec::new(alloc);
    push_event(&mut line, event)?;
    Ok(line)
}
