//! The one event that a line can be, by its word and its numbers.

ghost use Rattle.std.specs.Prelude.{◌≡◌, Option, drop, IfOk};
ghost use Rattle.recording_text.specs.Guesses as guesses;

use crate::numbers::{
    behind as behind_numbers, first, read_numbers, to_i32, to_key, to_keys, to_moves, to_u32,
};
use crate::scratch::Scratch;
use crate::word::{Word, word_at};
use geom::Point;
use model_history::{Event, Moves};
use std::alloc::{AllocError, Global};

/// The one number of an event.
fn number_of(numbers: &[i64]) -> Option<u32>
    ensures { result ≡ guesses.number_of numbers.now }
{
    match numbers {
        [number] => to_u32(*number),
        _ => None,
    }
}

/// A `send`.
#[tactic(auto, unfolding(crate::specs::Guesses::send_of))]
fn send_of(alloc: Global, numbers: &[i64]) -> Result<Option<Event>, AllocError>
    ensures { IfOk result (λ event. event ≡ guesses.send_of numbers.now) }
{
    let [frame, rest @ ..] = numbers else {
        return Ok(None);
    };
    let Some(frame) = to_u32(*frame) else {
        return Ok(None);
    };
    let Some(pulls) = to_moves(alloc, rest)? else {
        return Ok(None);
    };
    Ok(Some(Event::Send { frame, pulls }))
}

/// An `activate`.
#[tactic(auto, unfolding(crate::specs::Guesses::activate_of))]
fn activate_of(alloc: Global, numbers: &[i64]) -> Result<Option<Event>, AllocError>
    ensures { IfOk result (λ event. event ≡ guesses.activate_of numbers.now) }
{
    let [frame, rest @ ..] = numbers else {
        return Ok(None);
    };
    let Some(frame) = to_u32(*frame) else {
        return Ok(None);
    };
    let Some(clamps) = to_moves(alloc, rest)? else {
        return Ok(None);
    };
    Ok(Some(Event::Activate { frame, clamps }))
}

/// A `scroll`.
#[tactic(auto, unfolding(crate::specs::Guesses::scroll_of))]
fn scroll_of(numbers: &[i64]) -> Option<Event>
    ensures { result ≡ guesses.scroll_of numbers.now }
{
    let [input, dx, dy] = numbers else {
        return None;
    };
    let input = to_u32(*input)?;
    let dx = to_i32(*dx)?;
    let dy = to_i32(*dy)?;
    Some(Event::Scroll { input, dx, dy })
}

/// A wheel's input and the layer under its point.
#[derive(Clone, Copy, Drop)]
struct Hit {
    input: u32,
    target: u32,
}

/// Two numbers as a wheel's input and target.
#[tactic(auto, unfolding(crate::specs::Guesses::hit_in))]
fn hit_in(numbers: &[i64]) -> Option<Hit>
    ensures { result ≡ guesses.hit_in numbers.now }
{
    let [input, target] = numbers else {
        return None;
    };
    let input = to_u32(*input)?;
    let target = to_u32(*target)?;
    Some(Hit { input, target })
}

/// Two numbers as what a wheel leaves over.
#[tactic(auto, unfolding(crate::specs::Guesses::rest_in))]
fn rest_in(numbers: &[i64]) -> Option<Point>
    ensures { result ≡ guesses.rest_in numbers.now }
{
    let [x, y] = numbers else {
        return None;
    };
    let x = to_i32(*x)?;
    let y = to_i32(*y)?;
    Some(Point { x, y })
}

/// A `wheel` of these moves.
fn turned(hit: Hit, rest: Point, moves: Moves) -> Event
    ensures { result ≡ guesses.turned hit rest moves }
{
    Event::Wheel {
        input: hit.input,
        target: hit.target,
        rest_x: rest.x,
        rest_y: rest.y,
        moves,
    }
}

/// A `wheel`.
#[tactic(auto, unfolding(crate::specs::Guesses::wheel_of))]
fn wheel_of(alloc: Global, numbers: &[i64]) -> Result<Option<Event>, AllocError>
    ensures { IfOk result (λ event. event ≡ guesses.wheel_of numbers.now) }
{
    let Some(hit) = hit_in(first(numbers, 2)) else {
        return Ok(None);
    };
    let Some(rest) = rest_in(first(behind_numbers(numbers, 2), 2)) else {
        return Ok(None);
    };
    let Some(moves) = to_moves(alloc, behind_numbers(numbers, 4))? else {
        return Ok(None);
    };
    Ok(Some(turned(hit, rest, moves)))
}

/// A `start`.
#[tactic(auto, unfolding(crate::specs::Guesses::start_of))]
fn start_of(alloc: Global, numbers: &[i64]) -> Result<Option<Event>, AllocError>
    ensures { IfOk result (λ event. event ≡ guesses.start_of numbers.now) }
{
    let [worker, rest @ ..] = numbers else {
        return Ok(None);
    };
    let Some(worker) = to_u32(*worker) else {
        return Ok(None);
    };
    let Some(key) = to_key(first(rest, 4)) else {
        return Ok(None);
    };
    let Some(evicted) = to_keys(alloc, behind_numbers(rest, 4))? else {
        return Ok(None);
    };
    Ok(Some(Event::Start {
        worker,
        key,
        evicted,
    }))
}

/// A `done`.
#[tactic(auto, unfolding(crate::specs::Guesses::done_of))]
fn done_of(numbers: &[i64]) -> Option<Event>
    ensures { result ≡ guesses.done_of numbers.now }
{
    let [worker, rest @ ..] = numbers else {
        return None;
    };
    let worker = to_u32(*worker)?;
    let key = to_key(rest)?;
    Some(Event::DoneTile { worker, key })
}

/// A `draw`.
#[tactic(auto, unfolding(crate::specs::Guesses::draw_of))]
fn draw_of(alloc: Global, numbers: &[i64]) -> Result<Option<Event>, AllocError>
    ensures { IfOk result (λ event. event ≡ guesses.draw_of numbers.now) }
{
    let [input, rest @ ..] = numbers else {
        return Ok(None);
    };
    let Some(input) = to_u32(*input) else {
        return Ok(None);
    };
    let Some(missing) = to_keys(alloc, rest)? else {
        return Ok(None);
    };
    Ok(Some(Event::Draw { input, missing }))
}

/// The event of one number that a word begins.
#[tactic(auto, unfolding(crate::specs::Guesses::plain_of))]
fn plain_of(word: Word, number: u32) -> Option<Event>
    ensures { result ≡ guesses.plain_of word number }
{
    match word {
        Word::Begin => Some(Event::Begin { input: number }),
        Word::Ready => Some(Event::Ready { frame: number }),
        Word::Abort => Some(Event::Abort { frame: number }),
        Word::Commit => Some(Event::Commit { frame: number }),
        Word::Skip => Some(Event::Skip { input: number }),
        Word::Await => Some(Event::Await { input: number }),
        Word::Settle => Some(Event::Settle { input: number }),
        Word::Stop => Some(Event::Stop { actor: number }),
        _ => None,
    }
}

/// The event of one number that a word begins, if there is one number.
fn single_of(word: Word, numbers: &[i64]) -> Option<Event>
    ensures { result ≡ guesses.single_of word numbers.now }
{
    plain_of(word, number_of(numbers)?)
}

/// The event of these numbers that a word begins.
#[tactic(auto, unfolding(crate::specs::Guesses::event_of))]
fn event_of(alloc: Global, word: Word, numbers: &[i64]) -> Result<Option<Event>, AllocError>
    ensures { IfOk result (λ event. event ≡ guesses.event_of word numbers.now) }
{
    match word {
        Word::Send => send_of(alloc, numbers),
        Word::Activate => activate_of(alloc, numbers),
        Word::Scroll => Ok(scroll_of(numbers)),
        Word::Wheel => wheel_of(alloc, numbers),
        Word::Start => start_of(alloc, numbers),
        Word::Done => Ok(done_of(numbers)),
        Word::Draw => draw_of(alloc, numbers),
        _ => Ok(single_of(word, numbers)),
    }
}

/// What stands after the first bytes; nothing if there are not that many.
fn behind(bytes: &[u8], count: usize) -> &[u8]
    ensures { result.now ≡ drop count bytes.now }
{
    if count <= bytes.len() {
        &bytes[count..]
    } else {
        &[]
    }
}

/// The event of the numbers after a word.
fn with_numbers(
    bytes: &[u8],
    word: Word,
    scratch: &mut Scratch,
) -> Result<Option<Event>, AllocError>
    ensures { IfOk result (λ event. event ≡ guesses.event_with_numbers word bytes.now) }
{
    scratch.numbers.clear();
    if !read_numbers(behind(bytes, word.head()), &mut scratch.numbers)? {
        return Ok(None);
    }
    event_of(scratch.alloc, word, scratch.numbers.as_slice())
}

/// Whether a number begins with `-`, after `begin`.
fn is_plain(bytes: &[u8]) -> bool
    ensures { result ≡ guesses.has_plain_dash bytes.now }
{
    match bytes {
        [_, _, _, _, _, _, dash, ..] => *dash == b'-',
        _ => false,
    }
}

/// The event that a line beginning with this word can be.
#[tactic(auto, unfolding(crate::specs::Guesses::guess_of))]
fn guess_of(bytes: &[u8], word: Word, scratch: &mut Scratch) -> Result<Option<Event>, AllocError>
    ensures { IfOk result (λ event. event ≡ guesses.guess_of bytes.now word) }
{
    match word {
        Word::Begin if is_plain(bytes) => Ok(Some(Event::BeginPlain)),
        Word::NoDraw => Ok(Some(Event::NoDraw)),
        Word::Finish => Ok(Some(Event::Finish)),
        Word::End => Ok(Some(Event::End)),
        _ => with_numbers(bytes, word, scratch),
    }
}

/// The event that the line at the start of these bytes can be, if it is an event's.
#[tactic(auto, unfolding(crate::specs::Guesses::guess))]
pub fn guess(bytes: &[u8], scratch: &mut Scratch) -> Result<Option<Event>, AllocError>
    ensures { IfOk result (λ event. event ≡ guesses.guess bytes.now) }
{
    match word_at(bytes) {
        Some(word) => guess_of(bytes, word, scratch),
        None => Ok(None),
    }
}
