//! The line that tells of an outcome.

ghost use Rattle.std.specs.Prelude.{◌≡◌, ◌≤◌, ◌∷◌, [], flat_map};
ghost use Rattle.byte_io.specs.Pieces.{PutCause, PutsAll};
ghost use Rattle.player_uses.specs.inner.Fragments.{fragment_text};
ghost use Rattle.player_uses.specs.Outcomes.{joined_texts, fault_text, refused_text, shape_text, line_of, Told};

use crate::fragments::{Fragment, put_fragments};
use crate::outcome::Outcome;
use byte_io::{PutFault, Sink};
use page_layers::EditFault;
use script_json::ShapeFault;

// The end of a line.
const NEWLINE: Fragment = Fragment::Text(b"\n");

// A place of a line that stays empty.
const NOTHING: Fragment = Fragment::Text(b"");

// A line of at most three fragments.
fn short_line(first: Fragment, second: Fragment, third: Fragment) -> [Fragment; 9]
    ensures { flat_map fragment_text result ≡ flat_map fragment_text (first ∷ second ∷ third ∷ []) }
{
    [
        first, second, third, NOTHING, NOTHING, NOTHING, NOTHING, NOTHING, NOTHING,
    ]
}

// Why a command was refused.
fn fault_fragments(fault: EditFault) -> [Fragment; 3]
    ensures { flat_map fragment_text result ≡ joined_texts (fault_text fault) }
{
    match fault {
        EditFault::UnknownId => [Fragment::Text(b"unknown id"), NOTHING, NOTHING],
        EditFault::IdUsed => [Fragment::Text(b"id used"), NOTHING, NOTHING],
        EditFault::BadPlace => [Fragment::Text(b"bad place"), NOTHING, NOTHING],
        EditFault::TooMany { limit } => [
            Fragment::Text(b"too many, limit "),
            Fragment::Count(u64::from(limit)),
            NOTHING,
        ],
        EditFault::OutOfRange { value, limit } => [
            Fragment::Number(value),
            Fragment::Text(b" out of range, limit "),
            Fragment::Number(limit),
        ],
        EditFault::NotNested => [Fragment::Text(b"not nested"), NOTHING, NOTHING],
    }
}

// The line of a refused script.
fn refused_line(frame: u32, command: u32, why: EditFault) -> [Fragment; 9]
    ensures { flat_map fragment_text result ≡ joined_texts (refused_text frame command why) }
{
    let [first, second, third] = fault_fragments(why);
    [
        Fragment::Text(b"cc: script: frame "),
        Fragment::Count(u64::from(frame)),
        Fragment::Text(b" command "),
        Fragment::Count(u64::from(command)),
        Fragment::Text(b": "),
        first,
        second,
        third,
        NEWLINE,
    ]
}

// The line of a value that is no script.
fn shape_line(fault: ShapeFault) -> [Fragment; 9]
    ensures { flat_map fragment_text result ≡ joined_texts (shape_text fault) }
{
    [
        Fragment::Text(b"cc: shape: list "),
        Fragment::Count(u64::from(fault.list)),
        Fragment::Text(b" index "),
        Fragment::Count(u64::from(fault.index)),
        Fragment::Text(b" field "),
        Fragment::Count(u64::from(fault.field)),
        NEWLINE,
        NOTHING,
        NOTHING,
    ]
}

// A line that is one text.
fn text_line(text: &'static [u8]) -> [Fragment; 9]
    ensures { flat_map fragment_text result ≡ joined_texts (text.now ∷ []) }
{
    short_line(Fragment::Text(text), NOTHING, NOTHING)
}

/// The line of an outcome.
pub(crate) fn line(outcome: Outcome) -> [Fragment; 9]
    ensures { flat_map fragment_text result ≡ line_of outcome }
{
    match outcome {
        Outcome::Done => short_line(NOTHING, NOTHING, NOTHING),
        Outcome::Usage { word } => short_line(
            Fragment::Text(b"cc: usage: word "),
            Fragment::Count(u64::from(word)),
            NEWLINE,
        ),
        Outcome::Json => text_line(b"cc: not JSON\n"),
        Outcome::Shape(fault) => shape_line(fault),
        Outcome::Script {
            frame,
            command,
            fault,
        } => refused_line(frame, command, fault),
        Outcome::ReadFault => text_line(b"cc: read fault\n"),
        Outcome::WriteFault => text_line(b"cc: write fault\n"),
        Outcome::TooLong { limit } => short_line(
            Fragment::Text(b"cc: too long, limit "),
            Fragment::Count(limit),
            NEWLINE,
        ),
        Outcome::BadRecording { place } => short_line(
            Fragment::Text(b"cc: bad recording at "),
            Fragment::Count(place),
            NEWLINE,
        ),
        Outcome::No { event } => short_line(
            Fragment::Text(b"cc: event "),
            Fragment::Count(event),
            Fragment::Text(b" is wrong\n"),
        ),
        Outcome::Memory => text_line(b"cc: out of memory\n"),
        Outcome::NoPicture => text_line(b"cc: no picture\n"),
    }
}

// Puts the line of an outcome.
fn put_line<E: Sink>(notes: &mut E, outcome: Outcome) -> Result<(), PutFault>
    ensures bytes { PutsAll (E.held notes.old) (E.held notes.new) (line_of outcome) result }
    ensures grows { E.faults notes.old ≤ E.faults notes.new }
    ensures refused { E.refusals notes.old ≤ E.refusals notes.new }
    ensures cause { PutCause (E.faults notes.old) (E.faults notes.new) (E.refusals notes.old) (E.refusals notes.new) result }
{
    let fragments = line(outcome);
    put_fragments(notes, &fragments)
}

/// Tells the notes of an outcome. What the notes answer changes nothing.
pub fn tell<E: Sink>(notes: &mut E, outcome: Outcome)
    ensures { Told (E.held notes.old) (E.held notes.new) (E.faults notes.old) (E.faults notes.new) (E.refusals notes.old) (E.refusals notes.new) (line_of outcome) }
{
    match put_line(notes, outcome) {
        Ok(()) => {}
        Err(_) => {}
    }
}
