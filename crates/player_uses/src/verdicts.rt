//! The last line of an answer.

ghost use Rattle.std.specs.Prelude.{◌≡◌, ◌≤◌, ◌∷◌, flat_map, OnErr};
ghost use Rattle.player_lines.specs.Sessions.{HasFailed};
ghost use Rattle.player_lines.specs.inner.Pasts.{Said};
ghost use Rattle.player_uses.specs.inner.Fragments.{fragment_text};
ghost use Rattle.player_uses.specs.Outcomes.{joined_texts};
ghost use Rattle.player_uses.specs.Verdicts.{verdict, verdict_head};

use crate::fragments::Fragment;
use crate::notes::line;
use crate::outcome::Outcome;
use itoa::Buffer;
use player_lines::{Client, Failed, Session};

// A place of a line that stays empty.
const NOTHING: Fragment = Fragment::Text(b"");

// How the last line of an answer begins.
fn head(number: u64, outcome: Outcome) -> [Fragment; 5]
    ensures { flat_map fragment_text result ≡ joined_texts (verdict_head number outcome) }
{
    match outcome {
        Outcome::Done => [
            Fragment::Text(b"ok "),
            Fragment::Count(number),
            Fragment::Text(b"\n"),
            NOTHING,
            NOTHING,
        ],
        Outcome::Usage { .. }
        | Outcome::Json
        | Outcome::Shape(_)
        | Outcome::Script { .. }
        | Outcome::ReadFault
        | Outcome::WriteFault
        | Outcome::TooLong { .. }
        | Outcome::BadRecording { .. }
        | Outcome::No { .. }
        | Outcome::Memory
        | Outcome::NoPicture => [
            Fragment::Text(b"no "),
            Fragment::Count(number),
            Fragment::Text(b" "),
            Fragment::Count(u64::from(outcome.status())),
            Fragment::Text(b": "),
        ],
    }
}

// Puts one fragment of the last line of an answer.
fn put_text<C: Client>(session: &mut Session<C>, fragment: &Fragment) -> Result<(), Failed>
    ensures said { Said (C.past session.old.client) (C.past session.new.client) (fragment_text fragment.now) result }
    ensures torn { session.new.torn ≡ session.old.torn }
    ensures grows { C.put_faults session.old.client ≤ C.put_faults session.new.client }
    ensures cause { OnErr result (HasFailed (C.put_faults session.old.client) (C.put_faults session.new.client) session.new.torn) }
{
    match fragment {
        Fragment::Text(text) => session.put_text(text),
        Fragment::Number(number) => {
            let mut buffer = Buffer::new();
            session.put_text(buffer.format(*number).as_bytes())
        }
        Fragment::Count(number) => {
            let mut buffer = Buffer::new();
            session.put_text(buffer.format(*number).as_bytes())
        }
    }
}

// Puts the first fragment of the last line of an answer, and those after it.
fn put_texts<C: Client>(
    session: &mut Session<C>,
    first: &Fragment,
    others: &[Fragment],
) -> Result<(), Failed>
    ensures said { Said (C.past session.old.client) (C.past session.new.client) (flat_map fragment_text (first.now ∷ others.now)) result }
    ensures torn { session.new.torn ≡ session.old.torn }
    ensures grows { C.put_faults session.old.client ≤ C.put_faults session.new.client }
    ensures cause { OnErr result (HasFailed (C.put_faults session.old.client) (C.put_faults session.new.client) session.new.torn) }
{
    if let Err(failed) = put_text(session, first) {
        return Err(failed);
    }
    let mut rest = others;
    while let Some((fragment, after)) = rest.split_first() {
        if let Err(failed) = put_text(session, fragment) {
            return Err(failed);
        }
        rest = after;
    }
    Ok(())
}

// Puts how the last line of an answer begins.
fn put_head<C: Client>(
    session: &mut Session<C>,
    number: u64,
    outcome: Outcome,
) -> Result<(), Failed>
    ensures said { Said (C.past session.old.client) (C.past session.new.client) (joined_texts (verdict_head number outcome)) result }
    ensures torn { session.new.torn ≡ session.old.torn }
    ensures grows { C.put_faults session.old.client ≤ C.put_faults session.new.client }
    ensures cause { OnErr result (HasFailed (C.put_faults session.old.client) (C.put_faults session.new.client) session.new.torn) }
{
    let [first, second, third, fourth, fifth] = head(number, outcome);
    put_texts(session, &first, &[second, third, fourth, fifth])
}

/// Puts the last line of an answer to the line of a number: how the line ended. `Failed` comes if the client failed, or
/// a piece of data went in part only.
#[tactic(auto, using(player_lines::proofs::Telling::said_then, player_lines::proofs::Telling::said_early))]
pub fn put_verdict<C: Client>(
    session: &mut Session<C>,
    number: u64,
    outcome: Outcome,
) -> Result<(), Failed>
    ensures said { Said (C.past session.old.client) (C.past session.new.client) (verdict number outcome) result }
    ensures torn { session.new.torn ≡ session.old.torn }
    ensures grows { C.put_faults session.old.client ≤ C.put_faults session.new.client }
    ensures cause { OnErr result (HasFailed (C.put_faults session.old.client) (C.put_faults session.new.client) session.new.torn) }
{
    match put_head(session, number, outcome) {
        Ok(()) => put_texts(session, &NOTHING, &line(outcome)),
        Err(failed) => Err(failed),
    }
}
