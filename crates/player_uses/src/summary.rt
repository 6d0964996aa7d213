//! The counts of a run and of its recording, and the line that tells them.

ghost use Rattle.std.specs.Prelude.{◌≡◌, ◌≤◌, flat_map, None, IfSome};
ghost use Rattle.player_uses.specs.Faults.{Causes};
ghost use Rattle.player_uses.specs.Outputs.{WritesSome};
ghost use Rattle.player_uses.specs.Summaries.{HasNoSummary, IsSummary, summary_line};
ghost use Rattle.player_uses.specs.inner.Fragments.{fragment_text};

use crate::draw_counts::tally_of;
use crate::fragments::{Fragment, put_fragments};
use crate::outcome::Outcome;
use byte_io::{Sink, SumSink};
use impl_log::KeptHistory;

/// The counts of a run and of its recording.
#[derive(Clone, Copy, Drop)]
pub struct Summary {
    /// How many events it has.
    pub events: u64,
    /// How many images its draws have.
    pub images: u64,
    /// How many tiles its draws lack.
    pub missing: u64,
    /// How many bytes its recording has.
    pub bytes: u64,
    /// Their sum modulo 2^64.
    pub sum: u64,
}

/// Counts a run, of which the sink was given the recording; None only if entries were forgotten, or the number of
/// images or of missing tiles is 2^64 or more: never so in a run that keeps all, whose events and missing tiles stand
/// in memory.
pub fn summary_of(history: &KeptHistory, sink: &SumSink) -> Option<Summary>
    ensures some { IfSome result (IsSummary history.now.entries sink.now.taken.items) }
    ensures none { result ≡ None → HasNoSummary history.now.first history.now.entries }
{
    if history.first() > 0 {
        return None;
    }
    let tally = tally_of(history)?;
    Some(Summary {
        events: history.len() as u64,
        images: tally.images,
        missing: tally.missing,
        bytes: sink.bytes(),
        sum: sink.sum(),
    })
}

// The line of the counts.
fn line(summary: Summary) -> [Fragment; 11]
    ensures { flat_map fragment_text result ≡ summary_line summary }
{
    [
        Fragment::Text(b"events "),
        Fragment::Count(summary.events),
        Fragment::Text(b" images "),
        Fragment::Count(summary.images),
        Fragment::Text(b" missing "),
        Fragment::Count(summary.missing),
        Fragment::Text(b" bytes "),
        Fragment::Count(summary.bytes),
        Fragment::Text(b" sum "),
        Fragment::Count(summary.sum),
        Fragment::Text(b"\n"),
    ]
}

/// Writes the line of the counts: `Done`, `WriteFault` if the sink failed, `Memory` if there was none.
pub fn put_summary<K: Sink>(out: &mut K, summary: Summary) -> Outcome
    ensures output { WritesSome (λ whole. whole ≡ summary_line summary) (K.held out.old) (K.held out.new) result }
    ensures grows { K.faults out.old ≤ K.faults out.new }
    ensures cause { Causes 0 0 (K.faults out.old) (K.faults out.new) result }
{
    match put_fragments(out, &line(summary)) {
        Ok(()) => Outcome::Done,
        Err(fault) => Outcome::from(fault),
    }
}
