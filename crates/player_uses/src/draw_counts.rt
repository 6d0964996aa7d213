//! What a history holds, counted.

ghost use Rattle.std.specs.Prelude.{◌≡◌, ◌≤◌, ◌+◌, ◌^◌, ◌⊎◌, MatchOption};
ghost use Rattle.player_uses.specs.Demos as demos;

use impl_log::KeptHistory;
use model_history::Event;

/// How many images the draws of a history have, and how many tiles they lack.
#[derive(Clone, Copy, Drop)]
pub struct DrawCounts {
    /// The images.
    pub images: u64,
    /// The missing tiles.
    pub missing: u64,
}

// How many images an event has.
fn images_in(event: &Event) -> u64
    ensures { result ≡ demos.images_in event.now }
{
    match event {
        Event::Draw { .. } => 1,
        _ => 0,
    }
}

// How many tiles an event lacks.
fn missing_in(event: &Event) -> u64
    ensures { result ≡ demos.missing_in event.now }
{
    match event {
        Event::Draw { missing, .. } => missing.len() as u64,
        _ => 0,
    }
}

// The counts with those of an event; None if one of them is 2^64 or more.
fn with_event(before: DrawCounts, event: &Event) -> Option<DrawCounts>
    ensures { MatchOption result
        (2 ^ 64 ≤ before.images + demos.images_in event.now ⊎ 2 ^ 64 ≤ before.missing + demos.missing_in event.now)
        (λ t. (t.images ≡ before.images + demos.images_in event.now) × (t.missing ≡ before.missing + demos.missing_in event.now)) }
{
    let images = before.images.checked_add(images_in(event))?;
    let missing = before.missing.checked_add(missing_in(event))?;
    Some(DrawCounts { images, missing })
}

/// The counts of a history of which nothing was forgotten; None only if one of them is 2^64 or more.
pub fn tally_of(history: &KeptHistory) -> Option<DrawCounts>
    requires { history.now.first ≡ 0 }
    ensures { MatchOption result
        (2 ^ 64 ≤ demos.image_count history.now.entries ⊎ 2 ^ 64 ≤ demos.missing_count history.now.entries)
        (λ t. (t.images ≡ demos.image_count history.now.entries) × (t.missing ≡ demos.missing_count history.now.entries)) }
{
    let mut tally = DrawCounts {
        images: 0,
        missing: 0,
    };
    for at in 0..history.len() {
        let entry = history.entry(at);
        tally = with_event(tally, &entry.event)?;
    }
    Some(tally)
}
