//! The kind of an event.

ghost use Rattle.std.specs.Prelude.{◌≡◌};
ghost use Rattle.model_history.specs.EventFields as spec;

use model_history::Event;
use model_states::Kind;

/// The kind of an event.
pub fn kind_of(event: &Event) -> Kind
    ensures { result ≡ spec.kind_of event.now }
{
    match event {
        Event::Begin { .. } => Kind::BeginDraw,
        Event::BeginPlain => Kind::BeginPlain,
        Event::Send { .. } => Kind::Send,
        Event::Ready { .. } => Kind::Ready,
        Event::Abort { .. } => Kind::Abort,
        Event::Commit { .. } => Kind::Commit,
        Event::Activate { .. } => Kind::Activate,
        Event::Scroll { .. } => Kind::Scroll,
        Event::Wheel { .. } => Kind::Wheel,
        Event::Start { .. } => Kind::Start,
        Event::DoneTile { .. } => Kind::Done,
        Event::Draw { .. } => Kind::Draw,
        Event::Skip { .. } => Kind::Skip,
        Event::NoDraw => Kind::NoDraw,
        Event::Finish => Kind::Finish,
        Event::Await { .. } => Kind::Await,
        Event::Settle { .. } => Kind::Settle,
        Event::End => Kind::End,
        Event::Stop { .. } => Kind::Stop,
    }
}
