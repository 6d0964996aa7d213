//! Laws of lines and images.

ghost use Rattle.std.specs.Prelude.{◌≡◌, ℕ, List, ◌++◌, Some};
ghost use Rattle.model_history.specs.declared.event.Event.{Event};
ghost use Rattle.model_history.specs.Texts.{event_line};
ghost use Rattle.recording_text.specs.Fits.{FitsEvent};
ghost use Rattle.recording_text.specs.Images.{BeginsWithImage};
ghost use Rattle.recording_text.specs.Lines.{event_at};

/// The line of an event reads back as that event, whatever stands after it.
pub fn lines_read_back()
    ensures { (event : Event) (rest : List ℕ) → FitsEvent event → event_at (event_line event ++ rest) ≡ Some event }
{}

/// No two events have one line; and since what is read of a line is an event whose line it is, no event
/// has two.
pub fn a_line_has_one_event()
    ensures { (a b : Event) → FitsEvent a → FitsEvent b → event_line a ≡ event_line b → a ≡ b }
{}

/// An image reads back as its pixels: bytes begin with one image of a size at most.
pub fn an_image_has_one_picture()
    ensures { (bytes : List ℕ) (w h : ℕ) (a b : List ℕ) → BeginsWithImage bytes w h a → BeginsWithImage bytes w h b → a ≡ b }
{}
