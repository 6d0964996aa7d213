//! Whether what was read of the lists holds for the script's version and its main frames.

ghost use Rattle.std.specs.Prelude.{◌≡◌, not};
ghost use Rattle.std.specs.List.{list_all};
ghost use Rattle.script_json.specs.inner.Streamed.{is_view, awaits_within, fit};

use model_history::Input;
use page_layers::Command;

fn is_view(command: &Command) -> bool
    ensures { result ≡ is_view command.now }
{
    matches!(command, Command::SetView(_))
}

fn has_no_view(frame: &[Command]) -> bool
    ensures { result ≡ list_all (λ c. not (is_view c)) frame.now }
{
    frame.iter().all(|command| !is_view(command))
}

// Whether no main frame sets the view.
fn have_no_view(frames: &[Vec<Command>]) -> bool
    ensures { result ≡ list_all (λ frame. list_all (λ c. not (is_view c)) frame.items) frames.now }
{
    frames.iter().all(|frame| has_no_view(frame.as_slice()))
}

fn is_within(frames: usize, input: &Input) -> bool
    ensures { result ≡ awaits_within frames input.now }
{
    match input {
        Input::Await { frame } => (*frame as usize) < frames,
        _ => true,
    }
}

// Whether each input that awaits a frame awaits one of the given number.
fn are_within(frames: usize, inputs: &[Input]) -> bool
    ensures { result ≡ list_all (awaits_within frames) inputs.now }
{
    inputs.iter().all(|input| is_within(frames, input))
}

/// Whether a version has the commands of these main frames, and the inputs await no other frames.
pub(super) fn fit(version: u32, main: &[Vec<Command>], inputs: &[Input]) -> bool
    ensures { result ≡ fit version main.now inputs.now }
{
    (version == 2 || have_no_view(main)) && are_within(main.len(), inputs)
}
