//! How large the images of a recording are.

ghost use Rattle.std.specs.Prelude.{◌≡◌, IfOk, map};
ghost use Rattle.recording_text.specs.Views as spec;
ghost use Rattle.recording_text.specs.Views.{ViewTable, views_of};

use model_history::Script;
use page_layers::{Command, View};
use std::alloc::{AllocError, Global};
use std::marker::Model;

/// The view after each main frame of a script, by which the images of its recordings have their size.
#[derive(Drop)]
pub struct ImageViews {
    /// The view that the script begins with.
    first: View,
    /// The view after each main frame.
    after: Vec<View>,
}

impl Model for ImageViews {
    ghost use Rattle.recording_text.specs.Views.{ViewTable};

    ghost Value = { ViewTable };

    ghost view = { λ v. record { first = v.first; after = v.after.items } };
}

// The view after a command.
fn view_after(view: View, command: &Command) -> View
    ensures { result ≡ spec.view_after view command.now }
{
    match command {
        Command::SetView(fields) => View {
            w: fields.w,
            h: fields.h,
            tile: fields.tile,
        },
        _ => view,
    }
}

// The view after these commands.
fn view_through(view: View, commands: &[Command]) -> View
    ensures { result ≡ spec.view_through view commands.now }
{
    let mut current = view;
    for command in commands {
        current = view_after(current, command);
    }
    current
}

// The view that a script begins with.
fn first_view(script: &Script) -> View
    ensures { result ≡ spec.first_view script.now }
{
    View {
        w: script.viewport_w(),
        h: script.viewport_h(),
        tile: script.tile(),
    }
}

// The view after each main frame.
fn views_through(alloc: Global, first: View, main: &[Vec<Command>]) -> Result<Vec<View>, AllocError>
    ensures { IfOk result (λ views. views.items ≡ spec.views_through first (map (λ frame. frame.items) main.now)) }
{
    let mut views = Vec::new(alloc);
    let mut current = first;
    for frame in main {
        current = view_through(current, frame.as_slice());
        views.push(current)?;
    }
    Ok(views)
}

impl ImageViews {
    /// The views of a script. No tree is built for them: a look at each command is enough.
    #[tactic(auto, unfolding(crate::specs::Views::views_of))]
    pub fn new(alloc: Global, script: &Script) -> Result<ImageViews, AllocError>
        ensures { IfOk result (λ views. views ≡ views_of script.now) }
    {
        let first = first_view(script);
        let after = views_through(alloc, first, script.main())?;
        Ok(ImageViews { first, after })
    }

    /// The view after a main frame, whose sides are those of the images that are drawn while it is the
    /// one activated last. Before every activation (None), and if the script has no such frame, it is
    /// the one that the script begins with.
    pub fn after(&self, frame: Option<u32>) -> View
        ensures { result ≡ spec.view_at self.now frame }
    {
        match frame {
            None => self.first,
            Some(frame) => match self.after.get(frame as usize) {
                Some(view) => *view,
                None => self.first,
            },
        }
    }
}
