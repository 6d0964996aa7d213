//! The main side and its frames.

ghost use Rattle.std.specs.Prelude.{◌≡◌, ◌<◌, ◌++◌, [], ◌∷◌, length, IfOk};
ghost use Rattle.region.specs.Lists.{Changed};
ghost use Rattle.page_layers.specs.Pages.{Page};
ghost use Rattle.model_history.specs.Ended.{AreBounded};
ghost use Rattle.model_history.specs.Frames.{changes, pulls_in};
ghost use Rattle.main_host.specs.Hosts.{EndsNextFrame, IsEnd, IsNext, IsCommitOf, IsHost, with_frame};

use crate::main_end::MainEnd;
use ghost_list::GhostList;
use model_history::{Commit, Moves, Script, changes_something, take_frame};
use page_layers::LayerTree;
use region::Changes;
use std::alloc::{AllocError, Global};
use std::marker::Model;
use std::sync::Arc;

/// The main side of a script: its page, and how many main frames it has ended. Contracts see the pulls of
/// these frames, too.
pub struct MainHost {
    alloc: Global,
    script: Arc<Script>,
    // The page after the frames that were ended, which the last commit shares; None before the first frame.
    page: Option<Arc<LayerTree>>,
    // The number of the main frame that is ended next.
    next: u32,
    sends: GhostList<Moves>,
}

impl Model for MainHost {
    ghost use Rattle.std.specs.Prelude.{◌≡◌, length, option_map};
    ghost use Rattle.main_host.specs.Hosts.{MainHostModel, IsHost, page_or_blank};

    ghost Value = { MainHostModel };

    ghost view = { λ h. record { script = h.script.value; sends = h.sends.items } };

    ghost invariant = { λ h. (h.next ≡ length h.sends.items) × IsHost h.script.value h.sends.items (page_or_blank h.script.value (option_map (λ p. p.value) h.page)) };
}

// Written out, since a derived drop is proved anew, field by field, in each function that lets one go.
impl Drop for MainHost {
    fn drop(self) {
        let MainHost {
            alloc: _,
            script: _,
            page: _,
            next: _,
            sends: _,
        } = self;
    }
}

// The commit of the next frame, which shares the page after it.
fn commit_of(
    script: &Arc<Script>,
    frame: u32,
    sends: &GhostList<Moves>,
    pulls: &Moves,
    after: &Arc<LayerTree>,
    changes: Changes,
) -> Result<Commit, AllocError>
    requires { (before : Page) × IsNext (record { script = script.now.value; sends = sends.now.items }) pulls.now frame before after.now.value changes }
    ensures { IfOk result (λ commit. IsCommitOf (with_frame (record { script = script.now.value; sends = sends.now.items }) pulls.now) (length sends.now.items) commit) }
{
    let script = Arc::try_clone(script)?;
    let tree = Arc::try_clone(after)?;
    let sends = sends.and(pulls);
    Ok(Commit {
        script,
        frame,
        sends,
        tree,
        changes,
    })
}

// Whether the next frame changes something.
fn is_changed(
    script: &Script,
    frame: u32,
    sends: &GhostList<Moves>,
    pulls: &Moves,
    before: &LayerTree,
    after: &LayerTree,
) -> bool
    requires next { (done : Changed) × IsNext (record { script = script.now; sends = sends.now.items }) pulls.now frame before.now after.now done }
    requires bounded { AreBounded pulls.now }
    ensures { result ≡ changes script.now (pulls_in (sends.now.items ++ pulls.now ∷ [])) (length sends.now.items) }
{
    // The contract alone speaks of what was sent.
    let _ = sends;
    changes_something(script.commands(frame), pulls.as_slice(), before, after)
}

// How the next frame ends.
fn end_of(
    script: &Arc<Script>,
    frame: u32,
    sends: &GhostList<Moves>,
    pulls: &Moves,
    before: &LayerTree,
    after: &Arc<LayerTree>,
    changes: Changes,
) -> Result<MainEnd, AllocError>
    requires next { IsNext (record { script = script.now.value; sends = sends.now.items }) pulls.now frame before.now after.now.value changes }
    requires bounded { AreBounded pulls.now }
    ensures { IfOk result (λ end. IsEnd (record { script = script.now.value; sends = sends.now.items }) pulls.now end) }
{
    if !is_changed(script, frame, sends, pulls, before, after) {
        return Ok(MainEnd::Abort { frame });
    }
    let commit = commit_of(script, frame, sends, pulls, after, changes)?;
    Ok(MainEnd::Ready(commit))
}

// How the next frame ends, and the page after it. The frame is made on a copy of the page before it.
fn frame_over(
    alloc: Global,
    script: &Arc<Script>,
    frame: u32,
    sends: &GhostList<Moves>,
    pulls: &Moves,
    before: &LayerTree,
) -> Result<(MainEnd, Arc<LayerTree>), AllocError>
    requires frame { frame ≡ length sends.now.items }
    requires left { frame < length script.now.value.main }
    requires bounded { AreBounded pulls.now }
    requires before { IsHost script.now.value sends.now.items before.now }
    ensures end { IfOk result (λ ended. IsEnd (record { script = script.now.value; sends = sends.now.items }) pulls.now ended.0) }
    ensures after { IfOk result (λ ended. IsHost script.now.value (sends.now.items ++ pulls.now ∷ []) ended.1.value) }
{
    let mut tree = before.copy()?;
    let changes = take_frame(alloc, script, frame, pulls.as_slice(), &mut tree)?;
    let after = Arc::new(alloc, tree)?;
    let end = end_of(script, frame, sends, pulls, before, &after, changes)?;
    Ok((end, after))
}

impl MainHost {
    /// The main side of a script, before all its main frames. It takes its memory from `alloc`.
    pub fn new(alloc: Global, script: Arc<Script>) -> MainHost
        ensures script { result.script ≡ script.value }
        ensures sends { result.sends ≡ [] }
    {
        MainHost {
            alloc,
            script,
            page: None,
            next: 0,
            sends: GhostList::new(),
        }
    }

    /// The number of the main frame that is ended next.
    pub fn next_frame(&self) -> u32
        ensures { result ≡ length self.now.sends }
    {
        self.next
    }

    // How the next frame ends with these pulls, and the page after it.
    fn next_end(&self, pulls: &Moves) -> Result<(MainEnd, Arc<LayerTree>), AllocError>
        requires left { length self.now.sends < length self.now.script.main }
        requires bounded { AreBounded pulls.now }
        ensures end { IfOk result (λ ended. IsEnd self.now pulls.now ended.0) }
        ensures after { IfOk result (λ ended. IsHost self.now.script (self.now.sends ++ pulls.now ∷ []) ended.1.value) }
    {
        let sends = &self.sends;
        match &self.page {
            Some(page) => frame_over(self.alloc, &self.script, self.next, sends, pulls, page),
            None => {
                let blank = self.script.first_page(self.alloc);
                frame_over(self.alloc, &self.script, self.next, sends, pulls, &blank)
            }
        }
    }

    /// Ends the next main frame with these pulls: `Ready` exactly if the frame changes something,
    /// that is, if it has commands or moves a main value by more or less than its pull. A pull that
    /// its range cuts is such a move.
    ///
    /// A main frame must be left, and both parts of each pull are below 2^58 in absolute value. A pull of
    /// a scroller that the page lacks moves nothing. An error means out of memory: no frame is ended, and it
    /// can be begun again, with the same pulls or others.
    pub fn begin(&mut self, pulls: &Moves) -> Result<MainEnd, AllocError>
        requires left { length self.old.sends < length self.old.script.main }
        requires bounded { AreBounded pulls.now }
        ensures { EndsNextFrame self.old pulls.now self.new result }
    {
        let (end, page) = self.next_end(pulls)?;
        self.script.is_accepted();
        self.next += 1;
        self.sends = self.sends.and(pulls);
        self.page = Some(page);
        Ok(end)
    }
}
