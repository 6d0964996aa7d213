//! What events do to the host.

ghost use Rattle.std.specs.Prelude.{◌≡◌, ◌∷◌, ℕ, List, true, false, OnOk};
ghost use Rattle.model_history.specs.declared.history.Entry.{Entry};
ghost use Rattle.model_history.specs.Scripts.{ScriptModel};
ghost use Rattle.model_history.specs.Accepted.{IsPlayable};
ghost use Rattle.model_history.specs.EventFields as fields;
ghost use Rattle.model_history.specs.Frames.{pending, pulls_of};
ghost use Rattle.model_history.specs.Scrolls.{clobbers};
ghost use Rattle.model_history.specs.Legal.{Legal};
ghost use Rattle.model_steps.specs.Events.{abort, commit, activate};
ghost use Rattle.impl_scroll.specs.Standings.{uses_scroll};
ghost use Rattle.impl_host.specs.Hosts.{Hosts};
ghost use Rattle.recording_judge.specs.inner.Mains as mains;
ghost use Rattle.recording_judge.specs.inner.Mains.{IsCommitted};
ghost use Rattle.recording_judge.specs.inner.Hosts.{HostMoves, HostAborts, HostCommits, HostActivates};

use impl_host::ImplHost;
use impl_scroll::clobbered_in;
use main_host::MainEnd;
use model_history::Commit;
use page_layers::Move;
use std::alloc::{AllocError, Global};

/// Steps the host by a scroll or a wheel with these moves. An error means out of memory.
pub(crate) fn move_host(
    alloc: Global,
    host: &mut ImplHost,
    moves: &[Move],
) -> Result<(), AllocError>
    requires { HostMoves host.old moves.now }
    ensures { OnOk result ((s : ScriptModel) (workers : ℕ) (h : List Entry) (e : Entry) → Legal s workers (e ∷ h) → uses_scroll e.event ≡ true → fields.moves s e.event ≡ moves.now → Hosts s h host.old → Hosts s (e ∷ h) host.new) }
{
    let standing = host.standing().moved(alloc, host.pages(), moves)?;
    host.stand(standing);
    Ok(())
}

/// Whether the pending commit sets a scroller outright.
pub(crate) fn sets_outright(host: &ImplHost) -> bool
    ensures { (s : ScriptModel) (h : List Entry) → Hosts s h host.now → result ≡ false → (sc : ℕ) → clobbers s (pending h) sc ≡ false }
{
    !host.pages().outright.is_empty()
}

/// Steps the host by the abort of the main frame in flight. An error means out of memory.
pub(crate) fn abort_host(alloc: Global, host: &mut ImplHost) -> Result<(), AllocError>
    requires { HostAborts host.old }
    ensures { OnOk result ((s : ScriptModel) (workers : ℕ) (h : List Entry) (actor k : ℕ) → Legal s workers (abort actor k ∷ h) → Hosts s h host.old → Hosts s (abort actor k ∷ h) host.new) }
{
    let standing = host.standing().aborted(alloc, host.pages())?;
    host.stand(standing);
    Ok(())
}

// The commit of a frame that ends so.
fn commit_of(end: Option<MainEnd>) -> Option<Commit>
    ensures { result ≡ mains.commit_of end }
{
    match end {
        Some(MainEnd::Ready(commit)) => Some(commit),
        Some(MainEnd::Abort { .. }) => None,
        None => None,
    }
}

/// Steps the host by the commit of a main frame, which ended so. An error means out of memory.
#[tactic(auto, using(crate::proofs::HostFacts::commit_absent))]
pub(crate) fn commit_to_host(
    alloc: Global,
    host: &mut ImplHost,
    frame: u32,
    end: Option<MainEnd>,
) -> Result<(), AllocError>
    requires { HostCommits host.old frame end }
    ensures { OnOk result ((s : ScriptModel) (workers : ℕ) (h : List Entry) (actor : ℕ) → IsPlayable s → Legal s workers (commit actor frame ∷ h) → Hosts s h host.old → IsCommitted s (pulls_of h) frame end → Hosts s (commit actor frame ∷ h) host.new) }
{
    let Some(commit) = commit_of(end) else {
        unreachable!()
    };
    let outright = clobbered_in(alloc, &commit)?;
    let (tree, changes) = commit.into_page();
    host.push(alloc, tree, changes, frame, outright)?;
    Ok(())
}

/// Steps the host by an activation with these moves. An error means out of memory.
pub(crate) fn activate_host(
    alloc: Global,
    host: &mut ImplHost,
    moves: &[Move],
) -> Result<(), AllocError>
    requires { HostActivates host.old moves.now }
    ensures { OnOk result ((s : ScriptModel) (workers : ℕ) (h : List Entry) (actor k : ℕ) → Legal s workers (activate actor k moves.now ∷ h) → Hosts s h host.old → Hosts s (activate actor k moves.now ∷ h) host.new) }
{
    let Some(page) = host.pages().pending else {
        unreachable!()
    };
    let standing = host.standing().activated(alloc, page, moves)?;
    host.activate(standing);
    Ok(())
}
