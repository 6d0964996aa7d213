//! The scenes of the draws that were not written yet.

ghost use Rattle.std.specs.Prelude.{◌≡◌, true, ℕ};
ghost use Rattle.model_history.specs.Scripts.{ScriptModel};
ghost use Rattle.impl_log.specs.Runs.{new_run};
ghost use Rattle.impl_core.specs.Replies.{is_own};
ghost use Rattle.proxy_single_thread.specs.Singles.{SingleEnters};
ghost use Rattle.proxy_single_thread.specs.inner.Sides.{IsShown};

use impl_core::{Core, CoreFault, Reply};
use model_lockstep::EnterFault;
use model_states::Kind;
use std::alloc::Global;
use viz_scene::Scene;

/// The scenes of the draws that were not written yet, and how many entries were written.
pub(crate) struct UnwrittenScenes {
    pub(crate) scenes: Vec<Scene>,
    pub(crate) written: usize,
}

// Written out, since a derived drop is proved anew, field by field, in each function that lets one go.
impl Drop for UnwrittenScenes {
    fn drop(self) {
        let UnwrittenScenes {
            scenes: _,
            written: _,
        } = self;
    }
}

impl UnwrittenScenes {
    /// Nothing was drawn and nothing written.
    pub(crate) fn new(alloc: Global) -> UnwrittenScenes
        ensures shown { (s : ScriptModel) (n : ℕ) → IsShown (new_run s n) result }
        ensures written { result.written ≡ 0 }
    {
        UnwrittenScenes {
            scenes: Vec::new(alloc),
            written: 0,
        }
    }

    /// Enters an event of the compositor itself, if it may come now, and keeps the scene of a draw.
    pub(crate) fn play(&mut self, core: &mut Core, kind: Kind) -> Result<(), EnterFault>
        requires own { is_own kind ≡ true }
        requires stands { IsShown core.old self.old }
        ensures stands { IsShown core.new self.new }
        ensures answer { SingleEnters core.old kind 0 core.new result }
        ensures written { self.new.written ≡ self.old.written }
    {
        if let Err(refused) = self.scenes.reserve(1) {
            return Err(EnterFault::Memory(refused));
        }
        match core.play(kind) {
            Ok(Reply::Plain) => Ok(()),
            Ok(Reply::Scene(scene)) => {
                self.scenes.push_reserved(scene);
                Ok(())
            }
            Err(CoreFault::NotNow { .. }) => Err(EnterFault::NotNow),
            Err(CoreFault::Memory(refused)) => Err(EnterFault::Memory(refused)),
        }
    }
}
