//! A worker starts a tile.

ghost use Rattle.std.specs.Prelude.{◌≡◌, ◌<◌, None, Some, IfOk, OnOk, OnErr};
ghost use Rattle.model_history.specs.Scans.{held};
ghost use Rattle.impl_log.specs.Runs.{past};
ghost use Rattle.impl_core.specs.Replies.{next_key, StartsKey, Starts};

use crate::core_state::Core;
use crate::drawn::Drawn;
use crate::outlooks::look_for_next;
use geom::TileKey;
use model_history::Event;
use std::alloc::AllocError;
use tile_raster::Job;

impl Core {
    // A worker that holds nothing starts the next key.
    pub(crate) fn start_key(&mut self, worker: u32, key: TileKey) -> Result<(), AllocError>
        requires worker { worker < self.old.workers }
        requires free { held worker (past self.old) ≡ None }
        requires next { next_key self.old ≡ Some key }
        ensures ok { OnOk result (StartsKey self.old worker key self.new) }
        ensures err { OnErr result (self.new ≡ self.old) }
    {
        self.log.is_legal();
        look_for_next(self.alloc, self.log.plan(), &self.host, &mut self.tiles)?;
        let evicted = self.tiles.evicted(key)?;
        let evicted_keys = evicted.copy()?;
        self.tiles.reserve()?;
        let actor = 2 + worker;
        let event = Event::Start {
            worker,
            key,
            evicted: evicted_keys,
        };
        self.log.enter(actor, event)?;
        self.tiles.start(key, &evicted);
        self.required.evict(&evicted);
        self.drawn = Drawn::Nothing;
        Ok(())
    }

    // The same as `start`, whether or not the raster queue is made.
    fn start_next(&mut self, worker: u32) -> Result<Option<Job>, AllocError>
        requires worker { worker < self.old.workers }
        requires free { held worker (past self.old) ≡ None }
        ensures starts { IfOk result (λ job. Starts self.old worker self.new job) }
        ensures err { OnErr result (self.new ≡ self.old) }
    {
        match self.next_start()? {
            None => Ok(None),
            Some(key) => {
                let job = self.live_job(key)?;
                self.start_key(worker, key)?;
                Ok(Some(job))
            }
        }
    }

    /// A worker that holds nothing starts the next key. The answer is its job: a display list on the rect of
    /// the tile, which shows it as every page of the script does that has the key. None exactly if
    /// `next_start` is None. An error means out of memory, and nothing was entered.
    pub fn start(&mut self, worker: u32) -> Result<Option<Job>, AllocError>
        requires worker { worker < self.old.workers }
        requires free { held worker (past self.old) ≡ None }
        ensures starts { IfOk result (λ job. Starts self.old worker self.new job) }
        ensures err { OnErr result (self.new ≡ self.old) }
    {
        self.refresh()?;
        self.start_next(worker)
    }
}
