//! The jobs that come next.

ghost use Rattle.std.specs.Prelude.{◌≡◌, Some, IfOk, true, take};
ghost use Rattle.geom.specs.Covers.{IsSound};
ghost use Rattle.geom.specs.KeyLists.{has_key};
ghost use Rattle.tile_priority.specs.Ranks.{rank_cmp};
ghost use Rattle.tile_priority.specs.Ordered.{in_order};
ghost use Rattle.model_history.specs.Tiles.{live_keys};
ghost use Rattle.model_history.specs.Ranking.{wanted};
ghost use Rattle.model_steps.specs.ShownKeys.{KeyShows};
ghost use Rattle.impl_log.specs.Runs.{past};
ghost use Rattle.impl_core.specs.Replies.{AreUpcoming};

use crate::core_state::Core;
use crate::outlooks::look;
use geom::TileKey;
use std::alloc::AllocError;
use tile_priority::Rank;
use tile_raster::Job;

impl Core {
    // The job of a live key.
    pub(crate) fn live_job(&self, key: TileKey) -> Result<Job, AllocError>
        requires { has_key (live_keys self.now.script (past self.now)) key ≡ true }
        ensures key { IfOk result (λ job. job.key ≡ key) }
        ensures sound { IfOk result (λ job. IsSound job.rect) }
        ensures shows { IfOk result (λ job. KeyShows self.now.script key job.rect job.list.value) }
    {
        self.log.is_legal();
        match self.host.job(key)? {
            Some(job) => Ok(job),
            None => unreachable!(),
        }
    }

    // The first ranks that are wanted, at most the given number, in rising order. An error means out of memory.
    fn wanted(&mut self, most: u32) -> Result<Vec<Rank>, AllocError>
        ensures ranks { IfOk result (λ ranks. ranks.items ≡ take most (in_order rank_cmp (wanted self.old.script (past self.old)))) }
        ensures same { self.new ≡ self.old }
    {
        self.log.is_legal();
        look(self.alloc, self.log.plan(), &self.host, &mut self.tiles)?;
        self.tiles.upcoming(most)
    }

    // The jobs of the first ranks that are wanted, of which there are at most the given number.
    fn jobs_of(&self, most: u32, ranks: &[Rank]) -> Result<Vec<Job>, AllocError>
        requires { ranks.now ≡ take most (in_order rank_cmp (wanted self.now.script (past self.now))) }
        ensures { IfOk result (λ jobs. AreUpcoming self.now most jobs.items) }
    {
        // The contract alone speaks of how many.
        let _ = most;
        let mut jobs = Vec::with_capacity(self.alloc, ranks.len())?;
        for rank in ranks {
            jobs.push(self.live_job(rank.key)?)?;
        }
        Ok(jobs)
    }

    /// The jobs of the first `most` keys that are to be made and are neither ready nor in flight, the most
    /// urgent first: those that `start` gives for them while nothing is committed or activated. An error
    /// means out of memory; the run stays in any case.
    pub fn upcoming(&mut self, most: u32) -> Result<Vec<Job>, AllocError>
        ensures upcoming { IfOk result (λ jobs. AreUpcoming self.old most jobs.items) }
        ensures same { self.new ≡ self.old }
    {
        self.refresh_all()?;
        let ranks = self.wanted(most)?;
        self.jobs_of(most, ranks.as_slice())
    }
}
