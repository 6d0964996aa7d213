//! The jobs that workers do outside of the object.

ghost use Rattle.std.specs.Prelude.{◌≡◌, ◌≤◌, ◌<◌, ℕ, true, Some, None, length, slice_index_or, is_some, option_map, IfOk, IfErr, IfSome, IsNone};
ghost use Rattle.tile_raster.specs.Images.{Image};
ghost use Rattle.cc_live.specs.Lives.{IsImageOf, job_at, ticket_of};
ghost use Rattle.cc_live.specs.Calls.{StartsJob, HandsIn};
ghost use Rattle.cc_live.specs.inner.Kept.{Puts};

use crate::live::Live;
use std::alloc::{AllocError, Global};
use std::marker::Model;
use std::sync::Arc;
use tile_raster::{Job, TileImage};

/// A job that is out, with its slot. It is done outside of the object, by any thread.
pub struct Ticket {
    slot: u32,
    job: Job,
}

impl Model for Ticket {
    ghost use Rattle.geom.specs.Covers.{IsSound};
    ghost use Rattle.cc_live.specs.Lives.{TicketModel, ticket_of};

    ghost Value = { TicketModel };

    ghost view = { λ t. ticket_of t.slot t.job };

    ghost invariant = { λ t. IsSound t.job.rect };
}

impl Drop for Ticket {
    fn drop(self) {
        let Ticket { slot: _, job: _ } = self;
    }
}

/// The picture that a job has made, on its way back to its slot.
#[derive(Drop)]
pub struct Made {
    /// The slot.
    pub slot: u32,
    /// The picture.
    pub image: Arc<TileImage>,
}

impl Ticket {
    /// Makes the picture. An error means out of memory: it gives the ticket back.
    pub fn raster(self, alloc: Global) -> Result<Made, (AllocError, Ticket)>
        ensures slot { IfOk result (λ made. made.slot ≡ self.slot) }
        ensures image { IfOk result (λ made. made.image.value ≡ self.image) }
        ensures err { IfErr result (λ refused. refused.1 ≡ self) }
    {
        let Ticket { slot, job } = self;
        match job.run(alloc) {
            Ok(image) => Ok(Made { slot, image }),
            Err((refused, job)) => Err((refused, Ticket { slot, job })),
        }
    }
}

// The first slot at which no job is out.
fn first_free(slots: &[Option<Job>], count: u32) -> Option<u32>
    requires { length slots.now ≡ count }
    ensures within { IfSome result (λ slot. slot < length slots.now) }
    ensures free { IfSome result (λ slot. slice_index_or slots.now slot None ≡ None) }
    ensures none { IsNone result → (slot : ℕ) → slot < length slots.now → is_some (slice_index_or slots.now slot None) ≡ true }
{
    for slot in 0..count {
        if slots[slot as usize].is_none() {
            return Some(slot);
        }
    }
    None
}

// A copy of a job, which shares its display list.
fn copy_of(job: &Job) -> Result<Job, AllocError>
    ensures key { IfOk result (λ copy. copy.key ≡ job.now.key) }
    ensures rect { IfOk result (λ copy. copy.rect ≡ job.now.rect) }
    ensures list { IfOk result (λ copy. copy.list.value ≡ job.now.list.value) }
{
    let list = Arc::try_clone(&job.list)?;
    Ok(Job {
        key: job.key,
        list,
        rect: job.rect,
    })
}

// Gives a slot this job, or none.
fn put(slots: &mut Vec<Option<Job>>, slot: u32, job: Option<Job>)
    requires { slot < length slots.old.items }
    ensures { Puts slots.old.items slot job slots.new.items }
{
    slots[slot as usize] = job;
}

impl Live {
    /// Starts the next tile at a slot that is free, and answers the slot: `job_of` gives its job. None if no tile may
    /// be started or no slot is free. An error means out of memory, and all is as it was.
    pub fn start_job(&mut self) -> Result<Option<u32>, AllocError>
        ensures { StartsJob self.old self.new result }
    {
        let Some(slot) = first_free(self.jobs.as_slice(), self.core.workers()) else {
            return Ok(None);
        };
        self.core.is_legal();
        match self.core.start(slot)? {
            None => Ok(None),
            Some(job) => {
                put(&mut self.jobs, slot, Some(job));
                Ok(Some(slot))
            }
        }
    }

    /// The job that is out at a slot, as often as it is asked for: whoever had it may have lost it. None exactly if
    /// none is out there. An error means out of memory.
    pub fn job_of(&self, slot: u32) -> Result<Option<Ticket>, AllocError>
        ensures { IfOk result (λ ticket. ticket ≡ option_map (ticket_of slot) (job_at self.now slot)) }
    {
        match self.jobs.get(slot as usize) {
            Some(Some(job)) => {
                let job = copy_of(job)?;
                Ok(Some(Ticket { slot, job }))
            }
            _ => Ok(None),
        }
    }

    /// Takes the picture that the job at its slot has made: the tile is ready, and the slot is free. Takes no memory.
    pub fn hand_in(&mut self, made: Made)
        requires { IsImageOf (job_at self.old made.slot) made.image.value }
        ensures { HandsIn self.old made.slot made.image.value self.new }
    {
        let Made { slot, image } = made;
        self.core.done(slot, image);
        put(&mut self.jobs, slot, None);
    }
}
