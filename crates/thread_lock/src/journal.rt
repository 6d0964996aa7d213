//! A small value to take turns with, and how two threads write in it.
//! A journal has a title, its stem, and numbers that actors wrote down, its entries.
ghost use Rattle.std.specs.Prelude.{◌≡◌, ◌≢◌, ℕ, [], ◌∷◌, ◌++◌, Some, IfOk, OnOk, OnErr};
ghost use mathlib.Core.List.{IsPrefix};
ghost use Rattle.thread_lock.specs.Lists.{entries_by};
ghost use Rattle.thread_lock.specs.Journals.{notes_of};

use crate::lock::TurnLock;
use crate::pass::Pass;
use crate::turn::Turn;
use std::alloc::{AllocError, Global};
use std::marker::Model;
use std::sync::Wait;
use std::thread::{Threads, join};

/// A title, and numbers in the order in which they were written, each beside the actor that wrote it.
#[derive(Drop)]
pub struct Journal {
    title: u32,
    notes: Vec<(u32, u32)>,
}

impl Model for Journal {
    ghost use Rattle.thread_lock.specs.Journals.{Pages};

    ghost Value = { Pages };

    ghost view = { λ j. record { title = j.title; notes = j.notes.items } };
}

impl Turn for Journal {
    type Stem = u32;

    type Entry = u32;

    ghost stem = { λ journal. journal.title };

    ghost history = { λ journal. journal.notes };

    fn entries(&self) -> u64 {
        self.notes.len() as u64
    }
}

impl Journal {
    /// A journal with nothing in it.
    pub fn new(alloc: Global, title: u32) -> Journal
        ensures { result ≡ record { title = title; notes = [] } }
    {
        Journal {
            title,
            notes: Vec::new(alloc),
        }
    }

    pub fn title(&self) -> u32
        ensures { result ≡ self.now.title }
    {
        self.title
    }

    /// The numbers in the order in which they were written, each after the number of its actor.
    pub fn notes(&self) -> &[(u32, u32)]
        ensures { result.now ≡ self.now.notes }
    {
        self.notes.as_slice()
    }

    /// Writes a number after all others. When memory runs out the journal stays as it was.
    pub fn write(&mut self, actor: u32, number: u32) -> Result<(), AllocError>
        ensures ok { OnOk result (self.new ≡ record self.old { notes = self.old.notes ++ (actor, number) ∷ [] }) }
        ensures err { OnErr result (self.new ≡ self.old) }
    {
        self.notes.push((actor, number)).map_err(AllocError::from)
    }
}

/// Writes a number in one turn. When memory runs out the journal goes back as it was.
pub fn write_note<R: Wait>(
    rt: &R,
    lock: &TurnLock<Journal>,
    pass: Pass<Journal>,
    number: u32,
) -> (Pass<Journal>, Result<(), AllocError>)
    requires { pass.lock ≡ lock.now.id }
    ensures same { (result.0.lock ≡ pass.lock) × (result.0.actor ≡ pass.actor) × (result.0.stem ≡ pass.stem) × (result.0.most ≡ pass.most) }
    ensures seen { IsPrefix pass.seen result.0.seen }
    ensures ok { OnOk result.1 (result.0.mine ≡ pass.mine ++ (pass.actor, number) ∷ []) }
    ensures err { OnErr result.1 (result.0.mine ≡ pass.mine) }
{
    let held = lock.enter(rt, pass);
    let actor = held.actor();
    let (mut journal, empty) = held.take();
    match journal.write(actor, number) {
        Ok(()) => (empty.put(lock, journal), Ok(())),
        Err(refused) => (empty.put(lock, journal), Err(refused)),
    }
}

/// Writes the numbers, each in a turn of its own. It stops if there is no memory.
pub fn write_all<R: Wait>(
    rt: &R,
    lock: &TurnLock<Journal>,
    pass: Pass<Journal>,
    numbers: &[u32],
) -> (Pass<Journal>, Result<(), AllocError>)
    requires { pass.lock ≡ lock.now.id }
    ensures same { (result.0.lock ≡ pass.lock) × (result.0.actor ≡ pass.actor) × (result.0.stem ≡ pass.stem) × (result.0.most ≡ pass.most) }
    ensures ok { OnOk result.1 (result.0.mine ≡ pass.mine ++ notes_of pass.actor numbers.now) }
{
    let mut pass = pass;
    for number in numbers {
        let (next, wrote) = write_note(rt, lock, pass, *number);
        pass = next;
        if let Err(refused) = wrote {
            return (pass, Err(refused));
        }
    }
    (pass, Ok(()))
}

/// Two threads write, each through a pass of its own, and the journal comes back with all that each wrote, in its order, and with nothing else.
pub fn write_both<R: Threads + Wait + Sync>(
    rt: &R,
    alloc: Global,
    lock: TurnLock<Journal>,
    one: Pass<Journal>,
    two: Pass<Journal>,
    first: &[u32],
    second: &[u32],
) -> Result<Journal, AllocError>
    requires lock { (one.lock ≡ lock.id) × (two.lock ≡ lock.id) × (one.most ≡ lock.most) × (two.most ≡ lock.most) × (lock.most ≡ 2) }
    requires fresh { (one.mine ≡ []) × (two.mine ≡ []) }
    ensures first { IfOk result (λ journal. entries_by one.actor journal.notes ≡ notes_of one.actor first.now) }
    ensures second { IfOk result (λ journal. entries_by two.actor journal.notes ≡ notes_of two.actor second.now) }
    ensures nothing_else { IfOk result (λ journal. (actor : ℕ) → actor ≢ one.actor → actor ≢ two.actor → entries_by actor journal.notes ≡ []) }
    ensures title { IfOk result (λ journal. one.stem ≡ Some journal.title) }
{
    let shared = &lock;
    let ((one, wrote_one), (two, wrote_two)) = join(
        rt,
        || -> (Pass<Journal>, Result<(), AllocError>)
            requires { one.lock ≡ shared.now.id }
            ensures same { (result.0.lock ≡ one.lock) × (result.0.actor ≡ one.actor) × (result.0.stem ≡ one.stem) × (result.0.most ≡ one.most) }
            ensures ok { OnOk result.1 (result.0.mine ≡ one.mine ++ notes_of one.actor first.entry.now) }
        { write_all(rt, shared, one, first) },
        || -> (Pass<Journal>, Result<(), AllocError>)
            requires { two.lock ≡ shared.now.id }
            ensures same { (result.0.lock ≡ two.lock) × (result.0.actor ≡ two.actor) × (result.0.stem ≡ two.stem) × (result.0.most ≡ two.most) }
            ensures ok { OnOk result.1 (result.0.mine ≡ two.mine ++ notes_of two.actor second.entry.now) }
        { write_all(rt, shared, two, second) },
    );
    wrote_one?;
    wrote_two?;
    let mut passes = Vec::new(alloc);
    passes.push(one).map_err(AllocError::from)?;
    passes.push(two).map_err(AllocError::from)?;
    let Ok(journal) = lock.close(passes) else {
        unreachable!()
    };
    Ok(journal)
}
