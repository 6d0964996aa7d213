//! Passes and turns of a lock worked by hand.

ghost use Rattle.std.specs.Prelude.{◌≡◌, ◌<◌, [], ◌∷◌, ◌++◌, All, vec_len, IfOk, OnOk};
ghost use Rattle.thread_lock.specs.PassModels.{IsOf};

use crate::cases::Cases;
use std::alloc::{AllocError, Global};
use std::sync::Wait;
use std::thread::{Threads, join};
use test_table::LineFault;
use thread_lock::{
    HeldTurn, Journal, Pass, PassesOut, SplitFault, TurnLock, write_all, write_both, write_note,
};

type Lock = TurnLock<Journal>;

type Slip = Pass<Journal>;

/// A lock around an empty journal, and its first pass.
fn locked(alloc: Global, most: u32) -> Result<(Lock, Slip), LineFault>
    requires { 0 < most }
    ensures { IfOk result (λ made. (made.0.most ≡ most) × IsOf made.0 made.1 × (made.1.mine ≡ [])) }
{
    match TurnLock::new(alloc, Journal::new(alloc, 5), most) {
        Ok(made) => Ok(made),
        Err((refused, _journal)) => Err(LineFault::Memory(refused)),
    }
}

/// The next pass of a lock that has a number left.
fn split<R: Wait>(rt: &R, lock: &Lock, pass: &mut Slip) -> Result<Slip, LineFault>
    requires { IsOf lock.now pass.old }
    ensures given { IsOf lock.now pass.new × (pass.new.mine ≡ pass.old.mine) }
    ensures made { IfOk result (λ made. IsOf lock.now made × (made.mine ≡ [])) }
{
    match lock.split(rt, pass) {
        Ok(made) => Ok(made),
        Err(SplitFault::Full) => Err(LineFault::CallRefused),
    }
}

/// A lock around an empty journal, and two passes.
#[derive(Drop)]
struct Pair {
    lock: Lock,
    first: Slip,
    second: Slip,
}

/// A lock for this many passes, with its first two.
fn pair_of<R: Wait>(rt: &R, alloc: Global, most: u32) -> Result<Pair, LineFault>
    requires { 0 < most }
    ensures most { IfOk result (λ pair. pair.lock.most ≡ most) }
    ensures first { IfOk result (λ pair. IsOf pair.lock pair.first × (pair.first.mine ≡ [])) }
    ensures second { IfOk result (λ pair. IsOf pair.lock pair.second × (pair.second.mine ≡ [])) }
{
    let (lock, mut first) = locked(alloc, most)?;
    match split(rt, &lock, &mut first) {
        Ok(second) => Ok(Pair {
            lock,
            first,
            second,
        }),
        Err(fault) => Err(fault),
    }
}

/// Adds the next pass of a lock that has a number left.
fn push_split<R: Wait>(
    rt: &R,
    lock: &Lock,
    first: &mut Slip,
    passes: &mut Vec<Slip>,
) -> Result<(), LineFault>
    requires first { IsOf lock.now first.old }
    requires passes { All (IsOf lock.now) passes.old.items }
    ensures first { IsOf lock.now first.new }
    ensures passes { OnOk result (All (IsOf lock.now) passes.new.items) }
{
    Ok(passes.push(split(rt, lock, first)?)?)
}

/// The first pass and as many made of it as the count says.
fn split_all<R: Wait>(
    rt: &R,
    alloc: Global,
    lock: &Lock,
    first: Slip,
    count: u32,
) -> Result<Vec<Slip>, LineFault>
    requires { IsOf lock.now first }
    ensures { IfOk result (λ passes. All (IsOf lock.now) passes.items × (0 < vec_len passes)) }
{
    let mut first = first;
    let mut passes = Vec::new(alloc);
    for _ in 0..count {
        push_split(rt, lock, &mut first, &mut passes)?;
    }
    passes.push(first)?;
    Ok(passes)
}

/// The value goes back as it was.
fn leave(lock: &Lock, held: HeldTurn<Journal>) -> Slip
    requires { held.pass.lock ≡ lock.now.id }
    ensures { result.lock ≡ lock.now.id }
{
    let (journal, empty) = held.take();
    empty.put(lock, journal)
}

/// Whether the actor wrote the numbers below the count, in order, and no others.
fn wrote_in_order(notes: &[(u32, u32)], actor: u32, count: u64) -> bool {
    let mut next: u64 = 0;
    for (by, number) in notes {
        if *by == actor {
            if *number as u64 != next {
                return false;
            }
            next = next.wrapping_add(1);
        }
    }
    next == count
}

/// The numbers below the count, in order.
fn numbers_below(alloc: Global, count: u32) -> Result<Vec<u32>, AllocError> {
    let mut numbers = Vec::new(alloc);
    for number in 0..count {
        numbers.push(number)?;
    }
    Ok(numbers)
}

/// Once the pass that was out has come back, the lock gives the journal, in which nothing was written.
fn close_with(out: PassesOut<Journal>, pass: Slip, cases: &mut Cases) -> Result<(), LineFault>
    requires passes { All (IsOf out.lock) out.passes.items }
    requires pass { IsOf out.lock pass }
{
    let PassesOut {
        lock,
        mut passes,
        ..
    } = out;
    passes.push(pass)?;
    match lock.close(passes) {
        Ok(journal) => {
            cases.same("its title", &journal.title(), &5);
            cases.holds("no note", journal.notes().is_empty());
            Ok(())
        }
        Err(_) => Err(LineFault::CallRefused),
    }
}

/// Two of three passes close no lock, and all three do.
fn close_by_two(alloc: Global, pair: Pair, third: Slip, cases: &mut Cases) -> Result<(), LineFault>
    requires first { IsOf pair.lock pair.first }
    requires second { IsOf pair.lock pair.second }
    requires third { IsOf pair.lock third }
{
    let Pair {
        lock,
        first,
        second,
    } = pair;
    let passes = vec![in alloc; first, second]?;
    match lock.close(passes) {
        Ok(_) => Err(LineFault::CallRefused),
        Err(out) => {
            cases.same("two of three", &(out.given, out.most), &(2, 3));
            close_with(out, third, cases)
        }
    }
}

/// All three passes of a lock: a fourth is refused.
fn split_no_fourth<R: Wait>(
    rt: &R,
    alloc: Global,
    pair: Pair,
    third: Slip,
    cases: &mut Cases,
) -> Result<(), LineFault>
    requires first { IsOf pair.lock pair.first }
    requires second { IsOf pair.lock pair.second }
    requires third { IsOf pair.lock third }
{
    let mut pair = pair;
    let numbers = [pair.first.actor(), pair.second.actor(), third.actor()];
    cases.same("three numbers", &numbers, &[0, 1, 2]);
    let is_full = matches!(pair.lock.split(rt, &mut pair.first), Err(SplitFault::Full));
    cases.holds("no fourth", is_full);
    close_by_two(alloc, pair, third, cases)
}

/// The fourth pass of three is refused, and two of three close no lock.
pub fn fourth_pass_of_three<R: Wait>(
    rt: &R,
    alloc: Global,
    cases: &mut Cases,
) -> Result<(), LineFault> {
    cases.begin("fourth pass of three");
    let mut pair = pair_of(rt, alloc, 3)?;
    match split(rt, &pair.lock, &mut pair.first) {
        Ok(third) => split_no_fourth(rt, alloc, pair, third, cases),
        Err(fault) => Err(fault),
    }
}

/// The journal as the second pass finds it.
fn read_by_second<R: Wait>(rt: &R, lock: &Lock, second: Slip, cases: &mut Cases)
    requires { IsOf lock.now second }
{
    let held = lock.enter(rt, second);
    let notes = held.value().notes();
    cases.same("the entry", &notes, &[(0, 7)].as_slice());
    cases.same("the second", &leave(lock, held).actor(), &1);
}

/// An entry shows to the next that enters.
pub fn entry_shows_to_the_next<R: Wait>(
    rt: &R,
    alloc: Global,
    cases: &mut Cases,
) -> Result<(), LineFault> {
    cases.begin("entry shows");
    let Pair {
        lock,
        first,
        second,
    } = pair_of(rt, alloc, 2)?;
    let (_first, wrote) = write_note(rt, &lock, first, 7);
    read_by_second(rt, &lock, second, cases);
    wrote.map_err(LineFault::Memory)
}

/// The second pass, which finds the turn taken.
fn find_taken(lock: &Lock, second: Slip, cases: &mut Cases) -> Slip
    requires { IsOf lock.now second }
    ensures { result.lock ≡ lock.now.id }
{
    let (is_busy, second) = match lock.try_enter(second) {
        Ok(held) => (false, leave(lock, held)),
        Err(busy) => (true, busy.pass),
    };
    cases.holds("the turn is taken", is_busy);
    cases.same("the second", &second.actor(), &1);
    second
}

/// Enters a turn that is free.
fn find_free(lock: &Lock, pass: Slip) -> Result<(), LineFault>
    requires { pass.lock ≡ lock.now.id }
{
    match lock.try_enter(pass) {
        Ok(held) => {
            leave(lock, held);
            Ok(())
        }
        Err(_) => Err(LineFault::CallRefused),
    }
}

/// A turn that is taken is busy, and free again once the value is back.
pub fn taken_turn_is_busy<R: Wait>(
    rt: &R,
    alloc: Global,
    cases: &mut Cases,
) -> Result<(), LineFault> {
    cases.begin("taken turn");
    let Pair {
        lock,
        first,
        second,
    } = pair_of(rt, alloc, 2)?;
    let (journal, empty) = lock.enter(rt, first).take();
    let second = find_taken(&lock, second, cases);
    let _first = empty.put(&lock, journal);
    find_free(&lock, second)
}

/// Tries that a journal has this many notes, a thousand by each of the actors below the count, in its order.
fn try_notes(journal: &Journal, what: &str, notes: usize, actors: u32, cases: &mut Cases) {
    cases.same(what, &journal.notes().len(), &notes);
    for actor in 0..actors {
        cases.holds("in order", wrote_in_order(journal.notes(), actor, 1000));
    }
}

/// The journal in which two threads have written the numbers.
fn journal_of_two<R: Threads + Wait + Sync>(
    rt: &R,
    alloc: Global,
    numbers: &[u32],
) -> Result<Journal, LineFault> {
    let Pair {
        lock,
        first,
        second,
    } = pair_of(rt, alloc, 2)?;
    match write_both(rt, alloc, lock, first, second, numbers, numbers) {
        Ok(journal) => Ok(journal),
        Err(_) => Err(LineFault::CallRefused),
    }
}

/// Two threads write: all that each wrote is there, in its order.
pub fn two_threads_write<R: Threads + Wait + Sync>(
    rt: &R,
    alloc: Global,
    cases: &mut Cases,
) -> Result<(), LineFault> {
    cases.begin("two threads");
    let numbers = numbers_below(alloc, 1000)?;
    let journal = journal_of_two(rt, alloc, numbers.as_slice())?;
    try_notes(&journal, "by two threads", 2000, 2, cases);
    Ok(())
}

/// The passes of others, and this one after them, which has written, too.
fn with_pass(
    others: Vec<Slip>,
    pass: Slip,
    wrote: Result<(), AllocError>,
) -> Result<Vec<Slip>, AllocError>
    ensures { IfOk result (λ written. written.items ≡ others.items ++ pass ∷ []) }
{
    wrote?;
    let mut passes = others;
    passes.push(pass)?;
    Ok(passes)
}

/// Each pass writes the numbers in a thread of its own.
fn write_each<R: Threads + Wait + Sync>(
    rt: &R,
    lock: &Lock,
    passes: Vec<Slip>,
    numbers: &[u32],
) -> Result<Vec<Slip>, AllocError>
    requires { All (IsOf lock.now) passes.items }
    ensures { IfOk result (λ written. All (IsOf lock.now) written.items × (vec_len written ≡ vec_len passes)) }
{
    let mut passes = passes;
    let Some(pass) = passes.pop() else {
        return Ok(passes);
    };
    let ((pass, wrote), others) = join(
        rt,
        || -> (Slip, Result<(), AllocError>)
            requires { IsOf lock.now pass }
            ensures { IsOf lock.entry.now result.0 }
        { write_all(rt, lock, pass, numbers) },
        || -> Result<Vec<Slip>, AllocError>
            requires { All (IsOf lock.now) passes.items }
            ensures { IfOk result (λ written. All (IsOf lock.entry.now) written.items × (vec_len written ≡ vec_len passes)) }
        { write_each(rt, lock, passes, numbers) },
    );
    match others {
        Ok(others) => with_pass(others, pass, wrote),
        Err(refused) => Err(refused),
    }
}

/// The journal in which sixteen threads have written the numbers.
fn journal_of_sixteen<R: Threads + Wait + Sync>(
    rt: &R,
    alloc: Global,
    numbers: &[u32],
) -> Result<Journal, LineFault> {
    let (lock, first) = locked(alloc, 16)?;
    let passes = split_all(rt, alloc, &lock, first, 15)?;
    let passes = write_each(rt, &lock, passes, numbers)?;
    match lock.close(passes) {
        Ok(journal) => Ok(journal),
        Err(_) => Err(LineFault::CallRefused),
    }
}

/// Sixteen threads write: all that each wrote is there, in its order.
pub fn sixteen_threads_write<R: Threads + Wait + Sync>(
    rt: &R,
    alloc: Global,
    cases: &mut Cases,
) -> Result<(), LineFault> {
    cases.begin("sixteen threads");
    let numbers = numbers_below(alloc, 1000)?;
    let journal = journal_of_sixteen(rt, alloc, numbers.as_slice())?;
    try_notes(&journal, "by sixteen threads", 16000, 16, cases);
    Ok(())
}
