//! Jobs that words name: random steps, and times.

use crate::queues::{LOOKS, Order, queue_times, try_steps};
use std::io;

/// Takes random steps, and tells of which kinds they were. Answers whether the queue always answered as the
/// definitions say.
fn steps(rt: &HostRuntime, seed: u64, count: u64) -> io::Result<bool> {
    match try_steps(rt, seed, count) {
        Ok(counts) => {
            println!(rt;
                "{} new choices, {} starts, {} keys given up, {} tiles made",
                counts.rebuilds, counts.starts, counts.evicted, counts.finishes
            )?;
            if let Some(step) = counts.differs {
                eprintln!(rt; "the definitions say otherwise after step {step}")?;
            }
            Ok(counts.differs.is_none())
        }
        Err(fault) => {
            eprintln!(rt; "{fault}")?;
            Ok(false)
        }
    }
}

/// Times a queue, in nanoseconds.
fn times(rt: &HostRuntime, order: Order, tiles: u32, pairs: u32) -> io::Result<bool> {
    match queue_times(rt, order, tiles, pairs) {
        Ok(times) => {
            let rebuild = times.rebuild.as_nanos();
            let first = times.looks.as_nanos() / LOOKS as u128;
            let pair = times.pairs.as_nanos() / times.count.max(1) as u128;
            println!(rt; "rebuild {rebuild} ns, first {first} ns, pair {pair} ns")?;
            println!(rt; "{} pairs, {} keys given up", times.count, times.evicted)?;
            Ok(true)
        }
        Err(fault) => {
            eprintln!(rt; "{fault}")?;
            Ok(false)
        }
    }
}

fn order_of(word: &str) -> Option<Order> {
    match word {
        "mixed" => Some(Order::Mixed),
        "middle" => Some(Order::Middle),
        "last" => Some(Order::Last),
        _ => None,
    }
}

/// Does what the words ask for. Answers whether they ask for a job of this crate, and it went well.
pub fn run_job(rt: &HostRuntime, words: &[String]) -> io::Result<bool> {
    match words {
        [name, seed, count] if name.as_str() == "steps" => {
            match (seed.as_str().parse::<u64>(), count.as_str().parse::<u64>()) {
                (Ok(seed), Ok(count)) => steps(rt, seed, count),
                _ => Ok(false),
            }
        }
        [name, order, tiles, pairs] if name.as_str() == "queue" => {
            let order = order_of(order.as_str());
            let tiles = tiles.as_str().parse::<u32>();
            let pairs = pairs.as_str().parse::<u32>();
            match (order, tiles, pairs) {
                (Some(order), Ok(tiles), Ok(pairs)) => times(rt, order, tiles, pairs),
                _ => Ok(false),
            }
        }
        _ => Ok(false),
    }
}
