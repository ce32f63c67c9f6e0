//! Adding constants to a pool.

use anyhow::{Result, anyhow};
use std::alloc::Global;
use std::rt::Clock;
use std::time::{Duration, Instant};
use wv_base::{Const, Name};
use wv_pool::{Pool, is_allowed};

/// Distinct texts, alike but for their ends.
fn texts(alloc: Global, count: usize) -> Result<Vec<Const>> {
    let mut constants = Vec::with_capacity(alloc, count)?;
    for number in 0..count {
        let text = format!(in alloc; "some/package/of/a/game/with/a/long/Name{number}")?;
        constants.push(Const::Utf8(Name::from_ascii(alloc, text.as_str())?))?;
    }
    Ok(constants)
}

fn add_all(alloc: Global, constants: &[Const]) -> Result<Pool> {
    let mut pool = Pool::from_entries(alloc, Vec::new(alloc))?;
    for constant in constants {
        if !is_allowed(constant) {
            return Err(anyhow!("a constant that no pool holds"));
        }
        pool.add(constant)?;
    }
    Ok(pool)
}

/// The shortest time of several rounds. Giving the pool back isn't counted.
fn shortest<R: Clock + AllocGlobal>(
    rt: &R,
    rounds: usize,
    constants: &[Const],
) -> Result<Duration> {
    let mut shortest = Duration::from_secs(3600);
    for _ in 0..rounds {
        let start = Instant::now(rt)?;
        let pool = add_all(rt.alloc(), constants)?;
        let took = start.elapsed(rt)?;
        drop(pool);
        shortest = shortest.min(took);
    }
    Ok(shortest)
}

/// Prints how long 8,000 and 64,000 distinct constants take.
pub(crate) fn time<R: Clock + AllocGlobal + Print>(rt: &R, rounds: usize) -> Result<()> {
    for count in [8000usize, 16_000, 32_000, 64_000] {
        let constants = texts(rt.alloc(), count)?;
        let took = shortest(rt, rounds, constants.as_slice())?.as_micros();
        println!(rt; "pool: {count} constants in {took} microseconds")?;
    }
    Ok(())
}
