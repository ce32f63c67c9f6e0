//! Resolving mods that depend on each other.

use anyhow::Result;
use std::alloc::Global;
use std::rt::Clock;
use std::time::{Duration, Instant};
use wv_base::{Side, Text};
use wv_mod::{ModInfo, read_mod};
use wv_resolve::resolve;

/// How many of the others each mod depends on.
const DEPENDS: usize = 10;

/// The description of one of so many mods, which depends on those behind it, round the end.
fn description(alloc: Global, number: usize, count: usize) -> Result<String> {
    let mut text = format!(in alloc;
        r#"{{"schemaVersion":1,"id":"mod{number}","version":"1.{number}","depends":{{"game":"*""#
    )?;
    for step in 1..=DEPENDS {
        let other = number.wrapping_add(step).checked_rem(count).unwrap_or(0);
        text.push_str(format!(in alloc; r#","mod{other}":["<1",">=1 <2"]"#)?.as_str())?;
    }
    text.push_str("}}")?;
    Ok(text)
}

fn mods(alloc: Global, count: usize) -> Result<Vec<ModInfo>> {
    let mut mods = Vec::with_capacity(alloc, count)?;
    for number in 0..count {
        let path = Text::from_string(format!(in alloc; "mods/mod{number}/fabric.mod.json")?);
        let text = description(alloc, number, count)?;
        mods.push(read_mod(alloc, &path, text.as_bytes(), Side::Client)?)?;
    }
    Ok(mods)
}

/// The shortest time of several rounds. Reading the mods and giving them back isn't counted.
fn shortest<R: Clock + AllocGlobal>(rt: &R, rounds: usize, count: usize) -> Result<Duration> {
    let alloc = rt.alloc();
    let game = [(
        Text::from_str(alloc, "game")?,
        Text::from_str(alloc, "1.0.0")?,
    )];
    let mut shortest = Duration::from_secs(3600);
    for _ in 0..rounds {
        let mods = mods(alloc, count)?;
        let start = Instant::now(rt)?;
        let resolved = resolve(alloc, mods, &game)?;
        let took = start.elapsed(rt)?;
        drop(resolved);
        shortest = shortest.min(took);
    }
    Ok(shortest)
}

/// Prints how long 1,000 to 16,000 mods take.
pub(crate) fn time<R: Clock + AllocGlobal + Print>(rt: &R, rounds: usize) -> Result<()> {
    for count in [1000usize, 2000, 4000, 8000, 16_000] {
        let took = shortest(rt, rounds, count)?.as_micros();
        println!(rt; "resolve: {count} mods in {took} microseconds")?;
    }
    Ok(())
}
