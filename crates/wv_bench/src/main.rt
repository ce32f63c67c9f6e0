//! Times of parts of the loader, for the figures of docs/PERFORMANCE.md: run by hand.
#![tactic(auto)]

mod classes;
mod code;
mod entries;
mod mods;
mod pool;
mod resolve;

use anyhow::Result;
use std::env;

/// How often the work is done, of which the fastest counts.
const ROUNDS: usize = 5;

fn main(rt: HostRuntime) -> Result<()> {
    let words = env::args(&rt)?.collect::<Vec<String>>(rt.alloc())?;
    match words.as_slice() {
        [_, what] if what.as_str() == "pool" => pool::time(&rt, ROUNDS),
        [_, what] if what.as_str() == "code" => code::time(&rt, ROUNDS),
        [_, what] if what.as_str() == "class" => entries::time(&rt, ROUNDS),
        [_, what] if what.as_str() == "resolve" => resolve::time(&rt, ROUNDS),
        [_, what] if what.as_str() == "weave" => mods::time(&rt, ROUNDS),
        [_, what, folder] if what.as_str() == "classes" => {
            classes::time(&rt, folder.as_str(), None)
        }
        [_, what, folder, out] if what.as_str() == "classes" => {
            classes::time(&rt, folder.as_str(), Some(out.as_str()))
        }
        _ => Ok(println!(rt;
            "usage: wv_bench pool|code|class|resolve|weave, or classes FOLDER [OUT]"
        )?),
    }
}
