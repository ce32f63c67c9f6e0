//! Laying out, writing and reading code with many switches.

use anyhow::{Result, anyhow};
use std::alloc::Global;
use std::rt::Clock;
use std::time::{Duration, Instant};
use wv_base::{Body, Case, Frame, Insn, Items};
use wv_code::{are_formed, is_formed, is_start, layout, read_code, write_code};
use wv_pool::Pool;

fn switch(alloc: Global) -> Result<Insn> {
    let cases = [Case { key: 1, to: 0 }, Case { key: 9, to: 2 }];
    let cases = Items::from_slice(alloc, &cases)?;
    Ok(Insn::Lookup { other: 0, cases })
}

/// So many switches of two cases, each behind four instructions of a byte: 32 bytes together.
fn switches(alloc: Global, count: usize) -> Result<Body> {
    let mut insns = Items::new(alloc);
    for _ in 0..count {
        for _ in 0..4 {
            insns.push(Insn::Plain { op: 0 })?;
        }
        insns.push(switch(alloc)?)?;
    }
    Ok(Body {
        max_stack: 1,
        max_locals: 0,
        insns,
        ranges: Items::new(alloc),
        frames: Items::new(alloc),
        kept: Items::new(alloc),
    })
}

/// The body that the content of a Code attribute spells in a static method without parameters.
fn read(alloc: Global, content: &[u8], pool: &Pool) -> Result<Body> {
    let first = Frame {
        locals: Items::new(alloc),
        stack: Items::new(alloc),
        this_uninitialized: false,
    };
    if content.len() > 100_000 || !is_start(&first) {
        return Err(anyhow!("a content that is too long"));
    }
    Ok(read_code(alloc, content, pool, &first)?)
}

/// Lays the body out, writes it and reads what was written; answers its length.
fn there_and_back(alloc: Global, body: &Body) -> Result<usize> {
    let mut pool = Pool::from_entries(alloc, Vec::new(alloc))?;
    if !are_formed(body.insns.as_slice())? {
        return Err(anyhow!("instructions that no class file has"));
    }
    let layout = layout(alloc, body, &mut pool)?;
    if !is_formed(body, &pool)? {
        return Err(anyhow!("a body that no class file has"));
    }
    let content = write_code(alloc, body, &layout, &mut pool)?;
    let again = read(alloc, content.as_slice(), &pool)?;
    if again.insns.len() != body.insns.len() {
        return Err(anyhow!("another number of instructions"));
    }
    Ok(content.len())
}

/// Prints how long bodies of 250 to 2,000 switches take, the last with 64,000 bytes of code.
pub(crate) fn time<R: Clock + AllocGlobal + Print>(rt: &R, rounds: usize) -> Result<()> {
    for count in [250usize, 500, 1000, 2000] {
        let body = switches(rt.alloc(), count)?;
        let mut shortest = Duration::from_secs(3600);
        let mut len = 0;
        for _ in 0..rounds {
            let start = Instant::now(rt)?;
            len = there_and_back(rt.alloc(), &body)?;
            shortest = shortest.min(start.elapsed(rt)?);
        }
        let took = shortest.as_micros();
        println!(rt; "code: {count} switches, {len} bytes in {took} microseconds")?;
    }
    Ok(())
}
