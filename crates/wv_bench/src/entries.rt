//! Reading and writing a class with a large pool.

use anyhow::{Result, anyhow};
use std::alloc::Global;
use std::rt::Clock;
use std::time::{Duration, Instant};
use wv_class::{is_formed, read_class, write_class};

/// The start of a class file of version 52.0, up to the count of its pool.
const FRONT: &[u8] = &[0xCA, 0xFE, 0xBA, 0xBE, 0, 0, 0, 52];

/// The first four entries of the pool: the class `app/E` and `java/lang/Object`, and their names.
const NAMES: &[u8] = b"\x07\x00\x02\x01\x00\x05app/E\x07\x00\x04\x01\x00\x10java/lang/Object";

/// What stands behind the pool: flags, both classes, and empty lists.
const REST: &[u8] = &[0, 0x21, 0, 1, 0, 3, 0, 0, 0, 0, 0, 0, 0, 0];

fn letter(digit: u8) -> u8 {
    b'a'.wrapping_add(digit & 15)
}

/// Four letters for a number, one for each of its hexadecimal digits.
fn letters(number: u16) -> [u8; 4] {
    let [high, low] = number.to_be_bytes();
    [
        letter(high >> 4),
        letter(high),
        letter(low >> 4),
        letter(low),
    ]
}

/// A class file with so many texts in its pool besides.
fn class_file(alloc: Global, texts: u16) -> Result<Vec<u8>> {
    let mut bytes = Vec::new(alloc);
    bytes.extend_from_slice(FRONT)?;
    bytes.extend_from_slice(&texts.wrapping_add(5).to_be_bytes())?;
    bytes.extend_from_slice(NAMES)?;
    for number in 0..texts {
        bytes.extend_from_slice(&[1, 0, 4])?;
        bytes.extend_from_slice(&letters(number))?;
    }
    bytes.extend_from_slice(REST)?;
    Ok(bytes)
}

/// Reads the class file, tests the class and writes it again; answers the length of what is written.
fn there_and_back(alloc: Global, bytes: &[u8]) -> Result<usize> {
    let class = read_class(alloc, bytes)?;
    if !is_formed(alloc, &class)? {
        return Err(anyhow!("a class that no class file has"));
    }
    Ok(write_class(alloc, &class)?.len())
}

/// Prints how long classes with 7,500 to 60,000 entries in their pools take.
pub(crate) fn time<R: Clock + AllocGlobal + Print>(rt: &R, rounds: usize) -> Result<()> {
    for texts in [7_500u16, 15_000, 30_000, 60_000] {
        let bytes = class_file(rt.alloc(), texts)?;
        let mut shortest = Duration::from_secs(3600);
        let mut len = 0;
        for _ in 0..rounds {
            let start = Instant::now(rt)?;
            len = there_and_back(rt.alloc(), bytes.as_slice())?;
            shortest = shortest.min(start.elapsed(rt)?);
        }
        let took = shortest.as_micros();
        println!(rt; "class: {texts} texts, {len} bytes in {took} microseconds")?;
    }
    Ok(())
}
