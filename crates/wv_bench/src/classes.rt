//! Reading and writing every class file of a folder.

use anyhow::Result;
use std::alloc::Global;
use std::rt::{Clock, Files};
use std::time::{Duration, Instant};
use wv_base::{Bytes, ClassFile};
use wv_class::{is_formed, read_class, write_class};
use wv_tree::{DirOutlet, DirTree, Outlet, Tree};

/// The most bytes that are read of a file.
const MOST: u64 = 0x400_0000;

/// What was done with the class files of a folder.
#[derive(Clone, Copy)]
struct Tally {
    read: u64,
    written: u64,
    refused: u64,
    bytes: u64,
    reading: Duration,
    writing: Duration,
}

const NOTHING: Tally = Tally {
    read: 0,
    written: 0,
    refused: 0,
    bytes: 0,
    reading: Duration::ZERO,
    writing: Duration::ZERO,
};

/// The class again in a class file, where one can have it.
fn written(alloc: Global, class: &ClassFile) -> Result<Option<Bytes>> {
    if !is_formed(alloc, class)? {
        return Ok(None);
    }
    Ok(Some(write_class(alloc, class)?))
}

/// Reads a class file and writes it again; none where it is refused, or no class file can have it.
fn there_and_back<R: Clock + AllocGlobal>(
    rt: &R,
    bytes: &[u8],
    tally: &mut Tally,
) -> Result<Option<Bytes>> {
    let start = Instant::now(rt)?;
    let Ok(class) = read_class(rt.alloc(), bytes) else {
        tally.refused = tally.refused.wrapping_add(1);
        return Ok(None);
    };
    tally.reading = tally.reading.saturating_add(start.elapsed(rt)?);
    tally.read = tally.read.wrapping_add(1);
    tally.bytes = tally.bytes.wrapping_add(bytes.len() as u64);
    let start = Instant::now(rt)?;
    let again = written(rt.alloc(), &class)?;
    tally.writing = tally.writing.saturating_add(start.elapsed(rt)?);
    if again.is_some() {
        tally.written = tally.written.wrapping_add(1);
    }
    Ok(again)
}

/// Prints how many class files of the folder are read and written again, and how long that takes;
/// with a second folder, puts what is written there.
pub(crate) fn time<R: Clock + Files + AllocGlobal + Print + Clone + Drop>(
    rt: &R,
    folder: &str,
    out: Option<&str>,
) -> Result<()> {
    let alloc = rt.alloc();
    let mut tree = DirTree::new(alloc, rt.clone()?);
    let mut outlet = DirOutlet::new(alloc, rt.clone()?);
    tree.enter(alloc, folder)?;
    if let Some(out) = out {
        outlet.enter(alloc, out)?;
    }
    let mut tally = NOTHING;
    for path in tree.list(alloc)? {
        if !path.as_str().ends_with(".class") {
            continue;
        }
        let bytes = tree.read(alloc, path.as_str(), MOST)?;
        let again = there_and_back(rt, bytes.as_slice(), &mut tally)?;
        if let (Some(again), Some(_)) = (again, out) {
            outlet.put(alloc, path.as_str(), again.as_slice())?;
        }
    }
    let Tally {
        read,
        written,
        refused,
        bytes,
        reading,
        writing,
    } = tally;
    let (reading, writing) = (reading.as_micros(), writing.as_micros());
    println!(rt;
        "classes: {read} read, {refused} refused, {written} written again, {bytes} bytes"
    )?;
    println!(rt; "classes: {reading} microseconds to read, {writing} to test and write")?;
    Ok(())
}
