//! Calls of the loader over objects in memory.

use std::alloc::{AllocError, Global};
use std::test::Fail;
use wv_base::{Folder, Text};
use wv_top::{Status, loader};
use wv_tree::{MemOutlet, MemSink, MemTree};

/// What a call of the loader left.
#[derive(Drop)]
pub(crate) struct Outcome {
    pub(crate) status: Status,
    pub(crate) printed: String,
    pub(crate) put: MemOutlet,
}

/// The calls, by their numbers from 1, at which the outside fails.
#[derive(Clone, Copy)]
pub(crate) struct Failing {
    pub(crate) tree: u64,
    pub(crate) outlet: u64,
    pub(crate) sink: u64,
}

pub(crate) const NONE: Failing = Failing {
    tree: 0,
    outlet: 0,
    sink: 0,
};

pub(crate) const WEAVE: &str = "loader weave f --out o";

fn words(alloc: Global, line: &str) -> Result<Vec<String>, AllocError> {
    line.split_whitespace()
        .map(|word| String::from_str(alloc, word))
        .try_collect(alloc)
}

/// Calls the loader with the words of the line over the folder, which is named `f`.
pub(crate) fn run(
    alloc: Global,
    line: &str,
    folder: Folder,
    failing: Failing,
) -> Result<Outcome, Fail> {
    let name = Text::from_str(alloc, "f")?;
    let tree_fails = Vec::from_slice(alloc, &[failing.tree])?;
    let mut tree = MemTree::new(alloc, name, folder, tree_fails);
    let mut put = MemOutlet::new(alloc, Vec::from_slice(alloc, &[failing.outlet])?);
    let mut sink = MemSink::new(alloc, 8192, Vec::from_slice(alloc, &[failing.sink])?)?;
    let words = words(alloc, line)?;
    let status = loader(alloc, words.as_slice(), &mut tree, &mut put, &mut sink);
    let printed = str::from_utf8(sink.bytes()).map_err(|_| "no text")?;
    Ok(Outcome {
        status,
        printed: String::from_str(alloc, printed)?,
        put,
    })
}
