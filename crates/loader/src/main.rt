//! An offline loader and weaver for mods of Java programs.
#![tactic(auto)]

use std::process::ExitCode;
use std::{env, io};
use wv_top::{Status, loader};
use wv_tree::{DirOutlet, DirTree, OutSink};

/// The words of the command line. Words that aren't UTF-8 are no command, as no words are.
fn words(rt: &(impl std::rt::Env + AllocGlobal)) -> Result<Vec<String>, Status> {
    match env::args(rt) {
        Ok(words) => words.collect(rt.alloc()).map_err(|_| Status::Memory),
        Err(error) if error.kind() == io::ErrorKind::OutOfMemory => Err(Status::Memory),
        Err(_) => Ok(Vec::new(rt.alloc())),
    }
}

fn run(rt: HostRuntime) -> Result<Status, Status> {
    let alloc = rt.alloc();
    let words = words(&rt)?;
    let tree_runtime = rt.clone().map_err(|_| Status::Memory)?;
    let outlet_runtime = rt.clone().map_err(|_| Status::Memory)?;
    let mut tree = DirTree::new(alloc, tree_runtime);
    let mut outlet = DirOutlet::new(alloc, outlet_runtime);
    let mut sink = OutSink::new(rt);
    Ok(loader(alloc, words.as_slice(), &mut tree, &mut outlet, &mut sink))
}

fn main(rt: HostRuntime) -> ExitCode {
    let (Ok(status) | Err(status)) = run(rt);
    ExitCode::from(status as u8)
}
