//! Folders on disk, read.
ghost use Rattle.std.specs.Prelude.{◌≡◌, [], None};

use crate::disk;
use crate::fault::IoFault;
use crate::faults::FaultCount;
use crate::tree::Tree;
use std::alloc::Global;
use std::rt::Files;
use wv_base::Text;

/// Folders on disk, which the runtime gives. A name is a path as the system takes it. Links in a
/// folder aren't followed, and neither listed nor read. It fails where a folder isn't there, a
/// name isn't UTF-8, folders are nested deeper than 64, and where the system fails.
#[derive(Drop)]
pub struct DirTree<R: Files + AllocGlobal + Clone + Drop> {
    runtime: R,
    entered: Text,
    faults: FaultCount,
}

impl<R: Files + AllocGlobal + Clone + Drop> DirTree<R> {
    pub fn new(alloc: Global, runtime: R) -> DirTree<R>
        ensures name { ⟦<DirTree<R> as Tree>⟧.name result ≡ [] }
        ensures faults { ⟦<DirTree<R> as Tree>⟧.faults result ≡ 0 }
    {
        DirTree {
            runtime,
            entered: Text::from_string(String::new(alloc)),
            faults: FaultCount::new(),
        }
    }
}

impl<R: Files + AllocGlobal + Clone + Drop> Tree for DirTree<R> {
    ghost faults = { λ t. t.faults };

    ghost name = { λ t. t.entered };

    ghost told = { λ _. None };

    fn enter(&mut self, alloc: Global, path: &str) -> Result<(), IoFault> {
        let found = disk::require_folder(&self.runtime, path);
        self.faults.note(found)?;
        self.entered = Text::from_str(alloc, path)?;
        Ok(())
    }

    fn list(&mut self, alloc: Global) -> Result<Vec<String>, IoFault> {
        let listed = disk::list(&self.runtime, alloc, self.entered.as_str());
        self.faults.note(listed)
    }

    fn read(&mut self, alloc: Global, path: &str, most: u64) -> Result<Vec<u8>, IoFault> {
        let bytes = disk::read(&self.runtime, alloc, self.entered.as_str(), path, most);
        self.faults.note(bytes)
    }
}
