//! A folder on disk, written.
ghost use Rattle.std.specs.Prelude.{◌≡◌, [], None};

use crate::disk;
use crate::fault::IoFault;
use crate::faults::FaultCount;
use crate::outlet::Outlet;
use std::alloc::Global;
use std::rt::Files;
use wv_base::Text;

/// Folders on disk, which the runtime gives. A name is a path as the system takes it. The folders
/// that a file needs are made, and a file that is there is replaced. Links in the named folder
/// aren't followed: a put whose path leads over one fails. A failed put may leave on the disk a
/// file that is cut short.
#[derive(Drop)]
pub struct DirOutlet<R: Files + Drop> {
    runtime: R,
    entered: Text,
    faults: FaultCount,
}

impl<R: Files + Drop> DirOutlet<R> {
    pub fn new(alloc: Global, runtime: R) -> DirOutlet<R>
        ensures name { ⟦<DirOutlet<R> as Outlet>⟧.name result ≡ [] }
        ensures faults { ⟦<DirOutlet<R> as Outlet>⟧.faults result ≡ 0 }
    {
        DirOutlet {
            runtime,
            entered: Text::from_string(String::new(alloc)),
            faults: FaultCount::new(),
        }
    }
}

impl<R: Files + Drop> Outlet for DirOutlet<R> {
    ghost faults = { λ o. o.faults };

    ghost name = { λ o. o.entered };

    ghost told = { λ _. None };

    fn enter(&mut self, alloc: Global, path: &str) -> Result<(), IoFault> {
        self.entered = Text::from_str(alloc, path)?;
        Ok(())
    }

    fn put(&mut self, alloc: Global, path: &str, bytes: &[u8]) -> Result<(), IoFault> {
        let put = disk::put(&self.runtime, alloc, self.entered.as_str(), path, bytes);
        self.faults.note(put)
    }
}
