//! An outlet in memory that doesn't fail.
ghost use Rattle.std.specs.Prelude.{◌≡◌, [], Some};

use crate::fault::IoFault;
use crate::outlet::{Outlet, PutFile};
use std::alloc::Global;
use wv_base::{Bytes, Items, Text};

/// An outlet that keeps the files, and never fails but for want of memory.
#[derive(Debug, Drop)]
pub struct SureOutlet {
    entered: Text,
    files: Items<PutFile>,
}

impl SureOutlet {
    pub fn new(alloc: Global) -> SureOutlet
        ensures name { ⟦<SureOutlet as Outlet>⟧.name result ≡ [] }
        ensures told { ⟦<SureOutlet as Outlet>⟧.told result ≡ Some [] }
    {
        SureOutlet {
            entered: Text::from_string(String::new(alloc)),
            files: Items::new(alloc),
        }
    }

    /// The files put, in their order.
    pub fn files(&self) -> &[PutFile]
        ensures { Some result.now ≡ ⟦<SureOutlet as Outlet>⟧.told self.now }
    {
        self.files.as_slice()
    }
}

impl Outlet for SureOutlet {
    ghost faults = { λ _. 0 };

    ghost name = { λ o. o.entered };

    ghost told = { λ o. Some o.files };

    fn enter(&mut self, alloc: Global, path: &str) -> Result<(), IoFault> {
        self.entered = Text::from_str(alloc, path)?;
        Ok(())
    }

    fn put(&mut self, alloc: Global, path: &str, bytes: &[u8]) -> Result<(), IoFault> {
        let file = PutFile {
            folder: self.entered.copy(alloc)?,
            path: Text::from_str(alloc, path)?,
            bytes: Bytes::from_slice(alloc, bytes)?,
        };
        self.files.push(file)?;
        Ok(())
    }
}
