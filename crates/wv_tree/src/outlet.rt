//! The folder that is written.
ghost use Rattle.std.specs.Prelude.{◌≡◌, ℕ, List, Option, OnOk, OnErr};
ghost use Rattle.wv_tree.specs.Fault.{HasCause};
ghost use Rattle.wv_tree.specs.Outlet.{with_file};
ghost use Rattle.wv_tree.specs.declared.outlet.PutFile.{PutFile as Put};

use crate::fault::IoFault;
use std::alloc::Global;
use wv_base::{Bytes, Text};

/// A file that was put.
#[derive(Debug, Drop)]
pub struct PutFile {
    /// The name that was entered.
    pub folder: Text,
    pub path: Text,
    pub bytes: Bytes,
}

/// Folders by their names, one of which is entered before files are put.
pub trait Outlet {
    /// How often the outlet has failed.
    ghost faults: { Self → ℕ };

    /// The bytes of the name of the folder that was entered last.
    ghost name: { Self → List ℕ };

    /// The files put so far, where the outlet tells them.
    ghost told: { Self → Option (List Put) };

    /// Names the folder for the calls that follow.
    fn enter(&mut self, alloc: Global, path: &str) -> Result<(), IoFault>
        ensures cause { HasCause result (faults self.old) (faults self.new) }
        ensures entered { OnOk result (name self.new ≡ path.now) }
        ensures name { OnErr result (name self.new ≡ name self.old) }
        ensures told { told self.new ≡ told self.old };

    /// Puts a file into the folder.
    fn put(&mut self, alloc: Global, path: &str, bytes: &[u8]) -> Result<(), IoFault>
        ensures ok { OnOk result (told self.new ≡ with_file
            (record { folder = name self.old; path = path.now; bytes = bytes.now }) (told self.old)) }
        ensures err { OnErr result (told self.new ≡ told self.old) }
        ensures cause { HasCause result (faults self.old) (faults self.new) }
        ensures name { name self.new ≡ name self.old };
}
