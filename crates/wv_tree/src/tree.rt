//! Folders that are read.
ghost use Rattle.std.specs.Prelude.{◌≡◌, ◌≤◌, ℕ, List, Option, OnOk, OnErr, IfOk, IfSome, vec_len};
ghost use Rattle.wv_tree.specs.Fault.{HasCause};
ghost use Rattle.wv_tree.specs.Tree.{Folders, IsAscending, path_bytes, paths_of, first_bytes};

use crate::fault::IoFault;
use std::alloc::Global;

/// Folders by their names, one of which is entered before files are listed and read.
pub trait Tree {
    /// How often the tree has failed.
    ghost faults: { Self → ℕ };

    /// The bytes of the name of the folder that was entered last.
    ghost name: { Self → List ℕ };

    /// The folders by their names, where the tree tells them.
    ghost told: { Self → Option Folders };

    /// Names the folder for the calls that follow.
    fn enter(&mut self, alloc: Global, path: &str) -> Result<(), IoFault>
        ensures cause { HasCause result (faults self.old) (faults self.new) }
        ensures entered { OnOk result (name self.new ≡ path.now) }
        ensures name { OnErr result (name self.new ≡ name self.old) }
        ensures told { told self.new ≡ told self.old };

    /// The paths of all files of the folder, in the order of their bytes, each once.
    fn list(&mut self, alloc: Global) -> Result<Vec<String>, IoFault>
        ensures order { IfOk result (λ paths. IsAscending (path_bytes paths)) }
        ensures paths { IfOk result (λ paths. IfSome (told self.old)
            (λ folders. path_bytes paths ≡ paths_of (folders (name self.old)))) }
        ensures cause { HasCause result (faults self.old) (faults self.new) }
        ensures name { name self.new ≡ name self.old }
        ensures told { told self.new ≡ told self.old };

    /// The first bytes of a file of the folder, at most `most` of them.
    fn read(&mut self, alloc: Global, path: &str, most: u64) -> Result<Vec<u8>, IoFault>
        ensures most { IfOk result (λ bytes. vec_len bytes ≤ most) }
        ensures bytes { IfOk result (λ bytes. IfSome (told self.old)
            (λ folders. bytes.items ≡ first_bytes most path.now (folders (name self.old)))) }
        ensures cause { HasCause result (faults self.old) (faults self.new) }
        ensures name { name self.new ≡ name self.old }
        ensures told { told self.new ≡ told self.old };
}
