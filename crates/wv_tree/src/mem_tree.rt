//! A tree in memory that fails at chosen calls.
ghost use Rattle.std.specs.Prelude.{◌≡◌, ◌≤◌, ◌↔◌, [], Some, OnOk, OnErr, IfOk, IfSome, IsErrOf, vec_len};
ghost use Rattle.wv_tree.specs.Fault.{HasCause};
ghost use Rattle.wv_tree.specs.Plan.{FailsNext, CountsCall};
ghost use Rattle.wv_tree.specs.Tree.{only_folder, IsAscending, path_bytes, paths_of, first_bytes};

use crate::fault::IoFault;
use crate::plan::Plan;
use crate::sure_tree::SureTree;
use crate::tree::Tree;
use std::alloc::Global;
use wv_base::{Folder, Text};

/// A tree with one folder that has files; every other folder is empty. It fails exactly at the
/// calls of its plan, and such a call changes nothing but the counts.
#[derive(Debug, Drop)]
pub struct MemTree {
    pub plan: Plan,
    tree: SureTree,
}

impl MemTree {
    /// A tree with this folder under this name, which fails at the calls with these numbers.
    pub fn new(alloc: Global, name: Text, folder: Folder, failing: Vec<u64>) -> MemTree
        ensures name { ⟦<MemTree as Tree>⟧.name result ≡ [] }
        ensures told { ⟦<MemTree as Tree>⟧.told result ≡ Some (only_folder name folder) }
        ensures calls { result.plan.calls ≡ 0 }
        ensures faults { result.plan.faults ≡ 0 }
        ensures failing { result.plan.failing ≡ failing.items }
    {
        MemTree {
            plan: Plan::new(failing),
            tree: SureTree::new(alloc, name, folder),
        }
    }
}

impl Tree for MemTree {
    ghost faults = { λ t. t.plan.faults };

    ghost name = { λ t. ⟦<SureTree as Tree>⟧.name t.tree };

    ghost told = { λ t. ⟦<SureTree as Tree>⟧.told t.tree };

    fn enter(&mut self, alloc: Global, path: &str) -> Result<(), IoFault>
        ensures failed { IsErrOf result IoFault.Failed ↔ FailsNext self.old.plan }
        ensures calls { CountsCall self.old.plan self.new.plan }
        ensures cause { HasCause result self.old.plan.faults self.new.plan.faults }
        ensures entered { OnOk result (⟦<MemTree as Tree>⟧.name self.new ≡ path.now) }
        ensures name { OnErr result
            (⟦<MemTree as Tree>⟧.name self.new ≡ ⟦<MemTree as Tree>⟧.name self.old) }
        ensures told { ⟦<MemTree as Tree>⟧.told self.new ≡ ⟦<MemTree as Tree>⟧.told self.old }
    {
        self.plan.call()?;
        self.tree.enter(alloc, path)
    }

    fn list(&mut self, alloc: Global) -> Result<Vec<String>, IoFault>
        ensures failed { IsErrOf result IoFault.Failed ↔ FailsNext self.old.plan }
        ensures calls { CountsCall self.old.plan self.new.plan }
        ensures order { IfOk result (λ paths. IsAscending (path_bytes paths)) }
        ensures paths { IfOk result (λ paths. IfSome (⟦<MemTree as Tree>⟧.told self.old)
            (λ folders. path_bytes paths ≡ paths_of (folders (⟦<MemTree as Tree>⟧.name self.old)))) }
        ensures cause { HasCause result self.old.plan.faults self.new.plan.faults }
        ensures name { ⟦<MemTree as Tree>⟧.name self.new ≡ ⟦<MemTree as Tree>⟧.name self.old }
        ensures told { ⟦<MemTree as Tree>⟧.told self.new ≡ ⟦<MemTree as Tree>⟧.told self.old }
    {
        self.plan.call()?;
        self.tree.list(alloc)
    }

    fn read(&mut self, alloc: Global, path: &str, most: u64) -> Result<Vec<u8>, IoFault>
        ensures failed { IsErrOf result IoFault.Failed ↔ FailsNext self.old.plan }
        ensures calls { CountsCall self.old.plan self.new.plan }
        ensures most { IfOk result (λ bytes. vec_len bytes ≤ most) }
        ensures bytes { IfOk result (λ bytes. IfSome (⟦<MemTree as Tree>⟧.told self.old)
            (λ folders. bytes.items
            ≡ first_bytes most path.now (folders (⟦<MemTree as Tree>⟧.name self.old)))) }
        ensures cause { HasCause result self.old.plan.faults self.new.plan.faults }
        ensures name { ⟦<MemTree as Tree>⟧.name self.new ≡ ⟦<MemTree as Tree>⟧.name self.old }
        ensures told { ⟦<MemTree as Tree>⟧.told self.new ≡ ⟦<MemTree as Tree>⟧.told self.old }
    {
        self.plan.call()?;
        self.tree.read(alloc, path, most)
    }
}
