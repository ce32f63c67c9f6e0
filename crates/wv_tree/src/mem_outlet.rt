//! An outlet in memory that fails at chosen calls.
ghost use Rattle.std.specs.Prelude.{◌≡◌, ◌↔◌, [], Some, OnOk, OnErr, IsErrOf};
ghost use Rattle.wv_tree.specs.Fault.{HasCause};
ghost use Rattle.wv_tree.specs.Plan.{FailsNext, CountsCall};
ghost use Rattle.wv_tree.specs.Outlet.{with_file};

use crate::fault::IoFault;
use crate::outlet::{Outlet, PutFile};
use crate::plan::Plan;
use crate::sure_outlet::SureOutlet;
use std::alloc::Global;

/// An outlet that keeps the files. It fails exactly at the calls of its plan, and such a call
/// changes nothing but the counts.
#[derive(Debug, Drop)]
pub struct MemOutlet {
    pub plan: Plan,
    outlet: SureOutlet,
}

impl MemOutlet {
    /// An outlet without files, which fails at the calls with these numbers.
    pub fn new(alloc: Global, failing: Vec<u64>) -> MemOutlet
        ensures name { ⟦<MemOutlet as Outlet>⟧.name result ≡ [] }
        ensures told { ⟦<MemOutlet as Outlet>⟧.told result ≡ Some [] }
        ensures calls { result.plan.calls ≡ 0 }
        ensures faults { result.plan.faults ≡ 0 }
        ensures failing { result.plan.failing ≡ failing.items }
    {
        MemOutlet {
            plan: Plan::new(failing),
            outlet: SureOutlet::new(alloc),
        }
    }

    /// The files put, in their order.
    pub fn files(&self) -> &[PutFile]
        ensures { Some result.now ≡ ⟦<MemOutlet as Outlet>⟧.told self.now }
    {
        self.outlet.files()
    }
}

impl Outlet for MemOutlet {
    ghost faults = { λ o. o.plan.faults };

    ghost name = { λ o. ⟦<SureOutlet as Outlet>⟧.name o.outlet };

    ghost told = { λ o. ⟦<SureOutlet as Outlet>⟧.told o.outlet };

    fn enter(&mut self, alloc: Global, path: &str) -> Result<(), IoFault>
        ensures failed { IsErrOf result IoFault.Failed ↔ FailsNext self.old.plan }
        ensures calls { CountsCall self.old.plan self.new.plan }
        ensures cause { HasCause result self.old.plan.faults self.new.plan.faults }
        ensures entered { OnOk result (⟦<MemOutlet as Outlet>⟧.name self.new ≡ path.now) }
        ensures name { OnErr result
            (⟦<MemOutlet as Outlet>⟧.name self.new ≡ ⟦<MemOutlet as Outlet>⟧.name self.old) }
        ensures told { ⟦<MemOutlet as Outlet>⟧.told self.new ≡ ⟦<MemOutlet as Outlet>⟧.told self.old }
    {
        self.plan.call()?;
        self.outlet.enter(alloc, path)
    }

    fn put(&mut self, alloc: Global, path: &str, bytes: &[u8]) -> Result<(), IoFault>
        ensures failed { IsErrOf result IoFault.Failed ↔ FailsNext self.old.plan }
        ensures calls { CountsCall self.old.plan self.new.plan }
        ensures ok { OnOk result (⟦<MemOutlet as Outlet>⟧.told self.new ≡ with_file
            (record { folder = ⟦<MemOutlet as Outlet>⟧.name self.old; path = path.now; bytes = bytes.now })
            (⟦<MemOutlet as Outlet>⟧.told self.old)) }
        ensures err { OnErr result
            (⟦<MemOutlet as Outlet>⟧.told self.new ≡ ⟦<MemOutlet as Outlet>⟧.told self.old) }
        ensures cause { HasCause result self.old.plan.faults self.new.plan.faults }
        ensures name { ⟦<MemOutlet as Outlet>⟧.name self.new ≡ ⟦<MemOutlet as Outlet>⟧.name self.old }
    {
        self.plan.call()?;
        self.outlet.put(alloc, path, bytes)
    }
}
