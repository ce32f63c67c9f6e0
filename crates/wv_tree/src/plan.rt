//! Which calls of an object in memory are to fail.
ghost use Rattle.std.specs.Prelude.{◌≡◌, ◌↔◌, OnOk, OnErr, IsErr};
ghost use Rattle.wv_tree.specs.Fault.{Rises};
ghost use Rattle.wv_tree.specs.declared.fault.IoFault.TheVariants.{Failed as io_failed};

use crate::fault::{IoFault, SinkFault};
use wv_base::Items;

/// The numbers of the calls that are to fail, counted from 1 over all calls of an object.
#[derive(Debug, Drop)]
pub struct Plan {
    /// How many calls there were.
    pub calls: u64,
    /// How many of them failed.
    pub faults: u64,
    /// The numbers of those that are to fail.
    pub failing: Items<u64>,
}

/// A call that was to fail.
#[derive(Clone, Copy, Debug, PartialEq, Eq)]
pub(crate) struct Planned;

impl From<Planned> for IoFault {
    ghost from_gives = { λ _ fault. fault ≡ io_failed };

    fn from(_planned: Planned) -> IoFault {
        IoFault::Failed
    }
}

impl From<Planned> for SinkFault {
    fn from(_planned: Planned) -> SinkFault {
        SinkFault
    }
}

impl Plan {
    ghost use Rattle.wv_tree.specs.Plan.{FailsNext, CountsCall};

    /// A plan before the first call.
    pub fn new(failing: Vec<u64>) -> Plan
        ensures calls { result.calls ≡ 0 }
        ensures faults { result.faults ≡ 0 }
        ensures failing { result.failing ≡ failing.items }
    {
        Plan {
            calls: 0,
            faults: 0,
            failing: Items::from_vec(failing),
        }
    }

    /// Counts a call, which fails where its number is in the list.
    pub(crate) fn call(&mut self) -> Result<(), Planned>
        ensures fails { IsErr result ↔ FailsNext self.old }
        ensures calls { CountsCall self.old self.new }
        ensures ok { OnOk result (self.new.faults ≡ self.old.faults) }
        ensures err { OnErr result (Rises self.old.faults self.new.faults) }
    {
        self.calls = self.calls.saturating_add(1);
        let fails = self.failing.as_slice().contains(&self.calls);
        if fails {
            self.count_fault();
            return Err(Planned);
        }
        Ok(())
    }

    /// Counts a fault.
    pub(crate) fn count_fault(&mut self)
        ensures faults { Rises self.old.faults self.new.faults }
        ensures calls { self.new.calls ≡ self.old.calls }
        ensures failing { self.new.failing ≡ self.old.failing }
    {
        self.faults = self.faults.saturating_add(1);
    }
}
