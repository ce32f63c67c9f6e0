//! The count of faults of an adapter.
ghost use Rattle.std.specs.Prelude.{◌≡◌};
ghost use Rattle.wv_tree.specs.Fault.{HasCause, HasSinkCause};

use crate::fault::{IoFault, SinkFault};
use std::marker::Model;

/// How often an adapter failed, 2^64 - 1 at most. Contracts see the number.
#[derive(Debug, Drop)]
pub(crate) struct FaultCount {
    count: u64,
}

impl Model for FaultCount {
    ghost use Rattle.std.specs.Prelude.{ℕ};

    ghost Value = { ℕ };

    ghost view = { λ f. f.count };
}

impl FaultCount {
    pub(crate) fn new() -> FaultCount
        ensures { result ≡ 0 }
    {
        FaultCount { count: 0 }
    }

    /// Counts what failed, and hands it on.
    pub(crate) fn note<T>(&mut self, outcome: Result<T, IoFault>) -> Result<T, IoFault>
        ensures same { result ≡ outcome }
        ensures cause { HasCause result self.old self.new }
    {
        match outcome {
            Ok(value) => Ok(value),
            Err(IoFault::Memory) => Err(IoFault::Memory),
            Err(IoFault::Failed) => {
                self.count = self.count.saturating_add(1);
                Err(IoFault::Failed)
            }
        }
    }

    /// The same for a sink.
    pub(crate) fn note_write(&mut self, outcome: Result<(), SinkFault>) -> Result<(), SinkFault>
        ensures same { result ≡ outcome }
        ensures cause { HasSinkCause result self.old self.new }
    {
        if outcome.is_err() {
            self.count = self.count.saturating_add(1);
        }
        outcome
    }
}
