//! A sink in memory that fails at chosen calls.
ghost use Rattle.std.specs.Prelude.{◌≡◌, ◌↔◌, ◌+◌, ◌<◌, ◌≤◌, ◌⊎◌, [], length, Some, OnOk, OnErr, IfOk, IsErr, vec_len, vec_capacity};
ghost use Rattle.wv_tree.specs.Fault.{HasSinkCause};
ghost use Rattle.wv_tree.specs.Sink.{with_bytes, AddsFirst, IsOver};

use crate::fault::SinkFault;
use crate::plan::Plan;
use crate::sink::Sink;
use std::alloc::{AllocError, Global};

/// A sink that keeps its bytes, as many as its capacity says. It fails exactly at the calls of its
/// plan and where the capacity would be passed, and such a call changes nothing but the counts.
#[derive(Debug, Drop)]
pub struct MemSink {
    pub plan: Plan,
    /// How many bytes it can keep.
    pub capacity: usize,
    bytes: Vec<u8>,
    ghost fits: { vec_len bytes ≤ capacity },
    ghost room: { capacity ≤ vec_capacity bytes },
}

impl MemSink {
    /// An empty sink, which fails at the calls with these numbers.
    pub fn new(alloc: Global, capacity: usize, failing: Vec<u64>) -> Result<MemSink, AllocError>
        ensures told { IfOk result (λ sink. ⟦<MemSink as Sink>⟧.told sink ≡ Some []) }
        ensures capacity { IfOk result (λ sink. sink.capacity ≡ capacity) }
        ensures calls { IfOk result (λ sink. sink.plan.calls ≡ 0) }
        ensures faults { IfOk result (λ sink. sink.plan.faults ≡ 0) }
        ensures failing { IfOk result (λ sink. sink.plan.failing ≡ failing.items) }
    {
        Ok(MemSink {
            plan: Plan::new(failing),
            capacity,
            bytes: Vec::with_capacity(alloc, capacity)?,
        })
    }

    /// The bytes so far.
    pub fn bytes(&self) -> &[u8]
        ensures { Some result.now ≡ ⟦<MemSink as Sink>⟧.told self.now }
    {
        self.bytes.as_slice()
    }
}

impl Sink for MemSink {
    ghost use Rattle.wv_tree.specs.Plan.{FailsNext, CountsCall};

    ghost faults = { λ s. s.plan.faults };

    ghost told = { λ s. Some s.bytes.items };

    fn write(&mut self, bytes: &[u8]) -> Result<(), SinkFault>
        ensures failed { IsErr result ↔ (FailsNext self.old.plan
            ⊎ IsOver self.old.capacity bytes.now (⟦<MemSink as Sink>⟧.told self.old)) }
        ensures calls { CountsCall self.old.plan self.new.plan }
        ensures capacity { self.new.capacity ≡ self.old.capacity }
        ensures ok { OnOk result (⟦<MemSink as Sink>⟧.told self.new
            ≡ with_bytes bytes.now (⟦<MemSink as Sink>⟧.told self.old)) }
        ensures unchanged { OnErr result
            (⟦<MemSink as Sink>⟧.told self.new ≡ ⟦<MemSink as Sink>⟧.told self.old) }
        ensures err { OnErr result (AddsFirst bytes.now
            (⟦<MemSink as Sink>⟧.told self.old) (⟦<MemSink as Sink>⟧.told self.new)) }
        ensures cause { HasSinkCause result self.old.plan.faults self.new.plan.faults }
    {
        self.plan.call()?;
        if bytes.len() > self.capacity - self.bytes.len() {
            self.plan.count_fault();
            return Err(SinkFault);
        }
        match self.bytes.extend_from_slice(bytes) {
            Ok(()) => Ok(()),
            Err(_) => unreachable!(),
        }
    }
}
