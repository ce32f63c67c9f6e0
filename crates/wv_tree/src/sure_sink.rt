//! A sink that doesn't fail.
ghost use Rattle.std.specs.Prelude.{◌≡◌, ◌+◌, ◌-◌, ◌^◌, ◌<◌, length, min, None, OnOk, OnErr};
ghost use Rattle.wv_tree.specs.Fault.{HasSinkCause};
ghost use Rattle.wv_tree.specs.Sink.{with_bytes, AddsFirst};

use crate::fault::SinkFault;
use crate::sink::Sink;

/// A sink that takes all bytes, and keeps their number alone.
#[derive(Clone, Copy, Debug, PartialEq, Eq)]
pub struct SureSink {
    /// How many bytes were written, 2^64 - 1 at most.
    pub count: u64,
}

impl SureSink {
    pub fn new() -> SureSink
        ensures { result.count ≡ 0 }
    {
        SureSink { count: 0 }
    }
}

impl Sink for SureSink {
    ghost faults = { λ _. 0 };

    ghost told = { λ _. None };

    fn write(&mut self, bytes: &[u8]) -> Result<(), SinkFault>
        ensures count { self.new.count ≡ min (self.old.count + length bytes.now) (2 ^ 64 - 1) }
        ensures ok { OnOk result (⟦<SureSink as Sink>⟧.told self.new
            ≡ with_bytes bytes.now (⟦<SureSink as Sink>⟧.told self.old)) }
        ensures err { OnErr result (AddsFirst bytes.now
            (⟦<SureSink as Sink>⟧.told self.old) (⟦<SureSink as Sink>⟧.told self.new)) }
        ensures cause { HasSinkCause result
            (⟦<SureSink as Sink>⟧.faults self.old) (⟦<SureSink as Sink>⟧.faults self.new) }
    {
        self.count = self.count.saturating_add(bytes.len() as u64);
        Ok(())
    }
}
