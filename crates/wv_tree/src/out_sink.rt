//! Standard output.
ghost use Rattle.std.specs.Prelude.{◌≡◌, None};

use crate::fault::SinkFault;
use crate::faults::FaultCount;
use crate::sink::Sink;

/// Standard output, which the runtime gives.
#[derive(Drop)]
pub struct OutSink<R: Print + Drop> {
    runtime: R,
    faults: FaultCount,
}

impl<R: Print + Drop> OutSink<R> {
    pub fn new(runtime: R) -> OutSink<R>
        ensures { ⟦<OutSink<R> as Sink>⟧.faults result ≡ 0 }
    {
        OutSink {
            runtime,
            faults: FaultCount::new(),
        }
    }
}

impl<R: Print + Drop> Sink for OutSink<R> {
    ghost faults = { λ s. s.faults };

    ghost told = { λ _. None };

    fn write(&mut self, bytes: &[u8]) -> Result<(), SinkFault> {
        let written = self.runtime.write_all(bytes).map_err(|_| SinkFault);
        self.faults.note_write(written)
    }
}
