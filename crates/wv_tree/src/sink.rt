//! What is printed.
ghost use Rattle.std.specs.Prelude.{◌≡◌, ◌<◌, ℕ, List, Option, OnOk, OnErr, length};
ghost use Rattle.wv_tree.specs.Fault.{HasSinkCause};
ghost use Rattle.wv_tree.specs.Sink.{with_bytes, AddsFirst};

use crate::fault::SinkFault;

/// Where bytes are written, one piece behind the other.
pub trait Sink {
    /// How often the sink has failed.
    ghost faults: { Self → ℕ };

    /// The bytes so far, where the sink tells them.
    ghost told: { Self → Option (List ℕ) };

    /// Writes all the bytes, or some first ones of them where it fails. It takes no memory.
    fn write(&mut self, bytes: &[u8]) -> Result<(), SinkFault>
        requires { 0 < length bytes.now }
        ensures ok { OnOk result (told self.new ≡ with_bytes bytes.now (told self.old)) }
        ensures err { OnErr result (AddsFirst bytes.now (told self.old) (told self.new)) }
        ensures cause { HasSinkCause result (faults self.old) (faults self.new) };
}
