ghost use Rattle.std.specs.Prelude.{◌≡◌, ◌<◌, ◌≤◌, ℕ, List, Option, length, take, IfOk, OnErr, IsErrOf};
ghost use Rattle.stream_model.specs.declared.fault.WriteFault.TheVariants as write_fault;
ghost use Rattle.device_defs.specs.Faults.{HasCause};
ghost use Rattle.device_defs.specs.Told.{told_then};

use crate::fault::WriteFault;

/// Where bytes are written.
pub trait Sink {
    /// The bytes written so far, where the sink tells them.
    ghost written: { Self → Option (List ℕ) };

    /// How often the sink has failed.
    ghost faults: { Self → ℕ };

    /// Takes some first bytes of the piece, at least one where there is one, and says how many.
    fn write(&mut self, bytes: &[u8]) -> Result<usize, WriteFault>
        ensures at_most { IfOk result (λ n. n ≤ length bytes.now) }
        ensures some { IfOk result (λ n. 0 < length bytes.now → 0 < n) }
        ensures taken { IfOk result (λ n. written self.new ≡ told_then (written self.old)
            (take n bytes.now)) }
        ensures err { OnErr result (written self.new ≡ written self.old) }
        ensures cause { HasCause (faults self.old) (faults self.new) (IsErrOf result write_fault.Failed) };
}
