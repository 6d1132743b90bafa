ghost use Rattle.std.specs.Prelude.{◌≡◌, ◌+◌, ◌≤◌, ℕ, Option, length, take, drop, IfOk, OnOk, IsErr, IfSome, IsErrOf};
ghost use Rattle.std.specs.Option.{option_map};
ghost use Rattle.stream_model.specs.declared.fault.WriteFault.TheVariants as write_fault;
ghost use Rattle.device_defs.specs.Faults.{HasCause, one_more};
ghost use Rattle.device_defs.specs.Told.{Goes};
ghost use Rattle.device_defs.specs.Cells.{Cells, reads};
ghost use Rattle.device_defs.specs.Disks.{written, Torn, synced, Stopped};
ghost use Rattle.record_defs.specs.Records.{largest_journal};

use stream_model::{Failed, WriteFault};

/// A disk of bytes. Offsets written since the last successful `sync` are loose: a `stop` may leave any bytes
/// there.
pub trait Disk {
    /// Each byte that the disk reads, with whether it is loose, where the disk tells them.
    ghost holds: { Self → Option Cells };

    /// How often the disk has failed.
    ghost faults: { Self → ℕ };

    /// How often the disk was called; a stop is no call.
    ghost calls: { Self → ℕ };

    /// The number of bytes that are read.
    fn len(&mut self) -> Result<u64, Failed>
        ensures len { IfOk result (λ n. IfSome (holds self.old) (λ cells. n ≡ length cells)) }
        ensures same { holds self.new ≡ holds self.old }
        ensures no_fault { OnOk result (faults self.new ≡ faults self.old) }
        ensures cause { HasCause (faults self.old) (faults self.new) (IsErr result) }
        ensures called { calls self.new ≡ one_more (calls self.old) };

    /// Gives the bytes from the offset on, as many as fit or are there, at the front of `out`.
    fn read_at(&mut self, at: u64, out: &mut [u8]) -> Result<usize, Failed>
        ensures at_most { IfOk result (λ n. n ≤ length out.old) }
        ensures bytes { IfOk result (λ n. IfSome (holds self.old)
            (λ cells. take n out.new ≡ take (length out.old) (drop at (reads cells)))) }
        ensures same { holds self.new ≡ holds self.old }
        ensures no_fault { OnOk result (faults self.new ≡ faults self.old) }
        ensures cause { HasCause (faults self.old) (faults self.new) (IsErr result) }
        ensures called { calls self.new ≡ one_more (calls self.old) };

    /// Replaces or adds bytes from the offset on. A gap before it is filled with zero bytes.
    fn write_at(&mut self, at: u64, bytes: &[u8]) -> Result<(), WriteFault>
        requires { at + length bytes.now ≤ largest_journal }
        ensures ok { OnOk result (holds self.new ≡ option_map (written at bytes.now) (holds self.old)) }
        ensures failed { IsErrOf result write_fault.Failed
            → Goes (Torn at (length bytes.now)) (holds self.old) (holds self.new) }
        ensures memory { IsErrOf result write_fault.Memory → holds self.new ≡ holds self.old }
        ensures no_fault { (IsErrOf result write_fault.Failed → ⊥) → faults self.new ≡ faults self.old }
        ensures cause { HasCause (faults self.old) (faults self.new) (IsErrOf result write_fault.Failed) }
        ensures called { calls self.new ≡ one_more (calls self.old) };

    /// After it no byte is loose.
    fn sync(&mut self) -> Result<(), Failed>
        ensures ok { OnOk result (holds self.new ≡ option_map synced (holds self.old)) }
        ensures failed { IsErr result → holds self.new ≡ holds self.old }
        ensures no_fault { OnOk result (faults self.new ≡ faults self.old) }
        ensures cause { HasCause (faults self.old) (faults self.new) (IsErr result) }
        ensures called { calls self.new ≡ one_more (calls self.old) };

    /// Leaves one of the images, none of it loose. A disk in memory makes it by the picks.
    fn stop(&mut self, picks: &[u8])
        ensures image { Goes Stopped (holds self.old) (holds self.new) }
        ensures faults { faults self.new ≡ faults self.old }
        ensures calls { calls self.new ≡ calls self.old };
}
