ghost use Rattle.std.specs.Prelude.{◌≡◌, ◌<◌, ◌≤◌, ℕ, List, Option, [], length, take, IfOk, OnErr, IsErr, IfSome};
ghost use Rattle.device_defs.specs.Faults.{HasCause};
ghost use Rattle.device_defs.specs.Told.{then_told};

use crate::fault::Failed;

/// Where bytes are read.
pub trait Source {
    /// The bytes that are left, where the source tells them.
    ghost left: { Self → Option (List ℕ) };

    /// How often the source has failed.
    ghost faults: { Self → ℕ };

    /// Gives some first bytes that are left, and says how many: none only at the end of input, or for a
    /// buffer without room.
    fn read(&mut self, out: &mut [u8]) -> Result<usize, Failed>
        ensures at_most { IfOk result (λ n. n ≤ length out.old) }
        ensures given { IfOk result (λ n. left self.old ≡ then_told (take n out.new) (left self.new)) }
        ensures end { IfOk result (λ n. n ≡ 0 → 0 < length out.old → IfSome (left self.old) (λ xs. xs ≡ [])) }
        ensures err { OnErr result (left self.new ≡ left self.old) }
        ensures cause { HasCause (faults self.old) (faults self.new) (IsErr result) };
}
