ghost use Rattle.std.specs.Prelude.{◌≡◌, ◌≤◌, ℕ, Option, None, length, IfOk, OnOk, IsOk, IsErr, IsSome};
ghost use Rattle.device_defs.specs.Faults.{HasCause};
ghost use Rattle.device_defs.specs.Told.{Goes};
ghost use Rattle.wire_defs.specs.Links.{Behind, Sends, Receives};

use stream_model::Failed;

/// A link to a provider: requests go out as bytes, and answers come back as bytes.
pub trait Link {
    /// What is seen of the provider behind the link, and the bytes that are due, where the link tells them.
    ghost behind: { Self → Option Behind };

    /// How often the link has failed. The count rises at each call that fails, and at no other.
    ghost faults: { Self → ℕ };

    /// Sends bytes. A request that is sent whole, while nothing is due, is answered by the provider.
    fn send(&mut self, bytes: &[u8]) -> Result<(), Failed>
        ensures sent { OnOk result (Goes (Sends bytes.now) (behind self.old) (behind self.new)) }
        ensures sure { IsSome (behind self.old) → IsOk result }
        ensures untold { behind self.old ≡ None → behind self.new ≡ None }
        ensures cause { HasCause (faults self.old) (faults self.new) (IsErr result) }
        ensures no_fault { OnOk result (faults self.new ≡ faults self.old) };

    /// Gives some first bytes that are due, and says how many: none only at the end of the answers, or for a
    /// buffer without room.
    fn receive(&mut self, out: &mut [u8]) -> Result<usize, Failed>
        ensures at_most { IfOk result (λ n. n ≤ length out.old) }
        ensures given { IfOk result (λ n. Goes (Receives n out.new) (behind self.old) (behind self.new)) }
        ensures sure { IsSome (behind self.old) → IsOk result }
        ensures untold { behind self.old ≡ None → behind self.new ≡ None }
        ensures cause { HasCause (faults self.old) (faults self.new) (IsErr result) }
        ensures no_fault { OnOk result (faults self.new ≡ faults self.old) };
}
