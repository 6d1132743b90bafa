//! What follows from the definition of an answer to `serve`.
ghost use Rattle.std.specs.Prelude.{◌≡◌, ◌⊎◌, ◌<◌, ◌≤◌, ◌∷◌, [], ℕ, List, Some, length};
ghost use Rattle.device_defs.specs.Faults.{Rose};
ghost use Rattle.device_defs.specs.Providers.{Held};
ghost use Rattle.command_defs.specs.Seen.{Seen, Ending};
ghost use Rattle.wire_defs.specs.Requests.{Request, Remove, AreFrames};
ghost use Rattle.wire_defs.specs.Serving.{most_bytes};
ghost use Rattle.provider_server.specs.Answers.{AnswersServe};
ghost use Rattle.provider_server.specs.Examples.{removal, before_removal, behind_removal};

use provider_wire::laws::{
    a_byte_behind_a_removal_is_bad, bytes_have_one_end, ends_are_of_all_bytes,
};

/// Where the provider is handed in, and the source has whole requests, of at most 2^24 bytes, a `serve` ends
/// with 0, or finds no memory, unless the source or the sink failed.
pub fn serves_end_well()
    ensures { (number : ℕ) (bytes : List ℕ) (requests : List Request) (old new : Seen) (end : Ending)
        → AnswersServe number old new end → number < length old.providers → old.source ≡ Some bytes
        → AreFrames bytes requests → length bytes ≤ most_bytes
        → (Rose old.source_faults new.source_faults → ⊥) → (Rose old.sink_faults new.sink_faults → ⊥)
        → (end.status ≡ 0) ⊎ (end.status ≡ 70) }
{
    ends_are_of_all_bytes();
    bytes_have_one_end();
}

/// An instance: a removal of the object 1 is served.
pub fn a_removal_is_served()
    ensures frames { AreFrames removal (Remove 1 ∷ []) }
    ensures answers { (held : Held) → AnswersServe 0 (before_removal held) (behind_removal held)
        (record { status = 0; at = 0; heard = [] }) }
{
    a_byte_behind_a_removal_is_bad();
}
