//! What holds of every request, and of every list of requests that a provider answered.
ghost use Rattle.std.specs.Prelude.{◌≡◌, ◌∷◌, ◌++◌, ◌+◌, ◌<◌, ◌≤◌, [], ℕ, List, Option, Some, true};
ghost use Rattle.device_defs.specs.Faults.{last_count};
ghost use Rattle.device_defs.specs.Providers.{Held, Provider, without_object};
ghost use Rattle.wire_defs.specs.Requests.{Request, Remove, SpellsRequest, SpellsNoRequest, AreFrames, is_bad_request};
ghost use Rattle.wire_defs.specs.Links.{provider_behind};
ghost use Rattle.wire_defs.specs.Serving.{End, BadAt, HasServed, IsOfBytes, EndsOf};
ghost use Rattle.provider_wire.specs.Loops.{idle};
ghost use Rattle.wire_defs.specs.Replies.{Reply, Serves, AreClean, served, replies_text, failed_count};

/// A request has one spelling, and no spelling begins another: what is read from the front of bytes is
/// determined.
pub fn one_spelling()
    ensures { (a b : Request) (front other x y : List ℕ) → SpellsRequest front a → SpellsRequest other b
        → front ++ x ≡ other ++ y → (a ≡ b) × (front ≡ other) × (x ≡ y) }
{}

/// Bytes that are bad by themselves begin no request, whatever comes behind them.
pub fn bad_bytes_begin_none()
    ensures { (bytes more : List ℕ) → is_bad_request bytes ≡ true → SpellsNoRequest (bytes ++ more) }
{}

/// Bytes are the text of one list of requests at most.
pub fn frames_are_one()
    ensures { (bytes : List ℕ) (requests others : List Request) → AreFrames bytes requests
        → AreFrames bytes others → requests ≡ others }
{}

/// What a server does that ends without a fault is said of all the bytes that its source has, whatever the
/// pieces in which they come and however many of them it read.
pub fn ends_are_of_all_bytes()
    ensures { (bytes : List ℕ) (end : End) (left was now : Option (List ℕ)) (old new : Provider)
        (served : HasServed end (Some bytes) left old new was now) → IsOfBytes end
        → EndsOf bytes end served.requests }
{}

/// Bytes have one such end, and one list of requests that is answered before it.
pub fn bytes_have_one_end()
    ensures { (bytes : List ℕ) (end other : End) (requests others : List Request)
        → EndsOf bytes end requests → EndsOf bytes other others
        → (end ≡ other) × (requests ≡ others) }
{}

/// Where no call failed or found no memory, the answers and the blocks held after them are those that the
/// requests and the blocks held before them determine.
pub fn answers_are_determined()
    ensures { (requests : List Request) (replies : List Reply) (old new : Provider) (held : Held)
        → old.held ≡ Some held → Serves requests old replies new → AreClean replies
        → (replies_text replies ≡ (served held requests).0) × (new.held ≡ Some (served held requests).1) }
{}

/// At most as many answers say that a call failed as the provider's two counts of faults rose, while neither
/// stands at its last value.
pub fn failed_answers_are_counted()
    ensures { (requests : List Request) (replies : List Reply) (old new : Provider)
        → Serves requests old replies new
        → new.store_faults < last_count → new.other_faults < last_count
        → old.store_faults + old.other_faults + failed_count replies ≤ new.store_faults + new.other_faults }
{}

/// No count of a provider's faults falls while it is served.
pub fn counts_never_fall()
    ensures { (requests : List Request) (replies : List Reply) (old new : Provider)
        → Serves requests old replies new
        → (old.store_faults ≤ new.store_faults) × (old.other_faults ≤ new.other_faults) }
{}

/// An instance: of a removal of the object 1 and a byte 9 behind it the removal is answered, and the byte is
/// bad.
pub fn a_byte_behind_a_removal_is_bad()
    ensures frames { AreFrames (4 ∷ 1 ∷ 0 ∷ 0 ∷ 0 ∷ 0 ∷ 0 ∷ 0 ∷ 0 ∷ []) (Remove 1 ∷ []) }
    ensures bad { is_bad_request (9 ∷ []) ≡ true }
    ensures server { (held : Held) → HasServed (BadAt 9) (Some (4 ∷ 1 ∷ 0 ∷ 0 ∷ 0 ∷ 0 ∷ 0 ∷ 0 ∷ 0 ∷ 9 ∷ []))
        (Some [])
        (provider_behind (idle 0 0 0 held)) (provider_behind (idle 0 0 0 (without_object 1 held))) (Some [])
        (Some (1 ∷ [])) }
{}
