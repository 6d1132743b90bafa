//! What holds of every provider that tells its blocks.
ghost use Rattle.std.specs.Prelude.{◌≡◌, ◌↔◌, ℕ, Bool, List, Option, Some, None, IsTrue, if◌then◌else◌};
ghost use Rattle.device_defs.specs.Providers.{HasSize, sized};

/// A fetch gives the held block of the size, or none: what it answered and what `out` then had say which.
pub fn fetch_gives()
    ensures { (size : ℕ) (held : Option (List ℕ)) (found : Bool) (out : List ℕ)
        → (IsTrue found ↔ HasSize size held)
        → (IsTrue found → held ≡ Some out) → (if found then Some out else None) ≡ sized size held }
{}
