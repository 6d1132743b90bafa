//! What holds of every disk and of every provider.
ghost use Rattle.std.specs.Prelude.{◌≡◌, ◌↔◌, ◌⊎◌, ◌+◌, ◌-◌, ◌≤◌, ◌<◌, ◌++◌, ℕ, true, List, All, length, min, replicate};
ghost use Rattle.device_defs.specs.Told.{IsByte};
ghost use Rattle.device_defs.specs.Cells.{Cells, reads, loose_offsets, is_loose_at, Ascends};
ghost use Rattle.device_defs.specs.Images.{IsImage, IsImageOf, is_among};
ghost use Rattle.device_defs.specs.Disks.{spliced, written, halved, marked, Torn};
ghost use Rattle.device_defs.specs.Picks.{picked};

/// An image is as long as what is read, and equals it at every offset that isn't loose.
pub fn images()
    ensures { (cells : Cells) (image : List ℕ)
        → IsImage cells image ↔ IsImageOf (reads cells) (loose_offsets cells) image }
{}

/// What is read is an image.
pub fn what_is_read()
    ensures { (cells : Cells) → IsImage cells (reads cells) }
{}

/// Any picks give an image, and each image can be picked.
pub fn picks()
    ensures gives { (cells : Cells) (picks : List ℕ) → IsImage cells (picked cells picks) }
    ensures each { (cells : Cells) (image : List ℕ) → IsImage cells image → All IsByte image
        → (picks : List ℕ) × All IsByte picks × (picked cells picks ≡ image) }
{}

/// The loose offsets ascend, and are those at which a byte is loose.
pub fn offsets()
    ensures ascend { (cells : Cells) → Ascends 0 (loose_offsets cells) }
    ensures listed { (cells : Cells) (k : ℕ) → is_among (loose_offsets cells) k ≡ is_loose_at cells k }
{}

/// A write replaces or adds bytes, with zero bytes in a gap. It makes loose the offsets that it writes, a
/// gap's too, and no other.
pub fn writes()
    ensures reads { (at : ℕ) (bytes : List ℕ) (cells : Cells)
        → reads (written at bytes cells)
        ≡ spliced (min at (length (reads cells))) (replicate (at - length (reads cells)) 0 ++ bytes)
        (reads cells) }
    ensures loose { (at : ℕ) (bytes : List ℕ) (cells : Cells) (k : ℕ) → min at (length cells) ≤ k
        → k < at + length bytes
        → is_loose_at (written at bytes cells) k ≡ true }
    ensures as_before { (at : ℕ) (bytes : List ℕ) (cells : Cells) (k : ℕ)
        → (k < min at (length cells)) ⊎ (at + length bytes ≤ k)
        → is_loose_at (written at bytes cells) k ≡ is_loose_at cells k }
{}

/// A failing write may write the first half and make loose what the range had, or only make that loose.
pub fn tears()
    ensures halved { (at : ℕ) (bytes : List ℕ) (cells : Cells)
        → Torn at (length bytes) cells (halved at bytes cells) }
    ensures marked { (at n : ℕ) (cells : Cells) → Torn at n cells (marked at n cells) }
{}
