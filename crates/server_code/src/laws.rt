//! The laws of the server code.
ghost use Rattle.std.specs.Prelude.{◌≡◌, ◌≤◌, ◌+◌, ◌-◌, ◌*◌, ◌↔◌, ℕ, List, [], ◌∷◌, length, take, replicate};
ghost use Rattle.algebra_laws.specs.Lists.{Each};
ghost use Rattle.code_defs.specs.Polynomials.{plus, scale};
ghost use Rattle.code_defs.specs.Points.{upto};
ghost use Rattle.code_defs.specs.Profiles.{Profile, profile_of};
ghost use Rattle.code_defs.specs.ServerCode.{codeword, IsCodeword, Opens};
ghost use Rattle.hail_syndrome.specs.Syndromes.{syndromes_of};

/// The codeword of kept symbols is a codeword, and a codeword is that of its first kept symbols: there is one
/// codeword for each list of kept symbols.
pub fn codewords_are_those_of_kept_symbols()
    ensures made { (profile : Profile) (kept : List ℕ) → length kept ≡ profile.keep
        → IsCodeword profile (codeword profile kept) }
    ensures front { (profile : Profile) (block : List ℕ) → profile.keep ≤ profile.size
        → IsCodeword profile block →
        block ≡ codeword profile (take profile.keep block) }
{}

/// A block opens to one block at most, where keep + 2 fix is the size, as in each profile.
pub fn opened_block_is_unique()
    ensures { (profile : Profile) (block a b : List ℕ) → profile.size ≡ profile.keep + 2 * profile.fix →
        Opens profile block a → Opens profile block b → a ≡ b }
{}

/// Zeros, the sum of two codewords and a multiple of one are codewords, and so is each combination of
/// codewords.
pub fn codewords_are_linear()
    ensures zero { (profile : Profile) → IsCodeword profile (replicate profile.size 0) }
    ensures sum { (profile : Profile) (a b : List ℕ) → IsCodeword profile a → IsCodeword profile b
        → IsCodeword profile (plus a b) }
    ensures multiple { (profile : Profile) (c : ℕ) (a : List ℕ) → IsCodeword profile a
        → IsCodeword profile (scale c a) }
{}

/// A block is a codeword exactly where its syndromes are all 0.
pub fn codewords_are_blocks_without_syndromes()
    ensures { (profile : Profile) (block : List ℕ) → length block ≡ profile.size
        → profile.keep ≤ profile.size →
        IsCodeword profile block ↔ Each (λ s. s ≡ 0)
        (syndromes_of (upto profile.size) block (profile.size - profile.keep)) }
{}

/// An instance: six symbols 1 are a codeword of the first profile, and their four syndromes are 0.
pub fn ones_are_a_codeword()
    ensures codeword { IsCodeword (profile_of 0) (1 ∷ 1 ∷ 1 ∷ 1 ∷ 1 ∷ 1 ∷ []) }
    ensures zero { Each (λ s. s ≡ 0) (syndromes_of (upto 6) (1 ∷ 1 ∷ 1 ∷ 1 ∷ 1 ∷ 1 ∷ []) 4) }
{}
