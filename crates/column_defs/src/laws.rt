//! Worked values of the definitions, and laws that follow from them alone.
ghost use Rattle.std.specs.Prelude.{◌≡◌, ◌≢◌, ◌≤◌, ◌^◌, ◌%◌, ◌<◌, ℕ, length, true, false, List, [], ◌∷◌, None, Some, replicate};
ghost use Rattle.algebra_laws.specs.Field.{Apart};
ghost use Rattle.code_defs.specs.Points.{upto};
ghost use Rattle.code_defs.specs.Profiles.{profile_of};
ghost use Rattle.code_defs.specs.ServerCode.{IsCodeword, differences};
ghost use Rattle.column_defs.specs.Keys.{file_key, seed, mask_of, secret_point, stream_symbol};
ghost use Rattle.column_defs.specs.Objects.{Object, stripe_symbols, stripes, row_number, symbol_of, bytes_of_symbols, point, points};
ghost use Rattle.column_defs.specs.Columns.{column_of_symbols, is_wrong};
ghost use Rattle.column_defs.specs.Opened.{SeenBlock, bare};
ghost use Rattle.column_defs.specs.Forgeries.{IsForgery, IsStripeForgery};
ghost use Rattle.column_defs.specs.Challenges.{alpha, picked_row};

/// Keys, a point, a seed and a mask under the master key of the bytes 0 to 31, and the challenge of that
/// seed.
pub fn worked_keys()
    ensures mask_key { file_key (upto 32) 77 1 3 ≡ 167 ∷ 187 ∷ 129 ∷ 227 ∷ 41 ∷ 81 ∷ 35 ∷ 176 ∷ 235 ∷ 147 ∷ 63
        ∷ 13 ∷ 2 ∷ 213 ∷ 109 ∷ 34 ∷ 52 ∷ 201 ∷ 92 ∷ 41 ∷ 237 ∷ 226 ∷ 202 ∷ 15 ∷ 106 ∷ 128 ∷ 223 ∷ 167 ∷ 102
        ∷ 253 ∷ 58 ∷ 44 ∷ [] }
    ensures point { secret_point (upto 32) 1 3 ≡ 188778904649298566531513295554068795139 }
    ensures seed { seed (upto 32) 1 1 0
        ≡ 177 ∷ 74 ∷ 118 ∷ 122 ∷ 222 ∷ 48 ∷ 6 ∷ 117 ∷ 101 ∷ 126 ∷ 116 ∷ 193 ∷ 72
        ∷ 36 ∷ 68 ∷ 4 ∷ 49 ∷ 129 ∷ 168 ∷ 69 ∷ 205 ∷ 174 ∷ 1 ∷ 200 ∷ 246 ∷ 125 ∷ 22 ∷ 196 ∷ 8 ∷ 2 ∷ 145 ∷ 83
        ∷ [] }
    ensures mask { mask_of (167 ∷ 187 ∷ 129 ∷ 227 ∷ 41 ∷ 81 ∷ 35 ∷ 176 ∷ 235 ∷ 147 ∷ 63 ∷ 13 ∷ 2 ∷ 213 ∷ 109
        ∷ 34
        ∷ 52 ∷ 201 ∷ 92 ∷ 41 ∷ 237 ∷ 226 ∷ 202 ∷ 15 ∷ 106 ∷ 128 ∷ 223 ∷ 167 ∷ 102 ∷ 253 ∷ 58 ∷ 44 ∷ []) 5
        ≡ 132404573127933671675181182103192641507 }
    ensures alpha { alpha (177 ∷ 74 ∷ 118 ∷ 122 ∷ 222 ∷ 48 ∷ 6 ∷ 117 ∷ 101 ∷ 126 ∷ 116 ∷ 193 ∷ 72 ∷ 36 ∷ 68
        ∷ 4
        ∷ 49 ∷ 129 ∷ 168 ∷ 69 ∷ 205 ∷ 174 ∷ 1 ∷ 200 ∷ 246 ∷ 125 ∷ 22 ∷ 196 ∷ 8 ∷ 2 ∷ 145 ∷ 83 ∷ [])
        ≡ 65912960681525404807291868634059098642 }
    ensures row { picked_row (177 ∷ 74 ∷ 118 ∷ 122 ∷ 222 ∷ 48 ∷ 6 ∷ 117 ∷ 101 ∷ 126 ∷ 116 ∷ 193 ∷ 72 ∷ 36
        ∷ 68 ∷ 4
        ∷ 49 ∷ 129 ∷ 168 ∷ 69 ∷ 205 ∷ 174 ∷ 1 ∷ 200 ∷ 246 ∷ 125 ∷ 22 ∷ 196 ∷ 8 ∷ 2 ∷ 145 ∷ 83 ∷ []) 16 1 ≡ 6 }
{}

/// Numbers of stripes and rows, and symbols of files.
pub fn worked_layout()
    ensures no_stripe { (master : List ℕ) →
        stripes (record { shape = record { n = 6; l = 3; b = 1 }; profile = profile_of 1; master = master; id = 1 }) 0 ≡ 0 }
    ensures two_stripes { (master : List ℕ) →
        stripes (record { shape = record { n = 4; l = 1; b = 1 }; profile = profile_of 0; master = master; id = 1 }) 33 ≡ 2 }
    ensures most_stripes { (master : List ℕ) →
        stripes (record { shape = record { n = 16; l = 1; b = 1 }; profile = profile_of 0; master = master; id = 1 }) (2 ^ 22)
        ≡ 131072 }
    ensures row { (master : List ℕ) →
        row_number (record { shape = record { n = 4; l = 1; b = 1 }; profile = profile_of 0; master = master; id = 1 }) 1 0 ≡ 6 }
    ensures first { symbol_of (1 ∷ 2 ∷ []) 0 ≡ 513 }
    ensures past { symbol_of (1 ∷ 2 ∷ []) 1 ≡ 0 }
    ensures last { symbol_of (replicate 33 1) 2 ≡ 1 }
    ensures bytes { bytes_of_symbols (513 ∷ []) ≡ 1 ∷ 2 ∷ replicate 14 0 }
{}

/// An absent block is wrong, but not for a file of no stripes; a block differs from its codeword at three
/// places.
pub fn worked_wrong()
    ensures absent { (master : List ℕ) →
        is_wrong (record { shape = record { n = 4; l = 1; b = 1 }; profile = profile_of 0; master = master; id = 1 })
        (7 ∷ []) 0 (λ stripe. None) ≡ true }
    ensures no_stripe { (master : List ℕ) →
        is_wrong (record { shape = record { n = 4; l = 1; b = 1 }; profile = profile_of 0; master = master; id = 1 })
        [] 0 (λ stripe. None) ≡ false }
    ensures places { differences (0 ∷ 5 ∷ 10 ∷ 0 ∷ 0 ∷ 0 ∷ []) (0 ∷ 5 ∷ 10 ∷ 15 ∷ 2 ∷ 7 ∷ []) ≡ 3 }
{}

/// The lowest byte of a point is the provider's number.
pub fn point_ends_in_number()
    ensures { (o : Object) (j : ℕ) → j < 256 → point o j % 256 ≡ j }
{}

/// The weight of a challenge is 1 where its four words are all 0, and never 0.
pub fn alpha_is_not_zero()
    ensures of_zero_words { (seed : List ℕ) → stream_symbol seed 0 ≡ 0 → alpha seed ≡ 1 }
    ensures never { (seed : List ℕ) → alpha seed ≢ 0 }
{}

/// All points of an object differ.
pub fn points_differ()
    ensures { (o : Object) → o.shape.n ≤ 256 → Apart (points o) }
{}

/// A column without its masks is a server codeword, also that of a secondary provider.
pub fn bare_column_is_codeword()
    ensures { (o : Object) (symbols : List ℕ) (j stripe : ℕ) → length symbols ≡ stripe_symbols o → j < 256
        → IsCodeword o.profile (bare o j stripe (column_of_symbols o symbols j stripe)) }
{}

/// A forgery among the blocks of one stripe is a forgery.
pub fn stripe_forgery_is_forgery()
    ensures { (o : Object) (bytes : List ℕ) (seen : ℕ → List SeenBlock) (stripe place : ℕ) →
        IsStripeForgery o bytes seen stripe place → IsForgery o bytes seen stripe place }
{}
