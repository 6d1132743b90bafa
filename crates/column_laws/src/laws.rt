//! What follows for seen blocks from how many of them are wrong.
ghost use Rattle.std.specs.Prelude.{◌≡◌, ◌≢◌, ◌<◌, ◌≤◌, ◌+◌, ◌*◌, ℕ, false, List, [], ◌∷◌, None, Some};
ghost use Rattle.algebra_laws.specs.Field.{Apart};
ghost use Rattle.hail_field.specs.Shape.{IsShape};
ghost use Rattle.code_defs.specs.Polynomials.{value};
ghost use Rattle.code_defs.specs.Points.{upto, values_at};
ghost use Rattle.code_defs.specs.Profiles.{profile_of};
ghost use Rattle.column_defs.specs.Objects.{Object, symbols_in, point};
ghost use Rattle.column_defs.specs.Columns.{primary_row, row_polynomial, columns, is_wrong_block};
ghost use Rattle.column_defs.specs.Opened.{SeenBlock, bare, OpensTo, AllOpen, symbol_in, block_at, AcceptsRow, GivesSymbols, LosesRow};
ghost use Rattle.column_defs.specs.Forgeries.{count_of, IsRow, IsStripeForgery};
ghost use Rattle.column_laws.specs.Example.{example, three_seen, three_opened};

/// In each profile a block has the kept symbols and two more for each wrong one that is corrected, and the
/// points 0 to size - 1 differ.
pub fn profiles_are_sound()
    ensures size { (number : ℕ) → (profile_of number).size ≡ (profile_of number).keep + 2 *
        (profile_of number).fix }
    ensures points { (number : ℕ) → Apart (upto (profile_of number).size) }
{}

/// A seen block opens to one thing.
pub fn seen_block_opens_to_one_thing()
    ensures { (o : Object) (number j stripe : ℕ) (seen a b : SeenBlock) → o.profile ≡ profile_of number →
        OpensTo o j stripe seen a → OpensTo o j stripe seen b → a ≡ b }
{}

/// Two polynomials with which a row is accepted have one value everywhere.
pub fn accepted_row_is_unique()
    ensures { (o : Object) (opened : List SeenBlock) (place : ℕ) (p q : List ℕ)
        → IsShape o.shape.n o.shape.l o.shape.b →
        AcceptsRow o opened place p → AcceptsRow o opened place q → (x : ℕ) → value p x ≡ value q x }
{}

/// A block that is not wrong opens to its provider's column without masks, so its opened symbol at each place
/// is the value, at the provider's point, of the row's polynomial.
pub fn right_block_opens_to_column()
    ensures opens { (o : Object) (bytes : List ℕ) (j stripe : ℕ) (seen : SeenBlock) → j < 256 →
        is_wrong_block o bytes j stripe seen ≡ false
        → OpensTo o j stripe seen (Some (bare o j stripe (columns o bytes j stripe))) }
    ensures symbols { (o : Object) (bytes : List ℕ) (number j stripe place : ℕ) (seen opened : SeenBlock)
        → o.profile ≡ profile_of number →
        j < 256 → is_wrong_block o bytes j stripe seen ≡ false → OpensTo o j stripe seen opened
        → place < o.profile.size →
        symbol_in place opened ≡ Some (value (row_polynomial o (symbols_in o bytes stripe) place)
        (point o j)) }
{}

/// A stripe that gives symbols loses no row: of what opening answers at most one holds.
pub fn stripe_gives_or_loses()
    ensures { (o : Object) (number stripe row : ℕ) (seen : List SeenBlock) (symbols : List ℕ)
        → o.profile ≡ profile_of number →
        GivesSymbols o stripe seen symbols → LosesRow o stripe seen row → ⊥ }
{}

/// Where at most `b` providers' blocks of a stripe are wrong, each row is accepted with the file's own
/// polynomial, so no row is lost, and the blocks give the file's symbols and no others.
pub fn few_wrong_leave_rows_right()
    ensures rows { (o : Object) (bytes : List ℕ) (number stripe place : ℕ) (seen opened : List SeenBlock)
        → o.profile ≡ profile_of number →
        IsShape o.shape.n o.shape.l o.shape.b →
        count_of (λ j. is_wrong_block o bytes j stripe (block_at seen j)) (upto o.shape.n) ≤ o.shape.b →
        AllOpen o stripe 0 seen opened → place < o.profile.size →
        AcceptsRow o opened place (row_polynomial o (symbols_in o bytes stripe) place) }
    ensures symbols { (o : Object) (bytes : List ℕ) (number stripe : ℕ) (seen : List SeenBlock)
        (symbols : List ℕ) →
        o.profile ≡ profile_of number → IsShape o.shape.n o.shape.l o.shape.b →
        count_of (λ j. is_wrong_block o bytes j stripe (block_at seen j)) (upto o.shape.n) ≤ o.shape.b →
        GivesSymbols o stripe seen symbols → symbols ≡ symbols_in o bytes stripe }
    ensures given { (o : Object) (bytes : List ℕ) (number stripe : ℕ) (seen opened : List SeenBlock)
        → o.profile ≡ profile_of number →
        IsShape o.shape.n o.shape.l o.shape.b →
        count_of (λ j. is_wrong_block o bytes j stripe (block_at seen j)) (upto o.shape.n) ≤ o.shape.b →
        AllOpen o stripe 0 seen opened → GivesSymbols o stripe seen (symbols_in o bytes stripe) }
    ensures none_lost { (o : Object) (bytes : List ℕ) (number stripe row : ℕ) (seen : List SeenBlock)
        → o.profile ≡ profile_of number →
        IsShape o.shape.n o.shape.l o.shape.b →
        count_of (λ j. is_wrong_block o bytes j stripe (block_at seen j)) (upto o.shape.n) ≤ o.shape.b →
        LosesRow o stripe seen row → ⊥ }
{}

/// Wherever a row is accepted with another polynomial than the file's own, the seen blocks hold a forgery
/// against the file at that row.
pub fn other_accepted_row_is_forgery()
    ensures { (o : Object) (bytes : List ℕ) (number : ℕ) (seen : ℕ → List SeenBlock) (stripe place : ℕ)
        (opened : List SeenBlock) (p : List ℕ) →
        o.profile ≡ profile_of number → IsShape o.shape.n o.shape.l o.shape.b → IsRow o bytes stripe place →
        AllOpen o stripe 0 (seen stripe) opened → AcceptsRow o opened place p →
        values_at (upto o.shape.l) p ≢ primary_row o (symbols_in o bytes stripe) place →
        IsStripeForgery o bytes seen stripe place }
{}

/// An instance, for each master key and file: of four blocks three are the providers' own and one is absent,
/// so one is wrong. They open to the columns, row 0 is accepted, and they give the file's symbols.
pub fn three_of_four_give_the_file()
    ensures shape { IsShape 4 1 1 }
    ensures right { (master bytes : List ℕ) →
        is_wrong_block (example master) bytes 0 0 (Some (columns (example master) bytes 0 0)) ≡ false }
    ensures wrong { (master bytes : List ℕ) →
        count_of (λ j. is_wrong_block (example master) bytes j 0
        (block_at (three_seen (example master) bytes) j)) (upto 4) ≡ 1 }
    ensures opens { (master bytes : List ℕ) →
        AllOpen (example master) 0 0 (three_seen (example master) bytes)
        (three_opened (example master) bytes) }
    ensures accepted { (master bytes : List ℕ)
        → AcceptsRow (example master) (three_opened (example master) bytes) 0
        (row_polynomial (example master) (symbols_in (example master) bytes 0) 0) }
    ensures gives { (master bytes : List ℕ) →
        GivesSymbols (example master) 0 (three_seen (example master) bytes)
        (symbols_in (example master) bytes 0) }
{}

/// An instance: of no blocks at all row 0 is lost.
pub fn no_blocks_lose_a_row()
    ensures { (master : List ℕ) → LosesRow (example master) 0 (None ∷ None ∷ None ∷ None ∷ []) 0 }
{}

/// An instance: the blocks of the file of one byte 8 are accepted with its row, which is another than that of
/// the file of one byte 7, and so they hold a forgery against the latter.
pub fn another_file_is_a_forgery()
    ensures row { (master : List ℕ) → IsRow (example master) (7 ∷ []) 0 0 }
    ensures accepted { (master : List ℕ)
        → AcceptsRow (example master) (three_opened (example master) (8 ∷ [])) 0
        (row_polynomial (example master) (symbols_in (example master) (8 ∷ []) 0) 0) }
    ensures other { (master : List ℕ) →
        values_at (upto 1) (row_polynomial (example master) (symbols_in (example master) (8 ∷ []) 0) 0)
        ≢ primary_row (example master) (symbols_in (example master) (7 ∷ []) 0) 0 }
    ensures forgery { (master : List ℕ) →
        IsStripeForgery (example master) (7 ∷ []) (λ stripe. three_seen (example master) (8 ∷ [])) 0 0 }
{}
