//! Whose bytes stand under a name, told by events and outcomes alone.
ghost use Rattle.std.specs.Prelude.{◌≡◌, ◌⊎◌, ◌++◌, ◌∷◌, ℕ, List, Some, None};
ghost use Rattle.record_defs.specs.Table.{File};
ghost use Rattle.machine_defs.specs.Answers.{Got};
ghost use Rattle.machine_defs.specs.Heard.{NoneContinues};
ghost use Rattle.machine_defs.specs.States.{State, IsStart, file_in};
ghost use Rattle.machine_defs.specs.Runs.{Moment, IsRun, now};
ghost use Rattle.run_laws.specs.Stories.{Stored, GetEnds, GotRight};
ghost use Rattle.state_laws.specs.Sound.{IsLimit};
ghost use Rattle.effect_laws.specs.Puts.{WasPut, PutsOnly, NoPutBegan, NoDropBegan, DroppedOut, MayStand, HasFile};

/// A file in effect is that of a put begun in the run: its number stands for bytes that were put under its
/// name. So it is of a file that would be in effect with the record in doubt added. A name that nobody put
/// has no file.
pub fn files_were_put()
    ensures put { (limit : ℕ) (start : State) (ms : List Moment) (name : List ℕ) (file : File)
        → IsStart start → IsRun limit start ms → MayStand (now start ms) name file
        → WasPut ms name ((now start ms).bytes file.id) }
    ensures none { (limit : ℕ) (start : State) (ms : List Moment) (name : List ℕ) → IsStart start
        → IsRun limit start ms → NoPutBegan name ms → file_in (now start ms) name ≡ None }
{}

/// A drop that ended well takes its name out: where no other put or drop of the name was under way at its
/// begin or began until its end, and no put of it began since, the name has no file.
pub fn dropped_names_are_out()
    ensures { (limit : ℕ) (start : State) (ms : List Moment) (name : List ℕ) → IsLimit limit → IsStart start
        → IsRun limit start ms → DroppedOut ms name → file_in (now start ms) name ≡ None }
{}

/// Since a put of a name ended well, a file under the name is the one that was stored, or that of a put begun
/// since, also where a stop cut that put and what it left in doubt was settled either way; and while no drop of
/// the name begins, there is one.
pub fn stored_files_give_way_to_puts()
    ensures whose { (limit : ℕ) (start : State) (later ms : List Moment) (name bytes : List ℕ) (file : File)
        → IsLimit limit → IsStart start → IsRun limit start (later ++ ms) → Stored ms name bytes
        → MayStand (now start (later ++ ms)) name file
        → ((now start (later ++ ms)).bytes file.id ≡ bytes)
        ⊎ WasPut later name ((now start (later ++ ms)).bytes file.id) }
    ensures only { (limit : ℕ) (start : State) (later ms : List Moment) (name bytes new : List ℕ) (file : File)
        → IsLimit limit → IsStart start → IsRun limit start (later ++ ms) → Stored ms name bytes
        → PutsOnly name new later → MayStand (now start (later ++ ms)) name file
        → ((now start (later ++ ms)).bytes file.id ≡ bytes)
        ⊎ ((now start (later ++ ms)).bytes file.id ≡ new) }
    ensures there { (limit : ℕ) (start : State) (later ms : List Moment) (name bytes : List ℕ)
        → IsLimit limit → IsStart start → IsRun limit start (later ++ ms) → Stored ms name bytes
        → NoDropBegan name later → HasFile (now start (later ++ ms)) name }
{}

/// A get that ended with bytes gave those that stood under its name at its begin, or the report holds a
/// forgery against them, also that of a later moment of the same call of the program. So it gave those of a put;
/// since a put of the name ended well, those that were stored, or of a put begun since; and where all puts since
/// are of the same bytes, the stored ones or these, whole.
pub fn gets_give_what_was_put()
    ensures stood { (limit : ℕ) (start : State) (after ms gaps : List Moment) (c g : Moment) (get : ℕ)
        (name got : List ℕ) → IsStart start → IsRun limit start (after ++ g ∷ (gaps ++ c ∷ ms))
        → NoneContinues after → GetEnds c gaps g get name (Got got)
        → (file : File) × (file_in (now start ms) name ≡ Some file)
        × GotRight start ms (after ++ g ∷ (gaps ++ c ∷ ms)) get name ((now start ms).bytes file.id) got }
    ensures put { (limit : ℕ) (start : State) (after ms gaps : List Moment) (c g : Moment) (get : ℕ)
        (name got : List ℕ) → IsStart start → IsRun limit start (after ++ g ∷ (gaps ++ c ∷ ms))
        → NoneContinues after → GetEnds c gaps g get name (Got got) → (own : List ℕ) × WasPut ms name own
        × GotRight start ms (after ++ g ∷ (gaps ++ c ∷ ms)) get name own got }
    ensures since { (limit : ℕ) (start : State) (after later ms gaps : List Moment) (c g : Moment) (get : ℕ)
        (name bytes got : List ℕ) → IsLimit limit → IsStart start
        → IsRun limit start (after ++ g ∷ (gaps ++ c ∷ (later ++ ms))) → NoneContinues after
        → Stored ms name bytes → GetEnds c gaps g get name (Got got)
        → (own : List ℕ) × ((own ≡ bytes) ⊎ WasPut later name own)
        × GotRight start (later ++ ms) (after ++ g ∷ (gaps ++ c ∷ (later ++ ms))) get name own got }
    ensures only { (limit : ℕ) (start : State) (after later ms gaps : List Moment) (c g : Moment) (get : ℕ)
        (name bytes new got : List ℕ) → IsLimit limit → IsStart start
        → IsRun limit start (after ++ g ∷ (gaps ++ c ∷ (later ++ ms))) → NoneContinues after
        → Stored ms name bytes → PutsOnly name new later → GetEnds c gaps g get name (Got got)
        → GotRight start (later ++ ms) (after ++ g ∷ (gaps ++ c ∷ (later ++ ms))) get name bytes got
        ⊎ GotRight start (later ++ ms) (after ++ g ∷ (gaps ++ c ∷ (later ++ ms))) get name new got }
{}
