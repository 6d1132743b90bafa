//! Laws over runs, and the laws of layout that they rest on.
ghost use Rattle.std.specs.Prelude.{◌≡◌, ◌⊎◌, ◌≤◌, ℕ, IsTrue, List, ◌∷◌, ◌++◌, Some, length, take};
ghost use Rattle.std.specs.List.{flat_map};
ghost use Rattle.code_defs.specs.Points.{upto};
ghost use Rattle.column_defs.specs.Objects.{Object, stripes, symbols_in, bytes_of_symbols};
ghost use Rattle.hail_field.specs.Shape.{IsShape};
ghost use Rattle.record_defs.specs.Records.{Setup, SetUp, is_in_grammar};
ghost use Rattle.record_defs.specs.Table.{File, setup_of};
ghost use Rattle.code_defs.specs.Profiles.{profile_of};
ghost use Rattle.column_defs.specs.Opened.{SeenBlock, OpensFile};
ghost use Rattle.column_defs.specs.Forgeries.{IsForgery};
ghost use Rattle.machine_defs.specs.Events.{AreBytes};
ghost use Rattle.machine_defs.specs.Jobs.{Job};
ghost use Rattle.machine_defs.specs.Answers.{Got};
ghost use Rattle.machine_defs.specs.Halves.{IsRightGet, EndsGet, FirstHalfHolds};
ghost use Rattle.machine_defs.specs.Heard.{heard_by, HoldsForgery};
ghost use Rattle.machine_defs.specs.States.{State, IsStart, file_object, file_in};
ghost use Rattle.machine_defs.specs.Survival.{EndsPut};
ghost use Rattle.machine_defs.specs.Runs.{Moment, IsRun, now, first_moments};
ghost use Rattle.run_laws.specs.Stories.{Stored, IsKeptAs, GetEnds, GotRight};

/// The bytes of the symbols of all stripes of a file, cut to its length, are the file.
pub fn symbols_give_bytes_back()
    ensures { (o : Object) (bytes : List ℕ) → 1 ≤ o.shape.l → 1 ≤ o.profile.keep → AreBytes bytes →
        take (length bytes) (flat_map (λ stripe. bytes_of_symbols (symbols_in o bytes stripe))
        (upto (stripes o (length bytes)))) ≡ bytes }
{}

/// A setup in effect is in the grammar of records: each of its numbers is within its limits and its master
/// key has 32 bytes, so its providers are a shape.
pub fn setup_in_effect_is_valid()
    ensures grammar { (limit : ℕ) (start : State) (ms : List Moment) (s : Setup) → IsStart start
        → IsRun limit start ms →
        setup_of (now start ms).records ≡ Some s → IsTrue (is_in_grammar (SetUp s)) }
    ensures shape { (limit : ℕ) (start : State) (ms : List Moment) (s : Setup) → IsStart start
        → IsRun limit start ms →
        setup_of (now start ms).records ≡ Some s → IsShape s.n s.l s.b }
{}

/// What a state keeps of the object number of a file in effect are bytes, and as many as the file has.
pub fn object_bytes_are_bytes()
    ensures bytes { (limit : ℕ) (start : State) (ms : List Moment) (name : List ℕ) (file : File)
        → IsStart start → IsRun limit start ms →
        file_in (now start ms) name ≡ Some file → AreBytes ((now start ms).bytes file.id) }
    ensures size { (limit : ℕ) (start : State) (ms : List Moment) (name : List ℕ) (file : File)
        → IsStart start → IsRun limit start ms →
        file_in (now start ms) name ≡ Some file → length ((now start ms).bytes file.id) ≡ file.size }
{}

/// What seen blocks open to, as bytes of a file's size, is the file, or the blocks hold a forgery against it.
pub fn opened_file_is_right_or_forged()
    ensures { (o : Object) (bytes : List ℕ) (number : ℕ) → o.profile ≡ profile_of number
        → IsShape o.shape.n o.shape.l o.shape.b →
        (seen : ℕ → List SeenBlock) (got : List ℕ) → AreBytes bytes → OpensFile o (length bytes) seen got →
        (got ≡ bytes) ⊎ ((stripe : ℕ) × (place : ℕ) × IsForgery o bytes seen stripe place) }
{}

/// A get that ended with bytes gave those that were in effect under its name at its begin, or what it fetched
/// holds a forgery against them.
pub fn got_bytes_are_right()
    ensures { (limit : ℕ) (start : State) (m : Moment) (ms : List Moment) (job : Job) (name bytes : List ℕ)
        → IsStart start →
        IsRun limit start (m ∷ ms) → EndsGet start m ms job name bytes
        → IsRightGet (now start (first_moments job.begun ms)) job name bytes }
{}

/// The first half of the main theorem: in every run, calm or not, every get that ended with bytes gave those
/// that were in effect under its name at its begin, or what it fetched holds a forgery against them.
pub fn first_half()
    ensures { FirstHalfHolds }
{}

/// From the end of a put that ended well on, what each state keeps of its object number are the bytes of that
/// put.
pub fn put_bytes_stay()
    ensures { (limit : ℕ) (start : State) (later ms : List Moment) (m : Moment) (job : Job)
        (name bytes : List ℕ) → IsStart start →
        IsRun limit start (later ++ m ∷ ms) → EndsPut start m ms job name bytes →
        (now start (later ++ m ∷ ms)).bytes job.subject ≡ bytes }
{}

/// A get that ended with bytes, and at whose begin the file in effect under its name was that of a put that
/// had ended well, gave the bytes of that put, or what it fetched holds a forgery against them.
pub fn put_bytes_are_got()
    ensures { (limit : ℕ) (start : State) (m p : Moment) (ms later before : List Moment) (put get : Job)
        (name bytes got : List ℕ)
        (file : File) → IsStart start → IsRun limit start (m ∷ ms) → EndsGet start m ms get name got →
        first_moments get.begun ms ≡ later ++ p ∷ before → EndsPut start p before put name bytes →
        file_in (now start (first_moments get.begun ms)) name ≡ Some file → file.id ≡ put.subject →
        (got ≡ bytes) ⊎ HoldsForgery (file_object (now start (first_moments get.begun ms)) file) bytes
        get.number (heard_by (Some get)) }
{}

/// The file of a put that ended well is kept, told by events and outcomes alone: where no other put or drop of
/// its name began since its begin, it is in effect, also with the record in doubt added, and its number stands
/// for the bytes that were put.
pub fn stored_files_are_kept()
    ensures { (limit : ℕ) (start : State) (ms : List Moment) (name bytes : List ℕ) → IsStart start
        → IsRun limit start ms → Stored ms name bytes → IsKeptAs (now start ms) name bytes }
{}

/// What was put is got, told by events and outcomes alone: where a put ended well and no other put or drop of
/// its name began since its begin, a get that begins now and ends with bytes gave those of the put, or the
/// report holds a forgery against them.
pub fn what_was_put_is_got()
    ensures { (limit : ℕ) (start : State) (ms gaps : List Moment) (c g : Moment) (get : ℕ)
        (name bytes got : List ℕ) → IsStart start → IsRun limit start (g ∷ (gaps ++ c ∷ ms))
        → Stored ms name bytes → GetEnds c gaps g get name (Got got)
        → GotRight start ms (g ∷ (gaps ++ c ∷ ms)) get name bytes got }
{}
