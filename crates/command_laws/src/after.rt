//! What a user may believe between two commands: the store is known again, by the status of the last one, and
//! so the next one is spoken of. No run of a job and no state stands in these clauses.
ghost use Rattle.std.specs.Prelude.{◌≡◌, ◌≢◌, ◌⊎◌, ℕ, ◌+◌, ◌<◌, ◌≤◌, ◌&&◌, true, false, Bool, not, List, [], ◌∷◌, length, Option, Some, None, is_some};
ghost use Rattle.column_defs.specs.Verdicts.{is_flagged};
ghost use Rattle.device_defs.specs.Cells.{Cells};
ghost use Rattle.device_defs.specs.Faults.{Rose};
ghost use Rattle.device_defs.specs.Told.{told_then};
ghost use Rattle.record_defs.specs.Records.{Record, SetUp, is_name, largest_file};
ghost use Rattle.record_defs.specs.Table.{File, Due, next_audit, file_of, due_of};
ghost use Rattle.record_defs.specs.Packed.{packed};
ghost use Rattle.command_defs.specs.Forms.{Command, Numbers, RowOf, InitWith, PutUnder, GetOf, DropOf, ListAll, AuditAll, RepairAll, UpgradeJournal, ScrubAll, PackJournal};
ghost use Rattle.command_defs.specs.Keys.{IsKeyForm};
ghost use Rattle.command_defs.specs.Seen.{Seen, Ending, IsRefused, provider_at};
ghost use Rattle.opening_defs.specs.Journals.{IsFree};
ghost use Rattle.command_defs.specs.Opens.{setup_in_effect};
ghost use Rattle.command_defs.specs.Inits.{setup_with};
ghost use Rattle.command_defs.specs.GivenUp.{after_begin};
ghost use Rattle.command_defs.specs.Lines.{audit_lines};
ghost use Rattle.command_defs.specs.Audits.{HearsRounds, CountsHeard};
ghost use Rattle.command_defs.specs.Jobs.{IsTold};
ghost use Rattle.command_defs.specs.Commands.{Answers, IsUsage};
ghost use Rattle.command_laws.specs.Ends.{IsDone, IsKnown, GivesText, GivesUnlessMemory, opens_store, put_of, after_put, after_drop, after_audit, after_repair, after_upgrade, ran_to};
ghost use Rattle.command_laws.specs.After.{IsSure, Follows, IsThen, is_refusal, HasRightFile, IsUntouched, IsSteady, spoilt_below, IsFaultless, keeps_blocks, IsOfAnother};
ghost use Rattle.command_laws.specs.Opened.{IsKeyed};

/// A store that is known stays known, whatever comes of a command, and a stop after it: its records are those
/// before, or these with the first few of those that the job of the command appends, or after a pack the
/// packed ones; a put whose last one is among them has read its whole source. After a refusal they are those
/// before, and nothing has changed; nor has it after a row, after words that are no command, and after an
/// init, whatever comes of it.
pub fn stores_stay_known()
    ensures always { (command : Command) (records : List Record) (old new next : Seen) (end : Ending)
        → Answers command old new end →
        opens_store command ≡ true → IsSure old records → Follows new next →
        (after : List Record) × IsKnown next after × IsThen command records old new after }
    ensures refusal { (command : Command) (old new : Seen) (end : Ending) → Answers command old new end
        → is_refusal end.status ≡ true →
        IsRefused end.status end.at old new end }
    ensures refused { (status at : ℕ) (records : List Record) (old new : Seen) (end : Ending)
        → IsRefused status at old new end →
        IsKnown old records → IsKnown new records }
    ensures refused_sure { (status at : ℕ) (records : List Record) (old new : Seen) (end : Ending)
        → IsRefused status at old new end →
        IsSure old records → IsSure new records }
    ensures next { (records : List Record) (new next : Seen) → IsSure new records → Follows new next
        → IsSure next records }
    ensures init { (numbers : Numbers) (records : List Record) (old new : Seen) (end : Ending)
        → Answers (InitWith numbers) old new end →
        IsSure old records → is_some new.disk ≡ is_some old.disk → IsSure new records }
    ensures row { (n l b : ℕ) (seen : List (Option ℕ)) (records : List Record) (old new : Seen)
        (end : Ending) →
        Answers (RowOf n l b seen) old new end → IsSure old records → IsSure new records }
    ensures usage { (records : List Record) (old new : Seen) (end : Ending) → IsUsage old new end
        → IsSure old records → IsSure new records }
{}

/// After a command that is done, and after 4, 13 or 16, the store is known, with the records that are said;
/// and no stop harms it. So it is after a put of status 14, unless that has changed nothing. A put may name a
/// profile of its own.
pub fn done_commands_leave_known_stores()
    ensures init { (numbers : Numbers) (key : List ℕ) (old new : Seen) (end : Ending)
        → Answers (InitWith numbers) old new end → IsDone end →
        is_some old.disk ≡ true → ((bytes : List ℕ) × (old.source ≡ Some bytes) × IsKeyForm bytes key) →
        IsSure new (SetUp (setup_with numbers key) ∷ []) }
    ensures put { (name bytes : List ℕ) (own : Option ℕ) (records : List Record) (old new : Seen)
        (end : Ending)
        → Answers (put_of name own) old new end →
        IsDone end → IsKnown old records → old.source ≡ Some bytes
        → IsSure new (after_put records name (length bytes) own) }
    ensures failed_put { (name : List ℕ) (own : Option ℕ) (records : List Record) (old new : Seen)
        (end : Ending)
        → Answers (put_of name own) old new end →
        end.status ≡ 13 → IsKnown old records → IsSure new (after_begin records name) }
    ensures long_put { (name : List ℕ) (own : Option ℕ) (records : List Record) (old new : Seen)
        (end : Ending)
        → Answers (put_of name own) old new end →
        end.status ≡ 16 → IsKnown old records → IsSure new (after_begin records name) }
    ensures cut_put { (name : List ℕ) (own : Option ℕ) (records : List Record) (old new : Seen)
        (end : Ending)
        → Answers (put_of name own) old new end →
        end.status ≡ 14 → IsKnown old records
        → IsRefused 14 0 old new end ⊎ IsSure new (after_begin records name) }
    ensures get { (name : List ℕ) (records : List Record) (old new : Seen) (end : Ending)
        → Answers (GetOf name) old new end →
        IsDone end ⊎ (end.status ≡ 4) → IsKnown old records → IsSure new records }
    ensures drop { (name : List ℕ) (records : List Record) (old new : Seen) (end : Ending)
        → Answers (DropOf name) old new end →
        IsDone end → IsKnown old records → IsSure new (after_drop records name) }
    ensures list { (records : List Record) (old new : Seen) (end : Ending) → Answers ListAll old new end
        → IsDone end → IsKnown old records →
        IsSure new records }
    ensures audit { (records : List Record) (old new : Seen) (end : Ending) → Answers AuditAll old new end
        → IsDone end → IsKnown old records →
        (undecided : ℕ) × (counts : List ℕ) × IsSure new (after_audit records undecided counts)
        × IsTold (audit_lines (setup_in_effect records).tolerance (next_audit records) undecided counts) old
        new end }
    ensures repair { (records : List Record) (due : Due) (old new : Seen) (end : Ending)
        → Answers RepairAll old new end → IsDone end →
        IsKnown old records → due_of records ≡ Some due → IsSure new (after_repair records due) }
    ensures upgrade { (records : List Record) (old new : Seen) (end : Ending)
        → Answers UpgradeJournal old new end → IsDone end →
        IsKnown old records → IsSure new (after_upgrade records) }
    ensures scrub { (records : List Record) (old new : Seen) (end : Ending) → Answers ScrubAll old new end →
        IsDone end ⊎ ((end.status ≡ 4) ⊎ (end.status ≡ 13)) → IsKnown old records → IsSure new records }
    ensures pack { (records : List Record) (old new : Seen) (end : Ending)
        → Answers PackJournal old new end → IsDone end →
        IsKnown old records → IsSure new (packed records) }
    ensures failed_repair { (records : List Record) (old new : Seen) (end : Ending)
        → Answers RepairAll old new end →
        (end.status ≡ 4) ⊎ (end.status ≡ 13) → IsKnown old records → IsSure new records }
{}

/// A put that is done leaves its file, right on every provider that tells what it holds, and so does one that
/// was cut off or found no memory, where the next command finds its end in effect. Between two commands the
/// file stays so on each provider that nobody touches. A get, a list, an audit, an upgrade, a pack, a put and
/// a drop of another name leave it as it is, whatever comes of them, and so does a refusal. A repair that is
/// done makes each flagged provider right for it, where at most b providers are spoilt or fail; so does one
/// that was cut off, where the next command finds its end in effect. There a scrub that is done makes each
/// provider right for it that tells what it holds; and one that came to another end has done it no harm.
pub fn files_stay()
    ensures put { (name bytes : List ℕ) (own : Option ℕ) (records : List Record) (spoilt : ℕ → Bool)
        (old new : Seen)
        (end : Ending) →
        Answers (put_of name own) old new end → IsDone end → IsKnown old records → old.source ≡ Some bytes →
        ((j : ℕ) → j < (setup_in_effect records).n → spoilt j ≡ false
        → is_some (provider_at old.providers j).held ≡ true) →
        HasRightFile new (after_put records name (length bytes) own) name bytes spoilt }
    ensures put_in_effect { (name bytes : List ℕ) (own : Option ℕ) (records : List Record) (spoilt : ℕ → Bool)
        (old new next : Seen) (end : Ending) →
        Answers (put_of name own) old new end → IsSure old records → old.source ≡ Some bytes
        → Follows new next →
        IsKnown next (after_put records name (length bytes) own) →
        ((j : ℕ) → j < (setup_in_effect records).n → spoilt j ≡ false
        → is_some (provider_at old.providers j).held ≡ true) →
        HasRightFile new (after_put records name (length bytes) own) name bytes spoilt }
    ensures next { (name bytes : List ℕ) (records : List Record) (spoilt : ℕ → Bool) (new next : Seen)
        → HasRightFile new records name bytes spoilt →
        IsUntouched (setup_in_effect records).n spoilt new next
        → HasRightFile next records name bytes spoilt }
    ensures reads { (command : Command) (name bytes : List ℕ) (records after : List Record)
        (spoilt : ℕ → Bool) (old new : Seen) (end : Ending) →
        Answers command old new end → keeps_blocks command ≡ true
        → HasRightFile old records name bytes spoilt →
        IsThen command records old new after → HasRightFile new after name bytes spoilt }
    ensures refused { (status at : ℕ) (name bytes : List ℕ) (records : List Record) (spoilt : ℕ → Bool)
        (old new : Seen) (end : Ending) →
        IsRefused status at old new end → HasRightFile old records name bytes spoilt
        → HasRightFile new records name bytes spoilt }
    ensures others { (command : Command) (name bytes : List ℕ) (records after : List Record)
        (spoilt : ℕ → Bool) (old new : Seen) (end : Ending) →
        Answers command old new end → IsOfAnother name command → IsKnown old records
        → HasRightFile old records name bytes spoilt →
        IsThen command records old new after → HasRightFile new after name bytes spoilt }
    ensures repair { (name bytes : List ℕ) (records : List Record) (due : Due) (spoilt : ℕ → Bool)
        (old new : Seen) (end : Ending) →
        Answers RepairAll old new end → IsDone end → IsKnown old records → due_of records ≡ Some due
        → HasRightFile old records name bytes spoilt →
        IsSteady (setup_in_effect records).n spoilt old new
        → spoilt_below (setup_in_effect records).n spoilt ≤ (setup_in_effect records).b →
        ((j : ℕ) → j < (setup_in_effect records).n
        → is_flagged (setup_in_effect records).tolerance due.counts j ≡ true
        → is_some (provider_at old.providers j).held ≡ true) →
        HasRightFile new (after_repair records due) name bytes
        (λ j. spoilt j && not (is_flagged (setup_in_effect records).tolerance due.counts j)) }
    ensures scrub { (name bytes : List ℕ) (records : List Record) (spoilt untold : ℕ → Bool)
        (old new : Seen) (end : Ending) →
        Answers ScrubAll old new end → IsDone end → IsKnown old records
        → HasRightFile old records name bytes spoilt →
        IsSteady (setup_in_effect records).n spoilt old new
        → spoilt_below (setup_in_effect records).n spoilt ≤ (setup_in_effect records).b →
        ((j : ℕ) → j < (setup_in_effect records).n → untold j ≡ false
        → is_some (provider_at old.providers j).held ≡ true) →
        HasRightFile new records name bytes untold }
    ensures scrub_harms_none { (name bytes : List ℕ) (records : List Record) (spoilt : ℕ → Bool)
        (old new : Seen) (end : Ending) →
        Answers ScrubAll old new end → IsKnown old records → HasRightFile old records name bytes spoilt →
        IsSteady (setup_in_effect records).n spoilt old new
        → spoilt_below (setup_in_effect records).n spoilt ≤ (setup_in_effect records).b →
        HasRightFile new records name bytes spoilt }
    ensures repair_in_effect { (name bytes : List ℕ) (records : List Record) (due : Due) (spoilt : ℕ → Bool)
        (old new next : Seen) (end : Ending) →
        Answers RepairAll old new end → IsSure old records → due_of records ≡ Some due → Follows new next →
        IsKnown next (after_repair records due) → HasRightFile old records name bytes spoilt →
        IsSteady (setup_in_effect records).n spoilt old new
        → spoilt_below (setup_in_effect records).n spoilt ≤ (setup_in_effect records).b →
        ((j : ℕ) → j < (setup_in_effect records).n
        → is_flagged (setup_in_effect records).tolerance due.counts j ≡ true
        → is_some (provider_at old.providers j).held ≡ true) →
        HasRightFile new (after_repair records due) name bytes
        (λ j. spoilt j && not (is_flagged (setup_in_effect records).tolerance due.counts j)) }
{}

/// However an audit ended, where the next command finds its end in effect, it has asked each question of each
/// provider, and its counts are the verdicts on what it heard.
pub fn audits_in_effect_count_what_they_heard()
    ensures { (records : List Record) (undecided : ℕ) (counts : List ℕ) (old new next : Seen) (end : Ending)
        → Answers AuditAll old new end →
        IsSure old records → Follows new next → IsKnown next (after_audit records undecided counts) →
        HearsRounds (ran_to (after_audit records undecided counts) records old new end.heard)
        (next_audit records)
        × CountsHeard (ran_to (after_audit records undecided counts) records old new end.heard)
        (next_audit records) undecided counts }
{}

/// A get of such a file gives its bytes, or finds no memory, where at most b providers are spoilt or fail in
/// it, unless the disk or the sink failed; with at most b + 1 of them status 0 means that it gave its bytes.
/// A get of a name that has no file ends with 3, or finds no memory, unless the disk failed. A get of an
/// empty file never ends in a fault of the sink.
pub fn gets_tell_what_stands()
    ensures complete { (name bytes : List ℕ) (records : List Record) (spoilt : ℕ → Bool) (old new : Seen)
        (end : Ending) →
        Answers (GetOf name) old new end → IsKnown old records → HasRightFile old records name bytes spoilt →
        IsSteady (setup_in_effect records).n spoilt old new
        → spoilt_below (setup_in_effect records).n spoilt ≤ (setup_in_effect records).b →
        (Rose old.disk_faults new.disk_faults → ⊥) → (Rose old.sink_faults new.sink_faults → ⊥)
        → GivesUnlessMemory bytes old new end }
    ensures right { (name bytes : List ℕ) (records : List Record) (spoilt : ℕ → Bool) (old new : Seen)
        (end : Ending) →
        Answers (GetOf name) old new end → IsKnown old records → HasRightFile old records name bytes spoilt →
        IsSteady (setup_in_effect records).n spoilt old new
        → spoilt_below (setup_in_effect records).n spoilt ≤ (setup_in_effect records).b + 1
        → end.status ≡ 0 →
        new.sink ≡ told_then old.sink bytes }
    ensures missing { (name : List ℕ) (records : List Record) (old new : Seen) (end : Ending)
        → Answers (GetOf name) old new end →
        IsKnown old records → is_name name ≡ true → file_of records name ≡ None
        → (Rose old.disk_faults new.disk_faults → ⊥) →
        (end.status ≡ 3) ⊎ (end.status ≡ 70) }
    ensures empty { (name : List ℕ) (records : List Record) (file : File) (old new : Seen) (end : Ending)
        → Answers (GetOf name) old new end →
        IsKnown old records → file_of records name ≡ Some file → file.size ≡ 0 → end.status ≢ 15 }
{}

/// An init, a put and a get over the same devices, where at most b providers are spoilt since the put or fail
/// in the get: the get gives the bytes of the put, unless the disk or the sink fails in it, or no memory is
/// found. Stops between the commands do no harm. Over a fresh disk with a good key, name and length, all
/// three end with 0, unless a device fails or no memory is found. A get after a drop ends with 3, and after a
/// put, an audit and a repair it gives the bytes of the put though others are spoilt by then than those that
/// were flagged, and after a scrub though all others are spoilt by then than before.
pub fn put_files_are_got()
    ensures whole { (numbers : Numbers) (key name bytes : List ℕ) (spoilt : ℕ → Bool) (cells : Cells)
        (a b c d e f : Seen) (first second last : Ending) →
        Answers (InitWith numbers) a b first → Answers (PutUnder name) c d second
        → Answers (GetOf name) e f last → Follows b c → Follows d e →
        a.disk ≡ Some cells → IsFree cells → IsKeyed numbers key a → c.source ≡ Some bytes
        → is_name name ≡ true → length bytes ≤ largest_file →
        ((j : ℕ) → j < numbers.n → spoilt j ≡ false → is_some (provider_at c.providers j).held ≡ true) →
        IsUntouched numbers.n spoilt d e → IsSteady numbers.n spoilt e f
        → spoilt_below numbers.n spoilt ≤ numbers.b →
        IsFaultless a b → IsFaultless c d → IsFaultless e f → first.status ≢ 70 → second.status ≢ 70
        → last.status ≢ 70 →
        (first.status ≡ 0) × (second.status ≡ 0) × GivesText bytes e f last }
    ensures got { (numbers : Numbers) (key name bytes : List ℕ) (own : Option ℕ) (spoilt : ℕ → Bool)
        (a b c d e f : Seen)
        (first second last : Ending) →
        Answers (InitWith numbers) a b first → Answers (put_of name own) c d second
        → Answers (GetOf name) e f last → Follows b c → Follows d e →
        is_some a.disk ≡ true → ((text : List ℕ) × (a.source ≡ Some text) × IsKeyForm text key)
        → c.source ≡ Some bytes →
        IsDone first → IsDone second
        → ((j : ℕ) → j < numbers.n → spoilt j ≡ false → is_some (provider_at c.providers j).held ≡ true) →
        IsUntouched numbers.n spoilt d e → IsSteady numbers.n spoilt e f
        → spoilt_below numbers.n spoilt ≤ numbers.b →
        (Rose e.disk_faults f.disk_faults → ⊥) → (Rose e.sink_faults f.sink_faults → ⊥)
        → GivesUnlessMemory bytes e f last }
    ensures again { (name bytes : List ℕ) (own : Option ℕ) (records : List Record) (spoilt : ℕ → Bool)
        (c d e f : Seen)
        (second last : Ending) →
        Answers (put_of name own) c d second → Answers (GetOf name) e f last → Follows d e → IsKnown c records
        → c.source ≡ Some bytes →
        IsDone second → ((j : ℕ) → j < (setup_in_effect records).n → spoilt j ≡ false
        → is_some (provider_at c.providers j).held ≡ true) →
        IsUntouched (setup_in_effect records).n spoilt d e → IsSteady (setup_in_effect records).n spoilt e f →
        spoilt_below (setup_in_effect records).n spoilt ≤ (setup_in_effect records).b →
        (Rose e.disk_faults f.disk_faults → ⊥) → (Rose e.sink_faults f.sink_faults → ⊥)
        → GivesUnlessMemory bytes e f last }
    ensures dropped { (name : List ℕ) (records : List Record) (c d e f : Seen) (second last : Ending)
        → Answers (DropOf name) c d second →
        Answers (GetOf name) e f last → Follows d e → IsKnown c records → IsDone second
        → (Rose e.disk_faults f.disk_faults → ⊥) →
        (last.status ≡ 3) ⊎ (last.status ≡ 70) }
    ensures repaired { (name bytes : List ℕ) (records : List Record) (spoilt later : ℕ → Bool) (due : Due)
        (c d e f : Seen) (second last : Ending) →
        Answers RepairAll c d second → Answers (GetOf name) e f last → Follows d e → IsKnown c records
        → due_of records ≡ Some due →
        HasRightFile c records name bytes spoilt → IsDone second
        → IsSteady (setup_in_effect records).n spoilt c d →
        spoilt_below (setup_in_effect records).n spoilt ≤ (setup_in_effect records).b →
        ((j : ℕ) → j < (setup_in_effect records).n
        → is_flagged (setup_in_effect records).tolerance due.counts j ≡ true
        → is_some (provider_at c.providers j).held ≡ true) →
        ((j : ℕ) → later j ≡ false → (spoilt j && not (is_flagged (setup_in_effect records).tolerance
        due.counts j)) ≡ false) →
        IsUntouched (setup_in_effect records).n later d e → IsSteady (setup_in_effect records).n later e f →
        spoilt_below (setup_in_effect records).n later ≤ (setup_in_effect records).b →
        (Rose e.disk_faults f.disk_faults → ⊥) → (Rose e.sink_faults f.sink_faults → ⊥)
        → GivesUnlessMemory bytes e f last }
    ensures scrubbed { (name bytes : List ℕ) (records : List Record) (spoilt later : ℕ → Bool)
        (c d e f : Seen) (second last : Ending) →
        Answers ScrubAll c d second → Answers (GetOf name) e f last → Follows d e → IsKnown c records →
        HasRightFile c records name bytes spoilt → IsDone second
        → IsSteady (setup_in_effect records).n spoilt c d →
        spoilt_below (setup_in_effect records).n spoilt ≤ (setup_in_effect records).b →
        ((j : ℕ) → j < (setup_in_effect records).n → later j ≡ false
        → is_some (provider_at c.providers j).held ≡ true) →
        IsUntouched (setup_in_effect records).n later d e → IsSteady (setup_in_effect records).n later e f →
        spoilt_below (setup_in_effect records).n later ≤ (setup_in_effect records).b →
        (Rose e.disk_faults f.disk_faults → ⊥) → (Rose e.sink_faults f.sink_faults → ⊥)
        → GivesUnlessMemory bytes e f last }
    ensures swept { (name bytes : List ℕ) (own : Option ℕ) (records : List Record) (spoilt later : ℕ → Bool)
        (a b c d e f : Seen) (first second last : Ending) →
        Answers (put_of name own) a b first → Answers ScrubAll c d second → Answers (GetOf name) e f last →
        Follows b c → Follows d e → IsKnown a records → a.source ≡ Some bytes → IsDone first
        → IsDone second →
        ((j : ℕ) → j < (setup_in_effect records).n → spoilt j ≡ false
        → is_some (provider_at a.providers j).held ≡ true) →
        IsUntouched (setup_in_effect records).n spoilt b c → IsSteady (setup_in_effect records).n spoilt c d →
        spoilt_below (setup_in_effect records).n spoilt ≤ (setup_in_effect records).b →
        ((j : ℕ) → j < (setup_in_effect records).n → later j ≡ false
        → is_some (provider_at c.providers j).held ≡ true) →
        IsUntouched (setup_in_effect records).n later d e → IsSteady (setup_in_effect records).n later e f →
        spoilt_below (setup_in_effect records).n later ≤ (setup_in_effect records).b →
        (Rose e.disk_faults f.disk_faults → ⊥) → (Rose e.sink_faults f.sink_faults → ⊥)
        → GivesUnlessMemory bytes e f last }
    ensures mended { (name bytes : List ℕ) (own : Option ℕ) (records : List Record) (spoilt : ℕ → Bool)
        (a b c d e f g h : Seen) (first second third last : Ending) →
        Answers (put_of name own) a b first → Answers AuditAll c d second → Answers RepairAll e f third
        → Answers (GetOf name) g h last →
        Follows b c → Follows d e → Follows f g → IsKnown a records → a.source ≡ Some bytes → IsDone first
        → IsDone second → IsDone third →
        ((j : ℕ) → j < (setup_in_effect records).n → spoilt j ≡ false
        → is_some (provider_at a.providers j).held ≡ true) →
        IsUntouched (setup_in_effect records).n spoilt b c
        → IsUntouched (setup_in_effect records).n spoilt d e
        → IsSteady (setup_in_effect records).n spoilt e f →
        spoilt_below (setup_in_effect records).n spoilt ≤ (setup_in_effect records).b →
        (undecided : ℕ) × (counts : List ℕ)
        × IsTold (audit_lines (setup_in_effect records).tolerance (next_audit records) undecided counts) c d
        second
        × (((j : ℕ) → j < (setup_in_effect records).n
        → is_flagged (setup_in_effect records).tolerance counts j ≡ true
        → is_some (provider_at e.providers j).held ≡ true) → (later : ℕ → Bool) →
        ((j : ℕ) → later j ≡ false → (spoilt j && not (is_flagged (setup_in_effect records).tolerance counts
        j)) ≡ false) →
        IsUntouched (setup_in_effect records).n later f g → IsSteady (setup_in_effect records).n later g h →
        spoilt_below (setup_in_effect records).n later ≤ (setup_in_effect records).b →
        (Rose g.disk_faults h.disk_faults → ⊥) → (Rose g.sink_faults h.sink_faults → ⊥)
        → GivesUnlessMemory bytes g h last) }
{}
