//! What a user may believe of `init` and `list`, from their status and the counts of the devices.
ghost use Rattle.std.specs.Prelude.{◌≡◌, ◌≢◌, ◌⊎◌, ℕ, ◌<◌, ◌≤◌, true, false, List, [], length, Some};
ghost use Rattle.device_defs.specs.Cells.{Cells};
ghost use Rattle.device_defs.specs.Faults.{Rose};
ghost use Rattle.record_defs.specs.Records.{Record, is_setup};
ghost use Rattle.record_defs.specs.Table.{files_of};
ghost use Rattle.command_defs.specs.Forms.{Numbers, InitWith, ListAll};
ghost use Rattle.command_defs.specs.Keys.{IsKeyForm};
ghost use Rattle.command_defs.specs.Seen.{Seen, Ending};
ghost use Rattle.opening_defs.specs.Journals.{journal_read, IsBadInit, IsSetUpAlready, IsFree};
ghost use Rattle.command_defs.specs.Inits.{setup_with};
ghost use Rattle.command_defs.specs.Lines.{ready_line, list_lines};
ghost use Rattle.command_defs.specs.Commands.{Answers};
ghost use Rattle.command_laws.specs.Ends.{IsDone, IsKnown, GivesUnlessMemory, EndsInOrder};
ghost use Rattle.command_laws.specs.Opened.{IsKeyed, IsInit, IsListed};

/// An init of status 0 or 15 has read its source to the end, a key, and has set a store up with it. With a
/// key, over a disk that reads no records, an init ends so, or finds no memory, unless the source, the disk
/// or the sink failed.
pub fn inits_set_up()
    ensures done { (numbers : Numbers) (old new : Seen) (end : Ending)
        → Answers (InitWith numbers) old new end → IsDone end →
        IsInit numbers old new end }
    ensures ends_well { (numbers : Numbers) (key : List ℕ) (cells : Cells) (old new : Seen) (end : Ending) →
        Answers (InitWith numbers) old new end → IsKeyed numbers key old → old.disk ≡ Some cells
        → IsFree cells →
        (Rose old.source_faults new.source_faults → ⊥) → (Rose old.disk_faults new.disk_faults → ⊥) →
        (Rose old.sink_faults new.sink_faults → ⊥) → GivesUnlessMemory ready_line old new end }
{}

/// The refusals of an init: numbers that are no setup (20), too few providers (22), a source that tells no
/// key (18), a disk whose bytes are no journal or begin with another record (8, with the place), and one that
/// is set up already (10). Each status comes only where it is so; and where it is so, and no cause before it
/// applies, it comes, or no memory is found, unless the source or the disk failed.
pub fn init_refusals_are_exact()
    ensures bad_setup_only { (numbers : Numbers) (old new : Seen) (end : Ending)
        → Answers (InitWith numbers) old new end → end.status ≡ 20 →
        is_setup (setup_with numbers []) ≡ false }
    ensures bad_setup { (numbers : Numbers) (old new : Seen) (end : Ending)
        → Answers (InitWith numbers) old new end →
        is_setup (setup_with numbers []) ≡ false → (end.status ≡ 20) ⊎ (end.status ≡ 70) }
    ensures too_few_only { (numbers : Numbers) (old new : Seen) (end : Ending)
        → Answers (InitWith numbers) old new end → end.status ≡ 22 →
        (is_setup (setup_with numbers []) ≡ true) × (length old.providers < numbers.n) }
    ensures too_few { (numbers : Numbers) (old new : Seen) (end : Ending)
        → Answers (InitWith numbers) old new end →
        is_setup (setup_with numbers []) ≡ true → length old.providers < numbers.n
        → (end.status ≡ 22) ⊎ (end.status ≡ 70) }
    ensures bad_key_only { (numbers : Numbers) (bytes key : List ℕ) (old new : Seen) (end : Ending)
        → Answers (InitWith numbers) old new end →
        old.source ≡ Some bytes → end.status ≡ 18 → IsKeyForm bytes key → ⊥ }
    ensures bad_key { (numbers : Numbers) (bytes : List ℕ) (old new : Seen) (end : Ending)
        → Answers (InitWith numbers) old new end →
        is_setup (setup_with numbers []) ≡ true → numbers.n ≤ length old.providers → old.source ≡ Some bytes →
        ((key : List ℕ) → IsKeyForm bytes key → ⊥) → (Rose old.source_faults new.source_faults → ⊥)
        → (end.status ≡ 18) ⊎ (end.status ≡ 70) }
    ensures bad_journal_only { (numbers : Numbers) (cells : Cells) (old new : Seen) (end : Ending)
        → Answers (InitWith numbers) old new end →
        old.disk ≡ Some cells → end.status ≡ 8
        → (9 < length (journal_read cells)) × IsBadInit (journal_read cells) end.at }
    ensures bad_journal { (numbers : Numbers) (key : List ℕ) (cells : Cells) (at : ℕ) (old new : Seen)
        (end : Ending) →
        Answers (InitWith numbers) old new end → IsKeyed numbers key old → old.disk ≡ Some cells
        → 9 < length (journal_read cells) →
        IsBadInit (journal_read cells) at → (Rose old.source_faults new.source_faults → ⊥)
        → (Rose old.disk_faults new.disk_faults → ⊥) →
        ((end.status ≡ 8) × (end.at ≡ at)) ⊎ (end.status ≡ 70) }
    ensures already_only { (numbers : Numbers) (cells : Cells) (old new : Seen) (end : Ending)
        → Answers (InitWith numbers) old new end →
        old.disk ≡ Some cells → end.status ≡ 10
        → (9 < length (journal_read cells)) × IsSetUpAlready (journal_read cells) }
    ensures already { (numbers : Numbers) (key : List ℕ) (cells : Cells) (old new : Seen) (end : Ending) →
        Answers (InitWith numbers) old new end → IsKeyed numbers key old → old.disk ≡ Some cells
        → 9 < length (journal_read cells) →
        IsSetUpAlready (journal_read cells) → (Rose old.source_faults new.source_faults → ⊥)
        → (Rose old.disk_faults new.disk_faults → ⊥) →
        (end.status ≡ 10) ⊎ (end.status ≡ 70) }
{}

/// A list of status 0 or 15 has written the lines of the files in effect, or a part of them at 15. Over a
/// disk that tells a list ends with all of them, or finds no memory, unless the disk or the sink failed;
/// where there is no file, never in a fault of the sink. Over any devices a list ends with its lines, or
/// finds no memory, or its store is not opened, with the cause, unless the sink failed.
pub fn lists_give_the_files()
    ensures done { (old new : Seen) (end : Ending) → Answers ListAll old new end → IsDone end
        → IsListed old new end }
    ensures ends_well { (records : List Record) (old new : Seen) (end : Ending)
        → Answers ListAll old new end → IsKnown old records →
        (Rose old.disk_faults new.disk_faults → ⊥) → (Rose old.sink_faults new.sink_faults → ⊥) →
        GivesUnlessMemory (list_lines (files_of records)) old new end }
    ensures empty { (records : List Record) (old new : Seen) (end : Ending) → Answers ListAll old new end
        → IsKnown old records →
        files_of records ≡ [] → end.status ≢ 15 }
    ensures ends { (old new : Seen) (end : Ending) → Answers ListAll old new end
        → (Rose old.sink_faults new.sink_faults → ⊥) →
        EndsInOrder ListAll old new end }
{}
