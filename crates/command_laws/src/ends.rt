//! What a user may believe of a command, from its status and the counts of its devices: no run of its job and
//! no state stands in it.
ghost use Rattle.std.specs.Prelude.{◌≡◌, ◌≢◌, ◌⊎◌, ℕ, ◌+◌, ◌-◌, ◌^◌, ◌<◌, ◌≤◌, true, false, List, length, Option, Some, None};
ghost use Rattle.column_defs.specs.Verdicts.{is_flagged};
ghost use Rattle.device_defs.specs.Cells.{Cells};
ghost use Rattle.device_defs.specs.Faults.{Rose};
ghost use Rattle.device_defs.specs.Told.{told_then, TakesFront};
ghost use Rattle.record_defs.specs.Records.{Record, is_name, largest_file, largest_journal, all_profiles};
ghost use Rattle.record_defs.specs.Areas.{Area, other_area, end_in, text_length};
ghost use Rattle.record_defs.specs.Packed.{packed};
ghost use Rattle.record_defs.specs.Table.{File, Due, version_of, next_id, file_of, due_of};
ghost use Rattle.record_defs.specs.Reading.{HasNoSetup};
ghost use Rattle.machine_defs.specs.Jobs.{Kind, PutJob, DropJob, AuditJob, RepairJob, UpgradeJob};
ghost use Rattle.machine_defs.specs.Alone.{reaches_over};
ghost use Rattle.machine_defs.specs.Events.{AreBytes};
ghost use Rattle.machine_defs.specs.Heard.{HoldsForgery};
ghost use Rattle.machine_defs.specs.Refusals.{Refusal};
ghost use Rattle.machine_defs.specs.Sights.{is_crowded_for};
ghost use Rattle.command_defs.specs.Forms.{Command, Numbers, RowOf, InitWith, GetOf, DropOf, ListAll, AuditAll, RepairAll, UpgradeJournal, ScrubAll, PackJournal};
ghost use Rattle.command_defs.specs.Seen.{Seen, Ending, IsRefused, provider_at};
ghost use Rattle.opening_defs.specs.Journals.{journal_read, IsRead, IsBadStart};
ghost use Rattle.command_defs.specs.Opens.{setup_in_effect, object_in_effect};
ghost use Rattle.command_defs.specs.Refusals.{sight_over, refusal_over, pack_refusal_over, status_of};
ghost use Rattle.command_defs.specs.Lines.{stored_line, dropped_line, upgraded_line, packed_line};
ghost use Rattle.command_defs.specs.Jobs.{AnswersJob};
ghost use Rattle.command_defs.specs.Commands.{AnswersAlone, Answers};
ghost use Rattle.job_laws.specs.Failing.{bad_seen};
ghost use Rattle.command_laws.specs.Ends.{IsDone, IsKnown, GivesUnlessMemory, EndsInOrder, SameHolds, opens_store, put_of, put_refusal, FaultsHaveCauses, AreSafe, HoldsFile, IsWholePut, IsDropped, IsAudited, IsRepaired, IsUpgraded, IsScrubbed, IsPacked};
ghost use Rattle.command_laws.specs.Kept.{LosesFile, LosesRepair, LosesScrub};

/// A get of a file gives it whole, or finds no memory, where at most b providers are wrong for the file or
/// failed, unless the disk or the sink failed. With at most b + 1 such providers what it heard holds no
/// forgery, it never gives a wrong byte, and at status 0 it gave the file. However many there are, a wrong
/// byte means that what it heard holds a forgery. Over any devices, also such as tell nothing, a get ends
/// with its text, or finds no memory, or is refused with its cause, or has found a row lost, unless the disk
/// or the sink failed.
pub fn gets_give_the_file()
    ensures complete { (name bytes : List ℕ) (records : List Record) (file : File) (old new : Seen)
        (end : Ending) → Answers (GetOf name) old new end →
        IsKnown old records → file_of records name ≡ Some file → AreBytes bytes → length bytes ≡ file.size →
        bad_seen records old new file bytes ≤ (setup_in_effect records).b
        → (Rose old.disk_faults new.disk_faults → ⊥) →
        (Rose old.sink_faults new.sink_faults → ⊥) → GivesUnlessMemory bytes old new end }
    ensures right { (name bytes : List ℕ) (records : List Record) (file : File) (old new : Seen)
        (end : Ending) → Answers (GetOf name) old new end →
        IsKnown old records → file_of records name ≡ Some file → AreBytes bytes → length bytes ≡ file.size →
        bad_seen records old new file bytes ≤ (setup_in_effect records).b + 1 → end.status ≡ 0
        → new.sink ≡ told_then old.sink bytes }
    ensures right_front { (name bytes : List ℕ) (records : List Record) (file : File) (old new : Seen)
        (end : Ending) → Answers (GetOf name) old new end →
        IsKnown old records → file_of records name ≡ Some file → AreBytes bytes → length bytes ≡ file.size →
        bad_seen records old new file bytes ≤ (setup_in_effect records).b + 1
        → TakesFront old.sink new.sink bytes }
    ensures unforged { (name bytes : List ℕ) (records : List Record) (file : File) (old new : Seen)
        (end : Ending) → Answers (GetOf name) old new end →
        IsKnown old records → file_of records name ≡ Some file
        → bad_seen records old new file bytes ≤ (setup_in_effect records).b + 1 →
        HoldsForgery (object_in_effect records file) bytes 1 end.heard → ⊥ }
    ensures forged { (name bytes : List ℕ) (records : List Record) (file : File) (old new : Seen)
        (end : Ending) → Answers (GetOf name) old new end →
        IsKnown old records → file_of records name ≡ Some file → AreBytes bytes → length bytes ≡ file.size
        → end.status ≡ 0 →
        (new.sink ≡ told_then old.sink bytes)
        ⊎ HoldsForgery (object_in_effect records file) bytes 1 end.heard }
    ensures forged_front { (name bytes : List ℕ) (records : List Record) (file : File) (old new : Seen)
        (end : Ending) → Answers (GetOf name) old new end →
        IsKnown old records → file_of records name ≡ Some file → AreBytes bytes → length bytes ≡ file.size →
        TakesFront old.sink new.sink bytes
        ⊎ HoldsForgery (object_in_effect records file) bytes 1 end.heard }
    ensures ends { (name : List ℕ) (old new : Seen) (end : Ending) → Answers (GetOf name) old new end
        → (Rose old.disk_faults new.disk_faults → ⊥) →
        (Rose old.sink_faults new.sink_faults → ⊥)
        → EndsInOrder (GetOf name) old new end ⊎ LosesFile name old new end }
{}

/// A get, a list, an audit, an upgrade and a pack leave what each provider holds, at any status.
pub fn reads_leave_what_is_held()
    ensures get { (name : List ℕ) (old new : Seen) (end : Ending) → Answers (GetOf name) old new end
        → SameHolds old new }
    ensures list { (old new : Seen) (end : Ending) → Answers ListAll old new end → SameHolds old new }
    ensures audit { (old new : Seen) (end : Ending) → Answers AuditAll old new end → SameHolds old new }
    ensures upgrade { (old new : Seen) (end : Ending) → Answers UpgradeJournal old new end
        → SameHolds old new }
    ensures pack { (old new : Seen) (end : Ending) → Answers PackJournal old new end → SameHolds old new }
{}

/// A put of status 0 or 15 has stored its whole source on every provider, and brought it into effect, with
/// the profile that it names or else the setup's. A put ends so, or finds no memory, or is refused with its
/// cause, or is given up since its source is too long, unless a count of faults rose: the disk's, that of a
/// provider's stores, the source's or the sink's. Over a disk and a source that tell, one that is not refused
/// and whose source is not too long ends so.
pub fn puts_store_the_source()
    ensures done { (name : List ℕ) (own : Option ℕ) (old new : Seen) (end : Ending)
        → Answers (put_of name own) old new end → IsDone end → IsWholePut name own old new end }
    ensures ends_well { (name bytes : List ℕ) (own : Option ℕ) (records : List Record) (old new : Seen)
        (end : Ending) → Answers (put_of name own) old new end →
        (known : IsKnown old records) → old.source ≡ Some bytes
        → refusal_over known.opened.area records (PutJob name bytes) own ≡ None
        → (Rose old.disk_faults new.disk_faults → ⊥) →
        ((j : ℕ) → j < (setup_in_effect records).n
        → Rose (provider_at old.providers j).store_faults (provider_at new.providers j).store_faults → ⊥) →
        (Rose old.source_faults new.source_faults → ⊥) → (Rose old.sink_faults new.sink_faults → ⊥) →
        GivesUnlessMemory (stored_line name (length bytes)) old new end }
    ensures ends { (name : List ℕ) (own : Option ℕ) (old new : Seen) (end : Ending)
        → Answers (put_of name own) old new end → (Rose old.disk_faults new.disk_faults → ⊥) →
        ((j : ℕ) → Rose (provider_at old.providers j).store_faults
        (provider_at new.providers j).store_faults → ⊥) →
        (Rose old.source_faults new.source_faults → ⊥) → (Rose old.sink_faults new.sink_faults → ⊥)
        → EndsInOrder (put_of name own) old new end }
{}

/// A put that names a profile is not refused where the journal has its second version, the profile is one,
/// the name and the length are good, and its two records and their numbers find room.
pub fn own_profiles_are_taken()
    ensures { (name bytes : List ℕ) (own : ℕ) (area : Area) (records : List Record) → version_of records ≡ 2
        → own < all_profiles → is_name name ≡ true → length bytes ≤ largest_file
        → is_crowded_for (sight_over area records) name ≡ false
        → end_in area records + 26 + length name ≤ largest_journal → next_id records ≤ 2 ^ 64 - 32
        → refusal_over area records (PutJob name bytes) (Some own) ≡ None }
{}

/// A drop of status 0 or 15 has taken the file out of effect and away from each provider, but for blocks that
/// stay where a count rose. A drop ends so, or finds no memory, or is refused with its cause, unless the disk
/// or the sink failed.
pub fn drops_take_the_file_away()
    ensures done { (name : List ℕ) (old new : Seen) (end : Ending) → Answers (DropOf name) old new end
        → IsDone end → IsDropped name old new end }
    ensures ends_well { (name : List ℕ) (records : List Record) (old new : Seen) (end : Ending)
        → Answers (DropOf name) old new end →
        (known : IsKnown old records) → refusal_over known.opened.area records (DropJob name) None ≡ None
        → (Rose old.disk_faults new.disk_faults → ⊥) →
        (Rose old.sink_faults new.sink_faults → ⊥) → GivesUnlessMemory (dropped_line name) old new end }
    ensures ends { (name : List ℕ) (old new : Seen) (end : Ending) → Answers (DropOf name) old new end
        → (Rose old.disk_faults new.disk_faults → ⊥) →
        (Rose old.sink_faults new.sink_faults → ⊥) → EndsInOrder (DropOf name) old new end }
{}

/// An audit of status 0 or 15 has counted the verdicts on what it heard. An audit ends so, or finds no
/// memory, or is refused with its cause, unless the disk or the sink failed, whatever providers do.
pub fn audits_count_what_they_hear()
    ensures done { (old new : Seen) (end : Ending) → Answers AuditAll old new end → IsDone end
        → IsAudited old new end }
    ensures ends_well { (records : List Record) (old new : Seen) (end : Ending)
        → Answers AuditAll old new end → (known : IsKnown old records) →
        refusal_over known.opened.area records AuditJob None ≡ None
        → (Rose old.disk_faults new.disk_faults → ⊥) → (Rose old.sink_faults new.sink_faults → ⊥) →
        (end.status ≡ 0) ⊎ (end.status ≡ 70) }
    ensures ends { (old new : Seen) (end : Ending) → Answers AuditAll old new end
        → (Rose old.disk_faults new.disk_faults → ⊥) →
        (Rose old.sink_faults new.sink_faults → ⊥) → EndsInOrder AuditAll old new end }
{}

/// A repair of status 0 or 15 has written each flagged provider anew, from what the fetches gave; of each
/// file for which at most b providers are wrong or failed, whatever is of the others, these are the very
/// blocks. A repair that is not refused ends so, or finds no memory, where it is so of each file, unless a
/// count of faults rose: the disk's, that of a provider's stores, or the sink's. Over any devices a repair
/// ends so, or finds no memory, or is refused with its cause, or has found a row lost, unless such a count
/// rose.
pub fn repairs_write_anew()
    ensures done { (old new : Seen) (end : Ending) → Answers RepairAll old new end → IsDone end
        → IsRepaired old new end }
    ensures ends_well { (records : List Record) (old new : Seen) (end : Ending) (bytes : ℕ → List ℕ)
        → Answers RepairAll old new end →
        (known : IsKnown old records) → refusal_over known.opened.area records RepairJob None ≡ None
        → (Rose old.disk_faults new.disk_faults → ⊥) →
        ((j : ℕ) → j < (setup_in_effect records).n
        → Rose (provider_at old.providers j).store_faults (provider_at new.providers j).store_faults → ⊥) →
        (Rose old.sink_faults new.sink_faults → ⊥) →
        AreSafe records old new bytes → (end.status ≡ 0) ⊎ (end.status ≡ 70) }
    ensures right { (name bytes : List ℕ) (records : List Record) (file : File) (due : Due) (j : ℕ)
        (old new : Seen) (end : Ending) →
        Answers RepairAll old new end → IsKnown old records → IsDone end → due_of records ≡ Some due
        → file_of records name ≡ Some file →
        length bytes ≡ file.size → bad_seen records old new file bytes ≤ (setup_in_effect records).b
        → j < (setup_in_effect records).n →
        is_flagged (setup_in_effect records).tolerance due.counts j ≡ true
        → HoldsFile records new bytes file j }
    ensures ends { (old new : Seen) (end : Ending) → Answers RepairAll old new end
        → (Rose old.disk_faults new.disk_faults → ⊥) →
        ((j : ℕ) → Rose (provider_at old.providers j).store_faults
        (provider_at new.providers j).store_faults → ⊥) →
        (Rose old.sink_faults new.sink_faults → ⊥)
        → EndsInOrder RepairAll old new end ⊎ LosesRepair old new end }
{}

/// A scrub of status 0 or 15 has had every row of every place accepted, has told what differed, and each
/// provider holds the columns of what was accepted; of each file for which at most b providers are wrong or
/// failed, whatever is of the others, these are the very blocks. Where it is so of each file a scrub ends so,
/// or finds no memory, unless a count of faults rose: the disk's, that of a provider's stores, or the sink's.
/// Over any devices a scrub ends so, or finds no memory, or its store is not opened, with the cause, or it
/// has found a row lost, unless a count of stores or of the sink rose.
pub fn scrubs_sweep()
    ensures done { (old new : Seen) (end : Ending) → Answers ScrubAll old new end → IsDone end
        → IsScrubbed old new end }
    ensures ends_well { (records : List Record) (old new : Seen) (end : Ending) (bytes : ℕ → List ℕ)
        → Answers ScrubAll old new end →
        IsKnown old records → (Rose old.disk_faults new.disk_faults → ⊥) →
        ((j : ℕ) → j < (setup_in_effect records).n
        → Rose (provider_at old.providers j).store_faults (provider_at new.providers j).store_faults → ⊥) →
        (Rose old.sink_faults new.sink_faults → ⊥) →
        AreSafe records old new bytes → (end.status ≡ 0) ⊎ (end.status ≡ 70) }
    ensures right { (name bytes : List ℕ) (records : List Record) (file : File) (j : ℕ) (old new : Seen)
        (end : Ending) →
        Answers ScrubAll old new end → IsKnown old records → IsDone end → file_of records name ≡ Some file →
        length bytes ≡ file.size → bad_seen records old new file bytes ≤ (setup_in_effect records).b
        → j < (setup_in_effect records).n →
        HoldsFile records new bytes file j }
    ensures ends { (old new : Seen) (end : Ending) → Answers ScrubAll old new end →
        ((j : ℕ) → Rose (provider_at old.providers j).store_faults
        (provider_at new.providers j).store_faults → ⊥) →
        (Rose old.sink_faults new.sink_faults → ⊥)
        → EndsInOrder ScrubAll old new end ⊎ LosesScrub old new end }
{}

/// An upgrade of status 0 or 15 has given the journal its second version, with the same files in effect, and
/// left what each provider holds. One that is not refused ends so, or finds no memory, unless the disk or the
/// sink failed; it is not refused where the journal has its first version and room for the record.
pub fn upgrades_end_well()
    ensures done { (old new : Seen) (end : Ending) → Answers UpgradeJournal old new end → IsDone end
        → IsUpgraded old new end }
    ensures ends_well { (records : List Record) (old new : Seen) (end : Ending)
        → Answers UpgradeJournal old new end → (known : IsKnown old records) →
        refusal_over known.opened.area records UpgradeJob None ≡ None
        → (Rose old.disk_faults new.disk_faults → ⊥) → (Rose old.sink_faults new.sink_faults → ⊥) →
        GivesUnlessMemory upgraded_line old new end }
    ensures ends { (old new : Seen) (end : Ending) → Answers UpgradeJournal old new end
        → (Rose old.disk_faults new.disk_faults → ⊥) →
        (Rose old.sink_faults new.sink_faults → ⊥) → EndsInOrder UpgradeJournal old new end }
    ensures begins { (area : Area) (records : List Record) → version_of records ≡ 1
        → end_in area records + 3 ≤ largest_journal → refusal_over area records UpgradeJob None ≡ None }
{}

/// A pack of status 0 or 15 has put the packed records in the place of those before, of which a start makes
/// the same table, and left each provider as it was. One that is not refused ends so, or finds no memory,
/// unless the disk or the sink failed; it is not refused where the journal has its second version and does
/// not reach from the first area into the second.
pub fn packs_end_well()
    ensures done { (old new : Seen) (end : Ending) → Answers PackJournal old new end → IsDone end
        → IsPacked old new end }
    ensures ends_well { (records : List Record) (old new : Seen) (end : Ending)
        → Answers PackJournal old new end → (known : IsKnown old records) →
        pack_refusal_over known.opened.area records ≡ None → (Rose old.disk_faults new.disk_faults → ⊥)
        → (Rose old.sink_faults new.sink_faults → ⊥) →
        GivesUnlessMemory (packed_line (text_length known.opened.area records)
        (text_length (other_area known.opened.area) (packed records))) old new end }
    ensures ends { (old new : Seen) (end : Ending) → Answers PackJournal old new end
        → (Rose old.disk_faults new.disk_faults → ⊥) →
        (Rose old.sink_faults new.sink_faults → ⊥) → EndsInOrder PackJournal old new end }
    ensures begins { (area : Area) (records : List Record) → version_of records ≡ 2
        → reaches_over area records ≡ false → pack_refusal_over area records ≡ None }
{}

/// A job has the status of a refusal only where that is the first of its refusals to apply; and where one
/// applies, the command ends with its status, or that of no memory, and has changed nothing. So it is of the
/// job of a command over records that were read, and of a command over a disk that tells; and so of a pack,
/// which runs no job. A put is refused
/// whatever its source, for a profile of which there is none before all else; that its source is too long
/// (16) shows behind its begin, and only where it is not refused and its source has more than 4,194,304
/// bytes.
pub fn refusals_are_exact()
    ensures only { (kind : Kind) (own : Option ℕ) (area : Area) (records : List Record) (old new : Seen)
        (end : Ending) (why : Refusal) → AnswersJob kind own area records old new end →
        status_of why ≢ 70 → end.status ≡ status_of why → refusal_over area records kind own ≡ Some why }
    ensures always { (kind : Kind) (own : Option ℕ) (area : Area) (records : List Record) (old new : Seen)
        (end : Ending) (why : Refusal) → AnswersJob kind own area records old new end →
        refusal_over area records kind own ≡ Some why
        → IsRefused (status_of why) 0 old new end ⊎ IsRefused 70 0 old new end }
    ensures known_only { (kind : Kind) (records : List Record) (old new : Seen) (end : Ending)
        (why : Refusal) → AnswersAlone kind old new end →
        (known : IsKnown old records) → status_of why ≢ 70 → end.status ≡ status_of why
        → refusal_over known.opened.area records kind None ≡ Some why }
    ensures known_always { (kind : Kind) (records : List Record) (old new : Seen) (end : Ending)
        (why : Refusal) → AnswersAlone kind old new end →
        (known : IsKnown old records) → (Rose old.disk_faults new.disk_faults → ⊥)
        → refusal_over known.opened.area records kind None ≡ Some why →
        IsRefused (status_of why) 0 old new end ⊎ IsRefused 70 0 old new end }
    ensures put_only { (name : List ℕ) (own : Option ℕ) (records : List Record) (old new : Seen)
        (end : Ending) (why : Refusal) →
        Answers (put_of name own) old new end → (known : IsKnown old records)
        → status_of why ≢ 70 → status_of why ≢ 16 →
        end.status ≡ status_of why → put_refusal known.opened.area records name own ≡ Some why }
    ensures put_always { (name : List ℕ) (own : Option ℕ) (records : List Record) (old new : Seen)
        (end : Ending) (why : Refusal) →
        Answers (put_of name own) old new end → (known : IsKnown old records)
        → (Rose old.disk_faults new.disk_faults → ⊥) →
        (Rose old.source_faults new.source_faults → ⊥)
        → put_refusal known.opened.area records name own ≡ Some why →
        IsRefused (status_of why) 0 old new end ⊎ IsRefused 70 0 old new end }
    ensures too_long_only { (name bytes : List ℕ) (own : Option ℕ) (records : List Record) (old new : Seen)
        (end : Ending) →
        Answers (put_of name own) old new end → (known : IsKnown old records) → old.source ≡ Some bytes
        → end.status ≡ 16 →
        (put_refusal known.opened.area records name own ≡ None) × (largest_file < length bytes) }
    ensures pack_only { (records : List Record) (old new : Seen) (end : Ending) (why : Refusal)
        → Answers PackJournal old new end → (known : IsKnown old records) → status_of why ≢ 70
        → end.status ≡ status_of why → pack_refusal_over known.opened.area records ≡ Some why }
    ensures pack_always { (records : List Record) (old new : Seen) (end : Ending) (why : Refusal)
        → Answers PackJournal old new end → (known : IsKnown old records)
        → (Rose old.disk_faults new.disk_faults → ⊥)
        → pack_refusal_over known.opened.area records ≡ Some why →
        IsRefused (status_of why) 0 old new end ⊎ IsRefused 70 0 old new end }
{}

/// A command that looks at a store ends with 9 only where the disk has none, with 8 only where its bytes are
/// no journal from the place on that is told, and with 22 only where too few providers are handed in; and
/// where it is so it ends with that status, or finds no memory, unless the disk failed.
pub fn unopened_stores_are_told()
    ensures not_set_up_only { (command : Command) (cells : Cells) (old new : Seen) (end : Ending)
        → Answers command old new end →
        opens_store command ≡ true → old.disk ≡ Some cells → end.status ≡ 9
        → HasNoSetup (journal_read cells) }
    ensures not_set_up { (command : Command) (cells : Cells) (old new : Seen) (end : Ending)
        → Answers command old new end →
        opens_store command ≡ true → old.disk ≡ Some cells → HasNoSetup (journal_read cells)
        → (Rose old.disk_faults new.disk_faults → ⊥) →
        (end.status ≡ 9) ⊎ (end.status ≡ 70) }
    ensures bad_journal_only { (command : Command) (cells : Cells) (old new : Seen) (end : Ending)
        → Answers command old new end →
        opens_store command ≡ true → old.disk ≡ Some cells → end.status ≡ 8 →
        (9 < length (journal_read cells)) × IsBadStart (journal_read cells) end.at }
    ensures bad_journal { (command : Command) (cells : Cells) (old new : Seen) (end : Ending) (at : ℕ)
        → Answers command old new end →
        opens_store command ≡ true → old.disk ≡ Some cells → 9 < length (journal_read cells)
        → IsBadStart (journal_read cells) at →
        (Rose old.disk_faults new.disk_faults → ⊥) → ((end.status ≡ 8) × (end.at ≡ at)) ⊎ (end.status ≡ 70) }
    ensures too_few_only { (command : Command) (old new : Seen) (end : Ending) → Answers command old new end
        → opens_store command ≡ true →
        end.status ≡ 22 → (area : Area) × (records : List Record) × IsRead old.disk area records
        × (length old.providers < (setup_in_effect records).n) }
    ensures too_few { (command : Command) (cells : Cells) (old new : Seen) (end : Ending)
        (area : Area) (records : List Record) → Answers command old new end →
        opens_store command ≡ true → old.disk ≡ Some cells → IsRead old.disk area records
        → length old.providers < (setup_in_effect records).n →
        (Rose old.disk_faults new.disk_faults → ⊥) → (end.status ≡ 22) ⊎ (end.status ≡ 70) }
{}

/// A command ends with the status of a fault only where the count of that device rose: of the disk (12), of
/// the stores of the provider that is told (13), of the source (14) or of the sink (15).
pub fn faults_have_causes()
    ensures store { (command : Command) (old new : Seen) (end : Ending) → Answers command old new end
        → opens_store command ≡ true →
        FaultsHaveCauses old new end }
    ensures init { (numbers : Numbers) (old new : Seen) (end : Ending)
        → Answers (InitWith numbers) old new end → FaultsHaveCauses old new end }
    ensures row { (n l b : ℕ) (seen : List (Option ℕ)) (old new : Seen) (end : Ending)
        → Answers (RowOf n l b seen) old new end →
        FaultsHaveCauses old new end }
{}
