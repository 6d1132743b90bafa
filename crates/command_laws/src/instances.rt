//! Concrete values that meet what the laws suppose of a store, its file and commands over it: these laws are
//! not empty.
ghost use Rattle.std.specs.Prelude.{◌≡◌, ℕ, List, replicate, ◌+◌, ◌-◌, ◌^◌, ◌<◌, ◌≤◌, true, false, [], ◌∷◌, length, Some, None};
ghost use Rattle.record_defs.specs.Records.{SetUp, is_name, largest_file, largest_journal, all_profiles};
ghost use Rattle.record_defs.specs.Areas.{A, end_in};
ghost use Rattle.record_defs.specs.Packed.{packed};
ghost use Rattle.record_defs.specs.Table.{version_of, next_id, files_of};
ghost use Rattle.machine_defs.specs.Alone.{reaches_over};
ghost use Rattle.machine_defs.specs.Events.{AreBytes};
ghost use Rattle.machine_defs.specs.Openings.{IsNotSetUp};
ghost use Rattle.machine_defs.specs.Sights.{is_crowded_for};
ghost use Rattle.machine_defs.specs.States.{State};
ghost use Rattle.command_defs.specs.Forms.{InitWith, PutUnder, PutAt, GetOf, ListAll, AuditAll, RepairAll, UpgradeJournal, ScrubAll, PackJournal, RowOf};
ghost use Rattle.command_defs.specs.Lines.{list_lines};
ghost use Rattle.command_defs.specs.Opens.{setup_in_effect};
ghost use Rattle.command_defs.specs.Refusals.{sight_over};
ghost use Rattle.command_defs.specs.Seen.{NoCountFalls};
ghost use Rattle.command_defs.specs.Commands.{Answers, IsUsage};
ghost use Rattle.job_laws.specs.Failing.{bad_seen};
ghost use Rattle.command_laws.specs.Ends.{AreSafe};
ghost use Rattle.command_laws.specs.After.{IsSure, Follows, HasRightFile, IsUntouched, IsSteady, IsFaultless};
ghost use Rattle.command_laws.specs.Opened.{IsKeyed};
ghost use Rattle.command_laws.specs.Pieces.{IsStore, IsLater, IsChain};
ghost use Rattle.command_laws.specs.Instances.{store, small_setup, small_numbers, key_devices, ready_store, put_store, held_name, held_file, other_name, set_up_records, held_records, upgraded_records, own_records, due_records, audited_store, repaired_store, upgraded_store, own_store, scrubbed_store, packed_store, given_up_store, started_records, reading, empty_devices, failed_devices, with_sink, ends, get_held, get_other};

/// A store that was set up, whatever its source holds, one with one empty file, one with a repair due, one
/// whose journal has its second version, one with a file that has a profile of its own and one whose packed
/// records stand in the second area are known, in each image of the disk. The file is right on all providers,
/// none of which is wrong or failed; the next command finds it so; and a state of the abstract client stands
/// for the store, as one does for a disk on which nothing is set up, and for one of which an init failed,
/// whose setup is in doubt.
pub fn there_are_known_stores()
    ensures set_up { IsSure (store set_up_records) set_up_records }
    ensures sure { IsSure (store held_records) held_records }
    ensures reading { (bytes : List ℕ) → IsSure (reading set_up_records bytes) set_up_records }
    ensures due { IsSure (store due_records) due_records }
    ensures upgraded { IsSure (store upgraded_records) upgraded_records }
    ensures own { IsSure (store own_records) own_records }
    ensures packed { (filling : List ℕ) → length filling ≡ 2 ^ 23 - 8
        → IsSure (packed_store filling) (packed upgraded_records) }
    ensures filled { length {A = ℕ} (replicate (2 ^ 23 - 8) 0) ≡ 2 ^ 23 - 8 }
    ensures file { HasRightFile (store held_records) held_records held_name [] (λ j. false) }
    ensures none_bad { bad_seen held_records (store held_records) (store held_records) held_file []
        ≤ (setup_in_effect held_records).b }
    ensures safe { AreSafe held_records (store held_records) scrubbed_store (λ id. []) }
    ensures between { Follows ready_store (store set_up_records) × Follows put_store (store held_records)
        × Follows scrubbed_store (store held_records) }
    ensures faultless { IsFaultless (store set_up_records) put_store
        × IsFaultless (store held_records) (store held_records) }
    ensures follows { Follows (store held_records) (store held_records)
        × IsLater (store held_records) (store held_records) }
    ensures untouched { IsUntouched 4 (λ j. false) (store held_records) (store held_records)
        × IsSteady 4 (λ j. false) (store held_records) (store held_records) }
    ensures state { (w : State) × IsStore w (store held_records) }
    ensures unset { (w : State) × IsStore w empty_devices × IsNotSetUp w }
    ensures doubtful { (w : State) × IsStore w failed_devices × IsNotSetUp w
        × (w.doubt ≡ Some (record { entry = SetUp small_setup; maker = None })) }
{}

/// An init with a key sets up an empty disk. Over a store that was set up a put of the empty file is done,
/// and leaves that store; one whose source fails behind its begin is given up, and so is one of any source of
/// one byte more than a file may have, over providers that tell nothing. Over the store with the file a get
/// gives it, a get of another name ends with 3, and a list gives the files; over an empty disk a get ends
/// with 9; a row whose numbers are no shape ends with 20, and words that are no command with 2. Over a store
/// with no file an audit is done, and a repair that was due. An upgrade is done over a store that was set up,
/// and over the upgraded one a put with a profile of its own; a profile that there is none of, one in a
/// journal of the first version, and a second upgrade are refused. A scrub is done over the store with the
/// file, of which nothing differs. A pack is done over the upgraded store, and refused in a journal of the
/// first version. Two gets are a chain.
pub fn there_are_answers()
    ensures got { Answers (GetOf held_name) (store held_records) (store held_records) (ends 0) }
    ensures missing { Answers (GetOf other_name) (store held_records) (store held_records) (ends 3) }
    ensures listed { Answers ListAll (store held_records)
        (with_sink (store held_records) (list_lines (files_of held_records))) (ends 0) }
    ensures not_set_up { Answers (GetOf held_name) empty_devices empty_devices (ends 9) }
    ensures row { Answers (RowOf 3 1 1 []) empty_devices empty_devices (ends 20) }
    ensures usage { IsUsage empty_devices empty_devices (ends 2) }
    ensures init { Answers (InitWith small_numbers) key_devices ready_store (ends 0)
        × IsKeyed small_numbers small_setup.master key_devices }
    ensures put { Answers (PutUnder held_name) (store set_up_records) put_store (ends 0) }
    ensures given_up { Answers (PutUnder held_name) (store set_up_records) given_up_store (ends 14) }
    ensures too_long { (bytes : List ℕ) → AreBytes bytes → length bytes ≡ largest_file + 1 →
        Answers (PutUnder held_name) (reading set_up_records bytes) (reading started_records []) (ends 16) }
    ensures audit { Answers AuditAll (store set_up_records) audited_store (ends 0) }
    ensures repair { Answers RepairAll (store due_records) repaired_store (ends 0) }
    ensures upgrade { Answers UpgradeJournal (store set_up_records) upgraded_store (ends 0) }
    ensures own_put { Answers (PutAt held_name 1) (store upgraded_records) own_store (ends 0) }
    ensures scrub { Answers ScrubAll (store held_records) scrubbed_store (ends 0) }
    ensures pack { (filling : List ℕ) → length filling ≡ 2 ^ 23 - 8 →
        Answers PackJournal (store upgraded_records) (packed_store filling) (ends 0) }
    ensures old_pack { Answers PackJournal (store set_up_records) (store set_up_records) (ends 23) }
    ensures bad_profile { Answers (PutAt held_name 5) (store set_up_records) (store set_up_records)
        (ends 20) }
    ensures old_version { Answers (PutAt held_name 1) (store set_up_records) (store set_up_records)
        (ends 23) }
    ensures new_version { Answers UpgradeJournal (store upgraded_records) (store upgraded_records)
        (ends 24) }
    ensures counts { NoCountFalls (store held_records) (store held_records) }
    ensures chain { IsChain (store held_records) (get_held ∷ get_other ∷ []) }
{}

/// The store that was set up has a journal of the first version and room for an upgrade; the upgraded one has
/// room for a put with a profile of its own, and may be packed.
pub fn there_is_room()
    ensures upgrade { (version_of set_up_records ≡ 1)
        × (end_in A set_up_records + 3 ≤ largest_journal) }
    ensures own { (version_of upgraded_records ≡ 2) × (1 < all_profiles) × (is_name held_name ≡ true)
        × (is_crowded_for (sight_over A upgraded_records) held_name ≡ false)
        × (end_in A upgraded_records + 26 + length held_name ≤ largest_journal)
        × (next_id upgraded_records ≤ 2 ^ 64 - 32) }
    ensures pack { (version_of upgraded_records ≡ 2) × (reaches_over A upgraded_records ≡ false) }
{}
