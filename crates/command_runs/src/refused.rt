//! Commands over devices that end before a job of theirs begins, given outright.
ghost use Rattle.std.specs.Prelude.{[], ◌∷◌, Some, None};
ghost use Rattle.command_runs.specs.Words.{RowOf, InitWith, PutUnder, PutAt, GetOf, ListAll, AuditAll, RepairAll, UpgradeJournal, values_line, no_row_line, Answers, with_sink, key_text, other_name, ends};
ghost use Rattle.command_runs.specs.Devices.{with_source, named, good_numbers, bad_numbers, to_put, put_unmade, byte_kept, upgraded_kept, due, seen_after_drop, disk_failed, deserted, scrambled, all_hidden};

/// Faults of the disk, the sink and the source, and want of memory; a disk that reads no journal, and too few
/// providers; begins that are refused, also of puts that name a profile and of a second upgrade; a row that
/// is accepted and one that is lost; and a list, a get and a repair over devices that tell nothing.
pub fn commands_end_early()
    ensures disk_fault { Answers ListAll byte_kept (disk_failed byte_kept) (ends 12) }
    ensures sink_fault { Answers ListAll byte_kept (record byte_kept { sink_faults = 1 }) (ends 15) }
    ensures source_fault { Answers (PutUnder named) to_put (record to_put { source_faults = 1 }) (ends 14) }
    ensures no_memory { Answers ListAll byte_kept byte_kept (ends 70) }
    ensures bad_journal { Answers ListAll scrambled scrambled (ends 8) }
    ensures too_few { Answers ListAll deserted deserted (ends 22) }
    ensures repair_due { Answers AuditAll due due (ends 6) }
    ensures nothing_due { Answers RepairAll byte_kept byte_kept (ends 7) }
    ensures bad_name { Answers (PutUnder []) to_put put_unmade (ends 17) }
    ensures bad_profile { Answers (PutAt named 5) to_put to_put (ends 20) }
    ensures old_version { Answers (PutAt named 1) to_put put_unmade (ends 23) }
    ensures new_version { Answers UpgradeJournal upgraded_kept upgraded_kept (ends 24) }
    ensures gone { Answers (GetOf named) seen_after_drop seen_after_drop (ends 3) }
    ensures done_row { Answers (RowOf 4 1 1 (Some 7 ∷ Some 7 ∷ Some 7 ∷ Some 9 ∷ [])) byte_kept
        (with_sink byte_kept (values_line (7 ∷ []))) (ends 0) }
    ensures lost_row { Answers (RowOf 4 1 1 (None ∷ None ∷ Some 7 ∷ Some 9 ∷ [])) byte_kept
        (with_sink byte_kept no_row_line) (ends 4) }
    ensures hidden_list { Answers ListAll all_hidden all_hidden (ends 0) }
    ensures hidden_repair { Answers RepairAll all_hidden all_hidden (ends 7) }
    ensures hidden_get { Answers (GetOf other_name) all_hidden all_hidden (ends 3) }
{}

/// An init: of numbers that are no setup, over too few providers, of a source that failed or tells no key,
/// over a disk that is set up already, and over one that reads no journal.
pub fn inits_are_refused()
    ensures bad_setup { Answers (InitWith bad_numbers) byte_kept byte_kept (ends 20) }
    ensures too_few { Answers (InitWith good_numbers) deserted deserted (ends 22) }
    ensures source_fault { Answers (InitWith good_numbers) byte_kept
        (record byte_kept { source_faults = 1 }) (ends 14) }
    ensures bad_key { Answers (InitWith good_numbers) byte_kept byte_kept (ends 18) }
    ensures already { Answers (InitWith good_numbers) (with_source byte_kept key_text) byte_kept (ends 10) }
    ensures bad_journal { Answers (InitWith good_numbers) (with_source scrambled key_text) scrambled
        (ends 8) }
{}
