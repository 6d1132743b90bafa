//! Commands over devices that run a job, given outright.
ghost use Rattle.command_runs.specs.Words.{PutUnder, PutAt, GetOf, DropOf, AuditAll, RepairAll, UpgradeJournal, ScrubAll, Answers, other_name, ends};
ghost use Rattle.command_runs.specs.Devices.{named, all_hidden, hidden_fetched, to_put_other, stored_other, ends_hearing, to_put, byte_stored, put_failed, put_cut, put_torn, put_unmade, drop_cut, audit_cut, repair_cut, byte_kept, dropped, all_lost, found_lost, due_lost, repair_lost, no_blocks, damaged, byte_audited, answers_heard, due, repaired, repair_failed, mended, got, own_blocks_heard, byte_upgraded, upgrade_cut, to_put_own, stored_own, two_damaged, scrubbed, scrub_failed, swept, robbed_later, got_later, later_heard, ends_at};

/// Puts: one that is done; one whose first store fails; two that a fault of the disk cuts off at their last
/// move, with the record in doubt, of which one leaves its gate loose; one that finds no memory; one of
/// another file; and one over devices that tell nothing. A drop, done and cut off. A get of the file, and two
/// that find a row lost. An audit that finds a lost block, done and cut off. A repair that writes it anew,
/// done and cut off, one whose store fails, and one that finds a row lost. An upgrade, done and cut off, and
/// after it a put with a profile of its own. A scrub that mends two providers, one that mends one, one whose
/// store fails, and one that finds a row lost; and a get after a scrub, where another provider has lost its
/// block.
pub fn commands_end()
    ensures put { Answers (PutUnder named) to_put byte_stored (ends 0) }
    ensures failed_put { Answers (PutUnder named) to_put put_failed (ends 13) }
    ensures cut_put { Answers (PutUnder named) to_put put_cut (ends 12) }
    ensures torn_put { Answers (PutUnder named) to_put put_torn (ends 12) }
    ensures unmade_put { Answers (PutUnder named) to_put put_unmade (ends 70) }
    ensures other_put { Answers (PutUnder other_name) to_put_other stored_other (ends 0) }
    ensures hidden_put { Answers (PutUnder named) all_hidden all_hidden (ends 0) }
    ensures hidden_get { Answers (GetOf named) all_hidden hidden_fetched (ends_hearing 4 no_blocks) }
    ensures drop { Answers (DropOf named) byte_kept dropped (ends 0) }
    ensures cut_drop { Answers (DropOf named) byte_kept drop_cut (ends 12) }
    ensures lost_get { Answers (GetOf named) all_lost found_lost (ends_hearing 4 no_blocks) }
    ensures lost_repair { Answers RepairAll due_lost repair_lost (ends 4) }
    ensures audit { Answers AuditAll damaged byte_audited (ends_hearing 0 answers_heard) }
    ensures cut_audit { Answers AuditAll damaged audit_cut (ends_hearing 12 answers_heard) }
    ensures cut_repair { Answers RepairAll due repair_cut (ends 12) }
    ensures repair { Answers RepairAll due repaired (ends 0) }
    ensures failed_repair { Answers RepairAll due repair_failed (ends_at 13 2) }
    ensures get { Answers (GetOf named) mended got (ends_hearing 0 own_blocks_heard) }
    ensures scrub { Answers ScrubAll two_damaged scrubbed (ends 0) }
    ensures swept { Answers ScrubAll damaged swept (ends 0) }
    ensures failed_scrub { Answers ScrubAll two_damaged scrub_failed (ends_at 13 0) }
    ensures lost_scrub { Answers ScrubAll all_lost found_lost (ends 4) }
    ensures later_get { Answers (GetOf named) robbed_later got_later (ends_hearing 0 later_heard) }
    ensures upgrade { Answers UpgradeJournal byte_kept byte_upgraded (ends 0) }
    ensures cut_upgrade { Answers UpgradeJournal byte_kept upgrade_cut (ends 12) }
    ensures own_put { Answers (PutAt other_name 1) to_put_own stored_own (ends 0) }
{}
