//! What the laws on commands say of the commands given outright: each premise is met, and the law is called.
ghost use Rattle.std.specs.Prelude.{◌≡◌, ◌⊎◌, ◌==◌, ◌&&◌, ◌<◌, ℕ, false, not, List, [], ◌∷◌, length, replicate, Some, None};
ghost use Rattle.hail_field.specs.Shape.{IsShape};
ghost use Rattle.command_runs.specs.Words.{upto, AcceptsNone, is_flagged, firm, A, Record, is_setup, PutJob, GetJob, DropJob, AuditJob, RepairJob, UpgradeJob, Put, Got, Dropped, Audited, Repaired, Upgraded, Scrubbed, Lost, ProviderFault, DiskFault, Memory, RepairDue, NothingDue, BadProfile, OldVersion, NewVersion, PutUnder, GetOf, DropOf, ListAll, RepairAll, UpgradeJournal, ScrubAll, IsKeyForm, journal_read, IsBadStart, IsBadInit, setup_with, stored_line, upgraded_line, refusal_over, after_begin, HearsRounds, CountsHeard, IsKnown, IsWholePut, IsDropped, IsAudited, IsRepaired, IsUpgraded, IsScrubbed, FaultsHaveCauses, EndsInOrder, GivesUnlessMemory, HoldsFile, put_refusal, ran_to, after_put, after_audit, after_repair, after_upgrade, FailsToPut, FailsToRepair, FailsToScrub, LosesFile, LosesRepair, LosesScrub, LeavesImages, IsSure, IsThen, HasRightFile, counts, byte, other_name, ends};
ghost use Rattle.command_runs.specs.Lone.{RunsSomewhere, ScrubsSomewhere};
ghost use Rattle.command_runs.specs.Devices.{named, four_records, byte_records, byte_audited_records, bad_numbers, to_put, byte_stored, put_failed, put_cut, put_torn, put_gone, drop_cut, audit_cut, repair_cut, byte_kept, dropped, all_lost, found_lost, due_lost, repair_lost, no_blocks, damaged, byte_audited, answers_heard, due, repaired, repair_failed, mended, got, own_blocks_heard, disk_failed, all_hidden, hidden_fetched, both_records, stored_other, byte_upgraded_records, byte_own_records, byte_upgraded, upgrade_cut, to_put_own, stored_own, two_damaged, symbols_off, blocks_off, scrubbed, scrub_failed, robbed_later, got_later, later_heard, ends_at, ends_hearing};

use crate::refused::{commands_end_early, inits_are_refused};
use crate::runs::commands_end;
use command_laws::after::{
    audits_in_effect_count_what_they_heard, done_commands_leave_known_stores, files_stay,
    gets_tell_what_stands, put_files_are_got, stores_stay_known,
};
use command_laws::ends::{
    audits_count_what_they_hear, drops_take_the_file_away, faults_have_causes, gets_give_the_file,
    own_profiles_are_taken, puts_store_the_source, refusals_are_exact, repairs_write_anew,
    scrubs_sweep, unopened_stores_are_told, upgrades_end_well,
};
use command_laws::inits::{init_refusals_are_exact, lists_give_the_files};
use command_laws::kept::{failed_stores_leave, images_stand, lost_rows_are_told};
use command_laws::statuses::rows_have_causes;
use job_laws::alone::opened_states;

/// What commands have done that are done, and what such leave whose store failed or that found a row lost.
pub fn jobs_leave_what_is_said()
    ensures put { IsWholePut named None to_put byte_stored (ends 0) }
    ensures drop { IsDropped named byte_kept dropped (ends 0) }
    ensures audit { IsAudited damaged byte_audited (ends_hearing 0 answers_heard) }
    ensures repair { IsRepaired due repaired (ends 0) }
    ensures failed_put { FailsToPut named None to_put put_failed (ends 13) }
    ensures failed_repair { FailsToRepair due repair_failed (ends_at 13 2) }
    ensures lost_file { LosesFile named all_lost found_lost (ends_hearing 4 no_blocks) }
    ensures lost_repair { LosesRepair due_lost repair_lost (ends 4) }
    ensures upgrade { IsUpgraded byte_kept byte_upgraded (ends 0) }
    ensures own_put { IsWholePut other_name (Some 1) to_put_own stored_own (ends 0) }
    ensures scrub { IsScrubbed two_damaged scrubbed (ends 0) }
    ensures failed_scrub { FailsToScrub two_damaged scrub_failed (ends_at 13 0) }
    ensures lost_scrub { LosesScrub all_lost found_lost (ends 4) }
{
    commands_end();
    puts_store_the_source();
    drops_take_the_file_away();
    audits_count_what_they_hear();
    repairs_write_anew();
    failed_stores_leave();
    lost_rows_are_told();
    upgrades_end_well();
    scrubs_sweep();
}

/// The upgrade of the store with the file is not refused, tells its text, and ends in order; the store stays
/// known, with the same file, right on all providers. Then a put of another file with a profile of its own is
/// not refused, and tells its text; both files are right.
pub fn upgrades_bring_profiles()
    ensures begins { refusal_over A byte_records UpgradeJob None ≡ None }
    ensures upgraded { GivesUnlessMemory upgraded_line byte_kept byte_upgraded (ends 0) }
    ensures in_order { EndsInOrder UpgradeJournal byte_kept byte_upgraded (ends 0) }
    ensures known { IsSure byte_upgraded (after_upgrade byte_records) }
    ensures kept { HasRightFile byte_upgraded byte_upgraded_records named byte (λ j. false) }
    ensures own_begins { refusal_over A byte_upgraded_records (PutJob other_name byte) (Some 1) ≡ None }
    ensures own_put { GivesUnlessMemory (stored_line other_name 1) to_put_own stored_own (ends 0) }
    ensures own_known { IsSure stored_own (after_put byte_upgraded_records other_name 1 (Some 1)) }
    ensures first { HasRightFile stored_own byte_own_records named byte (λ j. false) }
    ensures second { HasRightFile stored_own (after_put byte_upgraded_records other_name 1 (Some 1))
        other_name byte (λ j. false) }
{
    commands_end();
    upgrades_end_well();
    own_profiles_are_taken();
    puts_store_the_source();
    done_commands_leave_known_stores();
    files_stay();
}

/// The causes of the statuses of faults, of stores that are not opened, of refusals and of a lost row; and of
/// the ends over devices that tell nothing.
pub fn statuses_have_their_causes()
    ensures disk { FaultsHaveCauses byte_kept (disk_failed byte_kept) (ends 12) }
    ensures provider { FaultsHaveCauses to_put put_failed (ends 13) }
    ensures source { FaultsHaveCauses to_put (record to_put { source_faults = 1 }) (ends 14) }
    ensures sink { FaultsHaveCauses byte_kept (record byte_kept { sink_faults = 1 }) (ends 15) }
    ensures bad_journal { (9 < length (journal_read (firm (replicate 12 0))))
        × IsBadStart (journal_read (firm (replicate 12 0))) 0 }
    ensures repair_due { refusal_over A byte_audited_records AuditJob None ≡ Some RepairDue }
    ensures nothing_due { refusal_over A byte_records RepairJob None ≡ Some NothingDue }
    ensures bad_profile { put_refusal A four_records named (Some 5) ≡ Some BadProfile }
    ensures old_version { put_refusal A four_records named (Some 1) ≡ Some OldVersion }
    ensures new_version { refusal_over A byte_upgraded_records UpgradeJob None ≡ Some NewVersion }
    ensures row { IsShape 4 1 1 × AcceptsNone (upto 4) (None ∷ None ∷ Some 7 ∷ Some 9 ∷ []) 1 1 }
    ensures hidden_get { EndsInOrder (GetOf other_name) all_hidden all_hidden (ends 3)
        ⊎ LosesFile other_name all_hidden all_hidden (ends 3) }
    ensures hidden_put { EndsInOrder (PutUnder named) all_hidden all_hidden (ends 0) }
    ensures hidden_lost { EndsInOrder (GetOf named) all_hidden hidden_fetched (ends_hearing 4 no_blocks)
        ⊎ LosesFile named all_hidden hidden_fetched (ends_hearing 4 no_blocks) }
    ensures hidden_repair { EndsInOrder RepairAll all_hidden all_hidden (ends 7)
        ⊎ LosesRepair all_hidden all_hidden (ends 7) }
    ensures hidden_list { EndsInOrder ListAll all_hidden all_hidden (ends 0) }
    ensures lost_scrub { EndsInOrder ScrubAll all_lost found_lost (ends 4)
        ⊎ LosesScrub all_lost found_lost (ends 4) }
{
    commands_end();
    commands_end_early();
    faults_have_causes();
    unopened_stores_are_told();
    refusals_are_exact();
    rows_have_causes();
    gets_give_the_file();
    puts_store_the_source();
    repairs_write_anew();
    lists_give_the_files();
    scrubs_sweep();
}

/// The causes of the refusals of an init.
pub fn inits_have_their_causes()
    ensures bad_setup { is_setup (setup_with bad_numbers []) ≡ false }
    ensures bad_key { (key : List ℕ) → IsKeyForm [] key → ⊥ }
    ensures bad_journal { (9 < length (journal_read (firm (replicate 12 0))))
        × IsBadInit (journal_read (firm (replicate 12 0))) 0 }
{
    inits_are_refused();
    init_refusals_are_exact();
}

/// After a command that a fault of the disk cut off the store is known, also past a stop, be its last record
/// then in effect or not. Where the end of a put is found in effect the file is whole; where that of a repair
/// is, the flagged provider is right; where that of an audit is, it has counted what it heard. After a put
/// whose store failed the records are those before, with its start; after such a scrub they are those before.
pub fn cut_commands_leave_known_stores()
    ensures gone { (after : List Record) × IsKnown put_gone after
        × IsThen (PutUnder named) four_records to_put put_torn after }
    ensures come { (after : List Record) × IsKnown put_cut after
        × IsThen (PutUnder named) four_records to_put put_torn after }
    ensures dropped { (after : List Record) × IsKnown drop_cut after
        × IsThen (DropOf named) byte_records byte_kept drop_cut after }
    ensures upgraded { (after : List Record) × IsKnown upgrade_cut after
        × IsThen UpgradeJournal byte_records byte_kept upgrade_cut after }
    ensures put { HasRightFile put_torn (after_put four_records named 1 None) named byte (λ j. false) }
    ensures repair { HasRightFile repair_cut
        (after_repair byte_audited_records (record { number = 1; counts = counts })) named byte
        (λ j. (j == 2) && not (is_flagged 0 counts j)) }
    ensures audit { HearsRounds (ran_to (after_audit byte_records 0 counts) byte_records damaged audit_cut
        answers_heard) 1
        × CountsHeard (ran_to (after_audit byte_records 0 counts) byte_records damaged audit_cut
        answers_heard) 1 0 counts }
    ensures images { LeavesImages (PutUnder named) to_put put_torn }
    ensures failed { IsSure put_failed (after_begin four_records named) }
    ensures scrub { IsSure scrub_failed byte_records }
{
    commands_end();
    stores_stay_known();
    files_stay();
    audits_in_effect_count_what_they_heard();
    images_stand();
    done_commands_leave_known_stores();
}

/// A put, an audit that finds the lost block, a repair that writes it anew, and a get that gives the file:
/// also where another provider is spoilt by then. After the scrub, with another's block lost by then, a get
/// gives the file. After a drop a get ends with 3.
pub fn damage_is_mended()
    ensures repaired { GivesUnlessMemory byte mended got (ends_hearing 0 own_blocks_heard) }
    ensures mended { GivesUnlessMemory byte mended got (ends_hearing 0 own_blocks_heard) }
    ensures scrubbed { GivesUnlessMemory byte robbed_later got_later (ends_hearing 0 later_heard) }
    ensures swept { GivesUnlessMemory byte robbed_later got_later (ends_hearing 0 later_heard) }
    ensures dropped { ((ends 3).status ≡ 3) ⊎ ((ends 3).status ≡ 70) }
{
    commands_end();
    commands_end_early();
    put_files_are_got();
}

/// Files stay right: after the put, an audit, a put of another file, the repair, and a scrub, done or failed;
/// and what the audit counts it has heard.
pub fn files_stay_right()
    ensures put { HasRightFile byte_stored (after_put four_records named 1 None) named byte (λ j. false) }
    ensures audit { HasRightFile byte_audited byte_audited_records named byte (λ j. j == 2) }
    ensures other { HasRightFile stored_other both_records named byte (λ j. false) }
    ensures repair { HasRightFile repaired
        (after_repair byte_audited_records (record { number = 1; counts = counts })) named byte
        (λ j. (j == 2) && not (is_flagged 0 counts j)) }
    ensures scrub { HasRightFile scrubbed byte_records named byte (λ j. false) }
    ensures failed_scrub { HasRightFile scrub_failed byte_records named byte (λ j. j == 2) }
    ensures heard { HearsRounds (ran_to (after_audit byte_records 0 counts) byte_records damaged
        byte_audited answers_heard) 1
        × CountsHeard (ran_to (after_audit byte_records 0 counts) byte_records damaged byte_audited
        answers_heard) 1 0 counts }
{
    commands_end();
    files_stay();
    audits_in_effect_count_what_they_heard();
}

/// The repair wrote the very block, since no more than one provider was wrong, and so did the scrub, also
/// where a symbol was altered; and the get over what the repair left is complete.
pub fn few_bad_providers_do_no_harm()
    ensures rewritten { HoldsFile byte_audited_records repaired byte
        (record { name = named; id = 1; size = 1; profile = 0 }) 2 }
    ensures altered { HoldsFile byte_records scrubbed byte
        (record { name = named; id = 1; size = 1; profile = 0 }) 0 }
    ensures scrubbed { HoldsFile byte_records scrubbed byte
        (record { name = named; id = 1; size = 1; profile = 0 }) 2 }
    ensures complete { GivesUnlessMemory byte mended got (ends_hearing 0 own_blocks_heard) }
{
    commands_end();
    repairs_write_anew();
    scrubs_sweep();
    gets_tell_what_stands();
}

/// There is a state just opened from which a job of each kind runs to its end: done, lost, cut off by a
/// fault, or for want of memory; so does a put with a profile of its own.
pub fn jobs_run_alone()
    ensures put { RunsSomewhere (PutJob named byte) None Put [] }
    ensures failed_put { RunsSomewhere (PutJob named byte) None (ProviderFault 0) [] }
    ensures cut_put { RunsSomewhere (PutJob named byte) None DiskFault [] }
    ensures unmade_put { RunsSomewhere (PutJob named byte) None Memory [] }
    ensures drop { RunsSomewhere (DropJob named) None Dropped [] }
    ensures get { RunsSomewhere (GetJob named) None (Got byte) own_blocks_heard }
    ensures lost_get { RunsSomewhere (GetJob named) None (Lost 0 0) no_blocks }
    ensures audit { RunsSomewhere AuditJob None (Audited 1 0 counts) answers_heard }
    ensures repair { RunsSomewhere RepairJob None (Repaired 1) [] }
    ensures lost_repair { RunsSomewhere RepairJob None (Lost 0 0) [] }
    ensures failed_repair { RunsSomewhere RepairJob None (ProviderFault 2) [] }
    ensures upgrade { RunsSomewhere UpgradeJob None Upgraded [] }
    ensures own_put { RunsSomewhere (PutJob other_name byte) (Some 1) Put [] }
{
    opened_states();
}

/// There is a state just opened from which a scrub runs to its end: done, with a failed store, and at a lost
/// row.
pub fn scrubs_run_alone()
    ensures done { ScrubsSomewhere (Scrubbed 1 symbols_off blocks_off) }
    ensures failed { ScrubsSomewhere (ProviderFault 0) }
    ensures lost { ScrubsSomewhere (Lost 0 0) }
{
    opened_states();
}
