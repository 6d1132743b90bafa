//! Instances: what the laws of the other modules suppose, met by values.
ghost use Rattle.std.specs.Prelude.{◌≡◌, ◌≢◌, ◌≤◌, ◌<◌, ◌==◌, ◌&&◌, ◌++◌, ◌∷◌, ℕ, not, true, false, List, [], length, String, Some, None, is_some, reverse};
ghost use Rattle.std.specs.declared.alloc.Global.{Global};
ghost use Rattle.damage_run.specs.Points.{counts};
ghost use Rattle.stories.specs.Words.{is_flagged, DamagesOnly, AsksDamageOf, AreBytes, Begin, Begun, Ended, Opened, Put, Got, AllTell, File, now, NoneAsksOn, LeavesFree, AsksPutsOnly, NoneCalls, PutUnder, GetOf, AuditAll, RepairAll, UpgradeJournal, ScrubAll, PackJournal, IsForm, IsTold, audit_lines, setup_in_effect, provider_at, Follows, HasRightFile, IsUntouched, IsSteady, spoilt_below, IsKnown, ends, named, four_records, byte_records, to_put, byte_stored, damaged, byte_audited, answers_heard, due, repaired, mended, got, own_blocks_heard, swept, robbed_later, got_later, later_heard, byte_kept, byte_upgraded, upgraded_kept, ends_hearing, IsFilling, packed_kept, packed_store, got_packed, byte, next_audit, IsSchedule, devices_of_seen, IsReplayForm, AreLeft, called_behind, AnswersWords};
ghost use Rattle.stories.specs.Files.{put_of, got_behind, IsGot};
ghost use Rattle.stories.specs.Said.{SaysBefore, SaysPut, SaysGot};
ghost use Rattle.machine_defs.specs.Jobs.{AuditJob};
ghost use Rattle.second_half_laws.specs.Flagging.{IsAudit};
ghost use Rattle.effect_laws.specs.Transcripts.{NoneAsksFor, NonePuts, AreOver, AreOverOn};
ghost use Rattle.epoch_laws.specs.Epochs.{AreExactBut, AreRightBut};
ghost use Rattle.epoch_laws.specs.Told.{IsWhole, ByScrubs};
ghost use Rattle.stories.specs.Told.{IsToldReplay, IsGotBack};
ghost use Rattle.stories.specs.Upkeep.{GivesOrLoses, IsGotOver, IsKeptOver, IsUpkeep, AreSteps, TellsNames};
ghost use Rattle.stories.specs.Beside.{GivesOldOrNew};
ghost use Rattle.record_defs.specs.Table.{find_file};
ghost use Rattle.stories.specs.Instances.{opening, byte_text, byte_lines, get_of_byte, byte_commands, byte_outcomes, before_byte, behind_byte, byte_end, first_state, damaged_got, three_heard, other_byte};
ghost use Rattle.stories.specs.Replays.{IsToldSo, damaged2, damaged0, lost2, lost0, put_lost, swept_text, swept_commands, swept_outcomes, behind_swept, swept_end, audited_first, audited_outcomes, mended_text, mended_commands, mended_outcomes, behind_mended, mended_end, packed_text, packed_commands, packed_outcomes, behind_packed, packed_end, cut_text, cut_steps, cut_commands, cut_outcomes, behind_cut, cut_end, second, third, second_file, put_cut, got_cut, got_cut_outcomes, dropped_behind, listed_text, listed_commands, listed_outcomes, behind_listed, listed_end};

use crate::upkeep::{
    every_get_behind_scrubs_ends_well, every_get_ends_well, files_behind_scrubs_are_got,
    files_survive_cut_upkeep, gets_give_old_or_new, kept_files_are_got, lists_tell_what_stands,
    packed_files_are_got, repaired_files_are_got, scrubbed_files_are_got,
};
use command_runs::packs::packs_end;
use command_runs::runs::commands_end;
use command_words::laws::words_spell_one_command;

/// Words that spell a replay, over a store that was set up, where the source has a schedule that puts a file
/// of one byte and gets it: it ends with status 0. The devices before it are left by the run of no event; all
/// providers tell, and no command of it damages one. The put is job 1 and ends well, and job 2 gets the byte;
/// what it writes says so.
pub fn a_byte_is_put_and_got()
    ensures replay { (words : List (String Global)) → IsReplayForm words
        → AnswersWords words before_byte behind_byte byte_end }
    ensures spells { IsSchedule byte_text (reverse (got_behind ([] ++ put_of opening named byte None 1) named 2)) }
    ensures survives { IsSchedule byte_text (reverse (get_of_byte ++ put_of opening named byte None 1)) }
    ensures asks { LeavesFree named opening × NoneAsksOn named [] × NoneAsksOn named get_of_byte }
    ensures beside { AsksPutsOnly named other_byte get_of_byte × NoneCalls get_of_byte }
    ensures left { AreLeft first_state [] (devices_of_seen before_byte) }
    ensures got { (G : IsGot opening [] None first_state (called_behind first_state []) before_byte behind_byte
        byte_end 1 2 named byte)
        × (G.put.begin.outcome ≡ Begun 1) × (G.put.end.outcome ≡ Ended Put)
        × (G.begin.outcome ≡ Begun 2) × (G.last.outcome ≡ Ended (Got byte)) }
    ensures said { (before_byte.sink ≡ Some []) × (behind_byte.sink ≡ Some ([] ++ byte_lines))
        × SaysGot byte_lines opening 1 2 [] (Got byte) × ((before : List ℕ) × SaysPut before opening 1 [])
        × SaysBefore byte_lines opening 1 }
    ensures calm { AllTell first_state × DamagesOnly [] []
        × AsksDamageOf [] ([] ++ put_of opening named byte None 1) }
{}

/// A put of that file, and a get by the next command, where provider 2 has lost its block in between. Both
/// end with status 0, and the get writes the byte.
pub fn the_next_command_gets_a_byte()
    ensures put { (words : List (String Global)) → IsForm words (PutUnder named)
        → AnswersWords words to_put byte_stored (ends 0) }
    ensures get { (words : List (String Global)) → IsForm words (GetOf named)
        → AnswersWords words damaged damaged_got (ends_hearing 0 three_heard) }
    ensures store { IsKnown to_put four_records × (to_put.source ≡ Some byte)
        × ((j : ℕ) → j < (setup_in_effect four_records).n
        → is_some (provider_at to_put.providers j).held ≡ true) }
    ensures between { Follows byte_stored damaged
        × IsUntouched (setup_in_effect four_records).n (λ j. j == 2) byte_stored damaged
        × IsSteady (setup_in_effect four_records).n (λ j. j == 2) damaged damaged_got
        × (spoilt_below (setup_in_effect four_records).n (λ j. j == 2)
        ≤ (setup_in_effect four_records).b) }
{
    words_spell_one_command();
    commands_end();
}

/// Behind that put and that loss an audit flags provider 2, and a repair writes its block anew; then provider
/// 0 may go, and a get writes the byte. All end with status 0.
pub fn another_goes_after_the_repair()
    ensures audit { (words : List (String Global)) → IsForm words AuditAll
        → AnswersWords words damaged byte_audited (ends_hearing 0 answers_heard) }
    ensures repair { (words : List (String Global)) → IsForm words RepairAll
        → AnswersWords words due repaired (ends 0) }
    ensures get { (words : List (String Global)) → IsForm words (GetOf named)
        → AnswersWords words mended got (ends_hearing 0 own_blocks_heard) }
    ensures between { Follows byte_stored damaged × Follows byte_audited due × Follows repaired mended
        × IsUntouched (setup_in_effect four_records).n (λ j. j == 2) byte_stored damaged
        × IsUntouched (setup_in_effect four_records).n (λ j. j == 2) byte_audited due
        × IsSteady (setup_in_effect four_records).n (λ j. j == 2) due repaired }
    ensures told { IsTold (audit_lines (setup_in_effect four_records).tolerance (next_audit four_records) 0
        counts) damaged byte_audited (ends_hearing 0 answers_heard) }
    ensures flagged { (j : ℕ) → j < (setup_in_effect four_records).n
        → is_flagged (setup_in_effect four_records).tolerance counts j ≡ true
        → is_some (provider_at due.providers j).held ≡ true }
    ensures later { ((j : ℕ) → (j == 0) ≡ false
        → ((j == 2) && not (is_flagged (setup_in_effect four_records).tolerance counts j)) ≡ false)
        × IsUntouched (setup_in_effect four_records).n (λ j. j == 0) repaired mended
        × IsSteady (setup_in_effect four_records).n (λ j. j == 0) mended got
        × (spoilt_below (setup_in_effect four_records).n (λ j. j == 0)
        ≤ (setup_in_effect four_records).b) }
{
    words_spell_one_command();
    commands_end();
}

/// Behind that put and that loss a scrub writes the block anew; then provider 0 may go, and a get writes the
/// byte. Both end with status 0.
pub fn another_goes_after_the_scrub()
    ensures scrub { (words : List (String Global)) → IsForm words ScrubAll
        → AnswersWords words damaged swept (ends 0) }
    ensures get { (words : List (String Global)) → IsForm words (GetOf named)
        → AnswersWords words robbed_later got_later (ends_hearing 0 later_heard) }
    ensures between { Follows byte_stored damaged × Follows swept robbed_later
        × IsUntouched (setup_in_effect four_records).n (λ j. j == 2) byte_stored damaged
        × IsSteady (setup_in_effect four_records).n (λ j. j == 2) damaged swept }
    ensures tell { (j : ℕ) → j < (setup_in_effect four_records).n
        → is_some (provider_at damaged.providers j).held ≡ true }
    ensures later { IsUntouched (setup_in_effect four_records).n (λ j. j == 0) swept robbed_later
        × IsSteady (setup_in_effect four_records).n (λ j. j == 0) robbed_later got_later
        × (spoilt_below (setup_in_effect four_records).n (λ j. j == 0)
        ≤ (setup_in_effect four_records).b) }
{
    words_spell_one_command();
    commands_end();
}

/// A get of status 0 over a store in which providers 0, 1 and 3 hold the blocks of that byte, and provider 2
/// holds none, where another byte was put: it writes theirs.
pub fn three_of_four_collude()
    ensures get { (words : List (String Global)) → IsForm words (GetOf named)
        → AnswersWords words damaged damaged_got (ends_hearing 0 three_heard) }
    ensures theirs { IsKnown damaged byte_records
        × HasRightFile damaged byte_records named byte (λ j. j == 2) }
    ensures put { AreBytes other_byte × (length other_byte ≡ length byte) × (other_byte ≢ byte) }
    ensures few { IsSteady (setup_in_effect byte_records).n (λ j. j == 2) damaged damaged_got
        × (spoilt_below (setup_in_effect byte_records).n (λ j. j == 2) ≤ (setup_in_effect byte_records).b)
        × (is_some damaged.sink ≡ true) }
{
    words_spell_one_command();
}

/// Behind that put the journal is given its second version and packed, and a get from the second area writes
/// the byte. All end with status 0. What lies between the areas of the disk may be any bytes, of which there
/// are some.
pub fn a_packed_byte_is_got()
    ensures upgrade { (words : List (String Global)) → IsForm words UpgradeJournal
        → AnswersWords words byte_kept byte_upgraded (ends 0) }
    ensures pack { (words : List (String Global)) (filling : List ℕ) → IsForm words PackJournal
        → IsFilling filling → AnswersWords words upgraded_kept (packed_store filling) (ends 0) }
    ensures get { (words : List (String Global)) (filling : List ℕ) → IsForm words (GetOf named)
        → IsFilling filling
        → AnswersWords words (packed_kept filling) (got_packed filling) (ends_hearing 0 own_blocks_heard) }
    ensures there_is_one { (filling : List ℕ) × IsFilling filling }
    ensures between { (filling : List ℕ) → Follows byte_stored byte_kept × Follows byte_upgraded upgraded_kept
        × Follows (packed_store filling) (packed_kept filling)
        × IsUntouched (setup_in_effect four_records).n (λ j. false) byte_stored byte_kept
        × IsUntouched (setup_in_effect four_records).n (λ j. false) byte_upgraded upgraded_kept
        × IsUntouched (setup_in_effect four_records).n (λ j. false) (packed_store filling)
        (packed_kept filling)
        × IsSteady (setup_in_effect four_records).n (λ j. false) (packed_kept filling) (got_packed filling)
        × (spoilt_below (setup_in_effect four_records).n (λ j. false) ≤ (setup_in_effect four_records).b) }
{
    words_spell_one_command();
    commands_end();
    packs_end();
}

/// That replay as its text and what it wrote tell it: so the get gave the byte, or is lost by calls of providers that
/// failed.
pub fn a_told_byte_is_got_whole()
    ensures told { (words : List (String Global)) → IsReplayForm words
        → IsToldReplay words byte_text byte_commands byte_outcomes first_state [] before_byte behind_byte
        byte_end }
    ensures over { AreOver byte_commands byte_outcomes × AreOverOn named opening (Opened ∷ []) }
    ensures whole { (words : List (String Global)) → IsReplayForm words
        → (G : IsGotBack first_state (called_behind first_state []) behind_byte byte_end named byte 2 (Got byte))
        × IsWhole first_state G.get }
    ensures every { (words : List (String Global)) → IsReplayForm words
        → GivesOrLoses first_state (called_behind first_state []) behind_byte 2 named (Got byte) ([] ∷ []) }
{
    a_byte_is_put_and_got();
    kept_files_are_got();
    every_get_ends_well();
}

/// A put of that file, the loss of a block of provider 2, a scrub that mends it, the loss of the block of provider 0, and
/// a get, in one replay: so the get gave the byte, or is lost by calls that failed, and each provider but 0 holds its own
/// block exactly.
pub fn a_lost_block_is_scrubbed()
    ensures told { (words : List (String Global)) → IsReplayForm words
        → IsToldSo words swept_text swept_commands swept_outcomes behind_swept swept_end }
    ensures asks { NoneAsksOn named lost2 × NoneAsksOn named lost0 × AsksDamageOf damaged2 put_lost
        × AsksDamageOf damaged0 lost0 }
    ensures epochs { ByScrubs (damaged0 ∷ damaged2 ∷ []) swept_commands swept_outcomes }
    ensures whole { (words : List (String Global)) → IsReplayForm words
        → (G : IsGotBack first_state (called_behind first_state []) behind_swept swept_end named byte 3 (Got byte))
        × IsWhole first_state G.get
        × AreExactBut damaged0 (now first_state (G.ms ++ called_behind first_state [])) }
    ensures row { (words : List (String Global)) → IsReplayForm words
        → IsGotOver first_state (called_behind first_state []) behind_swept swept_end named byte 3 (Got byte)
        (damaged0 ∷ damaged2 ∷ []) }
    ensures every { (words : List (String Global)) → IsReplayForm words
        → GivesOrLoses first_state (called_behind first_state []) behind_swept 3 named (Got byte)
        (damaged0 ∷ damaged2 ∷ []) }
{
    scrubbed_files_are_got();
    files_behind_scrubs_are_got();
    every_get_behind_scrubs_ends_well();
}

/// A put of that file, the loss of a block of provider 2, an audit that flags it, its repair, the loss of the block of
/// provider 0, and a get, in one replay: so the get gave the byte, or is lost by calls that failed, and no provider but 0
/// is wrong.
pub fn a_lost_block_is_repaired()
    ensures told { (words : List (String Global)) → IsReplayForm words
        → IsToldSo words mended_text mended_commands mended_outcomes behind_mended mended_end }
    ensures whole { (words : List (String Global)) → IsReplayForm words
        → (G : IsGotBack first_state (called_behind first_state []) behind_mended mended_end named byte 4
        (Got byte)) × IsWhole first_state G.get
        × AreRightBut damaged0 (now first_state (G.ms ++ called_behind first_state [])) }
    ensures asks { NoneAsksFor IsAudit opening × NoneAsksFor IsAudit lost2 × AsksDamageOf damaged2 audited_first
        × AreOver audited_first audited_outcomes }
{
    repaired_files_are_got();
}

/// A put of that file, an upgrade, a pack and a get, in one replay: so the get gave the byte, or is lost by calls that
/// failed. What lies between the areas of the disk may be any bytes, of which there are some.
pub fn a_packed_byte_is_told()
    ensures told { (words : List (String Global)) (filling : List ℕ) → IsReplayForm words → IsFilling filling
        → IsToldSo words packed_text packed_commands packed_outcomes (behind_packed filling)
        packed_end }
    ensures whole { (words : List (String Global)) (filling : List ℕ) → IsReplayForm words → IsFilling filling
        → (G : IsGotBack first_state (called_behind first_state []) (behind_packed filling) packed_end named byte 4
        (Got byte)) × IsWhole first_state G.get }
    ensures there_is_one { (filling : List ℕ) × IsFilling filling }
{
    packed_files_are_got();
}

/// A put of that file, an audit that a stop cuts behind its first step, a reopening and a get, in one replay: so the get
/// gave the byte, or is lost by calls that failed, and each image of the disk has the file.
pub fn a_cut_audit_keeps_a_byte()
    ensures told { (words : List (String Global)) → IsReplayForm words
        → IsToldSo words cut_text cut_commands cut_outcomes behind_cut cut_end }
    ensures cut { IsUpkeep (Begin AuditJob) × AreSteps 2 cut_steps }
    ensures kept { (words : List (String Global)) → IsReplayForm words
        → IsKeptOver first_state (called_behind first_state []) behind_cut cut_end named byte 3 (Got byte) [] }
{
    files_survive_cut_upkeep();
}

/// A put of that file, a put of another byte under its name that a stop cuts behind its first step, a reopening, a get of
/// the name, a put of that byte under another, a drop of the first, and a list, in one replay: so the get gave the
/// one byte or the other, or is lost by calls that failed; and the list tells the second file, neither the first nor one
/// that nobody put.
pub fn a_cut_put_is_told()
    ensures told { (words : List (String Global)) → IsReplayForm words
        → IsToldSo words listed_text listed_commands listed_outcomes behind_listed listed_end }
    ensures asks { AsksPutsOnly named other_byte put_cut × AreOverOn named got_cut got_cut_outcomes
        × AreOverOn second got_cut got_cut_outcomes × NonePuts third dropped_behind }
    ensures gave { (words : List (String Global)) → IsReplayForm words
        → GivesOldOrNew first_state (called_behind first_state []) behind_listed listed_end 3 named byte other_byte
        (Got byte) ([] ∷ []) }
    ensures epochs { ByScrubs ([] ∷ []) listed_commands listed_outcomes }
    ensures listed { (words : List (String Global)) → IsReplayForm words
        → TellsNames first_state (called_behind first_state []) behind_listed (second_file ∷ [])
        × ((file : File) × (find_file (second_file ∷ []) second ≡ Some file) × (file.size ≡ 1))
        × (find_file (second_file ∷ []) named ≡ None) × (find_file (second_file ∷ []) third ≡ None) }
{
    gets_give_old_or_new();
    lists_tell_what_stands();
}
