//! Packs of the store with the file, given outright, and a get from the packed store.
ghost use Rattle.std.specs.Prelude.{◌≡◌, ◌⊎◌, ℕ, false, List, [], ◌∷◌, Some, None};
ghost use Rattle.command_runs.specs.Words.{Record, A, Packed, DiskFault, OldVersion, Moment, IsRun, now, State, GetOf, PackJournal, Answers, packed_line, PacksAlone, PackedAlone, pack_refusal_over, IsRefused, IsSure, IsThen, HasRightFile, IsKnown, IsPacked, EndsInOrder, GivesUnlessMemory, SameHolds, LeavesImages, SameFetches, ends, IsStore, AreCalls, byte};
ghost use Rattle.command_runs.specs.Devices.{named, byte_upgraded_records, byte_records, upgraded_kept, byte_kept, disk_failed, own_blocks_heard, ends_hearing};
ghost use Rattle.command_runs.specs.Packed.{IsFilling, packed_records, packed_kept, packed_store, got_packed, pack_call, get_packed};

use command_laws::after::{done_commands_leave_known_stores, files_stay, stores_stay_known};
use command_laws::ends::{packs_end_well, reads_leave_what_is_held, refusals_are_exact};
use command_laws::kept::{images_stand, others_fetch_nothing};
use command_laws::pieces::commands_are_runs;
use job_laws::alone::told_packs_leave;

/// Packs: one that is done, one that a fault of the disk cuts off, and one of a journal of the first version,
/// which is refused; and a get from the packed store. Whatever lies between the two areas of the disk, it is
/// of this length, and there is such a filling.
pub fn packs_end()
    ensures pack { (filling : List ℕ) → IsFilling filling
        → Answers PackJournal upgraded_kept (packed_store filling) (ends 0) }
    ensures cut_pack { Answers PackJournal upgraded_kept (disk_failed upgraded_kept) (ends 12) }
    ensures old_version { Answers PackJournal byte_kept byte_kept (ends 23) }
    ensures get { (filling : List ℕ) → IsFilling filling
        → Answers (GetOf named) (packed_kept filling) (got_packed filling) (ends_hearing 0 own_blocks_heard) }
    ensures there_is_one { (filling : List ℕ) × IsFilling filling }
{}

/// The runs of such packs from any state just opened, and what they leave of the disk and the providers.
pub fn packs_run_alone()
    ensures done { (filling : List ℕ) → IsFilling filling
        → PacksAlone A byte_upgraded_records (Packed 80 81) upgraded_kept (packed_store filling) }
    ensures cut { PacksAlone A byte_upgraded_records DiskFault upgraded_kept (disk_failed upgraded_kept) }
    ensures left { (filling : List ℕ) → IsFilling filling
        → PackedAlone A byte_upgraded_records (Packed 80 81) upgraded_kept (packed_store filling) }
    ensures cut_left { PackedAlone A byte_upgraded_records DiskFault upgraded_kept
        (disk_failed upgraded_kept) }
{
    told_packs_leave();
}

/// The pack is not refused, tells the two lengths, and leaves the packed records and each provider as it was;
/// the store stays known, also where a fault cut it off, and the file is right. A pack of a journal of the
/// first version is refused, with that cause.
pub fn packs_leave_what_is_said()
    ensures begins { pack_refusal_over A byte_upgraded_records ≡ None }
    ensures packed { (filling : List ℕ) → IsFilling filling
        → IsPacked upgraded_kept (packed_store filling) (ends 0) }
    ensures told { (filling : List ℕ) → IsFilling filling
        → GivesUnlessMemory (packed_line 80 81) upgraded_kept (packed_store filling) (ends 0) }
    ensures in_order { (filling : List ℕ) → IsFilling filling
        → EndsInOrder PackJournal upgraded_kept (packed_store filling) (ends 0) }
    ensures old_version { pack_refusal_over A byte_records ≡ Some OldVersion }
    ensures refused { IsRefused 23 0 byte_kept byte_kept (ends 23)
        ⊎ IsRefused 70 0 byte_kept byte_kept (ends 23) }
    ensures held { (filling : List ℕ) → IsFilling filling → SameHolds upgraded_kept (packed_store filling) }
    ensures fetches { (filling : List ℕ) → IsFilling filling
        → SameFetches upgraded_kept (packed_store filling) }
    ensures images { (filling : List ℕ) → IsFilling filling
        → LeavesImages PackJournal upgraded_kept (packed_store filling) }
    ensures known { (filling : List ℕ) → IsFilling filling → IsSure (packed_store filling) packed_records }
    ensures next { (filling : List ℕ) → IsFilling filling
        → (after : List Record) × IsKnown (packed_kept filling) after
        × IsThen PackJournal byte_upgraded_records upgraded_kept (packed_store filling) after }
    ensures cut { (after : List Record) × IsKnown (disk_failed upgraded_kept) after
        × IsThen PackJournal byte_upgraded_records upgraded_kept (disk_failed upgraded_kept) after }
    ensures file { (filling : List ℕ) → IsFilling filling
        → HasRightFile (packed_store filling) packed_records named byte (λ j. false) }
{
    packs_end();
    packs_end_well();
    refusals_are_exact();
    reads_leave_what_is_held();
    others_fetch_nothing();
    images_stand();
    done_commands_leave_known_stores();
    stores_stay_known();
    files_stay();
}

/// A pack, and behind it a get from the packed store, are one run of the machine, which goes on over the
/// whole history.
pub fn commands_go_on_after_a_pack()
    ensures { (filling : List ℕ) → IsFilling filling → (start : State) × (own : List Moment)
        × AreCalls start (get_packed filling ∷ pack_call filling ∷ []) own × IsRun 8 start own
        × IsStore (now start own) (got_packed filling) }
{
    commands_are_runs();
}
