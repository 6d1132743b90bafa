//! What commands leave however they end: the disk's images, fetches, and what a store that failed or a lost
//! row leaves due.
ghost use Rattle.std.specs.Prelude.{◌≡◌, ◌≢◌, ◌⊎◌, ℕ, ◌<◌, true, List, [], length, Option, Some, None};
ghost use Rattle.device_defs.specs.Faults.{Rose};
ghost use Rattle.device_defs.specs.Images.{EachImage};
ghost use Rattle.record_defs.specs.Records.{Record, largest_file};
ghost use Rattle.record_defs.specs.Journal.{StandsFor};
ghost use Rattle.record_defs.specs.Packed.{packed};
ghost use Rattle.machine_defs.specs.Jobs.{Kind};
ghost use Rattle.command_defs.specs.Forms.{Command, Numbers, RowOf, InitWith, GetOf, DropOf, ListAll, AuditAll, RepairAll, UpgradeJournal, ScrubAll, PackJournal};
ghost use Rattle.command_defs.specs.Seen.{Seen, Ending, IsRefused, KeepsDisk, provider_at};
ghost use Rattle.command_defs.specs.Opens.{setup_in_effect};
ghost use Rattle.command_defs.specs.Commands.{Answers};
ghost use Rattle.command_laws.specs.Ends.{IsKnown, put_of, put_refusal, profile_named, RunsKind, GivesUpPut, opens_store};
ghost use Rattle.command_laws.specs.Kept.{KeepsImages, IsAfter, LeavesImages, InitImages, SameFetches, stores_blocks, opens_rows, FailsToPut, FailsToRepair, FailsToScrub, LosesFile, LosesRepair, LosesScrub};

/// What a stop may leave of the disk after a command: what it could have left before, or, where a job was
/// run, the records that were read with the first few of those that the job wrote; after a pack the packed
/// ones may stand there. A put whose last record may stand there has read its whole source. A scrub at most
/// syncs the disk, and an init leaves a store that is set up as it is.
pub fn images_stand()
    ensures refused { (status at : ℕ) (old new : Seen) (end : Ending) → IsRefused status at old new end
        → KeepsImages old new }
    ensures store { (command : Command) (old new : Seen) (end : Ending) → Answers command old new end
        → opens_store command ≡ true →
        LeavesImages command old new }
    ensures scrub { (old new : Seen) (end : Ending) → Answers ScrubAll old new end
        → KeepsDisk old new × KeepsImages old new }
    ensures row { (n l b : ℕ) (seen : List (Option ℕ)) (old new : Seen) (end : Ending)
        → Answers (RowOf n l b seen) old new end → KeepsImages old new }
    ensures known { (command : Command) (records : List Record) (old new : Seen) (end : Ending)
        → Answers command old new end →
        opens_store command ≡ true → IsKnown old records
        → EachImage old.disk (λ image. StandsFor image records) →
        EachImage new.disk (λ image. StandsFor image records
        ⊎ (((kind : Kind) × RunsKind command old new kind
        × IsAfter records kind (profile_named command) old new image)
        ⊎ ((command ≡ PackJournal) × StandsFor image (packed records)))) }
    ensures init { (numbers : Numbers) (old new : Seen) (end : Ending)
        → Answers (InitWith numbers) old new end → InitImages numbers old new }
    ensures init_known { (numbers : Numbers) (records : List Record) (old new : Seen) (end : Ending)
        → Answers (InitWith numbers) old new end →
        records ≢ [] → EachImage old.disk (λ image. StandsFor image records) → KeepsImages old new }
{}

/// A put, a drop, an audit, an upgrade and a pack fetch nothing, at any status; nor do an init and a list.
pub fn others_fetch_nothing()
    ensures put { (name : List ℕ) (own : Option ℕ) (old new : Seen) (end : Ending)
        → Answers (put_of name own) old new end → SameFetches old new }
    ensures drop { (name : List ℕ) (old new : Seen) (end : Ending) → Answers (DropOf name) old new end
        → SameFetches old new }
    ensures audit { (old new : Seen) (end : Ending) → Answers AuditAll old new end → SameFetches old new }
    ensures upgrade { (old new : Seen) (end : Ending) → Answers UpgradeJournal old new end
        → SameFetches old new }
    ensures pack { (old new : Seen) (end : Ending) → Answers PackJournal old new end → SameFetches old new }
    ensures list { (old new : Seen) (end : Ending) → Answers ListAll old new end → SameFetches old new }
    ensures init { (numbers : Numbers) (old new : Seen) (end : Ending)
        → Answers (InitWith numbers) old new end → SameFetches old new }
{}

/// A put of status 13 has used its number, and no file came into effect or went out of it. A repair of status
/// 13 stays due; a scrub has at most written some blocks anew. No other command ends so.
pub fn failed_stores_leave()
    ensures put { (name : List ℕ) (own : Option ℕ) (old new : Seen) (end : Ending)
        → Answers (put_of name own) old new end → end.status ≡ 13 →
        FailsToPut name own old new end }
    ensures repair { (old new : Seen) (end : Ending) → Answers RepairAll old new end → end.status ≡ 13
        → FailsToRepair old new end }
    ensures scrub { (old new : Seen) (end : Ending) → Answers ScrubAll old new end → end.status ≡ 13
        → FailsToScrub old new end }
    ensures only { (command : Command) (old new : Seen) (end : Ending) → Answers command old new end
        → end.status ≡ 13 →
        stores_blocks command ≡ true }
{}

/// A source that failed, or that has more bytes than a file may have. A put of status 16, or of 14 behind its
/// begin, was given up: its number is used, the whole stripes of what was read are stored under it, and no
/// file came into effect or went out of it. A command of status 14 that was not given up has changed nothing.
/// Over a disk and a source that tell, a put of more than 4,194,304 bytes that is not refused ends with 16,
/// or finds no memory, unless a count of faults rose: the disk's, that of a provider's stores, or the
/// source's.
pub fn cut_sources_leave()
    ensures source_fault { (command : Command) (old new : Seen) (end : Ending) → Answers command old new end
        → end.status ≡ 14 →
        IsRefused 14 0 old new end ⊎ ((name : List ℕ) × (own : Option ℕ) × (command ≡ put_of name own)
        × GivesUpPut name own old new end) }
    ensures too_long { (command : Command) (old new : Seen) (end : Ending) → Answers command old new end
        → end.status ≡ 16 →
        (name : List ℕ) × (own : Option ℕ) × (command ≡ put_of name own) × GivesUpPut name own old new end }
    ensures ends_well { (name bytes : List ℕ) (own : Option ℕ) (records : List Record) (old new : Seen)
        (end : Ending) → Answers (put_of name own) old new end →
        (known : IsKnown old records) → old.source ≡ Some bytes → largest_file < length bytes
        → put_refusal known.opened.area records name own ≡ None → (Rose old.disk_faults new.disk_faults → ⊥) →
        ((j : ℕ) → j < (setup_in_effect records).n
        → Rose (provider_at old.providers j).store_faults (provider_at new.providers j).store_faults → ⊥) →
        (Rose old.source_faults new.source_faults → ⊥) → (end.status ≡ 16) ⊎ (end.status ≡ 70) }
{}

/// A get, a repair or a scrub of status 4 tells a row that was not accepted, the lowest of the first stripe
/// that has one, from what the fetches gave. A repair stays due. But for a row, no other command ends so.
pub fn lost_rows_are_told()
    ensures get { (name : List ℕ) (old new : Seen) (end : Ending) → Answers (GetOf name) old new end
        → end.status ≡ 4 →
        LosesFile name old new end }
    ensures repair { (old new : Seen) (end : Ending) → Answers RepairAll old new end → end.status ≡ 4
        → LosesRepair old new end }
    ensures scrub { (old new : Seen) (end : Ending) → Answers ScrubAll old new end → end.status ≡ 4
        → LosesScrub old new end }
    ensures only { (command : Command) (old new : Seen) (end : Ending) → Answers command old new end
        → end.status ≡ 4 →
        opens_rows command ≡ true }
{}
