//! What gets, puts, drops and upgrades leave that run alone, and when jobs end well, from a state whose vault
//! was just opened.
ghost use Rattle.std.specs.Prelude.{◌≡◌, ◌⊎◌, ℕ, ◌+◌, ◌<◌, ◌≤◌, List, length, Option, None, Some};
ghost use Rattle.device_defs.specs.Faults.{Rose};
ghost use Rattle.record_defs.specs.Table.{File};
ghost use Rattle.machine_defs.specs.Jobs.{PutJob, GetJob, DropJob, AuditJob, RepairJob, UpgradeJob};
ghost use Rattle.machine_defs.specs.Answers.{Answer, Put, Got, Dropped, Audited, Repaired, Upgraded, Memory};
ghost use Rattle.machine_defs.specs.Events.{IsSpelledKind, AreBytes};
ghost use Rattle.machine_defs.specs.States.{State, setup_in, file_object, file_in};
ghost use Rattle.machine_defs.specs.Heard.{Entry, HoldsForgery};
ghost use Rattle.command_defs.specs.Ran.{ran_from};
ghost use Rattle.command_defs.specs.JobRuns.{RunsJob};
ghost use Rattle.command_defs.specs.Jobs.{Leaves};
ghost use Rattle.opening_defs.specs.Opened.{IsOpenAtRest};
ghost use Rattle.job_laws.specs.Failing.{bad_count};

/// What a get leaves, however it ends: it gives what it heard, and changes nothing.
pub fn gets_leave()
    ensures { (w new : State) (moment : ℕ) (name : List ℕ) (answer : Answer) (heard : List Entry)
        → IsOpenAtRest w 1 → IsSpelledKind (GetJob name) →
        RunsJob w moment (GetJob name) None answer heard new
        → Leaves (ran_from w new heard) (GetJob name) None answer }
{}

/// What a put leaves, however it ends, with the profile that it names or else the setup's: the file on every
/// provider, or a part of it under a number that is not used again.
pub fn puts_leave()
    ensures { (w new : State) (moment : ℕ) (name bytes : List ℕ) (own : Option ℕ) (answer : Answer)
        (heard : List Entry) → IsOpenAtRest w 1 → IsSpelledKind (PutJob name bytes) →
        RunsJob w moment (PutJob name bytes) own answer heard new
        → Leaves (ran_from w new heard) (PutJob name bytes) own answer }
{}

/// What a drop leaves, however it ends: the file on no provider, but for blocks that stay where a count of
/// faults rose.
pub fn drops_leave()
    ensures { (w new : State) (moment : ℕ) (name : List ℕ) (answer : Answer) (heard : List Entry)
        → IsOpenAtRest w 1 → IsSpelledKind (DropJob name) →
        RunsJob w moment (DropJob name) None answer heard new
        → Leaves (ran_from w new heard) (DropJob name) None answer }
{}

/// What an upgrade leaves, however it ends: the journal has its second version, and providers hold what they
/// held.
pub fn upgrades_leave()
    ensures { (w new : State) (moment : ℕ) (answer : Answer) (heard : List Entry) → IsOpenAtRest w 1
        → RunsJob w moment UpgradeJob None answer heard new →
        Leaves (ran_from w new heard) UpgradeJob None answer }
{}

/// What follows for a get from how many providers are wrong for the file, or failed, as the run began and
/// went.
pub fn few_bad_providers_give_file()
    ensures complete { (w new : State) (moment : ℕ) (name bytes : List ℕ) (answer : Answer)
        (heard : List Entry) (file : File) → IsOpenAtRest w 1 →
        IsSpelledKind (GetJob name) → RunsJob w moment (GetJob name) None answer heard new
        → file_in w name ≡ Some file → AreBytes bytes →
        length bytes ≡ file.size → bad_count (ran_from w new heard) file bytes ≤ (setup_in w).b
        → answer ≡ Got bytes }
    ensures right { (w new : State) (moment : ℕ) (name bytes got : List ℕ) (heard : List Entry)
        (file : File) → IsOpenAtRest w 1 →
        IsSpelledKind (GetJob name) → RunsJob w moment (GetJob name) None (Got got) heard new
        → file_in w name ≡ Some file → AreBytes bytes →
        length bytes ≡ file.size → bad_count (ran_from w new heard) file bytes ≤ (setup_in w).b + 1
        → got ≡ bytes }
    ensures forged { (w new : State) (moment : ℕ) (name bytes got : List ℕ) (heard : List Entry)
        (file : File) → IsOpenAtRest w 1 →
        IsSpelledKind (GetJob name) → RunsJob w moment (GetJob name) None (Got got) heard new
        → file_in w name ≡ Some file → AreBytes bytes →
        length bytes ≡ file.size → (got ≡ bytes) ⊎ HoldsForgery (file_object w file) bytes 1 heard }
{}

/// A put stores the file, or found no memory, unless a count of faults rose: the disk's, or that of a
/// provider's stores.
pub fn puts_end_well()
    ensures { (w new : State) (moment : ℕ) (name bytes : List ℕ) (own : Option ℕ) (answer : Answer)
        (heard : List Entry) → IsOpenAtRest w 1 → IsSpelledKind (PutJob name bytes) →
        RunsJob w moment (PutJob name bytes) own answer heard new → (Rose w.disk_faults new.disk_faults → ⊥) →
        ((j : ℕ) → j < (setup_in w).n → Rose (w.providers j).store_faults (new.providers j).store_faults
        → ⊥) →
        (answer ≡ Put) ⊎ (answer ≡ Memory) }
{}

/// A drop takes the file away, or found no memory, unless the disk's count of faults rose.
pub fn drops_end_well()
    ensures { (w new : State) (moment : ℕ) (name : List ℕ) (answer : Answer) (heard : List Entry)
        → IsOpenAtRest w 1 → IsSpelledKind (DropJob name) →
        RunsJob w moment (DropJob name) None answer heard new → (Rose w.disk_faults new.disk_faults → ⊥)
        → (answer ≡ Dropped) ⊎ (answer ≡ Memory) }
{}

/// An upgrade gives the journal its second version, or found no memory, unless the disk's count of faults
/// rose.
pub fn upgrades_end_well()
    ensures { (w new : State) (moment : ℕ) (answer : Answer) (heard : List Entry) → IsOpenAtRest w 1
        → RunsJob w moment UpgradeJob None answer heard new →
        (Rose w.disk_faults new.disk_faults → ⊥) → (answer ≡ Upgraded) ⊎ (answer ≡ Memory) }
{}

/// An audit gives its sums, or found no memory, unless the disk's count of faults rose, whatever providers
/// do.
pub fn audits_end_well()
    ensures { (w new : State) (moment : ℕ) (answer : Answer) (heard : List Entry) → IsOpenAtRest w 1
        → RunsJob w moment AuditJob None answer heard new →
        (Rose w.disk_faults new.disk_faults → ⊥)
        → ((number undecided : ℕ) × (counts : List ℕ) × (answer ≡ Audited number undecided counts))
        ⊎ (answer ≡ Memory) }
{}

/// A repair writes the flagged providers anew, or found no memory, where for each file in effect at most b
/// providers are wrong for its bytes or failed, unless a count of faults rose: the disk's, or that of a
/// provider's stores.
pub fn repairs_end_well()
    ensures { (w new : State) (moment : ℕ) (answer : Answer) (heard : List Entry) (bytes : ℕ → List ℕ)
        → IsOpenAtRest w 1 → RunsJob w moment RepairJob None answer heard new →
        (Rose w.disk_faults new.disk_faults → ⊥) →
        ((j : ℕ) → j < (setup_in w).n → Rose (w.providers j).store_faults (new.providers j).store_faults
        → ⊥) →
        ((name : List ℕ) (file : File) → file_in w name ≡ Some file → (length (bytes file.id) ≡ file.size) ×
        (bad_count (ran_from w new heard) file (bytes file.id) ≤ (setup_in w).b)) →
        ((number : ℕ) × (answer ≡ Repaired number)) ⊎ (answer ≡ Memory) }
{}
