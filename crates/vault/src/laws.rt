//! What holds of every vault and its devices.
ghost use Rattle.std.specs.Prelude.{◌≡◌, ◌≤◌, ◌+◌, ◌*◌, ℕ, List, None, Some, length, false};
ghost use Rattle.device_defs.specs.Providers.{Provider};
ghost use Rattle.machine_defs.specs.Jobs.{Job, PutJob, job_of};
ghost use Rattle.machine_defs.specs.States.{State, setup_in};
ghost use Rattle.opening_defs.specs.Opened.{AreHanded};
ghost use Rattle.vault_core.specs.Coming.{IsNoJob};
ghost use Rattle.vault_core.specs.Streams.{stripe_size};
ghost use Rattle.vault_open.specs.Devices.{Devices, devices};
ghost use Rattle.vault.specs.declared.vault.Vault.{Vault};
ghost use Rattle.vault.specs.Seen.{coming_of};
ghost use Rattle.vault.specs.Stands.{Stands, StandsBeside, Carries};
ghost use Rattle.vault.specs.Streams.{wants_of, stripe_of, IsStreamless};

/// The disk carries a vault that stands for a state in which no disk call of its jobs failed.
pub fn what_stands_is_carried()
    ensures { (v : Vault) (d : Devices) (w : State) → Stands v d w → w.is_barred ≡ false → Carries v d.holds }
{}

/// No job runs in a held vault, so that no number is that of a job.
pub fn held_vaults_have_no_jobs()
    ensures { (v : Vault) (d : Devices) (w : State) (number job : ℕ) → StandsBeside v d w number
        → coming_of v job ≡ IsNoJob }
{}

/// Where other providers are handed in, held or not a vault stands for the state that has these in place of
/// the old ones.
pub fn vaults_stand_over_other_providers()
    ensures stands { (v : Vault) (d : Devices) (w : State) (ps : List Provider) (providers : ℕ → Provider)
        → Stands v d w → AreHanded ps (record w { providers = providers })
        → Stands v (devices d.holds d.faults ps) (record w { providers = providers }) }
    ensures beside { (v : Vault) (d : Devices) (w : State) (ps : List Provider) (providers : ℕ → Provider)
        (number : ℕ) → StandsBeside v d w number → AreHanded ps (record w { providers = providers })
        → StandsBeside v (devices d.holds d.faults ps) (record w { providers = providers }) number }
{}

/// Where no stream is open, no job waits for a stripe.
pub fn only_streams_wait()
    ensures { (v : Vault) (job : ℕ) → IsStreamless v → wants_of v job ≡ None }
{}

/// A stream that waits for a stripe stands for puts that have made their first append and all stores of the
/// stripes before, and no more; a stripe is one of the profile of their file.
pub fn where_streams_wait()
    ensures place { (v : Vault) (d : Devices) (w : State) (job stripe : ℕ) (j : Job) → Stands v d w
        → job_of w.jobs job ≡ Some j → wants_of v job ≡ Some stripe
        → j.place ≡ 4 + stripe * (setup_in w).n }
    ensures size { (v : Vault) (d : Devices) (w : State) (job : ℕ) (j : Job) → Stands v d w
        → job_of w.jobs job ≡ Some j → stripe_of v job ≡ stripe_size (setup_in w) j.profile }
    ensures told { (v : Vault) (d : Devices) (w : State) (job stripe : ℕ) (j : Job) (name bytes : List ℕ)
        → Stands v d w → job_of w.jobs job ≡ Some j → wants_of v job ≡ Some stripe
        → j.kind ≡ PutJob name bytes → stripe * stripe_size (setup_in w) j.profile ≤ length bytes }
{}
