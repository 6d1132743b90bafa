ghost use Rattle.std.specs.Prelude.{◌<◌, ◌-◌, ◌^◌, ℕ, IfSome};
ghost use Rattle.machine_defs.specs.Events.{Begin, BeginScrub, BeginPack, put_event, AreBytes};
ghost use Rattle.machine_defs.specs.Jobs.{GetJob, DropJob, AuditJob, RepairJob, UpgradeJob};
ghost use Rattle.machine_defs.specs.States.{State};
ghost use Rattle.vault_open.specs.Devices.{Devices};
ghost use Rattle.hail_client.specs.Client.{client_next_job, IsSame};
ghost use Rattle.hail_client.specs.Outcomes.{client_begin_outcome, UnlessBegun};
ghost use Rattle.hail_client.specs.Stands.{ClientStands, MakesEvent};

use crate::alone::{Alone, ScrubJob};
use crate::client::Client;
use hail_field::Memory;
use std::alloc::Global;
use stream_model::Bytes;
use vault::BeginFault;

/// What a slice of bytes holds are bytes.
pub(crate) fn bytes_are_bytes(bytes: &[u8])
    ensures { AreBytes bytes.now }
{}

/// The number of a profile fits its type.
fn profiles_fit(profile: Option<u8>)
    ensures { IfSome profile (λ number. number < 256) }
{}

impl Client {
    /// Begins to put a file under a name, with the setup's profile where it names none; None where no vault
    /// is open, as at each begin.
    pub fn begin_put(
        &mut self,
        name: &[u8],
        bytes: Bytes,
        profile: Option<u8>,
    ) -> Option<Result<u32, BeginFault>>
        requires { client_next_job self.old < 2 ^ 32 - 1 }
        ensures machine { (w : State) (d : Devices) (moment : ℕ) → ClientStands self.old d w
            → MakesEvent w moment (put_event profile name.now bytes) (client_begin_outcome result) self.new
            d }
        ensures unchanged { UnlessBegun result (IsSame self.old self.new) }
    {
        bytes_are_bytes(name);
        bytes_are_bytes(bytes.as_slice());
        profiles_fit(profile);
        match &mut self.vault {
            Some(vault) => Some(vault.begin_put(name, bytes, profile)),
            None => None,
        }
    }

    /// Begins to get the file of a name.
    pub fn begin_get(&mut self, name: &[u8]) -> Option<Result<u32, BeginFault>>
        requires { client_next_job self.old < 2 ^ 32 - 1 }
        ensures machine { (w : State) (d : Devices) (moment : ℕ) → ClientStands self.old d w
            → MakesEvent w moment (Begin (GetJob name.now)) (client_begin_outcome result) self.new d }
        ensures unchanged { UnlessBegun result (IsSame self.old self.new) }
    {
        bytes_are_bytes(name);
        match &mut self.vault {
            Some(vault) => Some(vault.begin_get(name)),
            None => None,
        }
    }

    /// Begins to drop the file of a name.
    pub fn begin_drop(&mut self, name: &[u8]) -> Option<Result<u32, BeginFault>>
        requires { client_next_job self.old < 2 ^ 32 - 1 }
        ensures machine { (w : State) (d : Devices) (moment : ℕ) → ClientStands self.old d w
            → MakesEvent w moment (Begin (DropJob name.now)) (client_begin_outcome result) self.new d }
        ensures unchanged { UnlessBegun result (IsSame self.old self.new) }
    {
        bytes_are_bytes(name);
        match &mut self.vault {
            Some(vault) => Some(vault.begin_drop(name)),
            None => None,
        }
    }

    /// Begins to audit all files in effect.
    pub fn begin_audit(&mut self) -> Option<Result<u32, BeginFault>>
        requires { client_next_job self.old < 2 ^ 32 - 1 }
        ensures machine { (w : State) (d : Devices) (moment : ℕ) → ClientStands self.old d w
            → MakesEvent w moment (Begin AuditJob) (client_begin_outcome result) self.new d }
        ensures unchanged { UnlessBegun result (IsSame self.old self.new) }
    {
        match &mut self.vault {
            Some(vault) => Some(vault.begin_audit()),
            None => None,
        }
    }

    /// Begins to rebuild the providers that the last audit flagged.
    pub fn begin_repair(&mut self) -> Option<Result<u32, BeginFault>>
        requires { client_next_job self.old < 2 ^ 32 - 1 }
        ensures machine { (w : State) (d : Devices) (moment : ℕ) → ClientStands self.old d w
            → MakesEvent w moment (Begin RepairJob) (client_begin_outcome result) self.new d }
        ensures unchanged { UnlessBegun result (IsSame self.old self.new) }
    {
        match &mut self.vault {
            Some(vault) => Some(vault.begin_repair()),
            None => None,
        }
    }

    /// Begins to bring the journal's second version into effect.
    pub fn begin_upgrade(&mut self) -> Option<Result<u32, BeginFault>>
        requires { client_next_job self.old < 2 ^ 32 - 1 }
        ensures machine { (w : State) (d : Devices) (moment : ℕ) → ClientStands self.old d w
            → MakesEvent w moment (Begin UpgradeJob) (client_begin_outcome result) self.new d }
        ensures unchanged { UnlessBegun result (IsSame self.old self.new) }
    {
        match &mut self.vault {
            Some(vault) => Some(vault.begin_upgrade()),
            None => None,
        }
    }

    /// Begins to scrub all files in effect. It runs alone, with no job beside it: it is refused as busy while
    /// a job, a scrub or a pack runs, and all begins are while it runs.
    pub fn begin_scrub(&mut self, alloc: Global) -> Option<Result<u32, BeginFault>>
        requires { client_next_job self.old < 2 ^ 32 - 1 }
        ensures machine { (w : State) (d : Devices) (moment : ℕ) → ClientStands self.old d w
            → MakesEvent w moment BeginScrub (client_begin_outcome result) self.new d }
        ensures unchanged { UnlessBegun result (IsSame self.old self.new) }
    {
        match &mut self.vault {
            Some(vault) => {
                let scrub = match vault.scrub(alloc) {
                    Ok(scrub) => scrub,
                    Err(Memory) => return Some(Err(BeginFault::Memory)),
                };
                match vault.hold() {
                    Ok(number) => {
                        self.alone = Some(Alone::Scrub(ScrubJob { number, scrub }));
                        Some(Ok(number))
                    }
                    Err(fault) => Some(Err(fault)),
                }
            }
            None => None,
        }
    }

    /// Begins to pack the journal into the area of the disk that is not active. It runs alone, as a scrub does;
    /// it is refused too where the journal has its first version, and where its text reaches from the first
    /// area into the second.
    pub fn begin_pack(&mut self) -> Option<Result<u32, BeginFault>>
        requires { client_next_job self.old < 2 ^ 32 - 1 }
        ensures machine { (w : State) (d : Devices) (moment : ℕ) → ClientStands self.old d w
            → MakesEvent w moment BeginPack (client_begin_outcome result) self.new d }
        ensures unchanged { UnlessBegun result (IsSame self.old self.new) }
    {
        match &mut self.vault {
            Some(vault) => match vault.begin_pack() {
                Ok(job) => {
                    let number = job.number;
                    self.alone = Some(Alone::Pack(job));
                    Some(Ok(number))
                }
                Err(fault) => Some(Err(fault)),
            },
            None => None,
        }
    }
}
