ghost use Rattle.std.specs.Prelude.{IfSome};
ghost use Rattle.vault.specs.Streams.{IsStreamless};
ghost use Rattle.hail_client.specs.AtWork.{IsAloneAtWork};

use crate::alone::Alone;
use vault::Vault;
use vault_table::Table;

/// The number of the first job.
const FIRST_JOB: u32 = 1;

/// A client: a vault with its jobs, where one is open, and the scrub or the pack that runs alone, where one
/// does, over a disk and providers, which it does not hold: each call is lent them.
#[derive(Drop)]
pub struct Client {
    pub(crate) vault: Option<Vault>,
    pub(crate) alone: Option<Alone>,
    pub(crate) next_job: u32,
    ghost at_work: { ∥ IsAloneAtWork vault alone ∥₁ },
    ghost streamless: { ∥ IfSome vault IsStreamless ∥₁ },
}

impl Client {
    ghost use Rattle.std.specs.Prelude.{◌≡◌, ℕ, false, option_copied};
    ghost use Rattle.machine_defs.specs.Events.{Names};
    ghost use Rattle.machine_defs.specs.States.{State, IsStart, continued};
    ghost use Rattle.state_laws.specs.Sound.{IsSound};
    ghost use Rattle.vault_open.specs.Devices.{Devices, AreDevices};
    ghost use Rattle.hail_client.specs.Client.{is_open, client_next_job, names_of, uses};
    ghost use Rattle.hail_client.specs.Outcomes.{names_outcome};
    ghost use Rattle.hail_client.specs.Stands.{ClientStands, MakesEvent};

    /// A client with no vault open, whose jobs are numbered from 1.
    pub fn new() -> Client
        ensures start { (d : Devices) (w : State) → IsStart w → AreDevices d w → ClientStands result d w }
        ensures closed { is_open result ≡ false }
        ensures first { client_next_job result ≡ 1 }
        ensures continued { (d : Devices) (w : State) → IsSound 8 w → AreDevices d w
            → ClientStands result d (continued w) }
    {
        Client {
            vault: None,
            alone: None,
            next_job: FIRST_JOB,
        }
    }

    /// Whether a vault is open.
    pub fn is_open(&self) -> bool
        ensures { result ≡ is_open self.now }
    {
        self.vault.is_some()
    }

    /// The number that the next accepted begin gets.
    pub fn next_job(&self) -> u32
        ensures { result ≡ client_next_job self.now }
    {
        match &self.vault {
            Some(vault) => vault.next_job(),
            None => self.next_job,
        }
    }

    /// How many providers a step uses: those of the setup, and 0 where no vault is open.
    pub fn providers(&self) -> usize
        ensures { result ≡ uses self.now }
    {
        match &self.vault {
            Some(vault) => usize::from(vault.setup().n),
            None => 0,
        }
    }

    /// The files in effect, in byte order of their names; None where no vault is open.
    pub fn names(&self) -> Option<&Table>
        ensures table { option_copied result ≡ names_of self.now }
        ensures machine { (w : State) (d : Devices) (moment : ℕ) → ClientStands self.now d w
            → MakesEvent w moment Names (names_outcome (option_copied result)) self.now d }
    {
        match &self.vault {
            Some(vault) => Some(vault.table()),
            None => None,
        }
    }

    /// Gives the client up, and its vault, where one is open, and what runs alone.
    pub fn close(self) {}
}
