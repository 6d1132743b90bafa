ghost use Rattle.vault.specs.Desks.{IsAtWork};

use crate::desk::Desk;
use record_codec::Setup;
use vault_table::Table;

/// An open vault: the jobs of a client over a disk and providers, which it does not hold: each step is lent
/// them. It may be held, under a job's number, for what runs alone: then no job runs and none begins.
#[derive(Drop)]
pub struct Vault {
    pub(crate) desk: Desk,
    pub(crate) held: Option<u32>,
    ghost at_work: { IsAtWork desk },
}

impl Vault {
    ghost use Rattle.std.specs.Prelude.{◌≡◌};
    ghost use Rattle.vault.specs.Seen.{vault_setup, table_of, next_job_of};

    /// The numbers that the store was set up with.
    pub fn setup(&self) -> Setup
        ensures { result ≡ vault_setup self.now }
    {
        self.desk.setup
    }

    /// The fold of the records in effect.
    pub fn table(&self) -> &Table
        ensures { result.now ≡ table_of self.now }
    {
        self.desk.core.table()
    }

    /// The number that the next accepted begin gets.
    pub fn next_job(&self) -> u32
        ensures { result ≡ next_job_of self.now }
    {
        self.desk.core.next_job()
    }

    /// Gives the vault up: a job that is under way goes on no more. What the disk and the providers hold
    /// stays.
    pub fn close(self) {}
}
