ghost use Rattle.std.specs.Prelude.{◌≡◌, List, true, false, is_some, length, map};
ghost use Rattle.machine_defs.specs.Runs.{Moment};
ghost use Rattle.machine_defs.specs.States.{State};
ghost use Rattle.vault_open.specs.Devices.{devices};
ghost use Rattle.vault.specs.Devices.{devices_seen};
ghost use Rattle.vault.specs.Outcomes.{IfEnded, HasPaddedCounts};
ghost use Rattle.hail_client.specs.Client.{is_open};
ghost use Rattle.hail_client.specs.Outcomes.{job_goes_on, IfJob};
ghost use Rattle.hail_client.specs.Stands.{IsStanding, IsReached, RunsJobOn};

use crate::client::Client;
use crate::turn::{ClientTurn, PackStep};
use disk_model::Disk;
use hail_scrub::ScrubTurn;
use provider_model::Provider;
use vault::Turn;

/// Whether a job, a scrub or a pack goes on after a step.
fn goes_on(answer: &Option<ClientTurn>) -> bool
    ensures { result ≡ job_goes_on answer.now }
{
    match answer {
        Some(ClientTurn::Job(turn)) => matches!(turn, Turn::More),
        Some(ClientTurn::Scrub { turn, .. }) => matches!(turn, ScrubTurn::More),
        Some(ClientTurn::Pack(step)) => matches!(step, PackStep::More),
        None => false,
    }
}

impl Client {
    /// Makes as many steps of a job, a scrub or a pack as it takes until the answer is not that it goes on; None
    /// where no vault is open. Condition: where a vault is open, client and devices stand for some state, as they
    /// do at each moment of a run.
    pub fn run<D: Disk, P: Provider>(
        &mut self,
        job: u32,
        disk: &mut D,
        providers: &mut [P],
    ) -> Option<ClientTurn>
        requires standing { is_open self.old ≡ true
            → IsStanding self.old (devices_seen D.Disk P.Provider disk.old providers.old) }
        ensures machine { (start : State) (ms : List Moment)
            → IsReached start ms self.old (devices_seen D.Disk P.Provider disk.old providers.old)
            → RunsJobOn start ms job result self.new
            (devices_seen D.Disk P.Provider disk.new providers.new) }
        ensures over { job_goes_on result ≡ false }
        ensures count { length providers.new ≡ length providers.old }
        ensures tells { is_some (D.holds disk.new) ≡ is_some (D.holds disk.old) }
        ensures padded { IfJob result (λ turn. IfEnded turn (λ ended. HasPaddedCounts ended.answer)) }
    {
        loop {
            let turn = self.step(job, disk, providers);
            if !goes_on(&turn) {
                return turn;
            }
        }
    }
}
