ghost use Rattle.std.specs.Prelude.{◌≡◌, ◌↔◌, ◌<◌, ◌≤◌, ◌++◌, ◌∷◌, [], ℕ, true, Some, None, IfSome, length};
ghost use Rattle.machine_defs.specs.Heard.{heard_by};
ghost use Rattle.machine_defs.specs.Jobs.{job_of};
ghost use Rattle.machine_defs.specs.States.{State};
ghost use Rattle.record_defs.specs.Records.{Record as Entry};
ghost use Rattle.record_defs.specs.Spellings.{spelling};
ghost use Rattle.vault.specs.declared.turn.Turn.TheVariants as turn;
ghost use Rattle.vault.specs.Calls.{moves_before_next, MovesCells};
ghost use Rattle.hail_client.specs.declared.turn.ClientTurn.TheVariants as client_turn;
ghost use Rattle.hail_client.specs.Outcomes.{job_goes_on, IfJob, HeardIs};
ghost use Rattle.hail_client.specs.PackCells.{client_pack, IfPackStep, StepsPackCells};
ghost use Rattle.journal_pack.specs.declared.pack.Pack.{Pack};
ghost use Rattle.vault.specs.Devices.{devices_seen};
ghost use Rattle.vault.specs.Outcomes.{IfEnded, IsNoAction, HasPaddedCounts};
ghost use Rattle.vault.specs.Steps.{CallsNext};
ghost use Rattle.vault_core.specs.Coming.{IsNoJob, calls_disk};
ghost use Rattle.hail_client.specs.Client.{uses, is_open, client_left, client_coming, client_entry, client_closed_gate, IsSame};
ghost use Rattle.hail_client.specs.Stands.{ClientStands, ClientMakesStep};

use crate::alone::Alone;
use crate::client::Client;
use crate::turn::{ClientTurn, PackStep};
use disk_model::Disk;
use hail_scrub::ScrubTurn;
use provider_model::Provider;
use vault::laws::only_streams_wait;
use vault::{PackTurn, Turn};

impl Client {
    /// Makes the next action of a job, or of the scrub or the pack whose number it is, with its one call of a
    /// device, if it has one; None where no vault is open. Beside a scrub or a pack no job runs. Conditions: as
    /// many providers as the open vault uses, or more, of which only these are used; and the disk is the one
    /// that it was opened over.
    pub fn step<D: Disk, P: Provider>(
        &mut self,
        job: u32,
        disk: &mut D,
        providers: &mut [P],
    ) -> Option<ClientTurn>
        requires { uses self.old ≤ length providers.old }
        ensures machine { (w : State) (moment : ℕ)
            → ClientStands self.old (devices_seen D.Disk P.Provider disk.old providers.old) w
            → ClientMakesStep w moment job result self.new
            (devices_seen D.Disk P.Provider disk.old providers.old)
            (devices_seen D.Disk P.Provider disk.new providers.new) }
        ensures heard { (w : State)
            → ClientStands self.old (devices_seen D.Disk P.Provider disk.old providers.old) w
            → IfSome result (λ turn. HeardIs turn (heard_by (job_of w.jobs job))) }
        ensures calls { CallsNext D.Disk P.Provider (client_coming self.old job) disk.old providers.old disk.new
            providers.new }
        ensures left { job_goes_on result ≡ true → client_left self.new job < client_left self.old job }
        ensures padded { IfJob result (λ turn. IfEnded turn (λ ended. HasPaddedCounts ended.answer)) }
        ensures stays_open { is_open self.new ≡ is_open self.old }
        ensures moves { (w : State) (entry : Entry)
            → ClientStands self.old (devices_seen D.Disk P.Provider disk.old providers.old) w
            → client_entry self.old job ≡ Some entry → calls_disk (client_coming self.old job) ≡ true
            → IfJob result (λ turn. MovesCells (moves_before_next (client_coming self.old job))
            (client_closed_gate self.old) (spelling entry ++ 0 ∷ []) turn (D.holds disk.old)
            (D.holds disk.new)) }
        ensures packs { (p : Pack) → client_pack self.old ≡ Some p → IfPackStep result
            (λ step. StepsPackCells p step (D.holds disk.old) (D.holds disk.new)) }
        ensures no_job { client_coming self.old job ≡ IsNoJob
            → IsSame self.old self.new × (disk.new ≡ disk.old) × (providers.new ≡ providers.old) }
        ensures gone { IfSome result
            (λ t. (t ≡ client_turn.Job turn.NoSuchJob) ↔ (client_coming self.old job ≡ IsNoJob)) }
        ensures waits { IfJob result (λ turn. IsNoAction turn
            → IsSame self.old self.new × (disk.new ≡ disk.old) × (providers.new ≡ providers.old)) }
        ensures closed { result ≡ None
            → (self.new ≡ self.old) × (disk.new ≡ disk.old) × (providers.new ≡ providers.old) }
    {
        let Some(vault) = &mut self.vault else {
            return None;
        };
        let Some(alone) = self.alone.take() else {
            only_streams_wait();
            return Some(ClientTurn::Job(vault.step(job, disk, providers)));
        };
        if alone.number() != job {
            self.alone = Some(alone);
            return Some(ClientTurn::Job(Turn::NoSuchJob));
        }
        match alone {
            Alone::Scrub(mut running) => {
                let n = vault.setup().n;
                match running.scrub.step(providers) {
                    ScrubTurn::More => {
                        self.alone = Some(Alone::Scrub(running));
                        Some(ClientTurn::Scrub {
                            providers: n,
                            turn: ScrubTurn::More,
                        })
                    }
                    ScrubTurn::Done(answer) => {
                        vault.release();
                        Some(ClientTurn::Scrub {
                            providers: n,
                            turn: ScrubTurn::Done(answer),
                        })
                    }
                }
            }
            Alone::Pack(running) => match vault.step_pack(running, disk) {
                PackTurn::More(next) => {
                    self.alone = Some(Alone::Pack(next));
                    Some(ClientTurn::Pack(PackStep::More))
                }
                PackTurn::Done(answer) => Some(ClientTurn::Pack(PackStep::Done(answer))),
            },
        }
    }
}
