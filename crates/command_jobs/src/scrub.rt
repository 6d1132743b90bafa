ghost use Rattle.std.specs.Prelude.{◌≡◌, ◌<◌, ◌≤◌, ℕ, List, [], Option, IfOk, OnErr, true, false, length, map};
ghost use Rattle.device_defs.specs.Cells.{Cells};
ghost use Rattle.machine_defs.specs.States.{State, Scrub as MachineScrub};
ghost use Rattle.record_defs.specs.Records.{Record};
ghost use Rattle.command_defs.specs.Seen.{Seen};
ghost use Rattle.command_defs.specs.Opens as opens;
ghost use Rattle.hail_scrub.specs.Stands.{ScrubStands};
ghost use Rattle.hail_scrub.specs.Views.{scrub_left};
ghost use Rattle.provider_model.specs.Seen.{provider_seen};
ghost use Rattle.vault_open.specs.Devices.{devices};
ghost use Rattle.command_jobs.specs.Opened.{IsFreshOver, IsFreshFor};
ghost use Rattle.command_jobs.specs.Ends.{IsSeenBefore, IsSeenAfter};
ghost use Rattle.command_jobs.specs.Scrubs.{SweepsToEnd, ScrubEndsOver};

use hail_field::Memory;
use hail_scrub::laws::scrubs_begin;
use hail_scrub::{Scrub, ScrubAnswer, ScrubTurn};
use job_laws::alone::opened_states;
use provider_model::Provider;
use scrub_laws::alone::{open_vaults_refuse_no_scrub, told_scrubs_leave};
use std::alloc::Global;
use vault::Vault;
use vault::laws::vaults_stand_over_other_providers;

/// Scrubs all files of a vault. It calls no disk, and no provider where memory runs out. Condition: the vault
/// was just opened, and as many providers are handed in as the store was set up with, or more, of which only
/// these are used.
pub fn run_scrub<P: Provider>(
    alloc: Global,
    mut vault: Vault,
    providers: &mut [P],
) -> Result<ScrubAnswer, Memory>
    requires ready { (holds : Option Cells) × (faults : ℕ) × IsFreshFor vault holds faults
        (length providers.old) }
    ensures ended { IfOk result (λ answer. (records : List Record) (holds : Option Cells) (faults : ℕ)
        (old new : Seen) → (opened : opens.IsOpened old records)
        → IsFreshOver vault opened.area records holds faults
        → IsSeenBefore old (devices holds faults (map (provider_seen P.Provider) providers.old))
        → IsSeenAfter new (devices holds faults (map (provider_seen P.Provider) providers.new))
        → ScrubEndsOver opened.area records answer old new) }
    ensures untouched { OnErr result (providers.new ≡ providers.old) }
{
    opened_states();
    open_vaults_refuse_no_scrub();
    scrubs_begin();
    told_scrubs_leave();
    vaults_stand_over_other_providers();
    let scrub = vault.scrub(alloc)?;
    match vault.hold() {
        Ok(_) => {
            let answer = sweep(scrub, providers);
            vault.close();
            Ok(answer)
        }
        Err(_) => unreachable!(),
    }
}

/// Steps a scrub up to its end.
fn sweep<P: Provider>(mut scrub: Scrub, providers: &mut [P]) -> ScrubAnswer
    requires going { 0 < scrub_left scrub }
    requires there { scrub.providers ≤ length providers.old }
    ensures { (w : State) (m : MachineScrub) (moment : ℕ) → w.is_open ≡ true → w.is_barred ≡ false
        → w.jobs ≡ [] → ScrubStands scrub (map (provider_seen P.Provider) providers.old) w m
        → SweepsToEnd w m.number moment result (map (provider_seen P.Provider) providers.new) }
{
    loop {
        match scrub.step(providers) {
            ScrubTurn::More => {}
            ScrubTurn::Done(answer) => return answer,
        }
    }
}
