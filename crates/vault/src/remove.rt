ghost use Rattle.std.specs.Prelude.{◌≡◌, ◌<◌, ℕ, Bool, Option, length, map, Some};
ghost use Rattle.device_defs.specs.Cells.{Cells};
ghost use Rattle.device_defs.specs.Faults.{one_more};
ghost use Rattle.device_defs.specs.ProviderCalls.{Removes};
ghost use Rattle.machine_defs.specs.Actions.{Remove};
ghost use Rattle.machine_defs.specs.States.{State};
ghost use Rattle.stripe_bench.specs.Calls.{CallsOnly, sight};
ghost use Rattle.vault_open.specs.Devices.{devices};
ghost use Rattle.provider_model.specs.Seen.{provider_seen};
ghost use Rattle.vault.specs.Desks.{DeskStands, Comes, DeskMakesStep};
ghost use Rattle.vault.specs.Steps.{HasActed};
ghost use Rattle.vault.specs.declared.turn.Turn.TheVariants as turn;

use crate::desk::Desk;
use crate::turn::Turn;
use provider_model::Provider;
use vault_core::Reply;

/// Takes an object away from a provider; that it failed does not count.
fn remove_from<P: Provider>(from: &mut P, object: u64)
    ensures removed { Removes object (provider_seen P.Provider from.old) (provider_seen P.Provider from.new) }
    ensures called { P.calls from.new ≡ one_more (P.calls from.old) }
{
    let _ = from.remove(object);
}

impl Desk {
    /// Takes an object that is no longer in effect away from a provider. A failure is passed over: what is
    /// left is never read.
    pub fn remove<P: Provider>(
        &mut self,
        job: u32,
        provider: u32,
        object: u64,
        providers: &mut [P],
    ) -> Turn
        requires next { Comes self.old.core job (Remove provider object) }
        requires there { provider < length providers.old }
        ensures machine { (w : State) (moment : ℕ) (holds : Option Cells) (faults : ℕ) (is_told : Bool)
            → DeskStands self.old (devices holds faults (map (sight is_told P.Provider) providers.old)) w
            → DeskMakesStep w moment job result self.new
            (devices holds faults (map (sight is_told P.Provider) providers.old))
            (devices holds faults (map (sight is_told P.Provider) providers.new)) }
        ensures calls { CallsOnly P.calls (Some provider) providers.old providers.new }
        ensures acted { HasActed self.old.core self.new.core job result }
        ensures more { result ≡ turn.More }
    {
        let index = provider as usize;
        remove_from(&mut providers[index], object);
        self.core.feed(job, Reply::Done);
        Turn::More
    }
}
