ghost use Rattle.std.specs.Prelude.{◌≡◌, ◌<◌, ℕ, Bool, List, Option, length, map, Some};
ghost use Rattle.device_defs.specs.Cells.{Cells};
ghost use Rattle.device_defs.specs.Faults.{one_more};
ghost use Rattle.device_defs.specs.ProviderCalls.{Fetches as FetchesOf};
ghost use Rattle.machine_defs.specs.Actions.{Fetch as FetchAction};
ghost use Rattle.machine_defs.specs.States.{State};
ghost use Rattle.provider_model.specs.Seen.{provider_seen};
ghost use Rattle.vault_open.specs.Devices.{devices};
ghost use Rattle.stripe_bench.specs.Blocks.{given_of};
ghost use Rattle.vault.specs.Benches.{TurnsTo};
ghost use Rattle.stripe_bench.specs.Calls.{CallsOnly, sight};
ghost use Rattle.vault.specs.Desks.{DeskStands, IsAtWork, Comes, DeskMakesStep};
ghost use Rattle.vault.specs.Fetching.{TakesFetch, HasRoomFor, GrowsFetches, HasRoomForFetch, fetch_size};
ghost use Rattle.vault.specs.Steps.{HasActed};
ghost use Rattle.vault.specs.declared.turn.Turn.TheVariants as turn;

use crate::desk::Desk;
use crate::heard::Fetches;
use crate::tasks::Task;
use crate::turn::Turn;
use provider_model::Provider;
use vault_core::Reply;

impl Fetches {
    /// Makes one fetch more, for which there is room.
    fn fetch<P: Provider>(&mut self, from: &mut P, object: u64, stripe: u32)
        requires { HasRoomForFetch self.old }
        ensures fetched { (found : Bool) × (block : List ℕ) × GrowsFetches self.old self.new found block
            × FetchesOf self.old.blocks.size object stripe (provider_seen P.Provider from.old)
            (given_of found block) (provider_seen P.Provider from.new) }
        ensures called { P.calls from.new ≡ one_more (P.calls from.old) }
    {
        self.blocks.fetch(from, object, stripe);
    }
}

impl Task {
    /// A repair takes up the bench of a profile, before it fetches the first block of a stripe.
    fn turn_to(&mut self, provider: u32, profile: u8)
        ensures { TurnsTo provider profile self.old self.new }
    {
        if provider != 0 {
            return;
        }
        match self {
            Task::Repair(repair) => repair.take_up(profile),
            Task::Put(_)
            | Task::Stream(_)
            | Task::Get(_)
            | Task::Drop
            | Task::Audit(_)
            | Task::Upgrade => {}
        }
    }

    /// Makes a fetch of a get or a repair.
    fn fetch<P: Provider>(&mut self, from: &mut P, object: u64, stripe: u32)
        requires { HasRoomFor self.old }
        ensures fetched { (found : Bool) × (block : List ℕ) × TakesFetch self.old self.new found block
            × FetchesOf (fetch_size self.old) object stripe (provider_seen P.Provider from.old)
            (given_of found block) (provider_seen P.Provider from.new) }
        ensures called { P.calls from.new ≡ one_more (P.calls from.old) }
    {
        match self {
            Task::Get(get) => get.fetched.fetch(from, object, stripe),
            Task::Repair(repair) => repair.blocks.fetch(from, object, stripe),
            Task::Put(_) | Task::Stream(_) | Task::Drop | Task::Audit(_) | Task::Upgrade => {
                unreachable!()
            }
        }
    }
}

impl Desk {
    /// Fetches a block of the stripe in work. A provider that fails gives none.
    pub fn fetch<P: Provider>(
        &mut self,
        job: u32,
        provider: u32,
        object: u64,
        stripe: u32,
        providers: &mut [P],
    ) -> Turn
        requires next { Comes self.old.core job (FetchAction provider object stripe) }
        requires there { provider < length providers.old }
        requires at_work { IsAtWork self.old }
        ensures machine { (w : State) (moment : ℕ) (holds : Option Cells) (faults : ℕ) (is_told : Bool)
            → DeskStands self.old (devices holds faults (map (sight is_told P.Provider) providers.old)) w
            → DeskMakesStep w moment job result self.new
            (devices holds faults (map (sight is_told P.Provider) providers.old))
            (devices holds faults (map (sight is_told P.Provider) providers.new)) }
        ensures calls { CallsOnly P.calls (Some provider) providers.old providers.new }
        ensures acted { HasActed self.old.core self.new.core job result }
        ensures more { result ≡ turn.More }
    {
        let profile = self.profile_in(job, object);
        let place = self.place_of(job);
        let index = provider as usize;
        let task = &mut self.jobs[place].task;
        task.turn_to(provider, profile);
        task.fetch(&mut providers[index], object, stripe);
        self.core.feed(job, Reply::Done);
        Turn::More
    }
}
