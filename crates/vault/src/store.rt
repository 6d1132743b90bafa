ghost use Rattle.std.specs.Prelude.{◌≡◌, ◌<◌, ℕ, Bool, Option, length, map, Some};
ghost use Rattle.column_defs.specs.Columns.{column_of_symbols};
ghost use Rattle.device_defs.specs.Cells.{Cells};
ghost use Rattle.device_defs.specs.Faults.{one_more};
ghost use Rattle.machine_defs.specs.Actions.{Store};
ghost use Rattle.machine_defs.specs.States.{State};
ghost use Rattle.provider_model.specs.Seen.{StoresAs, provider_seen};
ghost use Rattle.vault_open.specs.Devices.{devices};
ghost use Rattle.stripe_bench.specs.Calls.{CallsOnly, sight};
ghost use Rattle.vault.specs.Desks.{DeskStands, IsAtWork, Comes, DeskMakesStep};
ghost use Rattle.vault.specs.Steps.{HasActed};
ghost use Rattle.column_codec.specs.Bench.{turned};
ghost use Rattle.vault.specs.Storing.{stored_block, KeepsTask, IsStorer};

use crate::desk::Desk;
use crate::tasks::{PutTask, Task};
use crate::turn::{Answer, Turn};
use provider_model::{Provider, StoreFault};
use stripe_bench::store_stripe;
use vault_core::Reply;

impl PutTask {
    ghost use Rattle.std.specs.Prelude.{◌≡◌, ◌<◌};
    ghost use Rattle.device_defs.specs.Faults.{one_more};
    ghost use Rattle.column_defs.specs.Columns.{column_of_symbols};
    ghost use Rattle.column_defs.specs.Objects.{symbols_in};
    ghost use Rattle.column_codec.specs.Bench.{turned};
    ghost use Rattle.column_codec.specs.Bench.{bench_object};

    /// Takes the symbols of a stripe out of the bytes of the file, once for all its providers.
    fn gather(&mut self, stripe: u32)
        ensures bytes { self.new.bytes ≡ self.old.bytes }
        ensures keys { self.new.bench.keys ≡ self.old.bench.keys }
        ensures rows { self.new.bench.rows.items
            ≡ symbols_in (bench_object self.old.bench) self.old.bytes stripe }
    {
        if self.at_hand == Some(stripe) {
            return;
        }
        self.bench.take_stripe(self.bytes.as_slice(), stripe);
        self.at_hand = Some(stripe);
    }

    /// Stores a provider's block of a stripe of the file.
    fn store<P: Provider>(
        &mut self,
        to: &mut P,
        provider: u32,
        object: u64,
        stripe: u32,
    ) -> Result<(), StoreFault>
        requires { provider < self.old.bench.keys.file.shape.n }
        ensures stored { StoresAs object stripe
            (column_of_symbols (turned self.old.bench object)
            (symbols_in (turned self.old.bench object) self.old.bytes stripe) provider stripe) result
            (provider_seen P.Provider to.old) (provider_seen P.Provider to.new) }
        ensures called { P.calls to.new ≡ one_more (P.calls to.old) }
        ensures object { bench_object self.new.bench ≡ turned self.old.bench object }
        ensures bytes { self.new.bytes ≡ self.old.bytes }
    {
        self.gather(stripe);
        store_stripe(&mut self.bench, to, provider, object, stripe)
    }
}

impl Task {
    /// Stores a block of a put, a stream or a repair.
    fn store<P: Provider>(
        &mut self,
        to: &mut P,
        provider: u32,
        object: u64,
        stripe: u32,
    ) -> Result<(), StoreFault>
        requires { IsStorer self.old provider }
        ensures stored { StoresAs object stripe (stored_block self.old object provider stripe) result
            (provider_seen P.Provider to.old) (provider_seen P.Provider to.new) }
        ensures called { P.calls to.new ≡ one_more (P.calls to.old) }
        ensures keeps { KeepsTask self.old self.new object }
    {
        match self {
            Task::Put(put) => put.store(to, provider, object, stripe),
            Task::Stream(stream) => store_stripe(&mut stream.bench, to, provider, object, stripe),
            Task::Repair(repair) => store_stripe(&mut repair.bench, to, provider, object, stripe),
            Task::Get(_) | Task::Drop | Task::Audit(_) | Task::Upgrade => unreachable!(),
        }
    }
}

impl Desk {
    /// Stores a block of a put's file, or of the stripe that a stream was given or a repair opened. A store
    /// that fails ends the job.
    pub fn store<P: Provider>(
        &mut self,
        job: u32,
        provider: u32,
        object: u64,
        stripe: u32,
        providers: &mut [P],
    ) -> Turn
        requires next { Comes self.old.core job (Store provider object stripe) }
        requires there { provider < length providers.old }
        requires at_work { IsAtWork self.old }
        ensures machine { (w : State) (moment : ℕ) (holds : Option Cells) (faults : ℕ) (is_told : Bool)
            → DeskStands self.old (devices holds faults (map (sight is_told P.Provider) providers.old)) w
            → DeskMakesStep w moment job result self.new
            (devices holds faults (map (sight is_told P.Provider) providers.old))
            (devices holds faults (map (sight is_told P.Provider) providers.new)) }
        ensures calls { CallsOnly P.calls (Some provider) providers.old providers.new }
        ensures acted { HasActed self.old.core self.new.core job result }
    {
        let place = self.place_of(job);
        let index = provider as usize;
        let task = &mut self.jobs[place].task;
        match task.store(&mut providers[index], provider, object, stripe) {
            Ok(()) => {
                self.core.feed(job, Reply::Done);
                Turn::More
            }
            Err(StoreFault::Failed) => {
                self.stop(job, Reply::Failed, Answer::ProviderFault { provider })
            }
            Err(StoreFault::Memory) => self.stop(job, Reply::Memory, Answer::Memory),
        }
    }
}
