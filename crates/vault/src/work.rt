ghost use Rattle.std.specs.Prelude.{◌≡◌, ◌+◌, ◌*◌, ◌<◌, ◌≤◌, ◌++◌, ℕ, length, vec_len, vec_capacity};
ghost use Rattle.column_defs.specs.Objects.{bytes_of_symbols};
ghost use Rattle.machine_defs.specs.Actions.{Work};
ghost use Rattle.machine_defs.specs.States.{State};
ghost use Rattle.vault_open.specs.Devices.{Devices};
ghost use Rattle.vault.specs.Desks.{DeskStands, IsAtWork, Comes, DeskMakesStep};
ghost use Rattle.vault.specs.Opening.{WorksAs, CanWork};
ghost use Rattle.vault.specs.Steps.{HasActed};

use crate::desk::Desk;
use crate::tasks::{GetTask, RepairTask, Task};
use crate::turn::{Answer, Turn};
use column_codec::{Codec, RowLost};
use hail_field::Symbol;
use vault_core::Reply;

/// Puts more bytes at the end, for which there is room.
fn push_bytes(bytes: &mut Vec<u8>, more: &[u8])
    requires { vec_len bytes.old + length more.now ≤ vec_capacity bytes.old }
    ensures pushed { bytes.new.items ≡ bytes.old.items ++ more.now }
    ensures capacity { vec_capacity bytes.old ≤ vec_capacity bytes.new }
{
    for byte in more {
        bytes.push_reserved(*byte);
    }
}

/// Puts the bytes of symbols at the end, for which there is room.
fn push_symbols(bytes: &mut Vec<u8>, symbols: &[Symbol])
    requires { vec_len bytes.old + 16 * length symbols.now ≤ vec_capacity bytes.old }
    ensures pushed { bytes.new.items ≡ bytes.old.items ++ bytes_of_symbols symbols.now }
    ensures capacity { vec_capacity bytes.old ≤ vec_capacity bytes.new }
{
    for symbol in symbols {
        push_bytes(bytes, &symbol.to_bytes());
    }
}

impl GetTask {
    ghost use Rattle.vault.specs.declared.tasks.Task.TheVariants as task;
    ghost use Rattle.vault.specs.Opening.{WorksAs, CanWork};

    /// Opens a stripe and puts its bytes behind those that were opened before.
    fn work(&mut self, codec: &mut Codec, object: u64, stripe: u32) -> Result<(), RowLost>
        requires { CanWork (task.Get self.old) }
        ensures { WorksAs (task.Get self.old) (task.Get self.new) object stripe result }
    {
        self.bench.turn_to(object);
        let fetched = &self.fetched;
        fetched.blocks.open(&mut self.bench, codec, stripe)?;
        push_symbols(&mut self.bytes, &self.bench.rows);
        Ok(())
    }
}

impl RepairTask {
    ghost use Rattle.vault.specs.declared.tasks.Task.TheVariants as task;
    ghost use Rattle.vault.specs.Opening.{WorksAs, CanWork};

    /// Opens a stripe, and makes room for the blocks of the next.
    fn work(&mut self, codec: &mut Codec, object: u64, stripe: u32) -> Result<(), RowLost>
        requires { CanWork (task.Repair self.old) }
        ensures { WorksAs (task.Repair self.old) (task.Repair self.new) object stripe result }
    {
        self.bench.turn_to(object);
        let opened = self.blocks.open(&mut self.bench, codec, stripe);
        self.blocks.clear();
        opened
    }
}

impl Task {
    /// Opens a stripe of a get or a repair.
    fn work(&mut self, codec: &mut Codec, object: u64, stripe: u32) -> Result<(), RowLost>
        requires { CanWork self.old }
        ensures { WorksAs self.old self.new object stripe result }
    {
        match self {
            Task::Get(get) => get.work(codec, object, stripe),
            Task::Repair(repair) => repair.work(codec, object, stripe),
            Task::Put(_) | Task::Stream(_) | Task::Drop | Task::Audit(_) | Task::Upgrade => {
                unreachable!()
            }
        }
    }
}

impl Desk {
    /// Opens the stripe whose blocks were just fetched. A row that is not accepted ends the job.
    pub fn work(&mut self, job: u32, object: u64, stripe: u32) -> Turn
        requires next { Comes self.old.core job (Work object stripe) }
        requires at_work { IsAtWork self.old }
        ensures machine { (w : State) (moment : ℕ) (d : Devices) → DeskStands self.old d w
            → DeskMakesStep w moment job result self.new d d }
        ensures acted { HasActed self.old.core self.new.core job result }
    {
        let place = self.place_of(job);
        let task = &mut self.jobs[place].task;
        match task.work(&mut self.codec, object, stripe) {
            Ok(()) => {
                self.core.feed(job, Reply::Done);
                Turn::More
            }
            Err(RowLost { row }) => {
                self.stop(job, Reply::Lost { row }, Answer::Lost { stripe, row })
            }
        }
    }
}
