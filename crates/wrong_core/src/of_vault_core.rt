//! Bodies of vault_core's public functions, for its must-fail edits to spoil.
ghost use Rattle.std.specs.Prelude.{◌≡◌, ◌<◌, ◌≤◌, ◌+◌, ◌-◌, ◌^◌, [], None, Some, true, is_some};
ghost use Rattle.std.specs.Option.{option_map};
ghost use Rattle.record_defs.specs.Records.{largest_journal};
ghost use Rattle.record_codec.specs.Entries.{entry_of};
ghost use Rattle.vault_table.specs.Values.{file_of_entry, forgotten};
ghost use Rattle.vault_core.specs.Carried.{IsKindOf};
ghost use Rattle.vault_core.specs.Changes.{BeginsAs, GoesOnBy, IsMoreOf};
ghost use Rattle.vault_core.specs.Coming.{TakesReply, seen_next, next_in, entry_in};
ghost use Rattle.vault_core.specs.Streams.{stripe_size, IsGivenLength};
ghost use Rattle.vault_core.specs.View.{CoreJob, job_in, wants_in};
ghost use Rattle.vault_core.specs.Wished.{file_named, profile_named, IsShort};

use record_codec::Record;
use vault_core::{BeginFault, Core, Next, Reply, Wish};
use vault_table::Entry;

/// `Core::begin`.
pub fn begin(core: &mut Core, wish: Wish, file: Option<Entry>) -> Result<u32, BeginFault>
    requires number { core.old.next_job < 2 ^ 32 - 1 }
    requires size { IsShort wish }
    requires file { option_map file_of_entry file ≡ file_named core.old.table wish }
    ensures begins { BeginsAs core.old (IsKindOf wish) (profile_named wish) result core.new }
{
    core.begin(wish, file)
}

/// `Core::next`.
pub fn next(core: &Core, job: u32) -> Next
    requires { wants_in core.now job ≡ None }
    ensures value { seen_next result ≡ next_in core.now job }
{
    core.next(job)
}

/// `Core::entry`.
pub fn entry(core: &Core, job: u32) -> Option<Record>
    ensures value { option_map entry_of result ≡ entry_in core.now job }
{
    core.entry(job)
}

/// `Core::feed`.
pub fn feed(core: &mut Core, job: u32, reply: Reply)
    requires reply { TakesReply core.old job reply }
    requires given { wants_in core.old job ≡ None }
    ensures { GoesOnBy core.old job reply core.new }
{
    core.feed(job, reply);
}

/// `Core::wants`.
pub fn wants(core: &Core, job: u32) -> Option<u32>
    ensures { result ≡ wants_in core.now job }
{
    core.wants(job)
}

/// `Core::given`.
pub fn given(core: &mut Core, job: u32, length: u32, last: bool)
    requires length { (j : CoreJob) → job_in core.old.jobs job ≡ Some j
        → IsGivenLength (stripe_size core.old.setup j.plan.profile) (wants_in core.old job) length last }
    requires wants { is_some (wants_in core.old job) ≡ true }
    ensures { IsMoreOf core.old job length last core.new }
{
    core.given(job, length, last);
}

/// `Core::draw`.
pub fn draw(core: &mut Core) -> u32
    requires { core.old.next_job < 2 ^ 32 - 1 }
    ensures drawn { core.new ≡ record core.old { next_job = core.old.next_job + 1 } }
{
    core.draw()
}

/// `Core::bar`.
pub fn bar(core: &mut Core)
    ensures barred { core.new ≡ record core.old { barred = true } }
{
    core.bar();
}

/// `Core::moved`.
pub fn moved(core: &mut Core, end: u64)
    requires idle { core.old.jobs ≡ [] }
    requires least { 9 ≤ end }
    requires most { end ≤ largest_journal }
    ensures moved { core.new ≡ record core.old { table = forgotten core.old.table; end = end } }
{
    core.moved(end);
}
