//! The room that the records of jobs take in the journal.
ghost use Rattle.std.specs.Prelude.{◌≡◌, ◌≤◌, ◌*◌, ◌+◌, ◌==◌, sum, if◌then◌else◌};
ghost use Rattle.vault_core.specs.Reserves.{sizes_of, room_behind};

use crate::job::Job;
use crate::wish::Wish;

/// The size of a put's last record with its gate: in the second version it has the file's profile.
fn done_size(version: u8) -> u64
    ensures value { result ≡ (if version == 2 then 15 else 14) }
    ensures bound { result ≤ 15 }
{
    if version == 2 { 15 } else { 14 }
}

/// The sizes of the records that a job of this wish appends, each with its gate.
pub fn sizes(wish: &Wish, providers: u8, version: u8) -> u64
    ensures value { result ≡ sum (sizes_of version providers wish.now) }
    ensures bound { result ≤ 1045 }
{
    match wish {
        Wish::Put { name, .. } => 11 + name.as_bytes().len() as u64 + done_size(version),
        Wish::Get { .. } => 0,
        Wish::Drop { name } => 3 + name.as_bytes().len() as u64,
        Wish::Audit => 10 + (15 + 4 * providers as u64),
        Wish::Repair => 10,
        Wish::Upgrade => 3,
    }
}

/// The size of the last of these records with its gate; 0 where there is none.
fn last_size(wish: &Wish, providers: u8, version: u8) -> u64
    ensures value { result ≡ room_behind version providers wish.now 1 }
    ensures bound { result ≤ 1045 }
{
    match wish {
        Wish::Put { .. } => done_size(version),
        Wish::Get { .. } => 0,
        Wish::Drop { name } => 3 + name.as_bytes().len() as u64,
        Wish::Audit => 15 + 4 * providers as u64,
        Wish::Repair => 10,
        Wish::Upgrade => 3,
    }
}

/// The room that the records of a running job still need: one counts until its append is done.
pub fn reserved(job: &Job, providers: u8, version: u8) -> u64
    ensures value { result ≡ room_behind version providers job.now.wish job.now.appends }
    ensures bound { result ≤ 1045 }
{
    match job.appends {
        0 => 0,
        1 => last_size(&job.wish, providers, version),
        _ => sizes(&job.wish, providers, version),
    }
}
