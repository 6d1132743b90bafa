// A put that reads its source stripe by stripe.
ghost use Rattle.std.specs.Prelude.{◌≡◌, ◌<◌, ◌≤◌, ℕ, List, [], Option, None, Some, false, true, take, length, is_some, IfOk, IfErr, OnErr, IfSome, IsErrOf};
ghost use Rattle.device_defs.specs.Faults.{HasCause, Rose};
ghost use Rattle.record_defs.specs.Areas.{Area};
ghost use Rattle.record_defs.specs.Records.{Record, largest_file};
ghost use Rattle.machine_defs.specs.Events.{AreBytes};
ghost use Rattle.machine_defs.specs.Jobs.{Kind};
ghost use Rattle.machine_defs.specs.States.{State};
ghost use Rattle.command_defs.specs.Seen.{Seen, ReadsAtMost};
ghost use Rattle.command_defs.specs.Opens as opens;
ghost use Rattle.vault_open.specs.Devices.{Devices};
ghost use Rattle.code_defs.specs.Profiles.{is_unknown};
ghost use Rattle.vault.specs.Devices.{devices_seen};
ghost use Rattle.vault.specs.Seen.{left_of};
ghost use Rattle.vault.specs.Streams.{wants_of, told_of};
ghost use Rattle.command_jobs.specs.declared.stream.Streamed.TheVariants as streamed;
ghost use Rattle.command_jobs.specs.declared.stream.Unbegun.TheVariants as unbegun;
ghost use Rattle.command_jobs.specs.Opened.{IsFreshOver, IsFreshFor};
ghost use Rattle.command_jobs.specs.Going.{IsUnderWay, OnWay, IsBehind, AdvancesTo};
ghost use Rattle.command_jobs.specs.Ends.{IsSeenBefore, IsSeenAfter};
ghost use Rattle.command_jobs.specs.Streams.{IsBegun, IsStripe, StreamsTo, StreamsOver, IsUnbegunOver, IsSourceSeen};

use crate::piece::{bytes_are_bytes, read_piece};
use disk_model::Disk;
use job_laws::alone::{opened_states, told_jobs_leave, told_parts_leave};
use provider_model::Provider;
use std::alloc::{AllocError, Global};
use stream_model::{Failed, Source};
use vault::{BeginFault, Ended, Turn, Vault};

/// How many bytes a file has at most, as a length.
const LARGEST_FILE: usize = record_defs::LARGEST_FILE as usize;

/// How a put ended that read its source stripe by stripe.
#[derive(Drop)]
pub enum Streamed {
    /// Its job ran to its end, and so many bytes were read.
    Ended { ended: Ended, length: usize },
    /// A read failed, and the source's count of faults rose; the job was given up.
    SourceFault,
    /// The source has more bytes than a file may have; the job was given up.
    TooLong,
}

/// Why a put did not begin.
#[derive(Clone, Copy, Drop)]
pub enum Unbegun {
    /// The first read failed, and the source's count of faults rose.
    SourceFault,
    /// There was no memory for a stripe.
    Memory,
    /// The begin was refused.
    Refused(BeginFault),
}

impl From<Failed> for Unbegun {
    ghost from_gives = { λ _ e. e ≡ unbegun.SourceFault };

    fn from(_: Failed) -> Self {
        Unbegun::SourceFault
    }
}

impl From<AllocError> for Unbegun {
    ghost from_gives = { λ _ e. e ≡ unbegun.Memory };

    fn from(_: AllocError) -> Self {
        Unbegun::Memory
    }
}

impl From<BeginFault> for Unbegun {
    ghost from_gives = { λ why e. e ≡ unbegun.Refused why };

    fn from(why: BeginFault) -> Self {
        Unbegun::Refused(why)
    }
}

/// Puts the file that a source gives, with the profile of a number, or else the setup's. It reads the first
/// stripe before its job begins, and each later one once those before it are stored: one stripe of the file
/// is in memory. Conditions: the vault was just opened over this disk, and as many providers are handed in as
/// the store was set up with, or more, of which only these are used; and there is a profile of the number.
pub fn run_stream<D: Disk, P: Provider, S: Source>(
    alloc: Global,
    mut vault: Vault,
    name: &[u8],
    profile: Option<u8>,
    disk: &mut D,
    providers: &mut [P],
    source: &mut S,
) -> Result<Streamed, Unbegun>
    requires ready { IsFreshFor vault (D.holds disk.old) (D.faults disk.old) (length providers.old) }
    requires known { is_unknown profile ≡ false }
    ensures ended { IfOk result (λ streamed. (records : List Record) (old new : Seen)
        → (opened : opens.IsOpened old records)
        → IsFreshOver vault opened.area records (D.holds disk.old) (D.faults disk.old)
        → IsSeenBefore old (devices_seen D.Disk P.Provider disk.old providers.old)
        → IsSeenAfter new (devices_seen D.Disk P.Provider disk.new providers.new)
        → IsSourceSeen old (S.left source.old) (S.faults source.old)
        → IsSourceSeen new (S.left source.new) (S.faults source.new)
        → StreamsOver opened.area records name.now profile streamed old new) }
    ensures refused { IfErr result (λ why. (area : Area) (records : List Record)
        → IsFreshOver vault area records (D.holds disk.old) (D.faults disk.old)
        → IsUnbegunOver area records name.now profile why (S.left source.old) (S.left source.new)) }
    ensures cause { HasCause (S.faults source.old) (S.faults source.new)
        (IsErrOf result unbegun.SourceFault) }
    ensures tells { is_some (D.holds disk.new) ≡ is_some (D.holds disk.old) }
    ensures untouched { OnErr result ((disk.new ≡ disk.old) × (providers.new ≡ providers.old)) }
{
    opened_states();
    told_jobs_leave();
    told_parts_leave();
    let mut stripe = vec![in alloc; 0u8; vault.stripe_size(profile)]?;
    let first = read_piece(&mut stripe, 0, source)?;
    let number = vault.begin_stream(name, profile)?;
    let streamed = give_all(
        &mut vault,
        number,
        &mut stripe,
        first,
        disk,
        providers,
        source,
    );
    vault.close();
    Ok(streamed)
}

/// Steps the only job of a vault up to its end, or until it waits for a stripe.
fn advance<D: Disk, P: Provider>(
    vault: &mut Vault,
    number: u32,
    disk: &mut D,
    providers: &mut [P],
) -> Option<Ended>
    requires first { number ≡ 1 }
    requires under_way { IsUnderWay vault.old (devices_seen D.Disk P.Provider disk.old providers.old) }
    requires given { wants_of vault.old number ≡ None }
    ensures went { (start w : State) (kind : Kind) (own : Option ℕ) (moment : ℕ) (d : Devices)
        → (way : OnWay start kind own w moment vault.old d
        (devices_seen D.Disk P.Provider disk.old providers.old))
        → IsBehind start (told_of vault.old number) way.only.job.place
        → AdvancesTo start kind own w moment (told_of vault.old number) result vault.new d
        (devices_seen D.Disk P.Provider disk.new providers.new) }
    ensures waits { result ≡ None → is_some (wants_of vault.new number) ≡ true }
    ensures told { result ≡ None → told_of vault.new number ≡ told_of vault.old number }
    ensures tells { is_some (D.holds disk.new) ≡ is_some (D.holds disk.old) }
    ensures left { result ≡ None → left_of vault.new number < left_of vault.old number }
    ensures count { length providers.new ≡ length providers.old }
{
    loop {
        match vault.step(number, disk, providers) {
            Turn::More => {
                if vault.wants(number).is_some() {
                    return None;
                }
            }
            Turn::Done(ended) => return Some(ended),
            Turn::Waiting { .. } | Turn::NoSuchJob | Turn::MustReopen => unreachable!(),
        }
    }
}

/// Brings a stream to its end that was just begun, and of whose source the first bytes were read.
fn give_all<D: Disk, P: Provider, S: Source>(
    vault: &mut Vault,
    number: u32,
    stripe: &mut [u8],
    first: usize,
    disk: &mut D,
    providers: &mut [P],
    source: &mut S,
) -> Streamed
    requires first { number ≡ 1 }
    requires stripe { IsStripe (length stripe.old) }
    requires read { first ≤ length stripe.old }
    requires end { first < length stripe.old → IfSome (S.left source.old) (λ left. left ≡ []) }
    requires begun { (bytes : List ℕ) → AreBytes bytes → length bytes ≤ largest_file
        → IsBegun vault.old (devices_seen D.Disk P.Provider disk.old providers.old) (length stripe.old)
        bytes }
    requires open { told_of vault.old number ≡ Some 0 }
    ensures went { StreamsTo (take first stripe.old) (length stripe.old) vault.old
        (devices_seen D.Disk P.Provider disk.old providers.old) result vault.new
        (devices_seen D.Disk P.Provider disk.new providers.new) (S.left source.old) (S.left source.new) }
    ensures tells { is_some (D.holds disk.new) ≡ is_some (D.holds disk.old) }
    ensures cause { HasCause (S.faults source.old) (S.faults source.new) (result ≡ streamed.SourceFault) }
    ensures count { length providers.new ≡ length providers.old }
{
    bytes_are_bytes(stripe);
    let mut count = first;
    let mut length = first;
    match advance(vault, number, disk, providers) {
        Some(ended) => return Streamed::Ended { ended, length },
        None => {}
    }
    loop {
        if length > LARGEST_FILE {
            vault.abandon(number);
            return Streamed::TooLong;
        }
        let last = count < stripe.len();
        vault.give(number, &stripe[..count], last);
        match advance(vault, number, disk, providers) {
            Some(ended) => return Streamed::Ended { ended, length },
            None => {}
        }
        match read_piece(stripe, length, source) {
            Ok(next) => {
                count = next;
                length += next;
            }
            Err(Failed) => {
                vault.abandon(number);
                return Streamed::SourceFault;
            }
        }
    }
}
