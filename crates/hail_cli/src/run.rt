// The command over the devices that the first word names.
use crate::guard::{hold_streams, lock_home};
use disk_model::{Disk, SureDisk};
use hail_adapters::{
    ProviderFolders, StdSink, StdSource, Unsynced, first_twin, folder_providers, journal_disk,
};
use hail_top::{DISK_FAULT, NO_MEMORY, PROVIDER_FAULT, hail};
use program_words::stores_blocks;
use provider_model::{SureProvider, Tamper};
use provider_wire::{LinkProvider, LoopLink};
use remote_adapters::{Barrier, HomeDisk, HomeSink, Remotes, home_providers};
use std::alloc::Global;
use stream_model::{Sink, Source};

/// The first word of a command over memory.
const IN_MEMORY: &str = "-";

/// The first word of a command over memory whose providers stand behind links.
const BEHIND_LINKS: &str = "+";

/// A provider in memory behind a link.
type Linked = LinkProvider<LoopLink<SureProvider>>;

/// What is told of a command that ended: its status, and the place that the status speaks of.
#[derive(Clone, Copy)]
pub struct Told {
    pub status: u8,
    pub at: u64,
}

/// Sixteen providers in memory. Want of memory is the one refusal.
fn sure_providers(alloc: Global) -> Option<Vec<SureProvider>> {
    let mut providers = Vec::new(alloc);
    for _ in 0..16u8 {
        providers.push(SureProvider::new(alloc)).ok()?;
    }
    Some(providers)
}

/// A provider in memory behind a link. Want of memory is the one refusal.
fn linked(alloc: Global) -> Option<Linked> {
    let link = LoopLink::new(SureProvider::new(alloc)).ok()?;
    LinkProvider::new(link).ok()
}

/// Sixteen of them.
fn linked_providers(alloc: Global) -> Option<Vec<Linked>> {
    let mut providers = Vec::new(alloc);
    for _ in 0..16u8 {
        providers.push(linked(alloc)?).ok()?;
    }
    Some(providers)
}

/// Answers the words over some devices.
fn answer<D: Disk, P: Tamper, S: Source, K: Sink>(
    alloc: Global,
    words: &[String],
    disk: &mut D,
    providers: &mut Vec<P>,
    source: &mut S,
    sink: &mut K,
) -> Told {
    let report = hail(alloc, words, disk, providers, source, sink);
    Told {
        status: report.status,
        at: report.at,
    }
}

/// Answers the words over some devices and the standard streams. Want of memory for the streams is the one
/// refusal.
fn run_over<D: Disk, P: Tamper>(
    rt: &HostRuntime,
    words: &[String],
    disk: &mut D,
    providers: &mut Vec<P>,
) -> Option<Told> {
    let mut source = StdSource::new(rt).ok()?;
    let mut sink = StdSink::new(rt).ok()?;
    Some(answer(rt.alloc(), words, disk, providers, &mut source, &mut sink))
}

/// Answers the words over an empty memory and these providers, which are gone afterwards. Want of memory for
/// the devices is the one refusal.
fn run_in_memory<P: Tamper + Drop>(
    rt: &HostRuntime,
    words: &[String],
    mut providers: Vec<P>,
) -> Option<Told> {
    let mut disk = SureDisk::new(rt.alloc(), &[]).ok()?;
    run_over(rt, words, &mut disk, &mut providers)
}

/// What is told of a command whose stores are to be brought. Where its barrier was not passed, the provider is
/// told in place of what came of it: no record of the journal, and no line, went out behind. Else what went
/// wrong is told, and of a command that did all the barrier is passed once more.
fn brought(barrier: &mut Barrier<HostRuntime>, told: Told) -> Told {
    let failed = if told.status == 0 {
        barrier.pass().err()
    } else {
        barrier.failed()
    };
    match failed {
        Some(number) => Told {
            status: PROVIDER_FAULT,
            at: number.into(),
        },
        None => told,
    }
}

/// Answers the words over the journal and the providers of a home. Want of memory for the devices is the one
/// refusal.
fn run_at_home(rt: &HostRuntime, home: &str, words: &[String]) -> Option<Told> {
    let remotes = Remotes::new(rt, rt.alloc(), home).ok()?;
    let unsynced = Unsynced::new(rt.alloc()).ok()?;
    let synced = ProviderFolders::new(rt, rt.alloc(), home, &unsynced).ok()?;
    let mut barrier = Barrier::new(rt.alloc(), &remotes, synced).ok()?;
    let journal = journal_disk(rt, rt.alloc(), home).ok()?;
    let mut disk = HomeDisk::new(journal, barrier.share().ok()?);
    let folders = folder_providers(rt, rt.alloc(), home, &unsynced).ok()?;
    let mut providers = home_providers(rt.alloc(), &remotes, folders).ok()?;
    let mut source = StdSource::new(rt).ok()?;
    let mut sink = HomeSink::new(StdSink::new(rt).ok()?, barrier.share().ok()?);
    let told = answer(
        rt.alloc(),
        words,
        &mut disk,
        &mut providers,
        &mut source,
        &mut sink,
    );
    let told = brought(&mut barrier, told);
    remotes.finish();
    Some(told)
}

/// The same, unless the command would store blocks where two providers have one folder: then the second of them
/// is told, and nothing is touched.
fn run_apart(rt: &HostRuntime, home: &str, words: &[String]) -> Option<Told> {
    if stores_blocks(words) {
        if let Some(number) = first_twin(rt, rt.alloc(), home).ok()? {
            return Some(Told {
                status: PROVIDER_FAULT,
                at: number.into(),
            });
        }
    }
    run_at_home(rt, home, words)
}

/// Answers the words over a home that no other program is at work in meanwhile. A home that cannot be locked
/// is a fault of the disk, and then nothing is touched.
fn run_alone(rt: &HostRuntime, home: &str, words: &[String]) -> Option<Told> {
    let fault = Told {
        status: DISK_FAULT,
        at: 0,
    };
    let Ok(_streams) = hold_streams(rt) else {
        return Some(fault);
    };
    let Ok(_lock) = lock_home(rt, home, words) else {
        return Some(fault);
    };
    run_apart(rt, home, words)
}

/// Answers the words over providers in memory.
fn run_unlinked(rt: &HostRuntime, words: &[String]) -> Option<Told> {
    run_in_memory(rt, words, sure_providers(rt.alloc())?)
}

/// Answers the words over providers in memory that stand behind links.
fn run_linked(rt: &HostRuntime, words: &[String]) -> Option<Told> {
    run_in_memory(rt, words, linked_providers(rt.alloc())?)
}

/// Answers the words of a command line: the first is `-` for memory, `+` for memory behind links, or else a
/// home. No words are answered as no command.
pub fn run(rt: &HostRuntime, words: &[String]) -> Told {
    let told = match words {
        [] => run_unlinked(rt, words),
        [place, command @ ..] if place.as_str() == IN_MEMORY => run_unlinked(rt, command),
        [place, command @ ..] if place.as_str() == BEHIND_LINKS => run_linked(rt, command),
        [home, command @ ..] => run_alone(rt, home.as_str(), command),
    };
    told.unwrap_or(Told {
        status: NO_MEMORY,
        at: 0,
    })
}
