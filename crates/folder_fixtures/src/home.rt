use crate::stand_in::StandIn;
use hail_adapters::{FolderProvider, ProviderFolders, Unsynced, folder_providers, journal_disk};
use remote_adapters::{Barrier, HomeDisk, Remotes};
use std::alloc::Global;

/// The journal and the providers of the home, none of them remote, and their barrier, as a command has them.
#[derive(Drop)]
pub struct Devices {
    pub disk: HomeDisk<StandIn>,
    pub providers: Vec<FolderProvider<StandIn>>,
    pub barrier: Barrier<StandIn>,
}

impl Devices {
    /// The devices before their first call. Want of memory is the one refusal.
    pub fn new(files: &StandIn, alloc: Global) -> Option<Devices> {
        let unsynced = Unsynced::new(alloc).ok()?;
        let synced = ProviderFolders::new(files, alloc, "home", &unsynced).ok()?;
        let barrier = Barrier::new(alloc, &Remotes::none(alloc).ok()?, synced).ok()?;
        let journal = journal_disk(files, alloc, "home").ok()?;
        Some(Devices {
            disk: HomeDisk::new(journal, barrier.share().ok()?),
            providers: folder_providers(files, alloc, "home", &unsynced).ok()?,
            barrier,
        })
    }
}
