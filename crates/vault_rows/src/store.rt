use crate::counted::Counted;
use crate::job::Job;
use crate::packing::{SeenPack, pack_by, packs_over};
use disk_model::{Disk, MemDisk, SureDisk};
use hail_field::Symbol;
use key_schedule::Master;
use provider_model::{Provider, SureProvider, Tamper};
use record_codec::Setup;
use std::alloc::Global;
use stream_model::Bytes;
use vault::{Answer, BeginFault, Turn, Vault, init};

/// The bytes of the master key are 0 to 31.
pub const KEY: &[u8] = b"000102030405060708090a0b0c0d0e0f101112131415161718191a1b1c1d1e1f";

/// What a step or a run of a job came to.
#[derive(Clone, Copy, PartialEq, Eq)]
pub enum Seen {
    More,
    Waiting(u32),
    /// It made no step, for it is a stream that waits for this stripe.
    Wants(u32),
    NoSuchJob,
    MustReopen,
    Put,
    Got(Text),
    Dropped,
    Audited(u64),
    Repaired(u64),
    Upgraded,
    Lost,
    Fault,
    Closed,
}

/// What the bytes of a file are.
#[derive(Clone, Copy, PartialEq, Eq)]
pub enum Text {
    Old,
    New,
    Other,
}

/// The first blocks of the first object that six providers hold, of 16 symbols each.
type Blocks = [Option<[Symbol; 16]>; 6];

/// A disk and providers in memory, the vault that is open over them, and blocks that the providers once held.
#[derive(Drop)]
pub struct Store {
    alloc: Global,
    disk: SureDisk,
    providers: Vec<Counted<SureProvider>>,
    vault: Option<Vault>,
    kept: Blocks,
}

/// Which of the two texts these bytes are.
fn text_of(bytes: &[u8]) -> Text {
    if bytes == b"old".as_slice() {
        Text::Old
    } else if bytes == b"new".as_slice() {
        Text::New
    } else {
        Text::Other
    }
}

/// How a job ended.
fn seen_end(answer: &Answer) -> Seen {
    match answer {
        Answer::Put => Seen::Put,
        Answer::Got { bytes } => Seen::Got(text_of(bytes.as_slice())),
        Answer::Dropped => Seen::Dropped,
        Answer::Audited { number, .. } => Seen::Audited(*number),
        Answer::Repaired { number } => Seen::Repaired(*number),
        Answer::Upgraded => Seen::Upgraded,
        Answer::Lost { .. } => Seen::Lost,
        _ => Seen::Fault,
    }
}

/// What came of a step.
fn seen_turn(turn: &Turn) -> Seen {
    match turn {
        Turn::More => Seen::More,
        Turn::Waiting { holder } => Seen::Waiting(*holder),
        Turn::Done(ended) => seen_end(&ended.answer),
        Turn::NoSuchJob => Seen::NoSuchJob,
        Turn::MustReopen => Seen::MustReopen,
    }
}

/// Sets a store up with the key on a disk.
fn set_up_on<D: Disk>(alloc: Global, disk: &mut D, setup: &Setup) -> bool {
    match Master::from_hex(KEY) {
        Some(master) => init(alloc, disk, &master, setup).is_ok(),
        None => false,
    }
}

/// Opens a vault over a disk.
pub fn opened_on<D: Disk>(alloc: Global, disk: &mut D) -> Option<Vault> {
    Vault::start(alloc, disk, 1).ok()
}

/// Begins a put.
fn begin_put(
    alloc: Global,
    vault: &mut Vault,
    name: &[u8],
    bytes: &[u8],
    profile: Option<u8>,
) -> Result<u32, BeginFault> {
    if vault.next_job() == u32::MAX {
        return Err(BeginFault::Memory);
    }
    match Bytes::from_slice(alloc, bytes) {
        Ok(bytes) => vault.begin_put(name, bytes, profile),
        Err(_) => Err(BeginFault::Memory),
    }
}

/// Begins another job than a put.
fn begin_other(vault: &mut Vault, job: Job) -> Result<u32, BeginFault> {
    if vault.next_job() == u32::MAX {
        return Err(BeginFault::Memory);
    }
    match job {
        Job::Get(name) => vault.begin_get(name),
        Job::Drop(name) => vault.begin_drop(name),
        Job::Audit => vault.begin_audit(),
        Job::Repair => vault.begin_repair(),
        Job::Upgrade => vault.begin_upgrade(),
        Job::Put(..) | Job::PutIn(..) => Err(BeginFault::BadName),
    }
}

/// Holds a vault for what runs alone.
fn hold_of(vault: &mut Vault) -> Result<u32, BeginFault> {
    if vault.next_job() == u32::MAX {
        return Err(BeginFault::Memory);
    }
    vault.hold()
}

/// Makes a step of a job, where it waits for no stripe and there are providers enough.
fn step_of<D: Disk, P: Provider>(
    vault: &mut Vault,
    job: u32,
    disk: &mut D,
    providers: &mut [P],
) -> Seen {
    if let Some(stripe) = vault.wants(job) {
        return Seen::Wants(stripe);
    }
    if providers.len() < usize::from(vault.setup().n) {
        return Seen::Closed;
    }
    seen_turn(&vault.step(job, disk, providers))
}

/// Begins to stream a file.
fn begin_stream(vault: &mut Vault, name: &[u8]) -> Result<u32, BeginFault> {
    if vault.next_job() == u32::MAX {
        return Err(BeginFault::Memory);
    }
    vault.begin_stream(name, None)
}

/// Gives a stream a piece, where it may be given.
fn give(vault: &mut Vault, job: u32, piece: &[u8], last: bool) -> bool {
    if !vault.may_give(job, piece.len(), last) {
        return false;
    }
    vault.give(job, piece, last);
    true
}

/// Gives a stream up, where it waits for a stripe.
fn abandon(vault: &mut Vault, job: u32) -> bool {
    if vault.wants(job).is_none() {
        return false;
    }
    vault.abandon(job);
    true
}

/// Stops a disk by these picks.
fn stop_by<D: Disk>(disk: &mut D, picks: &[u8]) {
    disk.stop(picks);
}

/// The first block of the first object that a provider holds.
fn block_of(provider: &Counted<SureProvider>) -> Option<[Symbol; 16]> {
    provider.inner.held(1, 0)?.first_chunk().copied()
}

/// Providers that hold nothing.
fn new_providers(alloc: Global, count: u8) -> Option<Vec<Counted<SureProvider>>> {
    let mut providers = Vec::new(alloc);
    for _ in 0..count {
        let provider = Counted::new(SureProvider::new(alloc));
        providers.push(provider).ok()?;
    }
    Some(providers)
}

/// What a hold is answered where the first step of a put failed.
fn hold_behind<D: Disk, P: Provider>(
    alloc: Global,
    vault: &mut Vault,
    disk: &mut D,
    providers: &mut [P],
) -> Option<Result<u32, BeginFault>> {
    let job = begin_put(alloc, vault, b"a", b"old", None).ok()?;
    match step_of(vault, job, disk, providers) {
        Seen::Fault => Some(hold_of(vault)),
        _ => None,
    }
}

/// The same over a disk that reads these bytes and fails at a call.
fn hold_after(alloc: Global, bytes: &[u8], call: u64) -> Option<Result<u32, BeginFault>> {
    let mut disk = MemDisk::new(alloc, bytes, &[call]).ok()?;
    let mut vault = opened_on(alloc, &mut disk)?;
    let mut providers = new_providers(alloc, vault.setup().n)?;
    hold_behind(alloc, &mut vault, &mut disk, &mut providers)
}

impl Store {
    /// A disk and providers in memory that hold nothing, and no vault.
    fn new(alloc: Global, count: u8) -> Option<Store> {
        let disk = SureDisk::new(alloc, &[]).ok()?;
        let providers = new_providers(alloc, count)?;
        Some(Store {
            alloc,
            disk,
            providers,
            vault: None,
            kept: [None; 6],
        })
    }

    /// A store that is set up and open.
    pub fn set_up(alloc: Global, setup: &Setup) -> Option<Store> {
        let mut store = Store::new(alloc, setup.n)?;
        let ready = set_up_on(alloc, &mut store.disk, setup) && store.open();
        ready.then_some(store)
    }

    /// Opens the vault, in place of one that may be open, and answers whether it is open.
    fn open(&mut self) -> bool {
        self.vault = opened_on(self.alloc, &mut self.disk);
        self.vault.is_some()
    }

    /// Stops the disk by these picks, and opens the vault anew.
    pub fn reopen(&mut self, picks: &[u8]) -> bool {
        stop_by(&mut self.disk, picks);
        self.open()
    }

    /// The number that the next object is given, where the vault is open.
    pub fn next_id(&self) -> Option<u64> {
        Some(self.vault.as_ref()?.table().next_id())
    }

    /// How many bytes the disk has.
    pub fn disk_len(&self) -> usize {
        self.disk.bytes().len()
    }

    /// How many symbols the first provider's block of the first stripe of an object has.
    pub fn block_size(&self, object: u64) -> Option<usize> {
        Some(self.providers.first()?.inner.held(object, 0)?.len())
    }

    /// How many providers hold a block of the first stripe of an object.
    pub fn holders(&self, object: u64) -> usize {
        let mut count = 0usize;
        for provider in self.providers.iter() {
            if provider.inner.held(object, 0).is_some() {
                count = count.saturating_add(1);
            }
        }
        count
    }

    /// The first blocks of the first object.
    fn blocks(&self) -> Blocks {
        let mut blocks = [None; 6];
        for (block, provider) in blocks.iter_mut().zip(self.providers.iter()) {
            *block = block_of(provider);
        }
        blocks
    }

    /// Keeps the first blocks of the first object in mind, and answers whether each of six providers holds
    /// one.
    pub fn keeps_blocks(&mut self) -> bool {
        self.kept = self.blocks();
        self.kept.iter().all(Option::is_some)
    }

    /// Whether the first blocks of the first object are those that were kept in mind.
    pub fn has_kept_blocks(&self) -> bool {
        self.blocks() == self.kept
    }

    /// Whether the first provider loses its first block of the first object.
    pub fn loses_first(&mut self) -> bool {
        match self.providers.first_mut() {
            Some(provider) => provider.inner.lose(1, 0),
            None => false,
        }
    }

    /// How often the provider at a place was asked.
    pub fn asks_of(&self, place: usize) -> u32 {
        match self.providers.get(place) {
            Some(provider) => provider.asks,
            None => 0,
        }
    }

    /// How often the providers were asked.
    pub fn asks(&self) -> u32 {
        let mut sum = 0u32;
        for provider in self.providers.iter() {
            sum = sum.saturating_add(provider.asks);
        }
        sum
    }

    /// How often the providers were called otherwise.
    pub fn other_calls(&self) -> u32 {
        let mut sum = 0u32;
        for provider in self.providers.iter() {
            sum = sum.saturating_add(provider.stores);
            sum = sum.saturating_add(provider.fetches);
            sum = sum.saturating_add(provider.removals);
        }
        sum
    }

    /// Begins a job.
    pub fn begin(&mut self, job: Job) -> Result<u32, BeginFault> {
        let Some(vault) = &mut self.vault else {
            return Err(BeginFault::MustReopen);
        };
        match job {
            Job::Put(name, bytes) => begin_put(self.alloc, vault, name, bytes, None),
            Job::PutIn(name, bytes, own) => begin_put(self.alloc, vault, name, bytes, Some(own)),
            other => begin_other(vault, other),
        }
    }

    /// Holds the vault.
    pub fn hold(&mut self) -> Result<u32, BeginFault> {
        match &mut self.vault {
            Some(vault) => hold_of(vault),
            None => Err(BeginFault::MustReopen),
        }
    }

    /// Releases the vault, and answers whether one is open.
    pub fn release(&mut self) -> bool {
        match &mut self.vault {
            Some(vault) => {
                vault.release();
                true
            }
            None => false,
        }
    }

    /// How many steps a scrub of all files may come to.
    pub fn scrub_left(&self) -> Option<u64> {
        Some(self.vault.as_ref()?.scrub(self.alloc).ok()?.left())
    }

    /// The length of the journal's text, where the vault is open.
    pub fn text_length(&self) -> Option<u64> {
        Some(self.vault.as_ref()?.text_length())
    }

    /// Begins a pack, and makes at most so many steps of it.
    pub fn pack(&mut self, steps: u32) -> SeenPack {
        match &mut self.vault {
            Some(vault) => pack_by(vault, &mut self.disk, steps),
            None => SeenPack::Refused(BeginFault::MustReopen),
        }
    }

    /// What two packs come to over a disk of the same bytes that fails at a call.
    pub fn packs_over(&self, call: u64) -> Option<(SeenPack, SeenPack)> {
        packs_over(self.alloc, self.disk.bytes(), call)
    }

    /// What a hold is answered after the first of the disk's calls whose fault ends a put at its first step.
    pub fn hold_after_fault(&self) -> Option<Result<u32, BeginFault>> {
        for call in 0..32u64 {
            if let Some(answer) = hold_after(self.alloc, self.disk.bytes(), call) {
                return Some(answer);
            }
        }
        None
    }

    /// Makes a step of a job.
    pub fn step(&mut self, job: u32) -> Seen {
        match &mut self.vault {
            Some(vault) => step_of(vault, job, &mut self.disk, &mut self.providers),
            None => Seen::Closed,
        }
    }

    /// Makes so many steps of a job, and tells what the last one came to.
    pub fn steps(&mut self, job: u32, count: u32) -> Seen {
        let mut last = Seen::More;
        for _ in 0..count {
            last = self.step(job);
        }
        last
    }

    /// Steps a job until a step is not followed by more, and tells how many steps it made and what the last
    /// one came to.
    pub fn run(&mut self, job: u32) -> (u32, Seen) {
        for made in 0..1000u32 {
            match self.step(job) {
                Seen::More => {}
                Seen::Wants(stripe) => return (made, Seen::Wants(stripe)),
                last => return (made + 1, last),
            }
        }
        (1000, Seen::More)
    }

    /// Begins to stream a file.
    pub fn begin_stream(&mut self, name: &[u8]) -> Result<u32, BeginFault> {
        match &mut self.vault {
            Some(vault) => begin_stream(vault, name),
            None => Err(BeginFault::MustReopen),
        }
    }

    /// Whether a stream may be given so many bytes.
    pub fn may_give(&self, job: u32, count: usize, last: bool) -> bool {
        match &self.vault {
            Some(vault) => vault.may_give(job, count, last),
            None => false,
        }
    }

    /// Gives a stream a piece, and answers whether it may be given.
    pub fn give(&mut self, job: u32, piece: &[u8], last: bool) -> bool {
        match &mut self.vault {
            Some(vault) => give(vault, job, piece, last),
            None => false,
        }
    }

    /// Gives a stream up, and answers whether it waits for a stripe.
    pub fn abandon(&mut self, job: u32) -> bool {
        match &mut self.vault {
            Some(vault) => abandon(vault, job),
            None => false,
        }
    }

    /// How many bytes of a file a stripe has, where the vault is open.
    pub fn stripe_size(&self) -> Option<usize> {
        Some(self.vault.as_ref()?.stripe_size(None))
    }

    /// Whether both hold the same blocks of the first four stripes of the first object.
    pub fn holds_as(&self, other: &Store) -> bool {
        for stripe in 0..4u32 {
            for (mine, its) in self.providers.iter().zip(other.providers.iter()) {
                if mine.inner.held(1, stripe) != its.inner.held(1, stripe) {
                    return false;
                }
            }
        }
        true
    }
}
