//! How a scrub begins. All memory that it takes itself is taken here.
ghost use Rattle.std.specs.Prelude.{◌≡◌, ◌<◌, ◌≤◌, ◌+◌, ◌*◌, ◌++◌, ◌∷◌, ◌^◌, ℕ, [], All, List, Some, IfOk, OnOk, length, map, slice_get, sum_by};
ghost use Rattle.machine_defs.specs.States.{Scrub as MachineScrub};
ghost use Rattle.record_defs.specs.Records.{Setup, most_files};
ghost use Rattle.stripe_bench.specs.Bench.{bench_kind};
ghost use Rattle.file_layout.specs.declared.file.FileShape.{FileShape as FileValue};
ghost use Rattle.hail_scrub.specs.declared.cursor.Item.{Item as ItemValue};
ghost use Rattle.hail_scrub.specs.Views.{scrub_left};
ghost use Rattle.hail_scrub.specs.Begun.{file_providers, AreItems};
ghost use Rattle.hail_scrub.specs.Begins.{HaveOneCount, AreApart, IsNewScrub};
ghost use Rattle.hail_scrub.specs.Stands.{ScrubIs};

use crate::cursor::Item;
use crate::moves::file_at;
use crate::progress::{Found, Progress};
use crate::scrub::Scrub;
use column_codec::{Bench, Codec};
use file_layout::FileShape;
use hail_field::Memory;
use key_schedule::Master;
use std::alloc::Global;
use stripe_bench::{Blocks, bench_place};

/// The most symbols of a block.
const LARGEST_BLOCK: usize = 128;

/// How many providers the files have; 0 where there is none.
fn providers_of(files: &[FileShape]) -> u32
    ensures count { result ≡ file_providers files.now }
    ensures few { result ≤ 16 }
{
    match files.first() {
        Some(file) => u32::from(file.shape.n),
        None => 0,
    }
}

/// Takes a file in, if it has a stripe.
fn take_in(
    alloc: Global,
    master: &Master,
    file: &FileShape,
    items: &mut Vec<Item>,
    benches: &mut Vec<Bench>,
) -> Result<(), Memory>
    ensures items { (k : ℕ) (before all : List FileValue) → slice_get all k ≡ Some file.now
        → AreItems file.now.shape.n master.now.0 (map bench_kind benches.old.items) before all items.old.items
        → OnOk result (AreItems file.now.shape.n master.now.0 (map bench_kind benches.new.items)
        (before ++ file.now ∷ []) all items.new.items) }
    ensures few { length items.new.items ≤ length items.old.items + 1 }
{
    let stripes = file.stripes();
    if stripes == 0 {
        return Ok(());
    }
    let bench = bench_place(alloc, benches, master, file)?;
    let item = Item {
        file: *file,
        stripes,
        bench,
    };
    match items.push(item) {
        Ok(()) => Ok(()),
        Err(_) => Err(Memory),
    }
}

/// The files that have a stripe, in order, and their benches.
fn take_all(
    alloc: Global,
    master: &Master,
    files: &[FileShape],
) -> Result<(Vec<Item>, Vec<Bench>), Memory>
    requires { (k : ℕ) (f : FileValue) → slice_get files.now k ≡ Some f → f.shape.n ≡ file_providers files.now }
    ensures items { IfOk result (λ made. AreItems (file_providers files.now) master.now.0
        (map bench_kind made.1.items) files.now files.now made.0.items) }
    ensures few { IfOk result (λ made. length made.0.items ≤ length files.now) }
{
    let mut items = Vec::new(alloc);
    let mut benches = Vec::new(alloc);
    for file in files {
        take_in(alloc, master, file, &mut items, &mut benches)?;
    }
    Ok((items, benches))
}

/// How many steps a scrub of these files may come to.
fn count_left(items: &[Item], providers: u32) -> u64
    requires few { length items.now ≤ most_files }
    requires providers { providers ≤ 16 }
    requires stripes { All (λ (item : ItemValue). item.stripes ≤ item.file.length) items.now }
    ensures left { result ≡ 1 + sum_by (λ (item : ItemValue). item.stripes * (2 * providers + 1)) items.now }
    ensures most { result ≤ 2 ^ 40 }
{
    let steps = 2 * u64::from(providers) + 1;
    let mut left = 1;
    for item in items {
        left += u64::from(item.stripes) * steps;
    }
    left
}

impl Scrub {
    /// A scrub of these files, in their order. Conditions: there are at most 1,024, all of one number of
    /// providers, and no two with one object number.
    pub fn new(alloc: Global, master: &Master, files: Vec<FileShape>) -> Result<Scrub, Memory>
        requires few { length files.items ≤ most_files }
        requires one_count { HaveOneCount files.items }
        requires apart { AreApart files.items }
        ensures begun { (s : Setup) (m : MachineScrub) → IsNewScrub s master.now.0 files.items m
            → IfOk result (λ scrub. ScrubIs scrub s m) }
        ensures providers { IfOk result (λ scrub. scrub.providers ≡ file_providers files.items) }
        ensures going { IfOk result (λ scrub. 0 < scrub_left scrub) }
    {
        let providers = providers_of(&files);
        let (items, benches) = take_all(alloc, master, &files)?;
        let left = count_left(&items, providers);
        let codec = Codec::new(alloc)?;
        let blocks = Blocks::with_room(alloc, providers as usize, LARGEST_BLOCK)?;
        let cursor = file_at(&items, providers, 0);
        Ok(Scrub {
            progress: Progress {
                master: *master,
                providers,
                items,
                benches,
                codec,
                blocks,
                cursor,
                off: [0; 16],
                found: Found {
                    stripes: 0,
                    symbols: [0; 16],
                    blocks: [0; 16],
                },
                left,
            },
        })
    }
}
