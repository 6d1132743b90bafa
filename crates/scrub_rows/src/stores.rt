//! Providers in memory that hold all files, and what is done to them.
use crate::files::{KEY, notes, small, wide};
use column_codec::Bench;
use file_layout::FileShape;
use hail_field::Symbol;
use provider_model::{MemProvider, Provider, Tamper};
use std::alloc::Global;
use std::process::Abort;
use stripe_bench::store_stripe;

/// Something that is done to a provider.
#[derive(Clone, Copy)]
pub enum Deed {
    /// The provider of this place loses its block of this stripe of an object.
    Loses(usize, u64, u32),
    /// So many symbols of it, from the first on, become others.
    Alters(usize, u64, u32, u32),
}

/// The stripes of all files: their objects and numbers.
const STRIPES: &[(u64, u32)] = &[(1, 0), (2, 0), (2, 1), (2, 2), (3, 0)];

/// Stores a block of the stripe at hand.
fn store_on<P: Provider>(bench: &mut Bench, to: &mut P, place: u32, object: u64, stripe: u32) {
    if place < u32::from(bench.keys.file.shape.n) {
        let _ = store_stripe(bench, to, place, object, stripe);
    }
}

/// Stores the blocks of a stripe of these bytes.
fn store_on_all<P: Provider>(
    bench: &mut Bench,
    providers: &mut [P],
    bytes: &[u8],
    object: u64,
    stripe: u32,
) {
    bench.take_stripe(bytes, stripe);
    for place in 0..6 {
        if let Some(provider) = providers.get_mut(place as usize) {
            store_on(bench, provider, place, object, stripe);
        }
    }
}

/// Stores all blocks of a file of these bytes.
fn store_file<P: Provider>(
    rt: &impl Abort,
    alloc: Global,
    providers: &mut [P],
    file: &FileShape,
    bytes: &[u8],
) {
    let mut bench = Bench::made(alloc, &KEY, file).expect(rt, "memory");
    for stripe in 0..file.stripes() {
        store_on_all(&mut bench, providers, bytes, file.id, stripe);
    }
}

/// Six providers that hold the blocks of all files. Of the last the listed calls fail: the first five are
/// those of its stores here.
pub fn stored(rt: &impl Abort, alloc: Global, fails: &[u64]) -> Vec<MemProvider> {
    let mut providers = Vec::new(alloc);
    for place in 0..6 {
        let listed = if place == 5 { fails } else { &[] };
        let provider = MemProvider::new(alloc, listed).expect(rt, "memory");
        providers.push(provider).expect(rt, "memory");
    }
    store_file(rt, alloc, &mut providers, &notes(rt), &[7; 100]);
    store_file(rt, alloc, &mut providers, &small(rt), &[7; 200]);
    store_file(rt, alloc, &mut providers, &wide(rt), &[7; 300]);
    providers
}

/// So many symbols of a block of a provider become others.
fn alter<P: Tamper>(provider: &mut P, object: u64, stripe: u32, count: u32) {
    for k in 0..count {
        provider.alter(object, stripe, k, Symbol(u128::from(k)));
    }
}

/// Does something to a provider.
pub fn damage<P: Tamper>(providers: &mut [P], deed: Deed) {
    match deed {
        Deed::Loses(place, object, stripe) => {
            if let Some(provider) = providers.get_mut(place) {
                provider.lose(object, stripe);
            }
        }
        Deed::Alters(place, object, stripe, count) => {
            if let Some(provider) = providers.get_mut(place) {
                alter(provider, object, stripe, count);
            }
        }
    }
}

/// Whether two providers hold the same block, or none.
fn hold_one(a: &MemProvider, b: &MemProvider, object: u64, stripe: u32) -> bool {
    match (a.held(object, stripe), b.held(object, stripe)) {
        (Some(held), Some(other)) => held == other,
        (None, None) => true,
        _ => false,
    }
}

/// Whether two providers hold the same.
fn hold_alike(a: &MemProvider, b: &MemProvider) -> bool {
    for (object, stripe) in STRIPES {
        if !hold_one(a, b, *object, *stripe) {
            return false;
        }
    }
    true
}

/// Whether each provider holds what the other at its place does.
pub fn are_alike(providers: &[MemProvider], others: &[MemProvider]) -> bool {
    for place in 0..providers.len() {
        match others.get(place) {
            Some(other) if hold_alike(&providers[place], other) => {}
            _ => return false,
        }
    }
    true
}
