//! What a scrub does behind what it has done.
ghost use Rattle.std.specs.Prelude.{◌≡◌, ◌==◌, ◌<◌, ◌≤◌, ◌+◌, ◌++◌, ◌∷◌, ℕ, All, false, [], IfSome, IfNone, List, drop, length, slice_index};
ghost use Rattle.record_defs.specs.Records.{most_files};
ghost use Rattle.machine_defs.specs.Actions.{Work};
ghost use Rattle.hail_scrub.specs.declared.cursor.Item.{Item as ItemValue};
ghost use Rattle.hail_scrub.specs.declared.cursor.Spot.{Spot as SpotValue};
ghost use Rattle.hail_scrub.specs.Todo.{stores_from, fetches_from, items_on, past_stripe, todo_at};
ghost use Rattle.hail_scrub.specs.Progress.{CanRun, IsSpot, CursorIsAt, StoresOnlyAt, IsAmid, IsAtFirst, IsCursor, fetched_at};

use crate::cursor::{Cursor, Item, Spot};

/// The first provider from one on, below so many, whose block is off.
fn off_from(off: &[u64; 16], from: u32, providers: u32) -> Option<u32>
    requires { providers ≤ 16 }
    ensures below { IfSome result (λ j. j < providers) }
    ensures is_off { IfSome result (λ j. (slice_index off.now j == 0) ≡ false) }
    ensures first { (o t : ℕ) → IfSome result (λ j. stores_from providers from off.now o t
        ≡ stores_from providers j off.now o t) }
    ensures none { (o t : ℕ) → IfNone result (stores_from providers from off.now o t ≡ []) }
{
    for j in from..providers {
        let differing = off[j as usize];
        if differing != 0 {
            return Some(j);
        }
    }
    None
}

/// The cursor at the file of a place, or behind all files.
pub fn file_at(items: &[Item], providers: u32, place: usize) -> Cursor
    requires { All (CanRun providers) items.now }
    ensures at { (off : List ℕ) → CursorIsAt providers items.now off result
        (items_on providers (drop place items.now)) }
    ensures behind { (spot : SpotValue) → StoresOnlyAt spot result }
    ensures first { IsAtFirst result }
{
    match items.get(place) {
        Some(item) => Cursor::Fetching {
            spot: Spot {
                item: *item,
                place,
                stripe: 0,
            },
            provider: 0,
        },
        None => Cursor::Ending,
    }
}

/// The cursor behind a stripe.
fn stripe_after(items: &[Item], providers: u32, spot: Spot) -> Cursor
    requires few { length items.now ≤ most_files }
    requires items { All (CanRun providers) items.now }
    requires spot { IsSpot items.now spot }
    ensures at { (off : List ℕ) → CursorIsAt providers items.now off result (past_stripe providers items.now spot) }
    ensures behind { (other : SpotValue) → StoresOnlyAt other result }
{
    if spot.stripe + 1 < spot.item.stripes {
        return Cursor::Fetching {
            spot: Spot {
                stripe: spot.stripe + 1,
                ..spot
            },
            provider: 0,
        };
    }
    file_at(items, providers, spot.place + 1)
}

/// The cursor at the stores of a stripe from a provider on, or behind them.
pub fn stores_after(
    items: &[Item],
    providers: u32,
    off: &[u64; 16],
    spot: Spot,
    from: u32,
) -> Cursor
    requires few { providers ≤ 16 }
    requires few_items { length items.now ≤ most_files }
    requires items { All (CanRun providers) items.now }
    requires spot { IsSpot items.now spot }
    ensures at { CursorIsAt providers items.now off.now result
        (stores_from providers from off.now spot.item.file.id spot.stripe ++ past_stripe providers items.now spot) }
    ensures behind { StoresOnlyAt spot result }
{
    match off_from(off, from, providers) {
        Some(provider) => Cursor::Storing { spot, provider },
        None => stripe_after(items, providers, spot),
    }
}

/// The cursor behind a fetch.
pub fn fetch_after(providers: u32, spot: Spot, provider: u32) -> Cursor
    requires within { provider < providers }
    ensures todo { (items : List ItemValue) (off : List ℕ) → todo_at providers items off result
        ≡ fetches_from providers (provider + 1) spot.item.file.id spot.stripe
        ++ (Work spot.item.file.id spot.stripe ∷ past_stripe providers items spot) }
    ensures placed { (items : List ItemValue) (off : List ℕ) → IsSpot items spot
        → IsCursor providers items off result }
    ensures count { fetched_at providers result ≡ provider + 1 }
    ensures amid { IsAmid spot result }
{
    if provider + 1 < providers {
        Cursor::Fetching {
            spot,
            provider: provider + 1,
        }
    } else {
        Cursor::Opening { spot }
    }
}
