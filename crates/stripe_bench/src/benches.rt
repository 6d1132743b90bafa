//! Benches for files of several shapes and profiles, one for each of these.
ghost use Rattle.std.specs.Prelude.{◌≡◌, ◌++◌, ◌∷◌, [], ℕ, Some, true, None, IfSome, IfOk, OnOk, OnErr, map, slice_get};
ghost use Rattle.std.specs.Bool.{OnTrue};
ghost use Rattle.column_defs.specs.Objects.{Object};
ghost use Rattle.stripe_bench.specs.Bench.{bench_kind, file_kind, Serves};

use column_codec::Bench;
use file_layout::FileShape;
use hail_field::Memory;
use key_schedule::Master;
use std::alloc::Global;

/// A bench serves this file's object, once it is turned to its number.
fn fits(bench: &Bench, master: &Master, file: &FileShape) -> bool
    ensures kind { OnTrue result (bench_kind bench.now ≡ file_kind master.now.0 file.now) }
    ensures served { Serves master.now.0 file.now bench.now → result ≡ true }
{
    bench.keys.master == *master
        && bench.keys.file.shape == file.shape
        && bench.keys.file.profile == file.profile
}

/// The place of a bench that serves a file's object; none where no bench does.
fn place_of(benches: &[Bench], master: &Master, file: &FileShape) -> Option<usize>
    ensures found { IfSome result (λ place. slice_get (map bench_kind benches.now) place
        ≡ Some (file_kind master.now.0 file.now)) }
    ensures none { result ≡ None → (place : ℕ)
        → IfSome (slice_get benches.now place) (λ bench. Serves master.now.0 file.now bench → ⊥) }
{
    for place in 0..benches.len() {
        if fits(&benches[place], master, file) {
            return Some(place);
        }
    }
    None
}

/// Makes a bench that serves a file's object, and puts it behind the others.
fn add_bench(
    alloc: Global,
    benches: &mut Vec<Bench>,
    master: &Master,
    file: &FileShape,
) -> Result<(), Memory>
    ensures ok { OnOk result (map bench_kind benches.new.items
        ≡ map bench_kind benches.old.items ++ file_kind master.now.0 file.now ∷ []) }
    ensures err { OnErr result (benches.new.items ≡ benches.old.items) }
{
    benches.reserve(1)?;
    let bench = Bench::made(alloc, master, file)?;
    benches.push_reserved(bench);
    Ok(())
}

/// The place of a bench that serves a file's object, among these: where there is none, and only there, one is made.
pub fn bench_place(
    alloc: Global,
    benches: &mut Vec<Bench>,
    master: &Master,
    file: &FileShape,
) -> Result<usize, Memory>
    ensures place { IfOk result (λ place. slice_get (map bench_kind benches.new.items) place
        ≡ Some (file_kind master.now.0 file.now)) }
    ensures stays { (place : ℕ) (kind : Object) → slice_get (map bench_kind benches.old.items) place
        ≡ Some kind → slice_get (map bench_kind benches.new.items) place ≡ Some kind }
    ensures once { (place : ℕ) → IfSome (slice_get benches.old.items place)
        (λ bench. Serves master.now.0 file.now bench → benches.new.items ≡ benches.old.items) }
{
    if let Some(place) = place_of(benches, master, file) {
        return Ok(place);
    }
    let place = benches.len();
    match add_bench(alloc, benches, master, file) {
        Ok(()) => Ok(place),
        Err(memory) => Err(memory),
    }
}
