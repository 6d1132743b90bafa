//! The files of the rows, and scrubs of them.
ghost use Rattle.std.specs.Prelude.{◌≡◌, ◌≤◌, ◌+◌, ◌∷◌, ℕ, [], Some, length, slice_get};
ghost use Rattle.file_layout.specs.declared.file.FileShape.{FileShape as FileValue};

use code_points::find_profile;
use file_layout::FileShape;
use hail_field::Shape;
use hail_scrub::{Scrub, ScrubAnswer, ScrubTurn};
use key_schedule::Master;
use provider_model::Provider;
use std::alloc::Global;
use std::process::Abort;

/// The bytes of the master key are 0 to 31.
pub const KEY: Master = Master([
    0, 1, 2, 3, 4, 5, 6, 7, 8, 9, 10, 11, 12, 13, 14, 15, 16, 17, 18, 19, 20, 21, 22, 23, 24, 25,
    26, 27, 28, 29, 30, 31,
]);

/// Which files are scrubbed.
#[derive(Clone, Copy)]
pub enum Files {
    Nothing,
    Notes,
    All,
}

/// A file over six providers, of which three are primary and one may be bad.
fn file(rt: &impl Abort, id: u64, length: u16, profile: u8) -> FileShape
    ensures id { result.id ≡ id }
    ensures six { result.shape.n ≡ 6 }
{
    FileShape {
        id,
        length: u32::from(length),
        shape: Shape::new(6, 3, 1).expect(rt, "a shape"),
        profile: find_profile(profile).expect(rt, "a profile"),
    }
}

/// 100 bytes at the first profile: one stripe, of blocks of 16 symbols.
pub fn notes(rt: &impl Abort) -> FileShape
    ensures id { result.id ≡ 1 }
    ensures six { result.shape.n ≡ 6 }
{
    file(rt, 1, 100, 1)
}

/// 200 bytes at profile 0: three stripes, of blocks of 6 symbols, of which 2 are kept.
pub fn small(rt: &impl Abort) -> FileShape
    ensures id { result.id ≡ 2 }
    ensures six { result.shape.n ≡ 6 }
{
    file(rt, 2, 200, 0)
}

/// 300 bytes at profile 2: one stripe, of blocks of 32 symbols.
pub fn wide(rt: &impl Abort) -> FileShape
    ensures id { result.id ≡ 3 }
    ensures six { result.shape.n ≡ 6 }
{
    file(rt, 3, 300, 2)
}

/// No file.
fn no_file(alloc: Global) -> Vec<FileShape>
    ensures items { result.items ≡ [] }
{
    Vec::new(alloc)
}

/// One file.
fn one_file(rt: &impl Abort, alloc: Global, file: FileShape) -> Vec<FileShape>
    ensures items { result.items ≡ file ∷ [] }
{
    let mut files = Vec::new(alloc);
    files.push(file).expect(rt, "memory");
    files
}

/// Three files.
fn three_files(
    rt: &impl Abort,
    alloc: Global,
    file: FileShape,
    next: FileShape,
    last: FileShape,
) -> Vec<FileShape>
    ensures items { result.items ≡ file ∷ next ∷ last ∷ [] }
{
    let mut files = one_file(rt, alloc, file);
    files.push(next).expect(rt, "memory");
    files.push(last).expect(rt, "memory");
    files
}

/// The files, which are numbered from 1 on.
fn listed(rt: &impl Abort, alloc: Global, files: Files) -> Vec<FileShape>
    ensures few { length result.items ≤ 3 }
    ensures numbered { (k : ℕ) (f : FileValue) → slice_get result.items k ≡ Some f
        → (f.id ≡ k + 1) × (f.shape.n ≡ 6) }
{
    match files {
        Files::Nothing => no_file(alloc),
        Files::Notes => one_file(rt, alloc, notes(rt)),
        Files::All => three_files(rt, alloc, notes(rt), small(rt), wide(rt)),
    }
}

/// A scrub that has done nothing yet.
fn begun(rt: &impl Abort, alloc: Global, files: Files) -> Scrub
    ensures { result.providers ≤ 6 }
{
    Scrub::new(alloc, &KEY, listed(rt, alloc, files)).expect(rt, "memory")
}

/// What a scrub of files ends with, where there are providers enough.
pub fn scrubbed<P: Provider>(
    rt: &impl Abort,
    alloc: Global,
    files: Files,
    providers: &mut [P],
) -> Option<ScrubAnswer> {
    if providers.len() < 6 {
        return None;
    }
    let mut scrub = begun(rt, alloc, files);
    while scrub.left() > 0 {
        if let ScrubTurn::Done(answer) = scrub.step(providers) {
            return Some(answer);
        }
    }
    None
}
