// Bytes of a disk in memory, and beside them marks that tell which are loose.
ghost use Rattle.std.specs.Prelude.{◌≡◌, ◌⊎◌, ◌+◌, ◌-◌, ◌≤◌, length, replicate, true, false, ◌++◌, OnOk, OnErr};
ghost use Rattle.std.specs.List.{zip};
ghost use Rattle.device_defs.specs.Disks.{spliced, written, halved, marked};
ghost use Rattle.device_defs.specs.Picks.{picked};
ghost use Rattle.record_defs.specs.Records.{largest_journal};
ghost use Rattle.disk_model.specs.Ranges.{IsUnmarkedOutside};

use crate::range::LooseRange;
use std::alloc::AllocError;

/// Makes room up to a length, with the value in each new place.
fn grow<T: Copy>(items: &mut Vec<T>, len: usize, value: T) -> Result<(), AllocError>
    ensures ok { OnOk result (items.new.items ≡ items.old.items ++ replicate (len - length items.old.items)
        value) }
    ensures err { OnErr result (items.new.items ≡ items.old.items) }
{
    if items.len() < len {
        items.resize(len, value)?;
    }
    Ok(())
}

/// Writes over what is there.
fn copy_into(held: &mut [u8], at: usize, bytes: &[u8])
    requires { at + length bytes.now ≤ length held.old }
    ensures { held.new ≡ spliced at bytes.now held.old }
{
    let end = at + bytes.len();
    held[at..end].copy_from_slice(bytes);
}

/// Marks places as loose, or takes their marks away.
fn mark(marks: &mut [bool], at: usize, len: usize, is_loose: bool)
    requires { at + len ≤ length marks.old }
    ensures { marks.new ≡ spliced at (replicate len is_loose) marks.old }
{
    let end = at + len;
    marks[at..end].fill(is_loose);
}

/// Takes all marks away, where each stands in the range.
pub fn unmark(marks: &mut [bool], loose: LooseRange)
    requires { IsUnmarkedOutside loose.from loose.to marks.old }
    ensures { marks.new ≡ replicate (length marks.old) false }
{
    let end = loose.to.min(marks.len());
    let start = loose.from.min(end);
    mark(marks, start, end - start, false);
}

/// Writes bytes and marks, or neither.
pub fn put(
    held: &mut Vec<u8>,
    marks: &mut Vec<bool>,
    at: usize,
    bytes: &[u8],
) -> Result<(), AllocError>
    requires room { at + length bytes.now ≤ largest_journal }
    requires same_len { length marks.old.items ≡ length held.old.items }
    ensures same_len { length marks.new.items ≡ length held.new.items }
    ensures ok { OnOk result (zip held.new.items marks.new.items ≡ written at bytes.now
        (zip held.old.items marks.old.items)) }
    ensures err_held { OnErr result (held.new.items ≡ held.old.items) }
    ensures err_marks { OnErr result (marks.new.items ≡ marks.old.items) }
{
    let len = marks.len();
    let end = at + bytes.len();
    grow(marks, end, true)?;
    match grow(held, end, 0) {
        Ok(()) => {
            copy_into(held, at, bytes);
            mark(marks, at, bytes.len(), true);
            Ok(())
        }
        Err(error) => {
            marks.truncate(len);
            Err(error)
        }
    }
}

/// Writes the first half, if there is room, and none otherwise. All of the range up to the new end is loose.
pub fn tear(held: &mut Vec<u8>, marks: &mut Vec<bool>, at: usize, bytes: &[u8])
    requires room { at + length bytes.now ≤ largest_journal }
    requires same_len { length marks.old.items ≡ length held.old.items }
    ensures same_len { length marks.new.items ≡ length held.new.items }
    ensures torn { (zip held.new.items marks.new.items
        ≡ halved at bytes.now (zip held.old.items marks.old.items))
        ⊎ (zip held.new.items marks.new.items
        ≡ marked at (length bytes.now) (zip held.old.items marks.old.items)) }
{
    let len = held.len();
    let from = at.min(len);
    let to = (at + bytes.len()).min(len);
    mark(marks, from, to - from, true);
    let _ = put(held, marks, at, &bytes[..bytes.len() / 2]);
}

/// Puts the picks in the places that are marked, in order, and takes all marks away.
pub fn pick(held: &mut [u8], marks: &mut [bool], picks: &[u8])
    requires { length marks.old ≡ length held.old }
    ensures held { held.new ≡ picked (zip held.old marks.old) picks.now }
    ensures marks { marks.new ≡ replicate (length marks.old) false }
{
    let mut next = 0;
    for i in 0..held.len() {
        if marks[i] && next < picks.len() {
            held[i] = picks[next];
            next += 1;
        }
    }
    marks.fill(false);
}
