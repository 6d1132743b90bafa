// The devices of a home, which is a folder that its user has made.
ghost use Rattle.std.specs.Prelude.{◌≡◌, ◌↔◌, ◌⊎◌, replicate, true, IfOk, IsTrue};
ghost use Rattle.hail_adapters.specs.DiskCounts.{not_called};
ghost use Rattle.hail_adapters.specs.FolderCounts.{fresh_counts};

use crate::block_name::put_folder;
use crate::file_disk::FileDisk;
use crate::folder_provider::FolderProvider;
use file_parts::found::is_taken;
use file_parts::unsynced::Unsynced;
use hail_field::Memory;
use std::alloc::{AllocError, Global};
use std::fs::{self, Files};

/// The disk of a home: its file `journal`. Opens nothing; want of memory is its one refusal.
pub fn journal_disk<R: Files + Clone + Drop>(
    rt: &R,
    alloc: Global,
    home: &str,
) -> Result<FileDisk<R>, Memory>
    ensures { IfOk result (λ disk. disk ≡ not_called) }
{
    let path = format!(in alloc; "{home}/journal")?;
    FileDisk::new(rt, alloc, &path)
}

/// What a home says of a provider.
#[derive(Clone, Copy)]
enum Kind {
    /// Each block is a file.
    Plain,
    /// Each object is a file.
    Stacked,
    /// It is said to be a stack, and to be on another machine.
    Both,
}

/// Whether something of this name stands in a home for a provider.
fn is_said<R: Files>(rt: &R, alloc: Global, home: &str, name: &str, k: u8) -> Result<bool, Memory> {
    let path = format!(in alloc; "{home}/{name}-{k}")?;
    Ok(is_taken(fs::symlink_metadata(rt, &path)))
}

/// Whether a provider of a home is on another machine, for all that its folder says.
pub fn is_remote<R: Files>(rt: &R, alloc: Global, home: &str, k: u8) -> Result<bool, Memory> {
    is_said(rt, alloc, home, "remote", k)
}

/// Of which kind a provider's folder is: a stack where something stands at `stack-J` in the home.
fn kind_of<R: Files>(rt: &R, alloc: Global, home: &str, k: u8) -> Result<Kind, Memory> {
    if !is_said(rt, alloc, home, "stack", k)? {
        return Ok(Kind::Plain);
    }
    if is_remote(rt, alloc, home, k)? {
        return Ok(Kind::Both);
    }
    Ok(Kind::Stacked)
}

/// The provider of a home at a place. One that is said to be a stack and on another machine is refused.
fn folder_provider<R: Files + Clone + Drop>(
    rt: &R,
    alloc: Global,
    home: &str,
    k: u8,
    unsynced: &Unsynced<R::File>,
) -> Result<FolderProvider<R>, Memory>
    ensures { IfOk result (λ provider. provider ≡ fresh_counts) }
{
    let mut path = String::new(alloc);
    put_folder(&mut path, home, k)?;
    let mark = unsynced.mark(k)?;
    match kind_of(rt, alloc, home, k)? {
        Kind::Plain => FolderProvider::marking(rt, alloc, &path, mark),
        Kind::Stacked => FolderProvider::stacked_marking(rt, alloc, &path, mark),
        Kind::Both => Ok(FolderProvider::refused(alloc)),
    }
}

/// The sixteen providers of a home: its folders `provider-0` to `provider-15`, of which those are stacks for
/// which something stands at `stack-J`. A store marks its provider's folder. Opens nothing; want of memory is
/// its one refusal.
pub fn folder_providers<R: Files + Clone + Drop>(
    rt: &R,
    alloc: Global,
    home: &str,
    unsynced: &Unsynced<R::File>,
) -> Result<Vec<FolderProvider<R>>, Memory>
    ensures { IfOk result (λ providers. providers.items ≡ replicate 16 fresh_counts) }
{
    let mut providers = Vec::new(alloc);
    for k in 0..16u8 {
        let provider = folder_provider(rt, alloc, home, k, unsynced)?;
        providers.push(provider).map_err(AllocError::from)?;
    }
    Ok(providers)
}
