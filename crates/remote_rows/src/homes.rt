// Rows of a home with two providers, of which one is remote.
use hail_adapters::{FolderProvider, Unsynced, folder_providers};
use hail_field::Symbol;
use provider_model::{Provider, StoreFault, Tamper};
use remote_adapters::{HomeProvider, Remotes, home_providers};
use std::alloc::{Alloc, Global};
use std::fs::{self, Files};
use std::os::unix::fs::symlink;
use std::process::Abort;
use stream_model::Failed;

/// Whether a store of two symbols, as stripe 2 of object 5, answers so.
fn stores<P: Provider>(provider: &mut P, wanted: Result<(), StoreFault>) -> bool {
    provider.store(5, 2, &[Symbol(7), Symbol(6)]) == wanted
}

/// Whether a fetch of it answers so.
fn fetches<P: Provider>(provider: &mut P, wanted: Result<bool, Failed>) -> bool {
    let mut out = [Symbol(0); 2];
    provider.fetch(5, 2, &mut out) == wanted
}

/// Whether a fetch of it gives these symbols.
fn gives<P: Provider>(provider: &mut P, wanted: [Symbol; 2]) -> bool {
    let mut out = [Symbol(0); 2];
    provider.fetch(5, 2, &mut out) == Ok(true) && out == wanted
}

/// Whether the second symbol of it is altered.
fn alters<P: Tamper>(provider: &mut P) -> bool {
    provider.alter(5, 2, 1, Symbol(8))
}

fn loses<P: Tamper>(provider: &mut P) -> bool {
    provider.lose(5, 2)
}

/// Whether a provider keeps a block and loses it, as a folder does.
fn is_plain<P: Tamper>(provider: &mut P) -> bool {
    stores(provider, Ok(()))
        && gives(provider, [Symbol(7), Symbol(6)])
        && alters(provider)
        && gives(provider, [Symbol(7), Symbol(8)])
        && loses(provider)
        && fetches(provider, Ok(false))
}

/// Whether each call of a provider fails, and there is nothing to alter or to lose.
fn is_away<P: Tamper>(provider: &mut P) -> bool {
    stores(provider, Err(StoreFault::Failed))
        && fetches(provider, Err(Failed))
        && !alters(provider)
        && !loses(provider)
        && provider.remove(5) == Err(Failed)
}

/// The providers of the home at a path.
fn providers(rt: &HostRuntime, alloc: Global, home: &str) -> Option<Vec<HomeProvider>> {
    let unsynced = Unsynced::new(alloc).ok()?;
    let folders: Vec<FolderProvider<HostRuntime>> = folder_providers(
        rt, alloc, home, &unsynced,
    ).ok()?;
    let remotes = Remotes::new(rt, alloc, home).ok()?;
    home_providers(alloc, &remotes, folders).ok()
}

/// A folder, a file and a link at `remote-J` each make provider J a remote one, that is away here; nothing is
/// written into its own folder then. One that is said to be a stack too is refused; one that is a stack alone is
/// a folder.
fn takes_remotes(rt: &HostRuntime, alloc: Global) -> Option<bool> {
    fs::create_dir(rt, "home").ok()?;
    fs::create_dir(rt, "home/remote-1").ok()?;
    fs::write(rt, "home/remote-2", b"kept").ok()?;
    symlink(rt, "nowhere", "home/remote-15").ok()?;
    fs::write(rt, "home/stack-2", b"").ok()?;
    fs::write(rt, "home/stack-3", b"").ok()?;
    let mut all = providers(rt, alloc, "home")?;
    let mut right = all.len() == 16;
    for (place, provider) in all.iter_mut().enumerate() {
        right = right
            && match place {
                1 | 2 | 15 => is_away(provider),
                _ => is_plain(provider),
            };
    }
    let none = !fs::exists(rt, "home/provider-1").ok()?
        && !fs::exists(rt, "home/provider-2").ok()?
        && !fs::exists(rt, "home/provider-15").ok()?;
    let kept = fs::read(rt, "home/remote-2").ok()?;
    let stacked = fs::exists(rt, "home/provider-3/5").ok()?;
    fs::remove_dir_all(rt, "home").ok()?;
    Some(right && stacked && none && kept.as_slice() == b"kept".as_slice())
}

#[test]
fn a_home_has_remote_providers(rt: HostRuntime) {
    assert_eq!(rt; takes_remotes(&rt, rt.alloc()), Some(true));
}
