// The providers of a home, of which some are on other machines.
ghost use Rattle.std.specs.Prelude.{◌≡◌, length, true, IfOk};
ghost use Rattle.hail_adapters.specs.FolderCounts.{fresh_counts};
ghost use Rattle.provider_choice.specs.Choices.{is_second};

use crate::home_provider::{HomeProvider, Remote};
use crate::remotes::{RemoteLink, Remotes};
use hail_adapters::FolderProvider;
use provider_choice::Choice;
use provider_model::Provider;
use provider_wire::LinkProvider;
use std::alloc::{AllocError, Global};
use stream_model::Memory;

/// The provider at a far end. Opens nothing; want of memory is its one refusal.
fn remote(remotes: &Remotes, number: usize) -> Result<HomeProvider, Memory>
    ensures kind { IfOk result (λ provider. is_second provider ≡ true) }
    ensures fresh { IfOk result (λ provider. ⟦<HomeProvider as Provider>⟧.calls provider ≡ 0) }
{
    let link = RemoteLink::new(remotes, number)?;
    let inner = LinkProvider::new(link)?;
    Ok(Choice::Second(Remote { inner }))
}

/// A remote provider, if it is one, and else this folder.
fn of_kind(
    remotes: &Remotes,
    number: usize,
    remotely: bool,
    folder: FolderProvider<HostRuntime>,
) -> Result<HomeProvider, Memory>
    ensures kind { IfOk result (λ provider. is_second provider ≡ remotely) }
    ensures fresh { folder ≡ fresh_counts → IfOk result (λ provider. ⟦<HomeProvider as Provider>⟧.calls provider ≡ 0) }
{
    if remotely {
        remote(remotes, number)
    } else {
        Ok(Choice::First(folder))
    }
}

/// The providers of a home, in the order of their numbers: for each of these folders that, or, where
/// something stands at `remote-J` in the home, a remote one. It is reached where that is a folder, no link,
/// with two links `requests` and `answers` to the descriptors of pipes; else each call of it fails. Opens
/// nothing; want of memory is its one refusal.
pub fn home_providers(
    alloc: Global,
    remotes: &Remotes,
    folders: Vec<FolderProvider<HostRuntime>>,
) -> Result<Vec<HomeProvider>, Memory>
    ensures as_many { IfOk result (λ providers. length providers.items ≡ length folders.items) }
{
    let mut providers = Vec::new(alloc);
    for (number, folder) in folders.into_iter().enumerate() {
        let provider = of_kind(remotes, number, remotes.is_remote(number), folder)?;
        providers.push(provider).map_err(AllocError::from)?;
    }
    Ok(providers)
}
