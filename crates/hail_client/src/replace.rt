ghost use Rattle.std.specs.Prelude.{ℕ, Option, IsSome, map};
ghost use Rattle.device_defs.specs.Cells.{Cells};
ghost use Rattle.device_defs.specs.ProviderCalls.{Replaces};
ghost use Rattle.device_defs.specs.Providers.{HasPlace, with_symbol, without_block};
ghost use Rattle.machine_defs.specs.Events.{Alter, Lose};
ghost use Rattle.machine_defs.specs.States.{State};
ghost use Rattle.vault_open.specs.Devices.{devices};
ghost use Rattle.provider_model.specs.Seen.{provider_seen};
ghost use Rattle.hail_client.specs.Outcomes.{replace_outcome};
ghost use Rattle.hail_client.specs.Stands.{ClientStands, MakesEvent};

use crate::client::Client;
use hail_field::Symbol;
use hail_field::laws::symbol_is_number;
use provider_model::Tamper;

/// Replaces one symbol of a block.
fn alter_of<P: Tamper>(held: &mut P, object: u64, stripe: u32, place: u32, symbol: Symbol) -> bool
    ensures { Replaces (λ blocks. HasPlace (blocks object stripe) place)
        (with_symbol object stripe place symbol) result
        (provider_seen P.Provider held.old) (provider_seen P.Provider held.new) }
{
    held.alter(object, stripe, place, symbol)
}

/// Takes away one block.
fn lose_of<P: Tamper>(held: &mut P, object: u64, stripe: u32) -> bool
    ensures { Replaces (λ blocks. IsSome (blocks object stripe)) (without_block object stripe) result
        (provider_seen P.Provider held.old) (provider_seen P.Provider held.new) }
{
    held.lose(object, stripe)
}

impl Client {
    /// Replaces one symbol of a block that a provider holds, and answers whether it was there; false where
    /// the provider is not handed in.
    pub fn alter<P: Tamper>(
        &self,
        providers: &mut [P],
        provider: u32,
        object: u64,
        stripe: u32,
        place: u32,
        symbol: Symbol,
    ) -> bool
        ensures machine { (w : State) (holds : Option Cells) (faults moment : ℕ)
            → ClientStands self.now (devices holds faults (map (provider_seen P.Provider) providers.old)) w
            → MakesEvent w moment (Alter provider object stripe place symbol) (replace_outcome result)
            self.now
            (devices holds faults (map (provider_seen P.Provider) providers.new)) }
    {
        symbol_is_number(symbol);
        let index = provider as usize;
        if index >= providers.len() {
            return false;
        }
        alter_of(&mut providers[index], object, stripe, place, symbol)
    }

    /// Takes away one block that a provider holds, and answers whether it was there; false where the provider
    /// is not handed in.
    pub fn lose<P: Tamper>(
        &self,
        providers: &mut [P],
        provider: u32,
        object: u64,
        stripe: u32,
    ) -> bool
        ensures machine { (w : State) (holds : Option Cells) (faults moment : ℕ)
            → ClientStands self.now (devices holds faults (map (provider_seen P.Provider) providers.old)) w
            → MakesEvent w moment (Lose provider object stripe) (replace_outcome result) self.now
            (devices holds faults (map (provider_seen P.Provider) providers.new)) }
    {
        let index = provider as usize;
        if index >= providers.len() {
            return false;
        }
        lose_of(&mut providers[index], object, stripe)
    }
}
